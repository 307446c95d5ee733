//! A sign of progress: one line on a screen, for work that takes longer than a second.
//!
//! The line says how many octets were read and written, how many cells are done and how long the work has taken, and is
//! drawn anew in place each second. A run reads all of its input before it works on it, and writes once all is known:
//! so a thread of its own draws, beside the work. [`CountedReader`] and [`CountedWriter`] pass octets through and count
//! them, and [`EndingWriter`] wipes the line before it writes, for an end that may lead to the same screen.
#![tactic(auto)]

mod counts;
mod ends;
mod line;
mod watch;

pub use counts::Counts;
pub use ends::{CountedReader, CountedWriter, EndingWriter};
pub use line::Line;
pub use watch::{Progress, watched};
