//! The tapes of records, by one thread or by several. Workers draw the numbers of the records, each number once, and
//! make their tapes side by side; gathered, these are the tapes that one thread makes, each in its record's place.
//!
//! And the tapes of an open desk: workers draw the numbers of its cells, play these out, and send what they aired in
//! pieces to the calling thread, which puts the tapes together. They are compared with the records once the desk is
//! settled.
#![tactic(auto)]

mod board;
pub mod check;
pub mod compile;
pub mod fault;
mod filling;
pub mod gathered;
mod place;
mod player;
pub mod stream;
mod work;

pub use check::check_streamed;
pub use compile::{MAX_WORKERS, compile_all, compile_one};
pub use fault::CompileFault;
pub use gathered::gather;
pub use stream::stream_all;
