//! Whether a cell's broadcast channel keeps what the cell was ordered over its link, and whether the cell's answers are
//! true.
//!
//! [`verdict_of`] compares the rows of an orders file with the blocks of a tape, whose pages may have one to four
//! blocks, and lists what isn't as it was ordered and answered; `specs/Verdict.antt` says which differences these are.
//! [`differences_text`] makes a table of them, and [`lags_text`] one of how late each message comes and ends.
#![tactic(auto)]

mod air;
mod counts;
mod difference;
mod judged;
mod lags;
mod laws;
mod ordered;
mod text;
mod unordered;
mod verdict;

pub use difference::{OrderDifference, OrderKind};
pub use lags::lags_text;
pub use laws::lag_laws;
pub use text::{differences_text, no_tape_text, other_slots_text};
pub use verdict::verdict_of;
