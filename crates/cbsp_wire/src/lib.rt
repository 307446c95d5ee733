//! Messages between a warning centre and a base station controller (3GPP TS 48.049, in this project's own layouts).
//!
//! `read` returns the one value that octets have, or the first of the refusals that applies; `write` returns the octets
//! of a message, with its elements in the table's order, or that no octets mean it. What is written is read as the same
//! message.
#![tactic(auto)]

pub mod cause;
pub mod cells;
pub mod fault;
mod laws;
mod lists;
pub mod message;
mod reading;
mod writing;

pub use fault::WireFault;
pub use laws::meaning_law;
pub use lists::MAX_LISTED;
pub use message::{Cell, Cells, Contents, Count, Counts, Failure, Failures, Message};
pub use reading::read;
pub use writing::{write, write_in};
