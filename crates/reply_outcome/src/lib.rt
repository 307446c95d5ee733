//! What the reply to a CBSP message says of the cells that were asked.
//!
//! [`outcome_of`] reads a reply as one to a message: which cells accepted it, and which refused and why.
//! [`version_by_reply`] says which version of an alert is live in a cell after that.
#![tactic(auto)]

pub mod outcome;

pub use outcome::{Outcome, cells_asked, outcome_of, version_by_reply};
