//! Which order of a book each entry of a cell's log is of.
//!
//! [`asks`] says whether an order asked a cell, by the entry that is next in the cell's log, and [`orders_of_run`] goes
//! through the logs of a run: with it a row of a report names the row of the book that it comes of. [`lacks_of`] counts
//! the orders that weren't done.
#![tactic(auto)]

pub mod asked;
mod lacks;
mod orders;

pub use asked::{asks, is_entry_of, is_write, may_ask, names};
pub use lacks::{Lacks, lacks_of};
pub use orders::orders_of_run;
