//! The engine of the command `check`: a book, or a network book, to the faults of all its rows.
//!
//! [`check_stream`] reads a book and writes a row for each row of it that has a fault: where it is, and what is wanted.
//! Each row is judged beside those that have no fault, by the definitions of books alone (`IsVerdict` of alert_book).
#![tactic(auto)]

pub mod check;
pub mod fault;
mod laws;
mod lines;
mod says;
mod table;
mod value;
mod words;

pub use check::{Checked, check_stream, table_of};
pub use fault::CheckFault;
pub use laws::check_laws;
