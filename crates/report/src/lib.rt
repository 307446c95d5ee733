//! The report of a run: what became of each warning in each cell, as rows and as CSV.
//!
//! [`rows`] makes the rows of the cells' records and of what handsets read of their blocks, [`write_report`] writes
//! them, and [`write_part`] those of a part, whose text [`text_of`] makes. [`text_with`] makes it with the columns and
//! the times that are wanted. `specs/Rows.antt` says which rows these are, `specs/ReportText.antt` which octets.
#![tactic(auto)]

mod cause;
mod cell;
mod cells;
mod fault;
mod full;
mod last_pages;
mod laws;
mod names;
mod output;
mod row;
mod sources;
mod stops;
mod table;
mod timed;

pub use cause::cause_words;
pub use cells::rows;
pub use fault::ReportFault;
pub use last_pages::first_last_pages;
pub use laws::report_laws;
pub use output::{text_of, text_with, write_part, write_report};
pub use row::{Columns, Demand, Layout, Row, Showing};
pub use sources::{AskedCell, BookOrders, NamedOrder};
