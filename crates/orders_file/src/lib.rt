//! Orders files: what a cell was asked and what it answered, read from the text that
//! [`orders_text`](cell_orders::orders_text) writes.
//!
//! [`read_rows`] reads the rows, or returns the first fault. docs/formats.md says what a row is.
#![tactic(auto)]

mod columns;
mod fault;
mod fields;
mod file;
mod laws;
mod number;
mod page;
mod row;

pub use fault::{OrdersFileFault, OrdersFileFaultKind};
pub use file::{MAX_ORDERS_FILE, read_rows};
pub use laws::orders_file_laws;
