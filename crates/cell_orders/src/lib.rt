//! What one cell was asked over the link between a cell broadcast centre and a base station controller (3GPP TS
//! 48.049), and what it answered.
//!
//! [`rows_of`] makes of the messages of a link the rows of a cell, and [`orders_text`] an orders file of these.
//! [`concerns`] says which messages these rows are of, and [`emergencies_to`] counts those to the cell that are none.
#![tactic(auto)]

mod exchange;
mod heard;
mod laws;
mod naming;
mod row;
mod rows;
mod text;

pub use exchange::concerns;
pub use heard::Heard;
pub use laws::exchange_laws;
pub use naming::names;
pub use row::{CellAnswer, CellOrder, OrderRow};
pub use rows::{emergencies_to, rows_of};
pub use text::orders_text;
