//! What the cells of a run were ordered, and what they answered, as an orders file: by their records, in the rows that
//! cell_orders makes of a link.
#![tactic(auto)]

mod rows;

pub use rows::{category_number, orders_in, rows_in};
