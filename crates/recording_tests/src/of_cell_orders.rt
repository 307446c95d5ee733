//! Tests of `cell_orders` by its public calls: links of real equipment, as they were captured, each rule by itself, and
//! refused memory.

mod captured;
mod memory;
mod rules;
mod table;
