//! Tests of `cbsp_wire` on values from outside it, as tables of lines: worked messages, each refusal in its place, both
//! sides of each limit, lists of cells, and refused memory.

mod cells;
mod limits;
mod made;
mod malformed;
mod malformed_table;
mod memory;
mod messages;
mod octets;
mod refusals;
mod rows;
mod table;
mod vectors;
mod writing;
