//! Tests of `handset` by its public calls, as tables of lines: blocks in many orders, tapes that are built octet by
//! octet, readers that fail, and refused memory.

mod malformed;
mod malformed_table;
mod phone;
mod tapes;
mod worked;
