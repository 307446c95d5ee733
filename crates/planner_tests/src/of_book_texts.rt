//! Tests of `book_texts` by its public calls, as tables of lines: what texts cost and where they are cut, tables of
//! books octet for octet, ends that fail, and refused memory.

mod memory;
mod rows;
mod tables;
