//! Tests of `book_check` by its public calls, as tables of lines: books with what is told of them, devices that fail,
//! and refused memory.

mod books;
mod checks;
mod checks_table;
mod memory;
