//! Tests of `book_remarks` by its public calls, as tables of lines: books with what is remarked of them, devices that
//! fail, and refused memory.

mod books;
mod memory;
mod remarks_table;
mod runs;
