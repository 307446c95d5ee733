//! Tests of `report` by its public calls, so that it isn't proved twice: the rows of runs of real books of cells, whose
//! tapes were read back, reports octet for octet, plain and full, writers that fail, refused memory, and the words for
//! causes.

mod books;
mod memory;
mod tables;
