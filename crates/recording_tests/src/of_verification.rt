//! Tests of `verification` by its public calls, so that it isn't proved twice: runs of real books of cells, tapes of
//! theirs that were tampered with and tapes that were made by hand, and refused memory.

mod cells;
mod memory;
mod tables;
mod tapes;
