//! Tests of `cbch_blocks` by its public calls, as tables of lines: worked blocks and tapes, tapes set slot by slot,
//! writers that fail at each call, and refused memory.

mod octets;
mod runs;
mod tables;
mod tapes;
mod writers;
