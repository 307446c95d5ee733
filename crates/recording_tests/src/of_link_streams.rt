//! Tests of `link_streams` by its public calls, as tables of lines: segments by hand, whole frames, a link that real
//! equipment spoke, and refused memory.

mod bench;
mod captured;
mod frames;
mod memory;
mod segments;
mod sides;
