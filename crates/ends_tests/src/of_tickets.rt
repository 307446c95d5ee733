//! Tests of `tickets` by its public calls: worked draws, seats in several threads, and refused memory.

mod draws;
mod memory;
mod several;
