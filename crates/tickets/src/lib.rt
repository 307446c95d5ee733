//! Tickets: the numbers below a limit, handed out to several threads, each number once. A `Counter` is one word of
//! shared memory. A thread draws by its `Seat` of the counter, in one atomic step that waits for nobody. The first seat
//! is split into more, one for each thread, and joined seats have what both have drawn. Once any seat was answered
//! `None`, all numbers are drawn. Only `Counter::new` takes memory.
#![tactic(auto)]

mod counter;
mod view;

pub use counter::{Counter, Refused, Seat};
