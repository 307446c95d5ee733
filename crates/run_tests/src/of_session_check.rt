//! Tests of `session_check` by its public call: sessions that are served at a desk, right and wrong passes, and refused
//! memory.

mod memory;
mod passes;
mod run;
mod served;
