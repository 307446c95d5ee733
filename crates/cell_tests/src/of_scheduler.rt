//! Tests of `scheduler`'s plan: worked air lists, generated histories against the rule said once more and against a
//! walk over all messages, and refused memory.

mod memory;
mod plans;
mod scan;
mod worked;
