//! Tests of `plan` by its public calls, as tables of lines: plans with the books or faults that they come to, and
//! devices that fail.

mod plans;
mod tables;
