//! Tests of `admission`, `bsc_table` and `scheduler`; in one crate, so that their libraries are read once.
#![tactic(auto)]

#[cfg(test)]
mod of_admission;
#[cfg(test)]
mod of_bsc_table;
#[cfg(test)]
mod of_scheduler;
