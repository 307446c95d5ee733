//! Tests of `report` and `session_check`; in one crate, so that their libraries are read once.
#![tactic(auto)]

#[cfg(test)]
mod of_report;
#[cfg(test)]
mod of_session_check;
