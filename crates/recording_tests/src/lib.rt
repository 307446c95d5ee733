//! Tests of `cell_orders`, `gsmtap`, `link_streams` and `verification`; in one crate, so that their libraries are read
//! once.
#![tactic(auto)]

#[cfg(test)]
mod of_cell_orders;
#[cfg(test)]
mod of_gsmtap;
#[cfg(test)]
mod of_link_streams;
#[cfg(test)]
mod of_verification;
