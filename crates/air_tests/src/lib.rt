//! Tests of `cbch_blocks` and `handset`; in one crate, so that their libraries are read once.
#![tactic(auto)]

#[cfg(test)]
mod of_cbch_blocks;
#[cfg(test)]
mod of_handset;
