//! Tests of `cbsp_link` and `cbsp_wire`; in one crate, so that their libraries are read once.
#![tactic(auto)]

#[cfg(test)]
mod of_cbsp_link;
#[cfg(test)]
mod of_cbsp_wire;
