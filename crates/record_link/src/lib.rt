//! The link of a run between a cell broadcast centre and a base station controller (3GPP TS 48.049), as a capture file:
//! what each cell was ordered and what it answered, by the records of the run.
#![tactic(auto)]

mod capture;
mod laws;
mod messages;

pub use capture::run_link;
pub use laws::whole_link_law;
