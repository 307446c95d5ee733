//! The schedule of a cell: which page each slot airs, and how many broadcasts of a message were completed. A `Plan`
//! is told of each message that is accepted or stopped, and asked for each slot in order. It answers by one rule: the
//! next page of the pending broadcast that is due first, high before normal, and then the one with the lesser number;
//! where only background broadcasts are pending, of the one among these that is due first, and then by number. What it
//! keeps is its own: its contracts speak of the messages and of the whole air list alone.
#![tactic(auto)]

mod laws;
mod plan;
mod progress;
mod scheduled;
mod settled;
mod tournament;
mod trees;
mod turn;

pub use laws::{air_laws, background_laws};
pub use plan::{Item, Plan, Rank, Refused};
