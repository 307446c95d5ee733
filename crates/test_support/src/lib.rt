//! Help for crates of tests: tables of lines, tables of malformed inputs, and scarce memory. Nothing of the program
//! uses it.
#![tactic(auto)]

mod malformed;
mod memory;
mod octets;
mod outcomes;
mod room;
mod rows;
mod words;

pub use malformed::Malformed;
pub use memory::{Drought, Scarce, after_refusals, is_refused, take_all};
pub use octets::{digits_of, octets_of};
pub use outcomes::Outcomes;
pub use room::Room;
pub use rows::Row;
pub use words::Words;
