//! The loads that cells have reserved in a run, as a table: a line for each slot at which the load of a cell is another
//! one than before.
//!
//! [`loads_text`] makes it. `specs/LoadsText.antt` says which octets, and [`loads_laws`] what can be read in them.
#![tactic(auto)]

mod laws;
mod table;
mod text;

pub use laws::loads_laws;
pub use text::loads_text;
