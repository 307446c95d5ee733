//! The chart of a run, for people: one page in HTML, in which each message of a cell is a bar over the slots, each
//! refused order a mark, and the loads that a cell has reserved a line.
//!
//! [`chart_octets`] makes it, and [`part_octets`] makes the part of a network's group.
//! [`fullest_of`] says how full a cell gets, and [`run_loads`] how full it is at each slot, for other tables.
//! `specs/ChartText.antt` says which octets: of each cell the lines are those of the rows of its report, in order, and
//! every text of a message goes through `specs/Escape.antt`. Cells that look the same have one section
//! (`specs/Panels.antt`). All words are in tables, one for each language (`specs/Words.antt`).
#![tactic(auto)]

pub mod cause;
pub mod cell;
pub mod chart;
pub mod english;
pub mod facts;
pub mod fullest;
pub mod german;
pub mod identifier;
mod kept;
mod laws;
pub mod line;
pub mod load;
pub mod message;
mod page;
pub mod panel;
pub mod section;
pub mod time;
pub mod view;
pub mod word;

pub use chart::{chart_octets, part_octets};
pub use facts::hundredths;
pub use fullest::{Fullest, fullest_of, fullest_slot, run_loads};
pub use laws::chart_laws;
pub use view::{Part, View};
pub use word::{Language, Wording};
