//! Admission of messages to a cell: how much of the cell's slots a message takes, and whether there is still room for
//! it. A cell's slots are divided into `SCALE` parts. A message takes its `load` of them from the slot where it starts
//! up to the end of its reservation; one that waits for another to end takes what its load has over that one's until
//! then. A `Budget` never holds more than `SCALE`. Nothing here takes memory.
#![tactic(auto)]

mod budget;
mod laws;
mod measure;

pub use budget::{Budget, Held, NoRoom, Waits};
pub use laws::{reservation_laws, scale_laws};
pub use measure::{SCALE, load};
