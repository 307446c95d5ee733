//! The desk that takes the orders of the warning centre to the cells, for any number of threads at once.
//!
//! A desk has the book of each cell under a lock of its own. Each user has a pass, in which a call notes what it did in
//! the cells. The reply to an order is that of its cells' answers. A closed desk is settled with the passes: what was
//! noted is compared with what the cells hold.
#![tactic(auto)]

mod cells;
pub mod closed;
pub mod desk;
pub mod fault;
mod gate;
mod laws;
pub mod note;
pub mod settle;

pub use cells::cells_ok;
pub use closed::Closed;
pub use desk::Desk;
pub use desk::piece::{PIECE_SLOTS, Piece};
pub use desk::reply::reply_of;
pub use fault::DeskFault;
pub use gate::{Gate, Open};
pub use laws::{desk_steps, reply_laws};
pub use note::{Note, Pass};
pub use settle::SettleFault;
