//! What a cell is asked, what it answers, and what it promises of its messages: `orders_of` reads the commands out of a
//! message of the warning centre; specs/ say what the answer to each command is, over the entries of the cell's log and
//! what it aired; and whatever was admitted is completed in each of its periods, a law over messages, reservations
//! and an air list alone.
#![tactic(auto)]

mod accepted;
pub mod book;
pub mod command;
pub mod entry;
mod laws;
mod orders;
pub mod record;
mod table;

pub use book::CellBook;
pub use command::{Category, Command, Refused};
pub use entry::{Aired, Answer, Entry, SlotRange, State};
pub use laws::{completed_bounds, guarantee, legal_histories, room_laws, steps_of_a_cell};
pub use orders::orders_of;
pub use record::CellRecord;
