//! What one cell was asked over the link between a cell broadcast centre and a base station controller (3GPP TS
//! 48.049), out of a capture file that has the link and, if it can, the air of the cell.
//!
//! [`Overheard`] takes the packets of a capture, of which [`orders_of`] makes the rows of a cell. `specs/Clock.antt`
//! says in which slot something comes, `specs/Calls.antt` which messages count, and `specs/Orders.antt` what becomes of
//! them.
#![tactic(auto)]

mod calls;
mod clock;
mod orders;
mod overheard;

pub use orders::{LinkOrders, OrdersFault, OrdersWanted, orders_of};
pub use overheard::Overheard;
