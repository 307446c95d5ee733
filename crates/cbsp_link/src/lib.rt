//! Messages between a cell broadcast centre and a base station controller as real equipment speaks them (3GPP TS
//! 48.049).
//!
//! `read` takes the message at the front of octets, in whatever order its elements stand; `write` returns the octets of
//! a message, with its elements in the standard's order. What is written is read as the same message.
#![tactic(auto)]

mod elements;
pub mod fault;
mod iei;
mod items;
mod laws;
pub mod message;
mod reading;
mod writing;

pub use fault::{LinkError, LinkFault};
pub use laws::link_laws;
pub use message::{
    Answered, LinkCell, LinkCells, LinkCount, LinkCounts, LinkFailure, LinkFailures, LinkMessage,
    Plmn,
};
pub use reading::{Frame, read, split};
pub use writing::write;
