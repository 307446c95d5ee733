//! Alert books: the orders of a run, as CSV.
//!
//! A book's rows declare cells, and write, update and stop alerts in them. [`read_book`] reads all of a book, or
//! returns the first fault of it, and [`read_octets`] does so of octets, in one thread. [`read_group`] reads a book of
//! more cells for a group of them, and [`group_in`] does so of octets. [`Network::read`] reads such a book once, for
//! the books of all its groups. A [`Session`] gives the messages that the rows order, one after the other, by the
//! replies so far.
#![tactic(auto)]

pub mod book;
pub mod fault;
pub mod judging;
mod laws;
pub mod network;
pub mod session;

pub use book::order::{Action, Alert, Order, Sending, Text};
pub use book::row::{Verb, columns_of};
pub use book::{Book, BookRows, MAX_INPUT, read_book, read_octets, read_rows};
pub use fault::{BookFault, BookFaultKind, RowFault};
pub use judging::bounds::{Bounds, Extent};
pub use judging::columns::{Column, Found, columns_after};
pub use judging::{Judge, Verdict, are_texts, judging_laws, octets_at, text_at, verb_in};
pub use laws::{book_laws, network_laws, session_laws, text_laws};
pub use network::all_groups::Network;
pub use network::{
    GroupFault, MAX_NETWORK, Origin, count_groups, group_in, group_orders, groups_in,
    network_orders, read_book_from, read_group,
};
pub use session::Session;
pub use session::request::{Refused, Request};
