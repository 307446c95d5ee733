//! The link between a cell broadcast centre and a base station controller (3GPP TS 48.049) as a capture file that other
//! programs read: the classic capture format of libpcap, with IPv4 and TCP around each message.
//!
//! [`file_header`] begins such a file, and [`push_connection`] appends the packets of a connection.
#![tactic(auto)]

mod connection;
mod segment;
mod sums;

pub use connection::{LinkSent, MessageOctets, push_connection};
pub use segment::{LinkSide, file_header};
