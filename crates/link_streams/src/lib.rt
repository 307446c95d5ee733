//! The messages of the link between a cell broadcast centre and a base station controller (3GPP TS 48.049, over TCP
//! port 48049), out of a capture file.
//!
//! [`messages_of_capture`] returns all messages of a file that is in memory, and [`LinkStreams`] takes the packets of
//! one that comes in parts. `specs/Segment.antt` says which octets are a segment, `specs/Stream.antt` which messages
//! segments are, and `specs/Streams.antt` which ones a file has.
#![tactic(auto)]

mod direction;
mod laws;
mod message;
mod messages;
mod segment;
mod streams;
mod waiting;

pub use laws::stream_laws;
pub use message::{LinkOctets, LinkPacket, Side, Way, sender_of_type};
pub use streams::{LinkStreams, messages_of_capture};
