//! What a cell's broadcast channel sends, as a capture file that other programs read, and back: the classic capture
//! format of libpcap, with IPv4, UDP and GSMTAP around each block.
//!
//! [`capture_of`] makes the capture of tapes, whose octets `specs/Capture.antt` says; [`tape_of_capture`] makes a tape
//! of a capture that others made, in that format or in pcapng, as `specs/TapeOfCapture.antt` says.
//! [`senders_of_capture`] names who sends in it (`specs/Heard.antt`), and says when (`specs/Times.antt`) and what
//! (`specs/Carried.antt`).
#![tactic(auto)]

mod blocks;
pub mod capture;
pub mod carried;
pub mod fault;
pub mod file;
mod frontier;
pub mod heard;
mod laws;
mod listener;
mod options;
mod packet;
mod pieces;
mod sender_table;
mod taker;
mod tap;
pub mod tape;
pub mod tapes;
mod track;
mod walk;

pub use capture::{CaptureFault, Settings, Slots, capture_of};
pub use carried::Carried;
pub use fault::{AirFault, AirFaultKind};
pub use frontier::take_all;
pub use heard::Heard;
pub use laws::{capture_laws, tapes_laws};
pub use packet::{Channel, Place, Start, push_packet};
pub use pieces::Captured;
pub use sender_table::{SenderRow, SenderTable, senders_of_capture};
pub use taker::TakesPackets;
pub use tap::{Sent, Station, internet_of, sent_in};
pub use tape::{ChannelType, Sender, Wanted, tape_of_capture};
pub use tapes::{Tapes, TapesFault, tapes_of_capture, tapes_of_walk};
pub use track::{Track, followed, latest, place_in, slot_in};
pub use walk::Walk;
