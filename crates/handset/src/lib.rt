//! The handset: what a phone shows of the blocks that a cell broadcasts (3GPP TS 44.012, and TS 23.041, clause 9.4.1).
//!
//! A `Handset` is fed one block of 23 octets after another, over any list of blocks, and returns each message at the
//! block that makes it complete, once. What it shows is what `specs/Reception.antt` says of the whole list. `read_tape`
//! and `read_tapes` read such blocks from tapes, as `specs/Tape.antt` defines them, and hold no more of a tape than a
//! piece of it.
#![tactic(auto)]

mod blocks;
mod handset;
mod input;
mod laws;
mod messages;
mod pages;
mod recording;
mod tape;

pub use blocks::page_in_front;
pub use handset::Handset;
pub use laws::{reading_laws, recording_laws, tape_laws};
pub use messages::{Refused, Shown};
pub use recording::{Recorder, Recording, TakesRecordings, record_each};
pub use tape::{
    MAX_SLOTS, MAX_TAPES, Reading, TakesReadings, TapeFault, read_each, read_tape, read_tapes,
};
