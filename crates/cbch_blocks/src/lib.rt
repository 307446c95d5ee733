//! What a cell's broadcast channel (CBCH) sends: the blocks of a page and of an idle slot (3GPP TS 44.012), and the
//! tape of a cell's record, which has the blocks of all its slots. Tapes are this project's own.
#![tactic(auto)]

mod blocks;
mod front;
mod piece;
mod slot;
pub mod tape;

pub use blocks::{BLOCK_OCTETS, cut, idle};
pub use piece::{PIECE_SLOTS, TapePiece, piece_laws, piece_start};
pub use tape::{Refused, Tape, WriteFailed, tape_of};
