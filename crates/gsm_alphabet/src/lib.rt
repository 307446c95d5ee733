//! The GSM 7-bit default alphabet and its extension table (3GPP TS 23.038, clauses 6.2.1 and 6.2.1.1): a character to
//! its code and back, exactly as the two tables have it, and for the text of a septet list the laws that paging and
//! reading rest on. Nothing here allocates.
#![tactic(auto)]

/// The code of a character of the alphabet: `encode_char('A')` is `Some(Code::One(0x41))`, `encode_char('€')` is
/// `Some(Code::Ext(0x65))`.
#[derive(Clone, Copy, PartialEq, Eq, Debug)]
pub enum Code {
    /// One septet of the default alphabet, below 128.
    One(u8),
    /// The escape 1B and then this septet, below 128, of the extension table.
    Ext(u8),
}

mod alphabet;
mod laws;

pub use alphabet::{decode_ext, decode_one, encode_char};
pub use laws::alphabet_laws;
