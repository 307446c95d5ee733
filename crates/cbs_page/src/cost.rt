//! What an alphabet says of codes: how many a page holds, and how many a character has.

ghost use Rattle.std.specs.Prelude.{◌≡◌, ◌≤◌};
ghost use Rattle.cbs_page.specs.Text.{capacity, cost_of};

use crate::coding::Alphabet;
use gsm_alphabet::{Code, encode_char};
use ucs2_text::unit_of;

impl Alphabet {
    /// How many codes a page holds: 93 septets, or 41 units of 16 bits (3GPP TS 23.038, clauses 6.1.2.2 and 6.2.3).
    pub fn capacity(self) -> usize
        ensures value { result ≡ capacity self }
        ensures bounds { (2 ≤ result) × (result ≤ 93) }
    {
        match self {
            Alphabet::Gsm => 93,
            Alphabet::Ucs2 => 41,
        }
    }

    /// How many codes a character has: one or two septets, or one unit, and 0 if the alphabet doesn't have it.
    pub fn cost(self, character: char) -> usize
        ensures value { result ≡ cost_of self character }
        ensures small { result ≤ 2 }
    {
        match self {
            Alphabet::Gsm => match encode_char(character) {
                Some(Code::One(_)) => 1,
                Some(Code::Ext(_)) => 2,
                None => 0,
            },
            Alphabet::Ucs2 => match unit_of(character) {
                Some(_) => 1,
                None => 0,
            },
        }
    }
}
