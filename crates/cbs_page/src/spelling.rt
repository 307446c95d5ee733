//! The codes of a whole text, found in one walk over its characters. They lie in the function's own memory, for at most
//! 15 pages hold them.

ghost use Rattle.std.specs.Prelude.{◌≡◌, ◌+◌, ◌<◌, ◌≤◌, [], ◌∷◌, ◌++◌, true, false, length, not, IfSome, IfNone};
ghost use Rattle.std.specs.List.{list_all, flat_map};
ghost use Rattle.std.specs.Str.{chars};
ghost use Rattle.gsm_alphabet.specs.Alphabet.{septets_of};
ghost use Rattle.cbs_page.specs.PagingSteps.{is_good, is_spelled};
ghost use Rattle.cbs_page.specs.Text.{is_bad};

use arrayvec::ArrayVec;
use gsm_alphabet::{Code, encode_char};

/// The most codes of a text that is sent: 15 pages hold 93 septets each.
pub const MAX_CODES: usize = 1395;

/// The escape that begins a character of the extension table (3GPP TS 23.038, clause 6.2.1.1).
pub const ESCAPE: u8 = 0x1B;

/// The septets of a text. None if it has a character that can't be sent or that the GSM 7-bit alphabet lacks, or more
/// than [`MAX_CODES`] septets.
pub fn septets_of_text(text: &str) -> Option<ArrayVec<u8, MAX_CODES>>
    ensures codes { IfSome result (λ septets. flat_map septets_of (chars text.now) ≡ septets.items) }
    ensures spelled { IfSome result (λ septets. list_all is_spelled (chars text.now) ≡ true) }
    ensures none { IfNone result (list_all is_spelled (chars text.now) ≡ true
        → 1395 < length (flat_map septets_of (chars text.now))) }
{
    let mut septets = ArrayVec::new();
    for character in text.chars() {
        if !push_septets(&mut septets, character) {
            return None;
        }
    }
    Some(septets)
}

/// Takes the septets of a character, if it can be sent, the alphabet has it and there is room.
fn push_septets(septets: &mut ArrayVec<u8, MAX_CODES>, character: char) -> bool
    ensures taken { result ≡ true → (is_spelled character ≡ true)
        × (septets.new.items ≡ septets.old.items ++ septets_of character) }
    ensures left { result ≡ false → is_spelled character ≡ true
        → 1395 < length septets.old.items + length (septets_of character) }
{
    if is_bad_character(character) {
        return false;
    }
    match encode_char(character) {
        Some(Code::One(septet)) => {
            if septets.len() >= MAX_CODES {
                return false;
            }
            septets.push(septet);
            true
        }
        Some(Code::Ext(septet)) => {
            if septets.len() + 1 >= MAX_CODES {
                return false;
            }
            septets.push(ESCAPE);
            septets.push(septet);
            true
        }
        None => false,
    }
}

/// The units of a text in UCS-2. None if it has a character that can't be sent, or more than [`MAX_CODES`] characters.
pub fn units_of_text(text: &str) -> Option<ArrayVec<u16, MAX_CODES>>
    ensures codes { IfSome result (λ units. chars text.now ≡ units.items) }
    ensures good { IfSome result (λ units. list_all is_good (chars text.now) ≡ true) }
    ensures none { IfNone result (list_all is_good (chars text.now) ≡ true → 1395 < length (chars text.now)) }
{
    let mut units = ArrayVec::new();
    for character in text.chars() {
        if !push_unit(&mut units, character) {
            return None;
        }
    }
    Some(units)
}

/// Takes the unit of a character, if it can be sent and there is room.
fn push_unit(units: &mut ArrayVec<u16, MAX_CODES>, character: char) -> bool
    ensures taken { result ≡ true → (is_good character ≡ true)
        × (units.new.items ≡ units.old.items ++ character ∷ []) }
    ensures left { result ≡ false → is_good character ≡ true → 1395 ≤ length units.old.items }
{
    if is_bad_character(character) || units.len() >= MAX_CODES {
        return false;
    }
    units.push(character as u16);
    true
}

/// Whether a character can't be sent.
pub fn is_bad_character(character: char) -> bool
    ensures { result ≡ is_bad character }
{
    (character < ' ' && character != '\n') || character > '\u{FFFF}'
}
