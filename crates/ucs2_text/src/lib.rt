//! UCS-2 text of a page (3GPP TS 23.038, clause 6.2.3): characters as units of 16 bits, and 41 units as the 82 octets
//! of a page, the high octet first, filled with carriage returns. Each function gives exactly what the definitions
//! say. Nothing here allocates.
#![tactic(auto)]

ghost use Rattle.std.specs.Prelude.{◌≡◌};
ghost use Rattle.ucs2_text.specs.Ucs2.{unit_of_character, character_of_unit};

mod laws;
mod octets;

pub use laws::ucs2_laws;
pub use octets::{put_units, units_of};

/// The unit of `character`, or `None` above U+FFFF, where no unit holds it: `unit_of('é')` is `Some(0x00E9)`.
pub fn unit_of(character: char) -> Option<u16>
    ensures { result ≡ unit_of_character character }
{
    u16::try_from(character as u32).ok()
}

/// The character of `unit`. A surrogate unit, `D800` to `DFFF`, has none and gives U+FFFD (own).
pub fn char_of(unit: u16) -> char
    ensures { result ≡ character_of_unit unit }
{
    char::from_u32(u32::from(unit)).unwrap_or(char::REPLACEMENT_CHARACTER)
}
