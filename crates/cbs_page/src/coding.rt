//! Data coding: the octet of a page that says its language and its alphabet (3GPP TS 23.038, clause 5).

ghost use Rattle.std.specs.Prelude.{◌≡◌};
ghost use Rattle.cbs_page.specs.Coding.{alphabet_of, language_value};

/// The alphabet of a page's text.
#[derive(Clone, Copy, Debug, PartialEq, Eq)]
pub enum Alphabet {
    /// The GSM 7-bit default alphabet (3GPP TS 23.038, clause 6.2.1): up to 93 septets a page.
    Gsm,
    /// UCS-2 (3GPP TS 23.038, clause 6.2.3): up to 41 units of 16 bits a page.
    Ucs2,
}

/// A data coding scheme: the value of the octet, 0 to 255 (3GPP TS 23.041, clause 9.4.1.2.3).
#[derive(Clone, Copy, Debug, PartialEq, Eq)]
pub struct Dcs(pub u8);

impl Dcs {
    /// UCS-2 with no language: the value of every text that the GSM 7-bit alphabet can't spell.
    pub const UCS2: Dcs = Dcs(0x48);

    /// The alphabet that the value stands for. None for reserved values, 8-bit data, compressed text, and values with a
    /// language prefix, none of which this project reads or writes.
    pub fn alphabet(self) -> Option<Alphabet>
        ensures { result ≡ alphabet_of self.0 }
    {
        match self.0 {
            0x00..=0x0F | 0x20..=0x24 | 0x40..=0x43 | 0x50..=0x53 => Some(Alphabet::Gsm),
            0x48..=0x4B | 0x58..=0x5B => Some(Alphabet::Ucs2),
            _ => None,
        }
    }
}

/// The data coding value of a GSM 7-bit text in the language that the word names (ISO 639 codes, and `und` for a
/// language that isn't named), or None for any other word.
#[tactic(auto, unfolding(crate::specs::Coding::language_value))]
pub fn language_dcs(language: &str) -> Option<u8>
    ensures { result ≡ language_value language.now }
{
    match language {
        "de" => Some(0x00),
        "en" => Some(0x01),
        "it" => Some(0x02),
        "fr" => Some(0x03),
        "es" => Some(0x04),
        "nl" => Some(0x05),
        "sv" => Some(0x06),
        "da" => Some(0x07),
        "pt" => Some(0x08),
        "fi" => Some(0x09),
        "no" => Some(0x0A),
        "el" => Some(0x0B),
        "tr" => Some(0x0C),
        "hu" => Some(0x0D),
        "pl" => Some(0x0E),
        "und" => Some(0x0F),
        "cs" => Some(0x20),
        "he" => Some(0x21),
        "ar" => Some(0x22),
        "ru" => Some(0x23),
        "is" => Some(0x24),
        _ => None,
    }
}
