//! The content of a page: the part of it that holds text.

/// What a page holds (3GPP TS 23.041, clause 9.4.1.2.5).
#[derive(Clone, Copy, Debug, PartialEq, Eq)]
pub struct Content {
    /// How many octets the text takes, at most 82.
    pub used: u8,
    /// The text, and CR to the end.
    pub octets: [u8; 82],
}
