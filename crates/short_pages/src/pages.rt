//! Which pages of a tape are read.

/// Which pages of a tape are read.
#[derive(Clone, Copy, Debug, PartialEq, Eq)]
pub enum Pages {
    /// Those of four blocks.
    OfFour,
    /// All, which have one to four blocks (3GPP TS 44.012).
    OfAny,
}
