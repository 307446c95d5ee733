//! How much a table tells of each difference, and whether it has times.

use slot_times::Start;

/// How much a table tells of each difference.
#[derive(Clone, Copy, Debug, PartialEq, Eq)]
pub enum Detail {
    /// What isn't as it was asked.
    Plain,
    /// What was expected and what came too, in two further columns. A message of which nothing comes for two broadcasts
    /// or more has one row for all of them, and a cell of which all pages are off by the same number of slots one more.
    Explained,
}

/// How a table of differences is laid out.
#[derive(Clone, Copy, Debug, PartialEq, Eq)]
pub struct TableLayout {
    /// How much it tells of each difference.
    pub detail: Detail,
    /// When slot 0 begins, if times are wanted: a last column then has the time in UTC at which the slot of each
    /// difference begins.
    pub start: Option<Start>,
}
