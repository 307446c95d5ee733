//! A row of a report.

use cbs_page::Serial;
use slot_times::Start;

/// Whether a message is shown, or why there is none to show.
#[derive(Clone, Copy, Debug, PartialEq, Eq)]
pub enum Showing {
    /// The blocks of the cell show it.
    Yes,
    /// They don't.
    No,
    /// The write or the kill was refused with this cause (3GPP TS 48.049, 8.2, Cause).
    Refused(u8),
}

/// What a write asks of its cell's channel.
#[derive(Clone, Copy, Debug, PartialEq, Eq)]
pub struct Demand {
    /// How many pages its message has, 1 to 15.
    pub pages: u8,
    /// The repetition period in slots, 1 to 1,024 (3GPP TS 48.049, 8.2, Repetition Period).
    pub period: u16,
    /// How many hundredths of the cell's slots its message takes, rounded up; 0 for a background message, which
    /// reserves none.
    pub share: u16,
}

/// A row of a report: an accepted message of a cell, or a write or a kill that the cell refused.
#[derive(Clone, Copy, Debug, PartialEq, Eq)]
pub struct Row {
    /// The place of its entry in the cell's log, from 0.
    pub entry: usize,
    /// The location area code of the cell.
    pub lac: u16,
    /// The cell identity.
    pub ci: u16,
    /// The message identifier.
    pub id: u16,
    /// The serial number.
    pub serial: Serial,
    /// The slot from which the message stands, which may come after the end; of what was refused the slot of the
    /// answer.
    pub start: u32,
    /// The slot from which it no longer stands: where it was stopped, where the periods of its requested broadcasts
    /// are over, or the end of the run; of what was refused the slot of the answer.
    pub end: u16,
    /// How many of its broadcasts were completed in the run; 0 of what was refused.
    pub completed: u16,
    /// Whether the cell's blocks show it.
    pub shown: Showing,
    /// The slot after which a broadcast of it is whole for the first time, so that a phone shows it; None if none is,
    /// and of what was refused.
    pub first_shown: Option<u16>,
    /// What the write asks of the channel; None of a kill.
    pub demand: Option<Demand>,
}

/// Which columns a report has, besides those of times.
#[derive(Clone, Copy, Debug, PartialEq, Eq)]
pub enum Columns {
    /// The eight from the cell to whether the message is shown.
    Plain,
    /// After them the slot after which it is shown first, its pages, its period, its share of the channel, and the
    /// cause of a refusal in words.
    Full,
}

/// How a report is laid out.
#[derive(Clone, Copy, Debug, PartialEq, Eq)]
pub struct Layout {
    /// Its columns.
    pub columns: Columns,
    /// When slot 0 begins, if that is known. Behind all other columns are then the times at which the slots of the
    /// start and the end begin, and behind full ones that at which the slot of the first showing ends.
    pub start: Option<Start>,
}
