//! A row of what tapes have of what was asked.

use crate::difference::Difference;
use cbsp_wire::Cell;

/// What a row tells of a cell or of its tape.
#[derive(Clone, Copy, Debug, PartialEq, Eq)]
pub enum Finding {
    /// Something isn't as it was asked.
    Differs(Difference),
    /// No tape is the cell's.
    NoTape,
    /// The cell's tape has another number of slots than the run. Nothing else is judged of it.
    OtherSlots,
    /// The tape is of a cell that had one. It isn't judged.
    SecondTape,
    /// The tape is of no cell of the run.
    UnknownCell,
}

/// A finding, and the cell of which it is.
#[derive(Clone, Copy, Debug, PartialEq, Eq)]
pub struct Row {
    /// The cell.
    pub cell: Cell,
    /// What was found.
    pub finding: Finding,
}
