//! Why a book is refused.

ghost use Rattle.std.specs.Prelude.{◌≡◌};
ghost use Rattle.alert_book.specs.Book.{fault_at, kind_of};
ghost use Rattle.alert_book.specs.declared.fault.RowFault.TheVariants.{Refused};

use cbs_page::TextFault;
use std::alloc::{AllocError, AllocFailed};
use std::{error, fmt};
use thiserror::Error;

/// Why a row is refused. Where several apply to a row, docs/formats.md says which is told.
#[derive(Clone, Copy, Debug, PartialEq, Eq, Error)]
pub enum BookFaultKind {
    /// The row has a wrong number of columns, or a column isn't UTF-8.
    #[error("columns")]
    Columns,
    /// The first column is none of `cell`, `write`, `update` and `stop`.
    #[error("verb")]
    Verb,
    /// A number, or a list of cells, isn't written as it has to be, or a number is out of its range.
    #[error("number")]
    Number,
    /// A cell that no earlier row declares.
    #[error("unknown cell")]
    UnknownCell,
    /// A cell or a name that was given before.
    #[error("named twice")]
    TwiceNamed,
    /// No name, or one that no earlier row wrote.
    #[error("unknown name")]
    UnknownName,
    /// The text can't be sent.
    #[error("{0}")]
    Text(TextFault),
    /// The sixteenth update of a name.
    #[error("too many updates")]
    TooManyUpdates,
    /// More than 4,096 rows, 64 cells or 16,777,216 octets; of a network book more than 65,536 cells, 4,096 other rows
    /// or 67,108,864 octets.
    #[error("too many rows")]
    TooManyRows,
    /// The reader failed.
    #[error("read failed")]
    ReadFailed,
    /// Out of memory.
    #[error("out of memory")]
    Refused,
}

/// Why a row isn't taken: what is wrong with its fields, or out of memory. Its octets were read before, and its text is
/// judged later.
#[derive(Clone, Copy, Debug, PartialEq, Eq)]
pub enum RowFault {
    /// See [`BookFaultKind::Columns`]; so are the others.
    Columns,
    /// The verb.
    Verb,
    /// A number, or the form of a list of cells.
    Number,
    /// A cell that isn't declared.
    UnknownCell,
    /// A cell or a name that was given before.
    TwiceNamed,
    /// No name, or an unknown one.
    UnknownName,
    /// The sixteenth update of a name.
    TooManyUpdates,
    /// A row, or a cell, too many.
    TooManyRows,
    /// Out of memory.
    Refused,
}

impl RowFault {
    /// What is told of it.
    pub(crate) fn kind(self) -> BookFaultKind
        ensures { result ≡ kind_of self }
    {
        match self {
            RowFault::Columns => BookFaultKind::Columns,
            RowFault::Verb => BookFaultKind::Verb,
            RowFault::Number => BookFaultKind::Number,
            RowFault::UnknownCell => BookFaultKind::UnknownCell,
            RowFault::TwiceNamed => BookFaultKind::TwiceNamed,
            RowFault::UnknownName => BookFaultKind::UnknownName,
            RowFault::TooManyUpdates => BookFaultKind::TooManyUpdates,
            RowFault::TooManyRows => BookFaultKind::TooManyRows,
            RowFault::Refused => BookFaultKind::Refused,
        }
    }
}

impl From<AllocError> for RowFault {
    ghost from_gives = { λ _ fault. fault ≡ Refused };

    fn from(_refused: AllocError) -> RowFault {
        RowFault::Refused
    }
}

impl<T: Drop> From<AllocFailed<T>> for RowFault {
    ghost from_gives = { λ _ fault. fault ≡ Refused };

    fn from(_refused: AllocFailed<T>) -> RowFault {
        RowFault::Refused
    }
}

/// Why a book is refused, and its row, from 1. The row is 0 if the reader failed, it is out of memory, or the book has
/// too many octets.
#[derive(Clone, Copy, Debug, PartialEq, Eq)]
pub struct BookFault {
    /// The row, from 1 as CSV gives them.
    pub row: u32,
    /// What is wrong with it.
    pub kind: BookFaultKind,
}

// By hand: a failed reader and refused memory are of no row.
impl fmt::Display for BookFault {
    fn fmt<W: fmt::Write>(&self, f: &mut fmt::Formatter<W>) -> fmt::Result {
        match self.kind {
            BookFaultKind::ReadFailed | BookFaultKind::Refused => write!(f, "{}", self.kind),
            _ => write!(f, "row {}: {}", self.row, self.kind),
        }
    }
}

impl error::Error for BookFault {}

/// A fault of no one row.
pub(crate) fn fault_of_book(kind: BookFaultKind) -> BookFault
    ensures { result ≡ fault_at 0 kind }
{
    BookFault { row: 0, kind }
}
