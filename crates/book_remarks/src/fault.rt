//! Why a book has a fault or a remark.

ghost use Rattle.std.specs.Prelude.{◌≡◌};
ghost use Rattle.book_remarks.specs.declared.fault.RemarkFault.TheVariants as faults;

use std::alloc::{AllocError, AllocFailed};
use thiserror::Error;
use warnc_run::RunFault;

/// Why it isn't so that a book has no fault, and no remark if remarks are wanted to be none; or why nobody knows.
#[derive(Clone, Copy, Debug, PartialEq, Eq, Error)]
pub enum RemarkFault {
    /// This many rows have a fault. Their table was written.
    #[error("faults: {0}")]
    Faults(usize),
    /// The network book has no fault, and this many groups, numbered from 0, among which the one that is asked for
    /// isn't.
    #[error("no such group: the network has {0}")]
    NoGroup(u16),
    /// The book has more than 16,777,216 octets, or the network book more than 67,108,864, which is a fault of no one
    /// row.
    #[error("row 0: too many rows")]
    TooLong,
    /// The reader failed.
    #[error("read failed")]
    ReadFailed,
    /// The run of the book, or of a group's, ended early. No run is known that does.
    #[error("{0}")]
    Run(RunFault),
    /// There are this many remarks, and there are to be none. All of them were written.
    #[error("remarks: {0}")]
    Remarks(usize),
    /// Out of memory.
    #[error("out of memory")]
    Refused,
    /// The writer failed. Some of a table may be out.
    #[error("write failed")]
    WriteFailed,
}

// By hand: a derived conversion has no contract, and `?` is to give a fault that clauses name.
impl From<AllocError> for RemarkFault {
    ghost from_gives = { λ _ fault. fault ≡ faults.Refused };

    fn from(_error: AllocError) -> RemarkFault {
        RemarkFault::Refused
    }
}

impl<T: Drop> From<AllocFailed<T>> for RemarkFault {
    ghost from_gives = { λ _ fault. fault ≡ faults.Refused };

    fn from(_error: AllocFailed<T>) -> RemarkFault {
        RemarkFault::Refused
    }
}
