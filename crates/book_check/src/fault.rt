//! Why a book isn't clean.

use thiserror::Error;

/// Why a book isn't clean, or why nobody knows.
#[derive(Clone, Copy, Debug, PartialEq, Eq, Error)]
pub enum CheckFault {
    /// This many rows have a fault. What is told of them was written.
    #[error("faults: {0}")]
    Faults(usize),
    /// The network book has no fault, and this many groups, numbered from 0, among which the one that is asked for
    /// isn't.
    #[error("no such group: the network has {0}")]
    NoGroup(u16),
    /// The book has more than 16,777,216 octets, or the network book more than 67,108,864, which is a fault of no one
    /// row.
    #[error("row 0: too many rows")]
    TooLong,
    /// The reader failed.
    #[error("read failed")]
    ReadFailed,
    /// Out of memory.
    #[error("out of memory")]
    Refused,
    /// The writer failed. Some of the table may be out.
    #[error("write failed")]
    WriteFailed,
}
