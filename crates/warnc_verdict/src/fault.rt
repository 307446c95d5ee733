//! Why a cell's tape isn't what the cell was ordered.

ghost use Rattle.std.specs.Prelude.{◌≡◌};
ghost use Rattle.warnc_verdict.specs.declared.fault.VerifyOrdersFault.TheVariants as faults;

use handset::TapeFault;
use orders_file::OrdersFileFault;
use std::alloc::{AllocError, AllocFailed};
use thiserror::Error;

/// Why a cell's tape isn't what the cell was ordered, or why nobody knows.
#[derive(Clone, Copy, Debug, PartialEq, Eq, Error)]
pub enum VerifyOrdersFault {
    /// The orders file can't be read.
    #[error("read failed")]
    Unread,
    /// The orders file has more than 16,777,216 octets.
    #[error("row 0: too many rows")]
    TooLong,
    /// A row of the orders file is refused: the first such row.
    #[error("{0}")]
    Orders(OrdersFileFault),
    /// The tapes can't be read, or aren't tapes.
    #[error("{0}")]
    Tapes(TapeFault),
    /// The tape differs from what was ordered and answered, in this many rows. All of them were written.
    #[error("differences: {0}")]
    Differences(usize),
    /// Out of memory.
    #[error("out of memory")]
    Refused,
    /// The writer failed. Some of the rows may be out.
    #[error("write failed")]
    WriteFailed,
}

impl From<TapeFault> for VerifyOrdersFault {
    ghost from_gives = { λ tapes fault. fault ≡ faults.Tapes tapes };

    fn from(fault: TapeFault) -> VerifyOrdersFault {
        VerifyOrdersFault::Tapes(fault)
    }
}

impl From<AllocError> for VerifyOrdersFault {
    ghost from_gives = { λ _ fault. fault ≡ faults.Refused };

    fn from(_error: AllocError) -> VerifyOrdersFault {
        VerifyOrdersFault::Refused
    }
}

impl<T: Drop> From<AllocFailed<T>> for VerifyOrdersFault {
    ghost from_gives = { λ _ fault. fault ≡ faults.Refused };

    fn from(_error: AllocFailed<T>) -> VerifyOrdersFault {
        VerifyOrdersFault::Refused
    }
}
