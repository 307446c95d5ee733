//! Why tapes aren't those of a book.

ghost use Rattle.std.specs.Prelude.{◌≡◌};
ghost use Rattle.warnc_verify.specs.declared.fault.VerifyFault.TheVariants as faults;

use handset::TapeFault;
use std::alloc::{AllocError, AllocFailed};
use thiserror::Error;
use warnc_run::RunFault;

/// Why tapes aren't those of a book, or why nobody knows.
#[derive(Clone, Copy, Debug, PartialEq, Eq, Error)]
pub enum VerifyFault {
    /// The book can't be read or is refused, or its run didn't come to its end.
    #[error("{0}")]
    Run(RunFault),
    /// The tapes can't be read, or aren't tapes.
    #[error("{0}")]
    Tapes(TapeFault),
    /// The tapes differ from what was asked, in this many rows. All of them were written.
    #[error("differences: {0}")]
    Differences(usize),
    /// Out of memory.
    #[error("out of memory")]
    Refused,
    /// The writer failed. Some of the rows may be out.
    #[error("write failed")]
    WriteFailed,
}

impl From<RunFault> for VerifyFault {
    ghost from_gives = { λ run fault. fault ≡ faults.Run run };

    fn from(fault: RunFault) -> VerifyFault {
        VerifyFault::Run(fault)
    }
}

impl From<TapeFault> for VerifyFault {
    ghost from_gives = { λ tapes fault. fault ≡ faults.Tapes tapes };

    fn from(fault: TapeFault) -> VerifyFault {
        VerifyFault::Tapes(fault)
    }
}

impl From<AllocError> for VerifyFault {
    ghost from_gives = { λ _ fault. fault ≡ faults.Refused };

    fn from(_error: AllocError) -> VerifyFault {
        VerifyFault::Refused
    }
}

impl<T: Drop> From<AllocFailed<T>> for VerifyFault {
    ghost from_gives = { λ _ fault. fault ≡ faults.Refused };

    fn from(_error: AllocFailed<T>) -> VerifyFault {
        VerifyFault::Refused
    }
}
