//! Why there is no report.

ghost use Rattle.std.specs.Prelude.{◌≡◌};
ghost use Rattle.report.specs.declared.fault.ReportFault.TheVariants.{Refused};

use std::alloc::AllocError;
use thiserror::Error;

/// Why there is no report, or not the whole of it.
#[derive(Clone, Copy, Debug, PartialEq, Eq, Error)]
pub enum ReportFault {
    /// The readings aren't of the same cells as the records, in the same order.
    #[error("cells differ")]
    Cells,
    /// The writer failed. Some of the report may be out.
    #[error("write failed")]
    WriteFailed,
    /// Out of memory.
    #[error("out of memory")]
    Refused,
}

// By hand: a derived conversion has no contract, and `?` is to give a fault that clauses name.
impl From<AllocError> for ReportFault {
    ghost from_gives = { λ _ fault. fault ≡ Refused };

    fn from(_error: AllocError) -> ReportFault {
        ReportFault::Refused
    }
}
