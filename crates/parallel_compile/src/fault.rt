//! Why there are no tapes.

ghost use Rattle.std.specs.Prelude.{◌≡◌};
ghost use Rattle.parallel_compile.specs.declared.fault.CompileFault.TheVariants as faults;

use std::alloc::{AllocError, AllocFailed};
use thiserror::Error;

/// Why there are no tapes.
#[derive(Clone, Copy, Debug, PartialEq, Eq, Error)]
pub enum CompileFault {
    /// The number of workers isn't 1 to 64.
    #[error("piece failed")]
    Workers,
    /// Out of memory, or a thread couldn't be made.
    #[error("out of memory")]
    Refused,
    /// The pieces aren't one for each place, or the tapes aren't the records'.
    #[error("piece failed")]
    Piece {
        /// The least number that is missing, that two pieces have, that is no place's, or whose tape is another.
        index: u64,
    },
}

impl From<AllocError> for CompileFault {
    ghost from_gives = { λ _ fault. fault ≡ faults.Refused };

    fn from(_error: AllocError) -> CompileFault {
        CompileFault::Refused
    }
}

impl<T: Drop> From<AllocFailed<T>> for CompileFault {
    ghost from_gives = { λ _ fault. fault ≡ faults.Refused };

    fn from(_error: AllocFailed<T>) -> CompileFault {
        CompileFault::Refused
    }
}
