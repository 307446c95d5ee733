//! Why a whole input could not be read.

ghost use Rattle.std.specs.Prelude.{◌≡◌, Some};
ghost use Rattle.device_ends.specs.declared.fault.ReadFault.TheVariants.{Device, Refused};

use crate::Failed;
use std::alloc::AllocError;
use std::error::Error;
use std::fmt;

/// Why a whole input could not be read.
#[derive(Clone, Copy, Debug, PartialEq, Eq)]
pub enum ReadFault {
    /// The source has failed.
    Device,
    /// Memory was refused.
    Refused,
}

// By hand, as the conversions: what is derived has no contract.
impl fmt::Display for ReadFault {
    ghost use Rattle.device_ends.specs.ReadFault.{read_fault_text};

    ghost output = { λ fault. Some (read_fault_text fault) };

    fn fmt<W: fmt::Write>(&self, f: &mut fmt::Formatter<W>) -> fmt::Result {
        match self {
            ReadFault::Device => write!(f, "device failed"),
            ReadFault::Refused => write!(f, "memory refused"),
        }
    }
}

impl Error for ReadFault {}

impl From<Failed> for ReadFault {
    ghost from_gives = { λ _ fault. fault ≡ Device };

    fn from(_failed: Failed) -> ReadFault {
        ReadFault::Device
    }
}

impl From<AllocError> for ReadFault {
    ghost from_gives = { λ _ fault. fault ≡ Refused };

    fn from(_refused: AllocError) -> ReadFault {
        ReadFault::Refused
    }
}
