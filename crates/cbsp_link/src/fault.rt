//! Why a message was not read, or not written.

ghost use Rattle.std.specs.Prelude.{◌≡◌};
ghost use Rattle.cbsp_link.specs.declared.fault.LinkError.TheVariants.{OutOfMemory};

use std::alloc::{AllocError, AllocFailed};
use thiserror::Error;

/// What is wrong with a message. Elements are named by their identifiers (3GPP TS 48.049, 8.2.1).
#[derive(Clone, Copy, Debug, PartialEq, Eq, Error)]
pub enum LinkFault {
    /// There are fewer than 4 octets, or fewer after them than the length field says.
    #[error("the message is cut off")]
    CutMessage,
    /// The element goes past the end of the message.
    #[error("element {0:02X} is cut off")]
    CutElement(u8),
    /// No element has this identifier, so that its length isn't known.
    #[error("element {0:02X} is unknown")]
    UnknownElement(u8),
    /// The message isn't whole without this element.
    #[error("element {0:02X} is missing")]
    MissingElement(u8),
    /// The element's value or list isn't one.
    #[error("element {0:02X} is wrong")]
    WrongElement(u8),
    /// The message is of a kind that is read and not written: an emergency message, or one of another type.
    #[error("the message is not one that is written")]
    NotWritten,
}

/// Why a call returned nothing.
#[derive(Clone, Copy, Debug, PartialEq, Eq, Error)]
pub enum LinkError {
    /// Something is wrong with the message.
    #[error("{0}")]
    Fault(LinkFault),
    /// Memory ran out.
    #[error("out of memory")]
    OutOfMemory,
}

impl From<AllocError> for LinkError {
    ghost from_gives = { λ _ e. e ≡ OutOfMemory };

    fn from(_e: AllocError) -> LinkError {
        LinkError::OutOfMemory
    }
}

impl<T: Drop> From<AllocFailed<T>> for LinkError {
    ghost from_gives = { λ _ e. e ≡ OutOfMemory };

    fn from(_e: AllocFailed<T>) -> LinkError {
        LinkError::OutOfMemory
    }
}
