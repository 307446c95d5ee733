//! Why a desk refuses a call.

ghost use Rattle.std.specs.Prelude.{◌≡◌};
ghost use Rattle.order_desk.specs.declared.fault.DeskFault.TheVariants.{Memory};

use cbsp_wire::WireFault;
use std::alloc::{AllocError, AllocFailed};
use thiserror::Error;

/// Why a desk refuses a call.
#[derive(Clone, Copy, Debug, PartialEq, Eq, Error)]
pub enum DeskFault {
    /// The octets are no message. Never `WireFault::Refused`, which is `Memory`.
    #[error("order was refused")]
    Wire(WireFault),
    /// The message is no order, with this cause (3GPP TS 48.049, 8.2, Cause): see `orders_of`.
    #[error("order was refused")]
    Cause(u8),
    /// The cell isn't of the desk, or its lock holds the book of another cell or run, which no call leaves there.
    #[error("order was refused")]
    Unknown,
    /// The cell's log has 4,096 entries.
    #[error("order was refused")]
    Full,
    /// Out of memory.
    #[error("out of memory")]
    Memory {
        /// How many cells of an order's list were answered, those that aren't of the desk among them. Of the next one
        /// slots may have been played; the others are as they were.
        done: u16,
    },
}

impl From<AllocError> for DeskFault {
    ghost from_gives = { λ _ fault. fault ≡ Memory 0 };

    fn from(_refused: AllocError) -> DeskFault {
        DeskFault::Memory { done: 0 }
    }
}

impl<T: Drop> From<AllocFailed<T>> for DeskFault {
    ghost from_gives = { λ _ fault. fault ≡ Memory 0 };

    fn from(_refused: AllocFailed<T>) -> DeskFault {
        DeskFault::Memory { done: 0 }
    }
}
