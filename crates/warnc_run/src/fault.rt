//! Why a run makes no tapes.

ghost use Rattle.std.specs.Prelude.{◌≡◌};
ghost use Rattle.warnc_run.specs.declared.fault.RunFault.TheVariants as faults;

use alert_book::BookFault;
use cbch_blocks::WriteFailed;
use order_desk::{DeskFault, SettleFault};
use parallel_compile::CompileFault;
use std::alloc::{AllocError, AllocFailed};
use thiserror::Error;

/// Why the tapes of a book aren't written.
#[derive(Clone, Copy, Debug, PartialEq, Eq, Error)]
pub enum RunFault {
    /// The book can't be read, or is refused.
    #[error("{0}")]
    Book(BookFault),
    /// The network book has this many groups, numbered from 0, and the one that is asked for isn't among them.
    #[error("no such group: the network has {0}")]
    NoGroup(u16),
    /// The desk ended an order of a session: it was out of memory, or found the book of another cell in a lock.
    #[error("{0}")]
    Desk(DeskFault),
    /// What the passes note isn't what the cells hold, or isn't what the sessions ordered.
    #[error("{0}")]
    Settle(SettleFault),
    /// The number of workers isn't one that there can be, or they were out of memory.
    #[error("{0}")]
    Compile(CompileFault),
    /// The writer failed. Some tapes are out whole, and of the one under way as many octets as the fault names.
    #[error("{0}")]
    Write(WriteFailed),
    /// Out of memory.
    #[error("out of memory")]
    Refused,
}

impl From<AllocError> for RunFault {
    ghost from_gives = { λ _ fault. fault ≡ faults.Refused };

    fn from(_error: AllocError) -> RunFault {
        RunFault::Refused
    }
}

impl<T: Drop> From<AllocFailed<T>> for RunFault {
    ghost from_gives = { λ _ fault. fault ≡ faults.Refused };

    fn from(_error: AllocFailed<T>) -> RunFault {
        RunFault::Refused
    }
}

impl From<DeskFault> for RunFault {
    ghost from_gives = { λ desk fault. fault ≡ faults.Desk desk };

    fn from(fault: DeskFault) -> RunFault {
        RunFault::Desk(fault)
    }
}

impl From<CompileFault> for RunFault {
    ghost from_gives = { λ compile fault. fault ≡ faults.Compile compile };

    fn from(fault: CompileFault) -> RunFault {
        RunFault::Compile(fault)
    }
}

impl From<SettleFault> for RunFault {
    ghost from_gives = { λ settle fault. fault ≡ faults.Settle settle };

    fn from(fault: SettleFault) -> RunFault {
        RunFault::Settle(fault)
    }
}
