//! Why a capture file has no tape.

ghost use Rattle.std.specs.Prelude.{◌≡◌};
ghost use Rattle.gsmtap.specs.declared.fault.AirFaultKind.TheVariants.{Refused};

use std::alloc::AllocError;
use std::{error, fmt};
use thiserror::Error;

/// Why a capture file has no tape.
#[derive(Clone, Copy, Debug, PartialEq, Eq, Error)]
pub enum AirFaultKind {
    /// The file begins neither with the header of a classic capture file nor as pcapng does.
    #[error("not a capture file")]
    NoCapture,
    /// The link type is this, and none of those that are known.
    #[error("unknown link type {0}: known are 0, 1, 101, 108, 113, 228 and 276")]
    OtherLink(u32),
    /// The file ends inside a packet, or inside a block of pcapng.
    #[error("capture is short")]
    Short,
    /// A block of pcapng contradicts itself: its two lengths differ, or are under 12 or no multiple of 4; what it says
    /// has no room in it; its section has another magic number, or its interface isn't described before it.
    #[error("wrong block")]
    WrongBlock,
    /// A block comes twice, with other octets.
    #[error("block differs: if several send, choose one by --from or --arfcn")]
    Differs,
    /// A block is more than a slot before the one before it, or before the first slot.
    #[error("steps back: if several send, choose one by --from or --arfcn")]
    StepsBack,
    /// No packet has a block of the wanted sender's cell broadcast channel.
    #[error("no block of the wanted sender: warnc cells lists who sends, over IPv4 alone")]
    NoBlock,
    /// Out of memory.
    #[error("out of memory")]
    Refused,
}

/// Why a capture file has no tape, and its packet, from 1. The packet is 0 if the file is no capture, the header of a
/// classic file is at fault, no packet has a block, or memory was refused. A block of pcapng that is cut or contradicts
/// itself has the number of the packet that would be next.
#[derive(Clone, Copy, Debug, PartialEq, Eq)]
pub struct AirFault {
    /// The packet, from 1.
    pub packet: u64,
    /// What is wrong with it.
    pub kind: AirFaultKind,
}

// By hand: what is wrong with the header is of no packet.
impl fmt::Display for AirFault {
    fn fmt<W: fmt::Write>(&self, f: &mut fmt::Formatter<W>) -> fmt::Result {
        if self.packet == 0 {
            write!(f, "{}", self.kind)
        } else {
            write!(f, "packet {}: {}", self.packet, self.kind)
        }
    }
}

impl error::Error for AirFault {}

// By hand: a derived conversion has no contract.
impl From<AllocError> for AirFault {
    ghost use Rattle.gsmtap.specs.declared.fault.AirFault.{AirFault};

    ghost from_gives = { λ _ fault. fault ≡ record { packet = 0; kind = Refused } };

    fn from(_error: AllocError) -> AirFault {
        AirFault {
            packet: 0,
            kind: AirFaultKind::Refused,
        }
    }
}
