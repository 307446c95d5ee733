//! The pieces that a capture file's octets begin with, and a taker that their packets are handed to.

ghost use Rattle.std.specs.Prelude.{◌≡◌, ◌<◌, ◌≤◌, ◌^◌, ℕ, List, [], drop, length, IfErr, IfOk, OnOk};
ghost use Rattle.gsmtap.specs.PieceSteps.{section_of};
ghost use Rattle.gsmtap.specs.Taken.{IsFileFault, Opens};
ghost use Rattle.gsmtap.specs.Taker.{CanTake, HasTakenAll, IsTakingFault, TakesFound};
ghost use Rattle.gsmtap.specs.TapeSteps.{count_of};
ghost use Rattle.gsmtap.specs.Walk.{AreLeft, IsLastingFault, HaveNoPiece};
ghost use Rattle.gsmtap.specs.WalkSteps.{AreLeftOfSome};

use crate::fault::{AirFault, AirFaultKind};
use crate::pieces::{Found, Reader};
use crate::taker::TakesPackets;
use crate::tape::fault_at;

/// What is known of a capture file where one of its pieces begins, and the taker of the packets before.
#[derive(Drop)]
pub struct Frontier<T> {
    /// What is known of the file.
    pub reader: Reader,
    /// The taker of its packets.
    pub taker: T,
    /// How many packets came before.
    pub packets: u64,
}

impl<T: TakesPackets> Frontier<T> {
    /// Takes the whole pieces that octets begin with, and returns how many octets these have.
    ///
    /// # Errors
    ///
    /// Returns the fault of the first packet or block that has one, and out of memory. An end inside a piece is none.
    pub fn take_pieces(&mut self, octets: &[u8]) -> Result<usize, AirFault>
        requires { AreLeftOfSome T.taking T.HasTaken self.old octets.now }
        ensures within { IfOk result (λ taken. taken ≤ length octets.now) }
        ensures taken { IfOk result (λ taken. (given : T.Given) (input : List ℕ) →
            AreLeft (T.taking given) (T.HasTaken given) input self.old octets.now →
            AreLeft (T.taking given) (T.HasTaken given) input self.new (drop taken octets.now)) }
        ensures whole { IfOk result (λ taken. HaveNoPiece (section_of self.new.reader) (drop taken octets.now)) }
        ensures fault { IfErr result (λ fault. (given : T.Given) (input : List ℕ) →
            AreLeft (T.taking given) (T.HasTaken given) input self.old octets.now →
            IsLastingFault (T.taking given) input fault) }
    {
        let mut left = octets;
        'pieces: while !left.is_empty() {
            let next = self.packets + 1;
            let (piece, rest) = match self.reader.next_piece(left) {
                Ok(Some(split)) => split,
                Ok(None) => return Ok(octets.len() - left.len()),
                Err(kind) => return Err(fault_at(next, kind)),
            };
            let found = self.reader.enter(piece)?;
            match take_found(&mut self.taker, self.packets, &found) {
                Ok(packets) => self.packets += packets,
                Err(fault) => return Err(fault),
            }
            left = rest;
        }
        Ok(octets.len())
    }
}

/// Hands on the packet that was found, if one was, before which so many came, and returns how many there were.
fn take_found<T: TakesPackets>(taker: &mut T, before: u64, found: &Found) -> Result<u64, AirFault>
    requires { CanTake T.taking T.HasTaken taker.old before }
    ensures taken { OnOk result (TakesFound T.taking T.HasTaken taker.old taker.new before found.now) }
    ensures many { IfOk result (λ packets. packets ≡ count_of found.now) }
    ensures fault { IfErr result (IsTakingFault T.taking T.HasTaken taker.old before found.now) }
{
    match found {
        Found::Packet(packet) => match taker.take(before, packet) {
            Ok(()) => Ok(1),
            Err(fault) => Err(fault),
        },
        Found::Nothing => Ok(0),
        Found::Wrong => Err(fault_at(before + 1, AirFaultKind::WrongBlock)),
    }
}

/// Hands the packets of a file to a taker that has none yet, and gives it back. The file goes on with these octets from
/// its first piece on.
///
/// # Errors
///
/// Returns the fault of the first packet or block that has one, and out of memory.
pub fn take_all<T: TakesPackets + Drop>(
    reader: Reader,
    octets: &[u8],
    taker: T,
) -> Result<T, AirFault>
    requires { (given : T.Given) × (input : List ℕ) × Opens input (section_of reader) octets.now
        × T.HasTaken given [] taker × (length input < 2 ^ 48) }
    ensures taken { IfOk result (λ taken. (given : T.Given) (input : List ℕ) →
        Opens input (section_of reader) octets.now → T.HasTaken given [] taker →
        HasTakenAll (T.taking given) (T.HasTaken given) input taken) }
    ensures fault { IfErr result (λ fault. (given : T.Given) (input : List ℕ) →
        Opens input (section_of reader) octets.now → T.HasTaken given [] taker →
        IsFileFault (T.taking given) input fault.packet fault.kind) }
{
    let mut front = Frontier {
        reader,
        taker,
        packets: 0,
    };
    let taken = match front.take_pieces(octets) {
        Ok(taken) => taken,
        Err(fault) => return Err(fault),
    };
    if taken < octets.len() {
        return Err(fault_at(front.packets + 1, AirFaultKind::Short));
    }
    Ok(front.taker)
}
