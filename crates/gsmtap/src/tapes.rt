//! The tapes that a capture file is, one for each of many senders.

ghost use Rattle.std.specs.Prelude.{◌≡◌, ◌<◌, ◌≤◌, ◌^◌, ℕ, List, [], length, position, IfErr, IfOk, OnOk, Ok, Err};
ghost use Rattle.gsmtap.specs.PieceSteps.{packet_of};
ghost use Rattle.gsmtap.specs.Taken.{ComesTo, IsFileFault};
ghost use Rattle.gsmtap.specs.TapesOfCapture.{AreTapesOfCapture, IsTapesFault, after_each, for_tapes, is_silent};
ghost use Rattle.gsmtap.specs.TapesOfCapture.{fault_alone, none_known};
ghost use Rattle.gsmtap.specs.TapesSteps.{AreLong, AreNear, known_of_each, tapes_of_known};
ghost use Rattle.gsmtap.specs.TapesTaken.{HaveTaken, IsWalkFor};
ghost use Rattle.gsmtap.specs.TapeSteps.{IsPacketKind, known_of};
ghost use Rattle.gsmtap.specs.Track.{Known};
ghost use Rattle.gsmtap.specs.Walk.{OfSome};
ghost use Rattle.gsmtap.specs.declared.tape.Wanted.{Wanted};
ghost use Rattle.gsmtap.specs.declared.track.Air.{Air};

use crate::fault::{AirFault, AirFaultKind};
use crate::frontier::take_all;
use crate::pieces::Captured;
use crate::taker::TakesPackets;
use crate::tape::{Wanted, air_for, fault_at, opened, take_packet, tape_of};
use crate::track::Air;
use crate::walk::Walk;
use std::alloc::{AllocError, Global};
use thiserror::Error;

/// Why a capture file doesn't have all tapes that are wanted of it.
#[derive(Clone, Copy, Debug, PartialEq, Eq, Error)]
pub enum TapesFault {
    /// The file or a packet is at fault, or memory was refused.
    #[error("{0}")]
    Air(AirFault),
    /// No packet has a block of the sender whose tape has this place, from 0.
    #[error("tape {0}: no block")]
    NoBlock(usize),
}

impl TapesFault {
    /// The fault of a tape that is wanted alone, as [`tape_of_capture`](crate::tape_of_capture) returns it.
    pub fn alone(self) -> AirFault
        ensures { result ≡ fault_alone self }
    {
        match self {
            TapesFault::Air(fault) => fault,
            TapesFault::NoBlock(_) => fault_at(0, AirFaultKind::NoBlock),
        }
    }
}

/// Tapes that are wanted of a capture file, and what is known of them after some of its packets.
#[derive(Drop)]
pub struct Tapes {
    pub(crate) wanted: Vec<Wanted>,
    pub(crate) airs: Vec<Air>,
}

impl Tapes {
    /// No block of any of the tapes.
    ///
    /// # Errors
    ///
    /// Returns the error of the memory: there are four places for each slot that a tape may have.
    pub fn new(alloc: Global, wanted: Vec<Wanted>) -> Result<Tapes, AllocError>
        ensures { IfOk result (HaveTaken wanted.items []) }
    {
        let airs = airs_for(alloc, &wanted)?;
        Ok(Tapes { wanted, airs })
    }
}

impl TakesPackets for Tapes {
    ghost Given = { List Wanted };

    ghost State = { List Known };

    ghost taking = { for_tapes };

    ghost HasTaken = { HaveTaken };

    fn take(&mut self, before: u64, packet: &Captured) -> Result<(), AirFault> {
        match offer(&mut self.airs, &self.wanted, packet) {
            Ok(()) => Ok(()),
            Err(kind) => Err(fault_at(before + 1, kind)),
        }
    }
}

/// The tapes that a capture file is, as [`tape_of_capture`](crate::tape_of_capture) makes each of them, one after the
/// other. The file is walked once.
///
/// # Errors
///
/// Returns the fault of the first packet or block that has one for any of the tapes, or of the file's begin, which is
/// packet 0; else [`TapesFault::NoBlock`] of the first tape of which no packet has a block; and out of memory.
pub fn tapes_of_capture(
    alloc: Global,
    input: &[u8],
    wanted: &[Wanted],
) -> Result<Vec<u8>, TapesFault>
    requires { length input.now < 2 ^ 48 }
    ensures tapes { IfOk result (λ output. AreTapesOfCapture wanted.now input.now output.items) }
    ensures fault { IfErr result (IsTapesFault wanted.now input.now) }
{
    let airs = match read_file(alloc, input, wanted) {
        Ok(airs) => airs,
        Err(fault) => return Err(TapesFault::Air(fault)),
    };
    made(alloc, wanted, &airs)
}

/// The tapes of a file, one after the other, of which this is known after all of its packets.
fn made(alloc: Global, wanted: &[Wanted], airs: &[Air]) -> Result<Vec<u8>, TapesFault>
    requires { AreLong wanted.now (known_of_each airs.now) }
    ensures tapes { IfOk result (λ output. (input : List ℕ) →
        ComesTo (for_tapes wanted.now) input (known_of_each airs.now) →
        AreTapesOfCapture wanted.now input output.items) }
    ensures fault { IfErr result (λ fault. (input : List ℕ) →
        ComesTo (for_tapes wanted.now) input (known_of_each airs.now) → IsTapesFault wanted.now input fault) }
{
    match first_silent(airs) {
        Some(place) => Err(TapesFault::NoBlock(place)),
        None => match tapes_of(alloc, wanted, airs) {
            Ok(output) => Ok(output),
            Err(AllocError) => Err(TapesFault::Air(fault_at(0, AirFaultKind::Refused))),
        },
    }
}

/// What is known of each tape after all pieces of a file.
pub(crate) fn read_file(
    alloc: Global,
    input: &[u8],
    wanted: &[Wanted],
) -> Result<Vec<Air>, AirFault>
    requires { length input.now < 2 ^ 48 }
    ensures known { IfOk result (λ airs. ComesTo (for_tapes wanted.now) input.now (known_of_each airs.items)) }
    ensures fault { IfErr result (λ fault. IsFileFault (for_tapes wanted.now) input.now fault.packet fault.kind) }
{
    let (reader, octets) = match opened(alloc, input) {
        Ok(opened) => opened,
        Err(kind) => return Err(fault_at(0, kind)),
    };
    let tapes = Tapes::new(alloc, Vec::from_slice(alloc, wanted)?)?;
    match take_all(reader, octets, tapes) {
        Ok(tapes) => Ok(tapes.airs),
        Err(fault) => Err(fault),
    }
}

/// The tapes, one after the other, of the file that all octets are which came to a walk.
///
/// # Errors
///
/// Those of [`tapes_of_capture`].
pub fn tapes_of_walk(alloc: Global, walk: Walk<Tapes>) -> Result<Vec<u8>, TapesFault>
    requires { OfSome IsWalkFor walk 0 }
    ensures tapes { IfOk result (λ output. (wanted : List Wanted) (input : List ℕ) →
        IsWalkFor wanted input walk → AreTapesOfCapture wanted input output.items) }
    ensures fault { IfErr result (λ fault. (wanted : List Wanted) (input : List ℕ) →
        IsWalkFor wanted input walk → IsTapesFault wanted input fault) }
{
    let tapes = match walk.end() {
        Ok(tapes) => tapes,
        Err(fault) => return Err(TapesFault::Air(fault)),
    };
    made(alloc, &tapes.wanted, &tapes.airs)
}

/// No block of any of the tapes.
pub(crate) fn airs_for(alloc: Global, wanted: &[Wanted]) -> Result<Vec<Air>, AllocError>
    ensures { IfOk result (λ airs. known_of_each airs.items ≡ none_known wanted.now) }
{
    let mut airs = Vec::new(alloc);
    for one in wanted {
        airs.push(air_for(alloc, one)?)?;
    }
    Ok(airs)
}

/// Offers a packet to each tape.
fn offer(airs: &mut Vec<Air>, wanted: &[Wanted], packet: &Captured) -> Result<(), AirFaultKind>
    requires many { length airs.old.items ≡ length wanted.now }
    requires near { AreNear (2 ^ 59) (known_of_each airs.old.items) }
    ensures placed { OnOk result (after_each wanted.now (known_of_each airs.old.items)
        (packet_of packet.now) ≡ Ok (known_of_each airs.new.items)) }
    ensures fault { IfErr result (λ kind. after_each wanted.now (known_of_each airs.old.items)
        (packet_of packet.now) ≡ Err kind) }
    ensures kinds { IfErr result IsPacketKind }
{
    for (place, one) in wanted.iter().enumerate() {
        if let Err(kind) = take_packet(&mut airs[place], one.from, packet) {
            return Err(kind);
        }
    }
    Ok(())
}

/// The first tape of which no block is known.
fn first_silent(airs: &[Air]) -> Option<usize>
    ensures { result ≡ position (λ (air : Air). is_silent (known_of air)) airs.now }
{
    airs.iter().position(|air| is_silent(air))
}

/// Whether no block of a tape is known.
fn is_silent(air: &Air) -> bool
    ensures { result ≡ is_silent (known_of air.now) }
{
    air.track.is_none()
}

/// The octets of the tapes of which this is known, one after the other.
fn tapes_of(alloc: Global, wanted: &[Wanted], airs: &[Air]) -> Result<Vec<u8>, AllocError>
    requires { AreLong wanted.now (known_of_each airs.now) }
    ensures { IfOk result (λ output. output.items ≡ tapes_of_known wanted.now (known_of_each airs.now)) }
{
    let mut output = Vec::new(alloc);
    for (place, one) in wanted.iter().enumerate() {
        output.extend_from_slice(&tape_of(alloc, one, &airs[place])?)?;
    }
    Ok(output)
}
