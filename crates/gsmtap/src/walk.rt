//! A capture file that comes in parts, and whose packets a taker takes.

ghost use Rattle.std.specs.Prelude.{◌≡◌, ◌≤◌, ◌++◌, ℕ, List, [], false, drop, length, IfErr, IfOk, MatchBool, OnOk};
ghost use Rattle.gsmtap.specs.File.{is_pcapng};
ghost use Rattle.gsmtap.specs.Taken.{IsFileFault};
ghost use Rattle.gsmtap.specs.Taker.{HasTakenAll};
ghost use Rattle.gsmtap.specs.Walk.{IsLastingFault, HasNoBegin, IsWalkOf, OfSome};
ghost use Rattle.gsmtap.specs.WalkSteps.{IsToOpen, IsToTake};

use crate::fault::{AirFault, AirFaultKind};
use crate::file::is_pcapng;
use crate::frontier::Frontier;
use crate::pieces::Reader;
use crate::taker::TakesPackets;
use crate::tape::{FILE_HEADER, fault_at, opened};
use std::alloc::Global;

/// How far a walk has come.
#[derive(Clone, Copy, Debug, PartialEq, Eq)]
pub enum WalkStage {
    /// Too few octets came to say what the file is.
    Begin,
    /// All whole pieces were taken of what came.
    Pieces,
    /// The file has this fault, whatever comes.
    Fault(AirFault),
}

/// A walk over a capture file that comes in parts, and whose packets a taker takes. It holds the taker, and the octets
/// of the packet or block that isn't whole yet.
#[derive(Drop)]
pub struct Walk<T> {
    alloc: Global,
    stage: WalkStage,
    front: Frontier<T>,
    left: Vec<u8>,
}

impl<T: TakesPackets> Walk<T> {
    /// A walk over a file of which nothing came yet.
    pub fn new(alloc: Global, taker: T) -> Walk<T>
        ensures { (given : T.Given) → T.HasTaken given [] taker → IsWalkOf T.taking T.HasTaken given [] result }
    {
        Walk {
            alloc,
            stage: WalkStage::Begin,
            front: Frontier {
                reader: Reader::of_blocks(alloc),
                taker,
                packets: 0,
            },
            left: Vec::new(alloc),
        }
    }

    /// Takes the next octets of the file, of less than 2^48 in all. Those that come after a fault, of which out of
    /// memory is one, are dropped.
    pub fn push(&mut self, octets: &[u8])
        requires { OfSome (IsWalkOf T.taking T.HasTaken) self.old (length octets.now) }
        ensures { (given : T.Given) (input : List ℕ) → IsWalkOf T.taking T.HasTaken given input self.old →
            IsWalkOf T.taking T.HasTaken given (input ++ octets.now) self.new }
    {
        if let Err(fault) = self.take(octets) {
            self.stage = WalkStage::Fault(fault);
            self.left = Vec::new(self.alloc);
        }
    }

    /// Takes octets, and the pieces that are whole by them.
    fn take(&mut self, octets: &[u8]) -> Result<(), AirFault>
        requires { OfSome (IsWalkOf T.taking T.HasTaken) self.old (length octets.now) }
        ensures walked { OnOk result ((given : T.Given) (input : List ℕ) →
            IsWalkOf T.taking T.HasTaken given input self.old →
            IsWalkOf T.taking T.HasTaken given (input ++ octets.now) self.new) }
        ensures fault { IfErr result (λ fault. (given : T.Given) (input : List ℕ) →
            IsWalkOf T.taking T.HasTaken given input self.old →
            IsLastingFault (T.taking given) (input ++ octets.now) fault) }
    {
        match self.stage {
            WalkStage::Begin => {
                self.left.extend_from_slice(octets)?;
                self.open()
            }
            WalkStage::Pieces => {
                self.left.extend_from_slice(octets)?;
                self.take_pieces()
            }
            WalkStage::Fault(_) => Ok(()),
        }
    }

    /// Says what the file is, if enough of it came, and takes its whole pieces.
    fn open(&mut self) -> Result<(), AirFault>
        requires { OfSome (IsToOpen T.HasTaken) self.old 0 }
        ensures walked { OnOk result ((given : T.Given) (input : List ℕ) →
            IsToOpen T.HasTaken given input self.old → IsWalkOf T.taking T.HasTaken given input self.new) }
        ensures fault { IfErr result (λ fault. (given : T.Given) (input : List ℕ) →
            IsToOpen T.HasTaken given input self.old → IsLastingFault (T.taking given) input fault) }
    {
        if has_no_begin(&self.left) {
            return Ok(());
        }
        let (reader, after) = match opened(self.alloc, &self.left) {
            Ok((reader, after)) => (reader, after.len()),
            Err(kind) => return Err(fault_at(0, kind)),
        };
        self.stage = WalkStage::Pieces;
        self.front.reader = reader;
        let before = self.left.len() - after;
        drop_front(&mut self.left, before);
        self.take_pieces()
    }

    /// Takes the whole pieces of what is left.
    fn take_pieces(&mut self) -> Result<(), AirFault>
        requires { OfSome (IsToTake T.taking T.HasTaken) self.old 0 }
        ensures walked { OnOk result ((given : T.Given) (input : List ℕ) →
            IsToTake T.taking T.HasTaken given input self.old → IsWalkOf T.taking T.HasTaken given input self.new) }
        ensures fault { IfErr result (λ fault. (given : T.Given) (input : List ℕ) →
            IsToTake T.taking T.HasTaken given input self.old → IsLastingFault (T.taking given) input fault) }
    {
        let taken = match self.front.take_pieces(&self.left) {
            Ok(taken) => taken,
            Err(fault) => return Err(fault),
        };
        drop_front(&mut self.left, taken);
        Ok(())
    }
}

impl<T: TakesPackets + Drop> Walk<T> {
    /// The taker, which has all packets of the file that all octets are which came.
    ///
    /// # Errors
    ///
    /// Returns the fault of the first packet or block that has one, or of the file's begin, which is packet 0, and out
    /// of memory.
    pub fn end(self) -> Result<T, AirFault>
        requires { OfSome (IsWalkOf T.taking T.HasTaken) self 0 }
        ensures taken { IfOk result (λ taker. (given : T.Given) (input : List ℕ) →
            IsWalkOf T.taking T.HasTaken given input self →
            HasTakenAll (T.taking given) (T.HasTaken given) input taker) }
        ensures fault { IfErr result (λ fault. (given : T.Given) (input : List ℕ) →
            IsWalkOf T.taking T.HasTaken given input self →
            IsFileFault (T.taking given) input fault.packet fault.kind) }
    {
        match self.stage {
            WalkStage::Begin => Err(fault_at(0, AirFaultKind::NoCapture)),
            WalkStage::Pieces => {
                if self.left.is_empty() {
                    Ok(self.front.taker)
                } else {
                    Err(fault_at(self.front.packets + 1, AirFaultKind::Short))
                }
            }
            WalkStage::Fault(fault) => Err(fault),
        }
    }
}

/// Whether octets are too few to say what the file is that begins with them.
fn has_no_begin(octets: &[u8]) -> bool
    ensures { MatchBool result (HasNoBegin octets.now) (is_pcapng octets.now ≡ false → 24 ≤ length octets.now) }
{
    octets.len() < FILE_HEADER && !is_pcapng(octets)
}

/// Drops the first octets, of this number.
fn drop_front(octets: &mut Vec<u8>, count: usize)
    requires { count ≤ length octets.old.items }
    ensures { octets.new.items ≡ drop count octets.old.items }
{
    let rest = octets.len() - count;
    octets.copy_within(count.., 0);
    octets.truncate(rest);
}
