//! The command `tape`: a capture file to a tape.

ghost use Rattle.std.specs.Prelude.{◌≡◌, ◌+◌, ◌∷◌, [], IfErr, IfOk, OnOk};
ghost use Rattle.device_ends.specs.Moves.{ConsumesSome};
ghost use Rattle.device_ends.specs.Source.{reader_of};
ghost use Rattle.device_ends.specs.Stream.{FaultOfInput, IsStreamBetween, OutputOfInput};
ghost use Rattle.gsmtap.specs.TapeOfCapture.{IsTapeOfCapture};
ghost use Rattle.gsmtap.specs.TapesTaken.{IsWalkFor};
ghost use Rattle.warnc_air.specs.TapeOutput.{IsTapeCommandFault, IsTapeWriteFault, fault_of_air};

use crate::reading::walk_over;
use device_ends::{Failed, ReadFault, Sink, Source, write_all};
use gsmtap::{AirFault, AirFaultKind, Tapes, Walk, Wanted, tapes_of_walk};
use std::alloc::{AllocError, Global};
use std::io::{Read, Write};
use std::slice;
use thiserror::Error;

/// The most octets that are read: 1 GiB.
pub const MAX_INPUT: usize = 0x4000_0000;

/// Why `tape` writes no tape, and `cells` no table. If several of the first three apply, it is the first of them.
#[derive(Clone, Copy, Debug, PartialEq, Eq, Error)]
pub enum TapeCommandFault {
    /// The reader failed.
    #[error("read failed")]
    ReadFailed,
    /// There are more than 1,073,741,824 octets.
    #[error("capture is too long")]
    TooLong,
    /// The file or a packet of it is at fault.
    #[error("{0}")]
    Air(AirFault),
    /// Out of memory.
    #[error("out of memory")]
    Refused,
    /// The writer failed. Some of the tape may be out.
    #[error("write failed")]
    WriteFailed,
}

/// Reads a capture file, and writes the tape that it is. Nothing is written before all of the tape is made. The file
/// isn't kept: what was read is dropped once its packets are taken, and after a fault at once.
pub fn tape_stream<R: Read, W: Write>(
    alloc: Global,
    source: &mut Source<R>,
    sink: &mut Sink<W>,
    wanted: &Wanted,
) -> Result<(), TapeCommandFault>
    // What was written is the tape of the file that was read, at any reader of some file.
    ensures ok { OnOk result (OutputOfInput R.remaining W.contents (IsTapeOfCapture wanted.now) source.old
        sink.old sink.new) }
    ensures err { IfErr result (FaultOfInput R.remaining W.contents (IsTapeCommandFault wanted.now) source.old sink.old
        sink.new) }

    // One octet past the bound is read at most.
    ensures reads { ConsumesSome (R.remaining (reader_of source.old)) (R.remaining (reader_of source.new))
        (MAX_INPUT + 1) }

    // At any reader and any writer.
    ensures any_ends { IsStreamBetween TapeCommandFault.ReadFailed IsTapeWriteFault result W.contents source.old
        source.new sink.old sink.new }
{
    if source.failed() {
        return Err(TapeCommandFault::ReadFailed);
    }
    let Ok(mut walk) = walk_for(alloc, wanted) else {
        return Err(TapeCommandFault::Refused);
    };
    let count = match walk_over(alloc, source, &mut walk) {
        Ok(count) => count,
        Err(ReadFault::Device) => return Err(TapeCommandFault::ReadFailed),
        Err(ReadFault::Refused) => return Err(TapeCommandFault::Refused),
    };
    if count > MAX_INPUT {
        return Err(TapeCommandFault::TooLong);
    }
    let output = match tapes_of_walk(alloc, walk) {
        Ok(output) => output,
        Err(fault) => return Err(fault_of_air(fault.alone())),
    };
    match write_all(sink, &output) {
        Ok(()) => Ok(()),
        Err(Failed) => Err(TapeCommandFault::WriteFailed),
    }
}

/// A walk over a capture file for one tape.
fn walk_for(alloc: Global, wanted: &Wanted) -> Result<Walk<Tapes>, AllocError>
    ensures { IfOk result (IsWalkFor (wanted.now ∷ []) []) }
{
    let wanted = Vec::from_slice(alloc, slice::from_ref(wanted))?;
    Ok(Walk::new(alloc, Tapes::new(alloc, wanted)?))
}

/// The fault that a fault of a file is.
pub(crate) fn fault_of_air(fault: AirFault) -> TapeCommandFault
    ensures { result ≡ fault_of_air fault }
{
    match fault.kind {
        AirFaultKind::Refused => TapeCommandFault::Refused,
        _ => TapeCommandFault::Air(fault),
    }
}
