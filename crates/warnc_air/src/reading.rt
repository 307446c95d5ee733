//! How a capture is read: part by part, each of which a walk takes.

ghost use Rattle.std.specs.Prelude.{◌≡◌, ◌<◌, ◌≤◌, ◌+◌, ◌-◌, true, IfOk, OnErr};
ghost use Rattle.device_ends.specs.Moves.{ConsumesSome};
ghost use Rattle.device_ends.specs.ReadFault.{reports_device};
ghost use Rattle.device_ends.specs.Source.{source_failed};
ghost use Rattle.device_ends.specs.Stream.{Reads};
ghost use Rattle.gsmtap.specs.Walk.{IsWalkOf};
ghost use Rattle.warnc_air.specs.TapeOutput.{max_capture};
ghost use Rattle.warnc_air.specs.WalkSteps.{IsNewWalk, IsWithin, WalksUpTo};

use crate::tape::MAX_INPUT;
use device_ends::{ReadFault, Source, read_up_to};
use gsmtap::{TakesPackets, Walk};
use std::alloc::Global;
use std::io::Read;

/// How many octets of a capture are read at a time at most: 64 KiB.
const PART: usize = 0x1_0000;

/// Hands the octets of a reader to a new walk, up to the reader's end or one octet past the bound, and returns how many
/// they are.
///
/// # Errors
///
/// Those of [`read_up_to`].
pub(crate) fn walk_over<R: Read, T: TakesPackets>(
    alloc: Global,
    source: &mut Source<R>,
    walk: &mut Walk<T>,
) -> Result<usize, ReadFault>
    requires { IsNewWalk (IsWalkOf T.taking T.HasTaken) walk.old }
    ensures walks { IfOk result (λ count. Reads R.remaining (λ old new. WalksUpTo (IsWalkOf T.taking T.HasTaken)
        walk.old walk.new count max_capture old new) source.old source.new) }
    ensures err { OnErr result (Reads R.remaining (λ old new. ConsumesSome old new (MAX_INPUT + 1)) source.old
        source.new) }
    ensures failed { source_failed source.new ≡ reports_device result }
    ensures failed_stays { source_failed source.old ≡ true → source.new ≡ source.old }
{
    let mut read = 0;
    while read <= MAX_INPUT {
        let room = PART.min(MAX_INPUT + 1 - read);
        let count = walk_part(alloc, source, walk, room)?;
        read += count;
        if count < room {
            return Ok(read);
        }
    }
    Ok(read)
}

/// Hands the next octets of a reader to a walk, this many at most and fewer only at the reader's end, and returns how
/// many they are.
fn walk_part<R: Read, T: TakesPackets>(
    alloc: Global,
    source: &mut Source<R>,
    walk: &mut Walk<T>,
    room: usize,
) -> Result<usize, ReadFault>
    requires some { 0 < room }
    requires few { room ≤ PART }
    requires walk { IsWithin (IsWalkOf T.taking T.HasTaken) walk.old }
    ensures walks { IfOk result (λ count. Reads R.remaining (λ old new. WalksUpTo (IsWalkOf T.taking T.HasTaken)
        walk.old walk.new count (room - 1) old new) source.old source.new) }
    ensures bound { IfOk result (λ count. count ≤ room) }
    ensures err { OnErr result (Reads R.remaining (λ old new. ConsumesSome old new room) source.old source.new) }
    ensures failed { source_failed source.new ≡ reports_device result }
    ensures failed_stays { source_failed source.old ≡ true → source.new ≡ source.old }
{
    let part = read_up_to(source, alloc, room - 1)?;
    walk.push(&part);
    Ok(part.len())
}
