//! The end of a run: its tapes are made and written.

ghost use Rattle.std.specs.Prelude.{◌≡◌, ◌<◌, ℕ, List, length, false, true, is_err, All, IfErr, OnErr, OnOk};
ghost use Rattle.std.specs.Io.KnownBytes.{Appends};
ghost use Rattle.std.specs.List.{flat_map};
ghost use Rattle.cbch_blocks.specs.RecordBlocks.{tape_of_record};
ghost use Rattle.device_ends.specs.Sink.{sink_failed, writer_of};
ghost use Rattle.warnc_run.specs.Faults.{IsWriteFault};
ghost use Rattle.warnc_run.specs.RunSteps.{HasItsSize, TakesFront};
ghost use Rattle.warnc_run.specs.StrictSteps.{StopsAtRecord};

use crate::fault::RunFault;
use crate::pieces::write_in_pieces;
use crate::watch::Watch;
use bsc_table::CellRecord;
use cbch_blocks::{Tape, TapePiece, WriteFailed};
use device_ends::Sink;
use std::alloc::Global;
use std::io::Write;

/// Writes tapes, one after the other.
pub(crate) fn write_tapes<W: Write>(tapes: &[Tape], sink: &mut Sink<W>) -> Result<(), WriteFailed>
    requires { All (λ tape. 0 < length tape) tapes.now }
    ensures ok { OnOk result (Appends (W.contents (writer_of sink.old))
        (W.contents (writer_of sink.new)) (flat_map (λ (tape : List ℕ). tape) tapes.now)) }
    ensures err { IfErr result (λ failed. TakesFront tapes.now failed.written (W.contents (writer_of sink.old))
        (W.contents (writer_of sink.new))) }
    ensures some { sink_failed sink.old ≡ false → OnErr result (0 < length tapes.now) }
    ensures failed { sink_failed sink.new ≡ is_err result }
    ensures failed_stays { sink_failed sink.old ≡ true → sink.new ≡ sink.old }
{
    if sink.failed() {
        return Err(WriteFailed { written: 0 });
    }
    for tape in tapes {
        tape.write_to(sink)?;
    }
    Ok(())
}

/// Writes the tapes of records, in their order. The memory for a piece of a tape is taken before the first octet is
/// written, and no other, so memory can't run out later.
pub(crate) fn write_tapes_of<W: Write, G: Watch>(
    alloc: Global,
    records: &[CellRecord],
    sink: &mut Sink<W>,
    watch: &G,
) -> Result<(), RunFault>
    requires sized { All HasItsSize records.now }
    ensures ok { OnOk result (Appends (W.contents (writer_of sink.old)) (W.contents (writer_of sink.new))
        (flat_map tape_of_record records.now)) }
    ensures err { IfErr result (StopsAtRecord records.now (W.contents (writer_of sink.old))
        (W.contents (writer_of sink.new))) }
    ensures not_failed { OnOk result (sink_failed sink.new ≡ false) }
    ensures untouched { IfErr result (λ fault. (IsWriteFault fault → ⊥) → sink.new ≡ sink.old) }
    ensures write { IfErr result (λ fault. IsWriteFault fault → sink_failed sink.new ≡ true) }
    ensures stays { sink_failed sink.old ≡ true → sink.new ≡ sink.old }
{
    let mut room = TapePiece::open(alloc)?;
    match write_in_pieces(records, &mut room, sink, watch) {
        Ok(()) => Ok(()),
        Err(failed) => Err(RunFault::Write(failed)),
    }
}
