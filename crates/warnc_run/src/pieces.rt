//! Tapes that are written piece by piece, so that a processor's own memory holds each from when it is made until it is
//! written.

ghost use Rattle.std.specs.Prelude.{◌≡◌, ◌⊎◌, ◌+◌, ◌*◌, ◌<◌, ◌≤◌, false, true, is_err, length, map, take, All, IfErr};
ghost use Rattle.std.specs.Prelude.{OnOk};
ghost use Rattle.std.specs.Io.KnownBytes.{Appends};
ghost use Rattle.std.specs.List.{flat_map};
ghost use Rattle.cbch_blocks.specs.RecordBlocks.{tape_of_record};
ghost use Rattle.device_ends.specs.Sink.{sink_failed, writer_of};
ghost use Rattle.warnc_run.specs.RunSteps.{HasItsSize, TakesFront};

use crate::watch::Watch;
use bsc_table::CellRecord;
use cbch_blocks::{PIECE_SLOTS, TapePiece, WriteFailed, piece_start};
use device_ends::Sink;
use std::io::Write;

/// How many pieces the tape of so many slots has. That of none has a header.
fn count_pieces(slots: u16) -> u16
    ensures some { 0 < result }
    ensures enough { slots ≤ result * 256 }
    ensures few { result * 256 < slots + 256 ⊎ result ≡ 1 }
{
    slots.div_ceil(PIECE_SLOTS).max(1)
}

/// Writes the tape of a record: each piece of it is made in this room, and written before the next.
fn write_tape<W: Write>(
    run: &CellRecord,
    room: &mut TapePiece,
    sink: &mut Sink<W>,
) -> Result<(), WriteFailed>
    requires sized { HasItsSize run.now }
    requires works { sink_failed sink.old ≡ false }
    ensures ok { OnOk result (Appends (W.contents (writer_of sink.old)) (W.contents (writer_of sink.new))
        (tape_of_record run.now)) }
    ensures err { IfErr result (λ failed. Appends (W.contents (writer_of sink.old)) (W.contents (writer_of sink.new))
        (take failed.written (tape_of_record run.now))) }
    ensures front { IfErr result (λ failed. failed.written < length (tape_of_record run.now)) }
    ensures failed { sink_failed sink.new ≡ is_err result }
{
    // A tape is its pieces, one behind the other, and none of them is so long that a place in a tape has no number.
    cbch_blocks::piece_laws();
    for number in 0..count_pieces(run.slots()) {
        let first = number * PIECE_SLOTS;
        room.become_that_of(run, first);
        match room.write_to(sink) {
            Ok(()) => {}
            Err(failed) => {
                let written = piece_start(first) + failed.written;
                return Err(WriteFailed { written });
            }
        }
    }
    Ok(())
}

/// Writes the tapes of records, in their order, piece by piece. It takes no memory, so memory can't run out once octets
/// are written. `watch` is told of each tape that is written.
pub(crate) fn write_in_pieces<W: Write, G: Watch>(
    records: &[CellRecord],
    room: &mut TapePiece,
    sink: &mut Sink<W>,
    watch: &G,
) -> Result<(), WriteFailed>
    requires sized { All HasItsSize records.now }
    ensures ok { OnOk result (Appends (W.contents (writer_of sink.old)) (W.contents (writer_of sink.new))
        (flat_map tape_of_record records.now)) }
    ensures err { IfErr result (λ failed. TakesFront (map tape_of_record records.now) failed.written
        (W.contents (writer_of sink.old)) (W.contents (writer_of sink.new))) }
    ensures failed { sink_failed sink.new ≡ is_err result }
    ensures failed_stays { sink_failed sink.old ≡ true → sink.new ≡ sink.old }
{
    if sink.failed() {
        let written = 0;
        return Err(WriteFailed { written });
    }
    for run in records {
        write_tape(run, room, sink)?;
        watch.done();
    }
    Ok(())
}
