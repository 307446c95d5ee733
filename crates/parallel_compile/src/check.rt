//! Tapes beside the records that they should be of.

ghost use Rattle.std.specs.Prelude.{◌≡◌, ◌↔◌, IfErr, IfOk, IsTrue, Some, map};
ghost use Rattle.std.specs.List.{slice_get};
ghost use Rattle.cbch_blocks.specs.RecordBlocks.{tape_of_record};
ghost use Rattle.parallel_compile.specs.Checked.{IsFirstOther, IsFirstOtherFault};

use crate::fault::CompileFault;
use bsc_table::CellRecord;
use cbch_blocks::Tape;

/// Whether the tape at a place is that of a record.
fn has_at(tapes: &[Tape], place: usize, run: &CellRecord) -> bool
    ensures { IsTrue result ↔ (slice_get tapes.now place ≡ Some (tape_of_record run.now)) }
{
    match tapes.get(place) {
        Some(tape) => tape.is_of(run),
        None => false,
    }
}

/// The least place at which tapes aren't those of the records, if there is one.
fn first_other(tapes: &[Tape], records: &[CellRecord]) -> Option<u64>
    ensures { IsFirstOther tapes.now (map tape_of_record records.now) result }
{
    for place in 0..records.len() {
        if !has_at(tapes, place, &records[place]) {
            return Some(place as u64);
        }
    }
    if tapes.len() > records.len() {
        Some(records.len() as u64)
    } else {
        None
    }
}

/// Checks that tapes are those of records, as [`compile_one`](crate::compile_one) makes them. Takes no memory.
///
/// # Errors
///
/// Returns [`CompileFault::Piece`] exactly if they aren't, with the least place at which they differ: where one of the
/// lists ends before the other, that is its end.
pub fn check_streamed(tapes: &[Tape], records: &[CellRecord]) -> Result<(), CompileFault>
    ensures ok { IfOk result (λ _. tapes.now ≡ map tape_of_record records.now) }
    ensures err { IfErr result (IsFirstOtherFault tapes.now (map tape_of_record records.now)) }
{
    match first_other(tapes, records) {
        Some(index) => Err(CompileFault::Piece { index }),
        None => Ok(()),
    }
}
