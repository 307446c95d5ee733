//! Whether the slots of a cell were noted right.

ghost use Rattle.std.specs.Prelude.{◌≡◌, ℕ, ◌≤◌, List, [], ◌∷◌, ◌++◌, length, IfOk, true};
ghost use Rattle.std.specs.List.{list_all};
ghost use Rattle.bsc_table.specs.Record.{Record};
ghost use Rattle.order_desk.specs.declared.note.Note.{Note};
ghost use Rattle.order_desk.specs.Agreement.{IsRightSlot};
ghost use Rattle.order_desk.specs.SettleSteps.{AreTimes, HasNoted, IsLeastFailing, has_slot, ends_by, ranges_of};

use crate::settle::cell_notes::{CellNotes, lesser};
use crate::settle::counts::{count, first_not_once, none_counted};
use bsc_table::SlotRange;
use std::alloc::{AllocError, Global};

/// Counts the slots of a range.
fn count_range(times: &mut [u8], range: SlotRange)
    ensures places { length times.new ≡ length times.old }
    ensures counted { (given : List SlotRange) → AreTimes has_slot given times.old
        → AreTimes has_slot (given ++ range ∷ []) times.new }
{
    count(times, usize::from(range.from), usize::from(range.to));
}

/// Counts the slots of ranges.
fn count_ranges(times: &mut [u8], ranges: &[SlotRange])
    requires { AreTimes has_slot [] times.old }
    ensures places { length times.new ≡ length times.old }
    ensures each { AreTimes has_slot ranges.now times.new }
{
    for range in ranges {
        count_range(times, *range);
    }
}

/// How often each slot before the clock was noted as played, told up to 255.
fn times_played(alloc: Global, clock: u16, notes: &CellNotes) -> Result<Vec<u8>, AllocError>
    ensures { IfOk result (λ times. (length times.items ≡ clock)
        × AreTimes has_slot (ranges_of notes.now) times.items) }
{
    let mut times = none_counted(alloc, usize::from(clock))?;
    count_ranges(times.as_mut_slice(), notes.ranges.as_slice());
    count_range(times.as_mut_slice(), notes.last);
    Ok(times)
}

/// Whether none of these ranges ends after a slot.
fn all_end_by(slot: u16, ranges: &[SlotRange]) -> bool
    ensures { result ≡ list_all (ends_by slot) ranges.now }
{
    ranges.iter().all(|range| range.to <= slot)
}

/// The clock if a range ends after it.
fn first_late(clock: u16, notes: &CellNotes) -> Option<u16>
    ensures { IsLeastFailing (λ slot. clock ≤ slot → list_all (ends_by slot) (ranges_of notes.now) ≡ true) result }
{
    if notes.last.to <= clock && all_end_by(clock, notes.ranges.as_slice()) {
        None
    } else {
        Some(clock)
    }
}

/// The least slot at which what was noted of a cell, whose clock stands at one, isn't right.
pub(crate) fn first_overlap(
    alloc: Global,
    clock: u16,
    notes: &CellNotes,
) -> Result<Option<u16>, AllocError>
    ensures { IfOk result (λ slot. (r : Record) (passes : List (List Note)) → r.clock ≡ clock
        → HasNoted r passes [] notes.now
        → IsLeastFailing (IsRightSlot r.cell r.clock passes) slot) }
{
    let times = times_played(alloc, clock, notes)?;
    let not_once = first_not_once(times.as_slice());
    let late = first_late(clock, notes);
    Ok(lesser(not_once, late))
}
