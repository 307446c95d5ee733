//! Whether the numbers of a cell's log were noted right.

ghost use Rattle.std.specs.Prelude.{◌≡◌, ℕ, ◌≤◌, List, [], length, true};
ghost use Rattle.bsc_table.specs.Record.{Record};
ghost use Rattle.order_desk.specs.declared.note.Note.{Note};
ghost use Rattle.order_desk.specs.Agreement.{IsRightNumber};
ghost use Rattle.order_desk.specs.SettleSteps.{HasNoted, IsLeastFailing};

use crate::settle::MAX_ENTRIES;
use crate::settle::cell_notes::{CellNotes, lesser};
use crate::settle::counts::first_not_once;

/// The number 4,096 if the cell's log was noted as full, and it has fewer entries.
fn first_not_full(entries: usize, notes: &CellNotes) -> Option<u16>
    ensures { IsLeastFailing (λ k. k ≡ 4096 → notes.now.is_full ≡ true → 4096 ≤ entries) result }
{
    if notes.is_full && entries < usize::from(MAX_ENTRIES) {
        Some(MAX_ENTRIES)
    } else {
        None
    }
}

/// The least number at which what was noted of a cell, whose log has this many entries, isn't right.
pub(crate) fn first_strange(entries: usize, notes: &CellNotes) -> Option<u16>
    requires places { length notes.now.times_noted.items ≡ entries }
    requires few { entries ≤ 4096 }
    ensures { (r : Record) (passes : List (List Note)) → length r.log ≡ entries → HasNoted r passes [] notes.now
        → IsLeastFailing (IsRightNumber r.cell r.log passes) result }
{
    let not_once = first_not_once(notes.times_noted.as_slice());
    let not_full = first_not_full(entries, notes);
    lesser(lesser(notes.misplaced, not_once), not_full)
}
