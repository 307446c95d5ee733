//! What cells answered to a command, by the notes of a pass.

ghost use Rattle.std.specs.Prelude.{◌≡◌, ◌↔◌, List, false, true, Some, IfNone, IfOk, IfSome, IsTrue, All};
ghost use Rattle.std.specs.List.{slice_get};
ghost use Rattle.cbsp_wire.specs.declared.message.Cell.{Cell};
ghost use Rattle.cbsp_wire.specs.CellLists.{AreDistinct};
ghost use Rattle.cbsp_wire.specs.Range.{is_cell};
ghost use Rattle.bsc_table.specs.declared.entry.Answer.{Answer};
ghost use Rattle.order_desk.specs.declared.note.Note.{Note};
ghost use Rattle.order_desk.specs.Reply.{IsAnswerTo, cells_answered};
ghost use Rattle.order_desk.specs.ReplyLaws.{IsOrdered};
ghost use Rattle.book_runs.specs.Run.{is_among, given_slot};
ghost use Rattle.book_runs.specs.Sessions.{slot_before};
ghost use Rattle.session_check.specs.NotedSteps.{AreAnswersNoted, AreStanding, IsAnswerNoted, IsEntryOf, IsRecordOf};
ghost use Rattle.session_check.specs.NotedSteps.{NotesAnswer, StandsIn, record_cells, commands_in};

use crate::notes::next_command;
use bsc_table::{Answer, CellRecord, Command, Entry};
use cbsp_wire::{Cell, cause};
use order_desk::Note;
use std::alloc::{AllocError as Refused, Global};

/// The record of a cell, if it is of the run, by a look at all.
fn record_by_search(records: &[CellRecord], cell: Cell) -> Option<&CellRecord>
    ensures none { IfNone result (is_among (record_cells records.now) cell ≡ false) }
    ensures some { IfSome result (λ found. IsRecordOf records.now cell found.now) }
{
    for record in records {
        if cell == record.cell() {
            return Some(record);
        }
    }
    None
}

/// The record at a place, if it is the cell's, and no two records are of one cell.
fn record_at(
    records: &[CellRecord],
    is_distinct: bool,
    cell: Cell,
    place: usize,
) -> Option<&CellRecord>
    requires { is_distinct ≡ true → AreDistinct (record_cells records.now) }
    ensures { IfSome result (λ found. IsRecordOf records.now cell found.now) }
{
    match records.get(place) {
        Some(record) if is_distinct && cell == record.cell() => Some(record),
        _ => None,
    }
}

/// The record of a cell, if it is of the run. Where no two records are of one cell, that at a place is looked at first:
/// orders mostly name the cells in their records' order.
fn record_of(
    records: &[CellRecord],
    is_distinct: bool,
    cell: Cell,
    place: usize,
) -> Option<&CellRecord>
    requires { is_distinct ≡ true → AreDistinct (record_cells records.now) }
    ensures none { IfNone result (is_among (record_cells records.now) cell ≡ false) }
    ensures some { IfSome result (λ found. IsRecordOf records.now cell found.now) }
{
    match record_at(records, is_distinct, cell, place) {
        Some(record) => Some(record),
        None => record_by_search(records, cell),
    }
}

/// The slot of the entry before that of a number; 0 if there is none.
fn slot_before(log: &[Entry], number: u16) -> u16
    ensures { result ≡ slot_before log.now number }
{
    if number == 0 {
        return 0;
    }
    match log.get(usize::from(number) - 1) {
        Some(entry) => entry.slot,
        None => 0,
    }
}

/// The slot of the entry of a number, of a command that the history's cell was asked from slot `at` on.
fn slot_in(history: &CellRecord, number: u16, at: u16) -> u16
    ensures { result ≡ given_slot history.now.slots (slot_before history.now.log number) at }
{
    history
        .slots()
        .min(at.max(slot_before(history.log(), number)))
}

/// Whether two commands are equal.
fn are_same(one: &Command, other: &Command) -> bool
    ensures { IsTrue result ↔ (one.now ≡ other.now) }
{
    one == other
}

/// Whether an entry has the slot of a command that the history's cell was asked from slot `at` on. It stands in the log
/// at its number, and the slots of a log never fall: so if it has the command's own slot, there is no need to look at
/// the entry before it, which is seldom in a processor's cache.
fn is_at_its_slot(history: &CellRecord, at: u16, number: u16, entry: &Entry) -> bool
    requires { slice_get history.now.log number ≡ Some entry.now }
    ensures { IsTrue result
        ↔ (entry.now.slot ≡ given_slot history.now.slots (slot_before history.now.log number) at) }
{
    let slots = history.slots();
    entry.slot == slots.min(at) || entry.slot == slot_in(history, number, at)
}

/// Whether an entry of a number, at which it stands in the log, is that of a command that the history's cell was asked
/// from slot `at` on.
fn is_entry_of(history: &CellRecord, at: u16, command: &Command, number: u16, entry: &Entry) -> bool
    requires { slice_get history.now.log number ≡ Some entry.now }
    ensures { IsTrue result ↔ IsEntryOf history.now at command.now number entry.now }
{
    are_same(&entry.command, command) && is_at_its_slot(history, at, number, entry)
}

/// The answer that a note says the history's cell gave to a command that it was asked from slot `at` on.
fn answer_noted(
    history: &CellRecord,
    at: u16,
    cell: Cell,
    command: &Command,
    note: &Note,
) -> Option<Answer>
    requires ordered { IsOrdered command.now }
    requires own { is_cell cell history.now.cell ≡ true }
    requires stands { StandsIn note.now history.now }
    ensures noted { (answer : Answer) → (result ≡ Some answer)
        ↔ NotesAnswer history.now at cell command.now note.now answer }
    ensures fit { IfSome result (IsAnswerTo command.now) }
{
    // The answers of a history's log are those that its cell gave, each one that its command can get.
    order_desk::reply_laws();
    let _legal = history.slots();
    match note {
        Note::Event {
            cell: of,
            number,
            entry,
        } => {
            if cell == *of && is_entry_of(history, at, command, *number, entry) {
                Some(entry.answer)
            } else {
                None
            }
        }
        Note::Played { .. } => None,
        Note::Full { cell: of } => {
            if cell == *of {
                Some(Answer::Cause(cause::BSC_MEMORY_EXCEEDED))
            } else {
                None
            }
        }
    }
}

/// The answer of a cell to a command that it was asked from slot `at` on, by the first of some notes, and the notes
/// after it. Of a cell that isn't of the run nothing is noted: it is not identified. Its record is looked for at a
/// place first.
fn answer_in<'a>(
    records: &[CellRecord],
    is_distinct: bool,
    at: u16,
    cell: Cell,
    place: usize,
    command: &Command,
    notes: &'a [Note],
) -> Option<(Answer, &'a [Note])>
    requires distinct { is_distinct ≡ true → AreDistinct (record_cells records.now) }
    requires ordered { IsOrdered command.now }
    requires standing { AreStanding records.now (commands_in notes.now) }
    ensures noted { IfSome result (λ given. IsAnswerNoted records.now at command.now (cell, given.0)
        (commands_in notes.now) (commands_in given.1.now)) }
    ensures fit { IfSome result (λ given. IsAnswerTo command.now given.0) }
    ensures none { IfNone result ((answer : Answer) (left : List Note)
        → IsAnswerNoted records.now at command.now (cell, answer) (commands_in notes.now) left → ⊥) }
{
    let Some(record) = record_of(records, is_distinct, cell, place) else {
        return Some((Answer::Cause(cause::CELL_IDENTITY_NOT_VALID), notes));
    };
    let Some((note, rest)) = next_command(notes) else {
        return None;
    };
    match answer_noted(record, at, cell, command, note) {
        Some(answer) => Some((answer, rest)),
        None => None,
    }
}

/// The answers of cells to a command that they were asked from slot `at` on, by the first of some notes, and the notes
/// after them. None if these notes are of something else.
pub(crate) fn answers_in<'a>(
    alloc: Global,
    records: &[CellRecord],
    is_distinct: bool,
    at: u16,
    cells: &[Cell],
    command: &Command,
    notes: &'a [Note],
) -> Result<Option<(Vec<(Cell, Answer)>, &'a [Note])>, Refused>
    requires distinct { is_distinct ≡ true → AreDistinct (record_cells records.now) }
    requires ordered { IsOrdered command.now }
    requires standing { AreStanding records.now (commands_in notes.now) }
    ensures answered { IfOk result (λ found. IfSome found (λ given. cells_answered given.0.items ≡ cells.now)) }
    ensures fit { IfOk result (λ found. IfSome found (λ given.
        All (λ a. IsAnswerTo command.now a.1) given.0.items)) }
    ensures noted { IfOk result (λ found. IfSome found (λ given. AreAnswersNoted records.now at command.now
        given.0.items (commands_in notes.now) (commands_in given.1.now))) }
    ensures none { IfOk result (λ found. IfNone found ((given : List (Cell × Answer)) (left : List Note)
        → cells_answered given ≡ cells.now
        → AreAnswersNoted records.now at command.now given (commands_in notes.now) left → ⊥)) }
{
    let mut answers = Vec::with_capacity(alloc, cells.len())?;
    let mut left = notes;
    for cell in cells {
        let place = answers.len();
        let Some((answer, rest)) = answer_in(records, is_distinct, at, *cell, place, command, left)
        else {
            return Ok(None);
        };
        answers.push((*cell, answer))?;
        left = rest;
    }
    Ok(Some((answers, left)))
}
