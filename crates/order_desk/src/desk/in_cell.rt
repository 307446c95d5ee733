//! Steps of one cell while its book is held; each is recorded in the notes of the pass.

ghost use Rattle.std.specs.Prelude.{◌≡◌, ◌+◌, ◌≤◌, ◌∷◌, [], ◌++◌, IfOk, IfErr, OnOk, OnErr, IsTrue, List, vec_len};
ghost use Rattle.std.specs.Prelude.{vec_capacity};
ghost use Rattle.bsc_table.specs.Orders.{IsWellFormed};
ghost use Rattle.order_desk.specs.declared.note.Note.{Note};
ghost use Rattle.order_desk.specs.DeskSteps.{IsGivenUp, IsUntold};
ghost use Rattle.order_desk.specs.Notes.{IsAsked, IsPlay, IsPlayedFor, IsRunOf, IsOrderServed, IsStatus};

use crate::desk::order::CellFault;
use crate::fault::DeskFault;
use crate::note::Note;
use bsc_table::{Answer, CellBook, Command, Entry, Refused, SlotRange, State};
use cbs_page::Serial;
use cbsp_wire::{Cell, cause};

/// Has a cell answer a command, and notes it. What the note takes is taken before the answer, which it can't undo.
fn ask(book: &mut CellBook, notes: &mut Vec<Note>, command: &Command) -> Result<Answer, Refused>
    requires formed { IsWellFormed command.now }
    requires room { vec_len notes.old + 1 ≤ vec_capacity notes.old }
    ensures asked { OnOk result (IfOk result (λ answer. (note : Note)
        × IsAsked command.now answer book.old book.new note
        × (notes.new.items ≡ notes.old.items ++ note ∷ []))) }
    ensures refused { OnErr result ((book.new ≡ book.old) × (notes.new ≡ notes.old)) }
    ensures stays { IsRunOf book.old.cell book.old.slots book.new }
    ensures room_stays { vec_capacity notes.new ≡ vec_capacity notes.old }
{
    let cell = book.cell();
    let slot = book.clock();
    let number = book.log().len() as u16;
    let copy = command.copy(*notes.allocator())?;
    let answer = book.apply(command);
    match answer {
        Answer::Refused => return Err(Refused),
        Answer::Cause(cause::BSC_MEMORY_EXCEEDED) => notes.push_reserved(Note::Full { cell }),
        _ => notes.push_reserved(Note::Event {
            cell,
            number,
            entry: Entry {
                command: copy,
                slot,
                answer,
            },
        }),
    }
    Ok(answer)
}

/// Whether a lent book is that of a cell in a run of this many slots.
pub(crate) fn is_book_of(book: &CellBook, cell: Cell, slots: u16) -> bool
    ensures own { IsTrue result → IsRunOf cell slots book.now }
    ensures legal { IsRunOf book.now.cell book.now.slots book.now }
{
    // What the clock says is that the book is a legal history.
    let _ = book.clock();
    book.cell() == cell && book.slots() == slots
}

/// Plays a cell up to the slot of an order from `at` on, and notes the range if it isn't empty.
fn play_for(book: &mut CellBook, notes: &mut Vec<Note>, at: u16)
    requires room { vec_len notes.old + 1 ≤ vec_capacity notes.old }
    ensures played { (ranges : List Note)
        × IsPlayedFor at book.old book.new ranges
        × (notes.new.items ≡ notes.old.items ++ ranges) }
    ensures stays { IsRunOf book.old.cell book.old.slots book.new }
    ensures few { vec_len notes.new ≤ vec_len notes.old + 1 }
    ensures room_stays { vec_capacity notes.new ≡ vec_capacity notes.old }
{
    let cell = book.cell();
    let SlotRange { from, to } = book.play(at.saturating_sub(book.clock()));
    if from < to {
        notes.push_reserved(Note::Played { cell, from, to });
    }
}

/// Serves an order from `at` on in a cell: plays it up to the order's slot and has it answer the command, and notes
/// both.
fn play_and_ask(
    book: &mut CellBook,
    notes: &mut Vec<Note>,
    at: u16,
    command: &Command,
) -> Result<Answer, Refused>
    requires formed { IsWellFormed command.now }
    requires room { vec_len notes.old + 2 ≤ vec_capacity notes.old }
    ensures served { OnOk result (IfOk result (λ answer. (added : List Note)
        × IsOrderServed at command.now answer book.old book.new added
        × (notes.new.items ≡ notes.old.items ++ added))) }
    ensures refused { OnErr result ((ranges : List Note)
        × IsPlayedFor at book.old book.new ranges
        × (notes.new.items ≡ notes.old.items ++ ranges)) }
    ensures stays { IsRunOf book.old.cell book.old.slots book.new }
    ensures few { vec_len notes.new ≤ vec_len notes.old + 2 }
    ensures room_stays { vec_capacity notes.new ≡ vec_capacity notes.old }
{
    play_for(book, notes, at);
    ask(book, notes, command)
}

/// Serves an order from `at` on in a cell whose run has this many slots, if the lent book is the cell's.
pub(crate) fn serve(
    book: &mut CellBook,
    notes: &mut Vec<Note>,
    slots: u16,
    at: u16,
    cell: Cell,
    command: &Command,
) -> Result<Answer, CellFault>
    requires formed { IsWellFormed command.now }
    requires room { vec_len notes.old + 2 ≤ vec_capacity notes.old }
    ensures done { OnOk result (IfOk result (λ answer. (added : List Note)
        × IsRunOf cell slots book.old
        × IsOrderServed at command.now answer book.old book.new added
        × (notes.new.items ≡ notes.old.items ++ added))) }
    ensures halted { OnErr result (IfErr result (λ halt. (added : List Note)
        × IsGivenUp halt slots at cell book.old book.new added
        × (notes.new.items ≡ notes.old.items ++ added))) }
    ensures stays { IsRunOf book.old.cell book.old.slots book.new }
    ensures few { vec_len notes.new ≤ vec_len notes.old + 2 }
    ensures room_stays { vec_capacity notes.new ≡ vec_capacity notes.old }
{
    if !is_book_of(book, cell, slots) {
        return Err(CellFault::WrongBook);
    }
    match play_and_ask(book, notes, at, command) {
        Ok(served) => Ok(served),
        Err(Refused) => Err(CellFault::Refused),
    }
}

/// Plays `k` slots of a cell, or those up to the run's end, and notes the range, also if it is empty.
pub(crate) fn play(book: &mut CellBook, notes: &mut Vec<Note>, k: u16) -> SlotRange
    requires room { vec_len notes.old + 1 ≤ vec_capacity notes.old }
    ensures played { (note : Note)
        × IsPlay k result book.old book.new note
        × (notes.new.items ≡ notes.old.items ++ note ∷ []) }
    ensures stays { IsRunOf book.old.cell book.old.slots book.new }
{
    let cell = book.cell();
    let range = book.play(k);
    notes.push_reserved(Note::Played {
        cell,
        from: range.from,
        to: range.to,
    });
    range
}

/// Has a cell tell how often a message was broadcast and how it stands, and notes it.
pub(crate) fn status(
    book: &mut CellBook,
    notes: &mut Vec<Note>,
    id: u16,
    serial: Serial,
) -> Result<Option<(u16, State)>, DeskFault>
    requires room { vec_len notes.old + 1 ≤ vec_capacity notes.old }
    ensures told { OnOk result (IfOk result (λ told. (note : Note)
        × IsStatus id serial told book.old book.new note
        × (notes.new.items ≡ notes.old.items ++ note ∷ []))) }
    ensures refused { OnErr result (IfErr result (λ fault. (added : List Note)
        × IsUntold id serial fault book.old book.new added
        × (notes.new.items ≡ notes.old.items ++ added))) }
    ensures stays { IsRunOf book.old.cell book.old.slots book.new }
{
    match ask(book, notes, &Command::Status { id, serial }) {
        Ok(Answer::Told { completed, state }) => Ok(Some((completed, state))),
        Ok(Answer::Unknown) => Ok(None),
        // The log is full.
        Ok(_) => Err(DeskFault::Full),
        Err(Refused) => Err(DeskFault::Memory { done: 0 }),
    }
}
