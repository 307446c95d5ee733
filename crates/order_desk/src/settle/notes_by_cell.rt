//! The notes of all passes, each brought to its cell in one walk over them.

ghost use Rattle.std.specs.Prelude.{◌≡◌, ◌≢◌, ◌∷◌, ◌++◌, [], length, All, IfErr, IfOk, IsOk, List, true, false};
ghost use Rattle.std.specs.List.{AllZip};
ghost use Rattle.cbsp_wire.specs.Range.{are_distinct};
ghost use Rattle.bsc_table.specs.Record.{Record};
ghost use Rattle.order_desk.specs.declared.note.Note.{Note};
ghost use Rattle.order_desk.specs.declared.settle.SettleFault.TheVariants as faults;
ghost use Rattle.order_desk.specs.Settled.{AreOwn, cell_of, is_of_cells, number_of};
ghost use Rattle.order_desk.specs.SettleSteps.{AreNoted, IsForeignBy, IsForeignIn, IsOfCell};

use crate::note::{Note, Pass};
use crate::settle::cell_notes::CellNotes;
use crate::settle::{MAX_ENTRIES, SettleFault};
use bsc_table::CellBook;
use cbsp_wire::Cell;
use cbsp_wire::cells::find_near;
use std::alloc::{AllocError, Global};

/// The cell of a note.
fn cell_of(note: &Note) -> Cell
    ensures { result ≡ cell_of note.now }
{
    match note {
        Note::Event { cell, .. } | Note::Played { cell, .. } | Note::Full { cell } => *cell,
    }
}

/// The number of a note; 4,096 if it has none.
fn number_of(note: &Note) -> u16
    ensures { result ≡ number_of note.now }
{
    match note {
        Note::Event { number, .. } => *number,
        Note::Played { .. } | Note::Full { .. } => MAX_ENTRIES,
    }
}

/// No notes of the cells of these books.
fn none_noted(alloc: Global, books: &[CellBook]) -> Result<Vec<CellNotes>, AllocError>
    ensures { IfOk result (λ noted. AreNoted books.now [] [] noted.items) }
{
    let mut noted = Vec::with_capacity(alloc, books.len())?;
    for book in books {
        noted.push(CellNotes::new(alloc, book.log().len())?)?;
    }
    Ok(noted)
}

/// Ends the pass under way at each cell.
fn end_pass(noted: &mut [CellNotes])
    ensures places { length noted.new ≡ length noted.old }
    ensures ended { (books : List Record) (earlier : List (List Note)) (given : List Note)
        → AreNoted books earlier given noted.old
        → AreNoted books (earlier ++ given ∷ []) [] noted.new }
{
    for place in 0..noted.len() {
        noted[place].end_pass();
    }
}

/// Adds a note to those of its cell, and returns the place of that: near it the cell of the next note is looked for. It
/// reports a note of no cell of the desk.
fn put(
    noted: &mut [CellNotes],
    cells: &[Cell],
    books: &[CellBook],
    near: usize,
    note: &Note,
) -> Result<usize, SettleFault>
    requires places { length noted.old ≡ length cells.now }
    requires books { length books.now ≡ length cells.now }
    requires distinct { are_distinct cells.now ≡ true }
    ensures places { length noted.new ≡ length noted.old }
    ensures own { IsOk result → is_of_cells cells.now note.now ≡ true }
    ensures noted { IsOk result → (earlier : List (List Note)) (given : List Note)
        → AllZip IsOfCell cells.now books.now
        → AreNoted books.now earlier given noted.old
        → AreNoted books.now earlier (given ++ note.now ∷ []) noted.new }
    ensures foreign { IfErr result (λ fault. fault ≢ faults.Refused
        → (is_of_cells cells.now note.now ≡ false)
        × (fault ≡ faults.Strange (cell_of note.now) (number_of note.now))) }
{
    let cell = cell_of(note);
    let Some(place) = find_near(cells, cell, near) else {
        return Err(SettleFault::Strange {
            cell,
            number: number_of(note),
        });
    };
    noted[place].add(books[place].log(), note)?;
    Ok(place)
}

/// Adds the notes of a pass, each to those of its cell, up to the first one of no cell of the desk.
//
// It stays a function of its own, since its loop over all notes needs each register.
#[inline(never)]
fn put_all(
    noted: &mut [CellNotes],
    cells: &[Cell],
    books: &[CellBook],
    notes: &[Note],
) -> Result<(), SettleFault>
    requires places { length noted.old ≡ length cells.now }
    requires books { length books.now ≡ length cells.now }
    requires distinct { are_distinct cells.now ≡ true }
    ensures places { length noted.new ≡ length noted.old }
    ensures own { IsOk result → All (λ n. is_of_cells cells.now n ≡ true) notes.now }
    ensures noted { IsOk result → (earlier : List (List Note))
        → AllZip IsOfCell cells.now books.now
        → AreNoted books.now earlier [] noted.old
        → AreNoted books.now earlier notes.now noted.new }
    ensures foreign { IfErr result (λ fault. fault ≢ faults.Refused → IsForeignIn cells.now notes.now fault) }
{
    let mut near = 0;
    for note in notes {
        near = put(noted, cells, books, near, note)?;
    }
    Ok(())
}

/// Adds the notes of passes, each to those of its cell, up to the first one of no cell of the desk.
fn put_passes(
    noted: &mut [CellNotes],
    cells: &[Cell],
    books: &[CellBook],
    passes: &[Pass],
) -> Result<(), SettleFault>
    requires places { length noted.old ≡ length cells.now }
    requires books { length books.now ≡ length cells.now }
    requires distinct { are_distinct cells.now ≡ true }
    ensures places { length noted.new ≡ length noted.old }
    ensures own { IsOk result → AreOwn cells.now passes.now }
    ensures noted { IsOk result → AllZip IsOfCell cells.now books.now
        → AreNoted books.now [] [] noted.old
        → AreNoted books.now passes.now [] noted.new }
    ensures foreign { IfErr result (λ fault. fault ≢ faults.Refused → IsForeignBy cells.now passes.now fault) }
{
    for pass in passes {
        put_all(noted, cells, books, pass.notes())?;
        end_pass(noted);
    }
    Ok(())
}

/// What the passes noted of the cell of each book, in the order of the books. It reports the first note of no cell of
/// the desk.
pub(crate) fn notes_of_cells(
    alloc: Global,
    cells: &[Cell],
    books: &[CellBook],
    passes: &[Pass],
) -> Result<Vec<CellNotes>, SettleFault>
    requires books { length books.now ≡ length cells.now }
    requires distinct { are_distinct cells.now ≡ true }
    ensures own { IsOk result → AreOwn cells.now passes.now }
    ensures noted { IfOk result (λ noted. AllZip IsOfCell cells.now books.now
        → AreNoted books.now passes.now [] noted.items) }
    ensures foreign { IfErr result (λ fault. fault ≢ faults.Refused → IsForeignBy cells.now passes.now fault) }
{
    let mut noted = none_noted(alloc, books)?;
    put_passes(noted.as_mut_slice(), cells, books, passes)?;
    Ok(noted)
}
