//! The one session of a book, served by cells at hand: each answers as it is asked. So nothing is noted, and there is
//! nothing to compare.

ghost use Rattle.std.specs.Prelude.{◌≡◌, ◌<◌, [], ◌∷◌, List, IfNone, IfOk, IfSome, OnOk, Some, false, length, map};
ghost use Rattle.std.specs.Prelude.{true};
ghost use Rattle.std.specs.List.{AllZip, slice_get};
ghost use Rattle.cbsp_wire.specs.Range.{cells_are_valid, is_writable};
ghost use Rattle.bsc_table.specs.Orders.{IsWellFormed};
ghost use Rattle.bsc_table.specs.Transitions.{opened};
ghost use Rattle.order_desk.specs.Reply.{cells_answered};
ghost use Rattle.order_desk.specs.ReplyLaws.{IsOrdered};
ghost use Rattle.order_desk.specs.Settled.{IsPlayedOut};
ghost use Rattle.book_runs.specs.Fit.{IsFit};
ghost use Rattle.book_runs.specs.Run.{Exchange, IsRun, is_among};
ghost use Rattle.session_check.specs.AloneSteps.{AreNew, HaveAnsweredFrom, HaveRoomFor, HaveServedSession};
ghost use Rattle.session_check.specs.AloneSteps.{IsAnsweredFrom, IsOrderWithRoom, IsTurnServed};
ghost use Rattle.session_check.specs.NotedSteps.{record_cells};

use crate::said::said_by;
use crate::session::order_meant;
use alert_book::{Book, Request, Session};
use bsc_table::{Answer, CellBook, CellRecord, Command};
use cbsp_wire::cells::find_near;
use cbsp_wire::{Cell, cause};
use order_desk::Gate;
use reply_outcome::Outcome;
use std::alloc::{AllocError as Refused, Global};

/// A new book of each cell.
fn new_books(alloc: Global, cells: &[Cell], slots: u16) -> Result<Vec<CellBook>, Refused>
    ensures { IfOk result (λ books. books.items ≡ map (λ cell. opened cell slots) cells.now) }
{
    let mut books = Vec::with_capacity(alloc, cells.len())?;
    for cell in cells {
        books.push(CellBook::open(alloc, *cell, slots)?)?;
    }
    Ok(books)
}

/// Has a cell answer a command from slot `at` on: it is played up to the command's slot.
fn ask(book: &mut CellBook, at: u16, command: &Command) -> Result<Answer, Refused>
    requires formed { IsWellFormed command.now }
    requires ordered { IsOrdered command.now }
    requires room { length book.old.log < 4096 }
    ensures { IfOk result (λ answer. IsAnsweredFrom at command.now answer book.old book.new) }
{
    // The cell's answer is one that the command can get, and has an entry.
    order_desk::reply_laws();
    let _ = book.play(at.saturating_sub(book.clock()));
    match book.apply(command) {
        Answer::Refused => Err(Refused),
        answer => Ok(answer),
    }
}

/// Has the cell of a place answer a command from slot `at` on. One that isn't of the book is not identified.
fn answer_of<G: Gate>(
    cells: &[Cell],
    books: &mut [CellBook],
    at: u16,
    cell: Cell,
    place: Option<usize>,
    command: &Command,
    gate: &G,
) -> Result<Answer, Refused>
    requires cells { record_cells books.old ≡ cells.now }
    requires valid { cells_are_valid cells.now ≡ true }
    requires there { IfSome place (λ place. slice_get cells.now place ≡ Some cell) }
    requires foreign { IfNone place (is_among cells.now cell ≡ false) }
    requires formed { IsWellFormed command.now }
    requires ordered { IsOrdered command.now }
    requires room { HaveRoomFor (cell ∷ []) books.old }
    ensures { IfOk result (λ answer.
        HaveAnsweredFrom cells.now at command.now ((cell, answer) ∷ []) books.old books.new) }
{
    let Some(place) = place else {
        return Ok(Answer::Cause(cause::CELL_IDENTITY_NOT_VALID));
    };
    gate.inside(place as u16);
    ask(&mut books[place], at, command)
}

/// Has the cells of a message answer its command, one after the other.
fn answers_of<G: Gate>(
    alloc: Global,
    cells: &[Cell],
    books: &mut [CellBook],
    at: u16,
    named: &[Cell],
    command: &Command,
    gate: &G,
) -> Result<Vec<(Cell, Answer)>, Refused>
    requires cells { record_cells books.old ≡ cells.now }
    requires valid { cells_are_valid cells.now ≡ true }
    requires formed { IsWellFormed command.now }
    requires ordered { IsOrdered command.now }
    requires room { HaveRoomFor named.now books.old }
    ensures named { IfOk result (λ answers. cells_answered answers.items ≡ named.now) }
    ensures answered { IfOk result (λ answers.
        HaveAnsweredFrom cells.now at command.now answers.items books.old books.new) }
{
    let mut answers = Vec::with_capacity(alloc, named.len())?;
    let mut near = 0;
    for cell in named {
        let place = find_near(cells, *cell, near);
        near = place.unwrap_or(near);
        let answer = answer_of(cells, books, at, *cell, place, command, gate)?;
        answers.push((*cell, answer))?;
    }
    Ok(answers)
}

/// What the reply to a request says, once the cells have answered it.
fn turn_of<G: Gate>(
    alloc: Global,
    cells: &[Cell],
    books: &mut [CellBook],
    request: &Request,
    gate: &G,
) -> Result<Outcome, Refused>
    requires cells { record_cells books.old ≡ cells.now }
    requires valid { cells_are_valid cells.now ≡ true }
    requires writable { is_writable request.now.message ≡ true }
    requires order { IsOrderWithRoom request.now.message books.old }
    ensures { IfOk result (λ said. IsTurnServed cells.now request.now said books.old books.new) }
{
    let Some((named, command)) = order_meant(alloc, &request.message)? else {
        unreachable!()
    };
    let answers = answers_of(alloc, cells, books, request.at, &named, &command, gate)?;
    let said = said_by(alloc, &answers)?;
    Ok(said)
}

/// Serves the one session of a book to its end.
fn serve<G: Gate>(
    alloc: Global,
    book: &Book,
    books: &mut [CellBook],
    gate: &G,
) -> Result<(), Refused>
    requires fit { IsFit book.now }
    requires cells { record_cells books.old ≡ book.now.cells }
    requires new { AreNew books.old }
    ensures { OnOk result (HaveServedSession book.now books.old books.new) }
{
    // Each request leaves fewer that can follow it: a session ends. Its messages are orders that can be written, so
    // their commands are well-formed, and it asks no cell more often than the book has orders, for which a log has
    // room.
    alert_book::session_laws();
    cbsp_wire::meaning_law();
    let mut session = Session::new(alloc, book, 0, 1)?;
    session.go_on(None)?;
    'requests: while let Some(request) = session.sent() {
        let said = turn_of(alloc, book.cells(), books, request, gate)?;
        session.go_on(Some(said))?;
    }
    Ok(())
}

/// The record of a cell whose run is played to its end.
fn played_out(mut book: CellBook) -> CellRecord
    ensures { IsPlayedOut book result }
{
    let left = book.slots() - book.clock();
    let _ = book.play(left);
    book.finish()
}

/// The records of runs that are played to their ends.
fn records_of(alloc: Global, books: Vec<CellBook>) -> Result<Vec<CellRecord>, Refused>
    ensures { IfOk result (λ records. AllZip IsPlayedOut books.items records.items) }
{
    let mut records = Vec::with_capacity(alloc, books.len())?;
    for book in books {
        records.push(played_out(book))?;
    }
    Ok(records)
}

/// The records of a book's cells after its one session, each played out in a run of `slots` slots, in the order of the
/// book. The session's orders are carried out in the calling thread, cell by cell, and no message is written or read.
/// `gate` is called at each cell that an order comes to.
///
/// # Errors
///
/// Out of memory. Nothing else ends a run: each message of the session of a book that was read is an order, and no log
/// gets full, since the book has 4,096 orders at most.
pub fn run_alone<G: Gate>(
    alloc: Global,
    book: &Book,
    slots: u16,
    gate: &G,
) -> Result<Vec<CellRecord>, Refused>
    requires { IsFit book.now }
    ensures { IfOk result (λ records. (exchanges : List Exchange) × IsRun book.now slots exchanges records.items) }
{
    let mut books = new_books(alloc, book.cells(), slots)?;
    serve(alloc, book, books.as_mut_slice(), gate)?;
    let records = records_of(alloc, books)?;
    Ok(records)
}
