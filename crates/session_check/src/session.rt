//! A session that is served again, by the notes of its pass.

ghost use Rattle.std.specs.Prelude.{◌≡◌, ◌↔◌, ◌<◌, List, Err, IfNone, IfOk, IfSome, IsTrue, Ok, true};
ghost use Rattle.cbsp_wire.specs.CellLists.{AreDistinct};
ghost use Rattle.cbsp_wire.specs.Range.{is_writable};
ghost use Rattle.cbsp_wire.specs.declared.cause.TheConstants.{UNRECOGNISED_MESSAGE};
ghost use Rattle.cbsp_wire.specs.declared.message.Cell.{Cell};
ghost use Rattle.bsc_table.specs.declared.command.Command.{Command};
ghost use Rattle.bsc_table.specs.Orders.{IsWellFormed, order_of};
ghost use Rattle.book_runs.specs.Run.{Exchange};
ghost use Rattle.book_runs.specs.Sessions.{IsSessionOf};
ghost use Rattle.session_check.specs.NotedSteps.{AreStanding, record_cells, commands_in};
ghost use Rattle.session_check.specs.ReplaySteps.{IsNoTurn, IsTurnNoted};

use crate::answers::answers_in;
use crate::notes::has_no_commands;
use crate::said::said_by;
use alert_book::{Book, Request, Session};
use bsc_table::{CellRecord, Command, orders_of};
use cbsp_wire::{Cell, Cells, Message};
use order_desk::Note;
use reply_outcome::Outcome;
use std::alloc::{AllocError as Refused, Global};

/// A copy of a list of cells.
fn cells_copied(alloc: Global, cells: &Cells) -> Result<Cells, Refused>
    ensures { IfOk result (λ copy. copy ≡ cells.now) }
{
    let list = Vec::from_slice(alloc, &cells.list)?;
    Ok(Cells { list })
}

/// A copy of a message of the warning centre, which shares the contents of its pages; None of a reply.
//
// Longer than others for the fields of a write, which it names twice.
fn copied(alloc: Global, message: &Message) -> Result<Option<Message>, Refused>
    ensures some { IfOk result (λ copy. IfSome copy (λ m. m ≡ message.now)) }
    ensures none { IfOk result (λ copy. IfNone copy (order_of message.now ≡ Err UNRECOGNISED_MESSAGE)) }
{
    match message {
        Message::Write {
            id,
            new_serial,
            old_serial,
            cells,
            channel,
            category,
            period,
            broadcasts,
            dcs,
            contents,
        } => Ok(Some(Message::Write {
            id: *id,
            new_serial: *new_serial,
            old_serial: *old_serial,
            cells: cells_copied(alloc, cells)?,
            channel: *channel,
            category: *category,
            period: *period,
            broadcasts: *broadcasts,
            dcs: *dcs,
            contents: contents.copy(alloc)?,
        })),
        Message::Kill {
            id,
            old_serial,
            cells,
            channel,
        } => Ok(Some(Message::Kill {
            id: *id,
            old_serial: *old_serial,
            cells: cells_copied(alloc, cells)?,
            channel: *channel,
        })),
        _ => Ok(None),
    }
}

/// The cells that a message names, and the command to them; None if it is no order.
pub(crate) fn order_meant(
    alloc: Global,
    message: &Message,
) -> Result<Option<(Vec<Cell>, Command)>, Refused>
    ensures some { IfOk result (λ found. IfSome found (λ order. order_of message.now ≡ Ok (order.0.items, order.1))) }
    ensures formed { IfOk result (λ found. IfSome found (λ order.
        is_writable message.now ≡ true → IsWellFormed order.1)) }
    ensures none { IfOk result (λ found. IfNone found ((cells : List Cell) (command : Command)
        → order_of message.now ≡ Ok (cells, command) → ⊥)) }
{
    // Octets mean a message that can be written.
    cbsp_wire::meaning_law();
    let Some(message) = copied(alloc, message)? else {
        return Ok(None);
    };
    match orders_of(message) {
        Ok(order) => Ok(Some(order)),
        Err(_) => Ok(None),
    }
}

/// What the reply to a request says whose order was carried out, by the first of some notes, and the notes after it.
/// None if its message is no order, or these notes are of something else.
fn turn_in<'a>(
    alloc: Global,
    records: &[CellRecord],
    is_distinct: bool,
    request: &Request,
    notes: &'a [Note],
) -> Result<Option<(Outcome, &'a [Note])>, Refused>
    requires distinct { is_distinct ≡ true → AreDistinct (record_cells records.now) }
    requires standing { AreStanding records.now (commands_in notes.now) }
    ensures some { IfOk result (λ found. IfSome found (λ given. IsTurnNoted records.now request.now given.0
        (commands_in notes.now) (commands_in given.1.now))) }
    ensures none { IfOk result (λ found. IfNone found (IsNoTurn records.now request.now (commands_in notes.now))) }
{
    let Some((cells, command)) = order_meant(alloc, &request.message)? else {
        return Ok(None);
    };
    let Some((answers, rest)) = answers_in(
        alloc,
        records,
        is_distinct,
        request.at,
        &cells,
        &command,
        notes,
    )?
    else {
        return Ok(None);
    };
    let said = said_by(alloc, &answers)?;
    Ok(Some((said, rest)))
}

/// Whether a pass is that of the session of a part of a book. The session is served again: what the cells answered is
/// read off the pass, and no message or reply is made.
pub(crate) fn is_pass_of_session(
    alloc: Global,
    book: &Book,
    part: u16,
    parts: u16,
    records: &[CellRecord],
    is_distinct: bool,
    pass: &[Note],
) -> Result<bool, Refused>
    requires distinct { is_distinct ≡ true → AreDistinct (record_cells records.now) }
    requires part { part < parts }
    requires cells { record_cells records.now ≡ book.now.cells }
    requires standing { AreStanding records.now (commands_in pass.now) }
    ensures { IfOk result (λ is. IsTrue is ↔ ((exchanges : List Exchange)
        × IsSessionOf book.now part parts records.now pass.now exchanges)) }
{
    // Each request leaves fewer that can follow it: a session ends.
    alert_book::session_laws();
    let mut left = pass;
    let mut session = Session::new(alloc, book, part, parts)?;
    session.go_on(None)?;
    'requests: while let Some(request) = session.sent() {
        let Some((said, rest)) = turn_in(alloc, records, is_distinct, request, left)? else {
            return Ok(false);
        };
        left = rest;
        session.go_on(Some(said))?;
    }
    Ok(has_no_commands(left))
}
