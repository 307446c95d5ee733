//! What the reply to a message says of the cells that were asked, and which version of an alert is live there by it.

ghost use Rattle.std.specs.Prelude.{◌≡◌, [], find, IfOk};
ghost use Rattle.std.specs.Option.{option_copied};
ghost use Rattle.reply_outcome.specs.Replies.{accepting, after_refusal, cells_asked, cells_counted, is_kill_of};
ghost use Rattle.reply_outcome.specs.Replies.{is_reply_to, is_write_of, outcome_of, outcome_of_reply, refuses};
ghost use Rattle.reply_outcome.specs.Replies.{same_serial, version_by_reply};

use cbs_page::Serial;
use cbsp_wire::cells::contains_near;
use cbsp_wire::{Cell, Cells, Count, Counts, Failure, Failures, Message, cause};
use std::alloc::{AllocError, Global};

/// What a reply says of cells.
#[derive(Debug, Drop)]
pub struct Outcome {
    /// Those that accepted.
    pub accepted: Cells,
    /// Those that refused, and why.
    pub refused: Failures,
}

/// Whether two serial numbers are one, or there is none twice.
fn same_serial(one: Option<Serial>, other: Option<Serial>) -> bool
    ensures { result ≡ same_serial one other }
{
    match (one, other) {
        (None, None) => true,
        (Some(one), Some(other)) => one.number() == other.number(),
        _ => false,
    }
}

/// Whether a message is the write of this identifier and these serial numbers.
fn is_write_of(id: u16, new: Serial, old: Option<Serial>, message: &Message) -> bool
    ensures { result ≡ is_write_of id new old message.now }
{
    match message {
        Message::Write {
            id: of_id,
            new_serial,
            old_serial,
            ..
        } => {
            *of_id == id && new_serial.number() == new.number() && same_serial(*old_serial, old)
        }
        _ => false,
    }
}

/// Whether a message is the kill of this identifier and serial number.
fn is_kill_of(id: u16, old: Serial, message: &Message) -> bool
    ensures { result ≡ is_kill_of id old message.now }
{
    match message {
        Message::Kill {
            id: of_id,
            old_serial,
            ..
        } => *of_id == id && old_serial.number() == old.number(),
        _ => false,
    }
}

/// The cells whose completed broadcasts are counted.
fn cells_counted(alloc: Global, completed: &[Count]) -> Result<Cells, AllocError>
    ensures { IfOk result (λ cells. cells ≡ cells_counted completed.now) }
{
    let mut list = Vec::with_capacity(alloc, completed.len())?;
    for count in completed {
        list.push(count.cell)?;
    }
    Ok(Cells { list })
}

/// The cells that accepted, by the reply to a write: a plain one's are listed, a replacement's are counted.
fn accepting(
    alloc: Global,
    old: Option<Serial>,
    completed: Counts,
    cells: Cells,
) -> Result<Cells, AllocError>
    ensures { IfOk result (λ accepted. accepted ≡ accepting old completed cells) }
{
    match old {
        None => Ok(cells),
        Some(_) => cells_counted(alloc, &completed.list),
    }
}

/// Whether a reply is one to this message.
fn is_reply_to(message: &Message, reply: &Message) -> bool
    ensures { result ≡ is_reply_to message.now reply.now }
{
    match reply {
        Message::WriteDone {
            id,
            new_serial,
            old_serial,
            ..
        }
        | Message::WriteFailed {
            id,
            new_serial,
            old_serial,
            ..
        } => is_write_of(*id, *new_serial, *old_serial, message),
        Message::KillDone { id, old_serial, .. } | Message::KillFailed { id, old_serial, .. } => {
            is_kill_of(*id, *old_serial, message)
        }
        _ => false,
    }
}

/// What a reply says of cells.
fn outcome_of_reply(alloc: Global, reply: Message) -> Result<Outcome, AllocError>
    ensures { IfOk result (λ outcome. outcome ≡ outcome_of_reply reply) }
{
    match reply {
        Message::WriteDone {
            old_serial,
            completed,
            cells,
            ..
        } => Ok(Outcome {
            accepted: accepting(alloc, old_serial, completed, cells)?,
            refused: none_refused(alloc),
        }),
        Message::WriteFailed {
            old_serial,
            failures,
            completed,
            cells,
            ..
        } => Ok(Outcome {
            accepted: accepting(alloc, old_serial, completed, cells)?,
            refused: failures,
        }),
        Message::KillDone { completed, .. } => Ok(Outcome {
            accepted: cells_counted(alloc, &completed.list)?,
            refused: none_refused(alloc),
        }),
        Message::KillFailed {
            failures,
            completed,
            ..
        } => Ok(Outcome {
            accepted: cells_counted(alloc, &completed.list)?,
            refused: failures,
        }),
        _ => Ok(Outcome {
            accepted: Cells {
                list: Vec::new(alloc),
            },
            refused: none_refused(alloc),
        }),
    }
}

/// What a reply says, if it is one to this message: of its type, with its identifier and its serial numbers.
///
/// # Errors
///
/// `AllocError` if out of memory.
pub fn outcome_of(
    alloc: Global,
    message: &Message,
    reply: Message,
) -> Result<Option<Outcome>, AllocError>
    ensures { IfOk result (λ outcome. outcome ≡ outcome_of message.now reply) }
{
    if is_reply_to(message, &reply) {
        Ok(Some(outcome_of_reply(alloc, reply)?))
    } else {
        Ok(None)
    }
}

/// No failures.
fn none_refused(alloc: Global) -> Failures
    ensures { result ≡ [] }
{
    Failures {
        list: Vec::new(alloc),
    }
}

/// The cells that a message asks; none if it is a reply.
pub fn cells_asked(message: &Message) -> &[Cell]
    ensures { result.now ≡ cells_asked message.now }
{
    match message {
        Message::Write { cells, .. } | Message::Kill { cells, .. } => &cells.list,
        _ => &[],
    }
}

/// The version in a cell that refused.
fn after_refusal(cause: u8, before: Option<u8>) -> Option<u8>
    ensures { result ≡ after_refusal cause before }
{
    if cause == cause::MESSAGE_REFERENCE_NOT_IDENTIFIED {
        None
    } else {
        before
    }
}

/// Whether a failure is this cell's.
fn refuses(cell: Cell, failure: &Failure) -> bool
    ensures { result ≡ refuses cell failure.now }
{
    cell == failure.cell
}

/// The refusal of a cell, if it refused.
fn refusal_of(refused: &[Failure], cell: Cell) -> Option<&Failure>
    ensures { option_copied result ≡ find (refuses cell) refused.now }
{
    refused.iter().find(|failure| refuses(cell, failure))
}

/// The version that is live in a cell that was asked, by what the reply says.
///
/// Where the cell refused it is `before`, or none if the message to replace or to stop wasn't live there. Where it
/// accepted it is `asked`: the version that the message sends, or none if it stops one. Else it is `before`. The cell
/// is looked for at this place of those that accepted first.
pub fn version_by_reply(
    asked: Option<u8>,
    outcome: &Outcome,
    cell: Cell,
    place: usize,
    before: Option<u8>,
) -> Option<u8>
    ensures { result ≡ version_by_reply asked outcome.now cell before }
{
    match refusal_of(&outcome.refused.list, cell) {
        Some(failure) => after_refusal(failure.cause, before),
        None if contains_near(&outcome.accepted.list, cell, place) => asked,
        None => before,
    }
}
