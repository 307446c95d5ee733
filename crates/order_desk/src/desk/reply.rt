//! The reply to an order: what its cells answered, as one message (3GPP TS 48.049, 8.1).

ghost use Rattle.std.specs.Prelude.{◌≡◌, ◌≤◌, [], length, true, All, IfOk, vec_capacity};
ghost use Rattle.cbsp_wire.specs.Meaning.{IsMessage};
ghost use Rattle.cbsp_wire.specs.Range.{cells_are_valid};
ghost use Rattle.cbsp_wire.specs.Written.{octets_of_message};
ghost use Rattle.order_desk.specs.ReplySteps.{HasReplyRoom};
ghost use Rattle.order_desk.specs.Reply.{IsAnswerTo, accepting_cells, cell_by, cells_answered, count_by, counted_in};
ghost use Rattle.order_desk.specs.Reply.{failure_by, kill_reply, refused_in, reply_message, write_reply};

use bsc_table::{Answer, Command, Refused};
use cbs_page::Serial;
use cbsp_wire::{Cell, Cells, Count, Counts, Failure, Failures, Message, write_in};
use std::alloc::{AllocError, Global};

/// How many octets the longest message has.
const LONGEST_MESSAGE: usize = 1547;

/// What a reply says of a cell that refused.
fn failure_by(cell: Cell, answer: Answer) -> Option<Failure>
    ensures { result ≡ failure_by cell answer }
{
    match answer {
        Answer::Cause(cause) => Some(Failure { cell, cause }),
        _ => None,
    }
}

/// The cell, if it accepted.
fn cell_by(cell: Cell, answer: Answer) -> Option<Cell>
    ensures { result ≡ cell_by cell answer }
{
    match answer {
        Answer::Started { .. } | Answer::Replaced { .. } | Answer::Stopped { .. } => Some(cell),
        _ => None,
    }
}

/// How often a cell had broadcast the message that it replaced or stopped. The information 0 says that the number is
/// valid.
fn count_by(cell: Cell, answer: Answer) -> Option<Count>
    ensures { result ≡ count_by cell answer }
{
    match answer {
        Answer::Replaced { completed, .. } | Answer::Stopped { completed } => Some(Count {
            cell,
            number: completed,
            info: 0,
        }),
        _ => None,
    }
}

/// The failures of the cells that refused.
fn refused_in(mut list: Vec<Failure>, answers: &[(Cell, Answer)]) -> Failures
    requires empty { list.items ≡ [] }
    requires room { length answers.now ≤ vec_capacity list }
    ensures { result ≡ refused_in answers.now }
{
    let mut left = answers;
    'answers: while let [(cell, answer), rest @ ..] = left {
        if let Some(failure) = failure_by(*cell, *answer) {
            list.push_reserved(failure);
        }
        left = rest;
    }
    Failures { list }
}

/// The cells that accepted.
fn accepted_in(mut list: Vec<Cell>, answers: &[(Cell, Answer)]) -> Cells
    requires empty { list.items ≡ [] }
    requires room { length answers.now ≤ vec_capacity list }
    ensures { result ≡ accepting_cells answers.now }
{
    let mut left = answers;
    'answers: while let [(cell, answer), rest @ ..] = left {
        if let Some(cell) = cell_by(*cell, *answer) {
            list.push_reserved(cell);
        }
        left = rest;
    }
    Cells { list }
}

/// The completed broadcasts of the cells that replaced or stopped a message.
fn counted_in(mut list: Vec<Count>, answers: &[(Cell, Answer)]) -> Counts
    requires empty { list.items ≡ [] }
    requires room { length answers.now ≤ vec_capacity list }
    ensures { result ≡ counted_in answers.now }
{
    let mut left = answers;
    'answers: while let [(cell, answer), rest @ ..] = left {
        if let Some(count) = count_by(*cell, *answer) {
            list.push_reserved(count);
        }
        left = rest;
    }
    Counts { list }
}

/// The reply to a write: complete if no cell refused.
fn write_reply(
    id: u16,
    new_serial: Serial,
    old_serial: Option<Serial>,
    failures: Failures,
    completed: Counts,
    cells: Cells,
) -> Message
    ensures { result ≡ write_reply id new_serial old_serial failures completed cells }
{
    if failures.list.is_empty() {
        return Message::WriteDone {
            id,
            new_serial,
            old_serial,
            completed,
            cells,
            channel: None,
        };
    }
    Message::WriteFailed {
        id,
        new_serial,
        old_serial,
        failures,
        completed,
        cells,
        channel: None,
    }
}

/// The reply to a kill: complete if no cell refused.
fn kill_reply(
    id: u16,
    old_serial: Serial,
    failures: Failures,
    completed: Counts,
    cells: Cells,
) -> Message
    requires { cells ≡ [] }
    ensures { result ≡ kill_reply id old_serial failures completed }
{
    if failures.list.is_empty() {
        return Message::KillDone {
            id,
            old_serial,
            completed,
            cells,
            channel: None,
        };
    }
    Message::KillFailed {
        id,
        old_serial,
        failures,
        completed,
        cells,
        channel: None,
    }
}

/// Room for the reply to an order: for its lists, and for its octets.
#[derive(Drop)]
pub(crate) struct ReplyRoom {
    failures: Vec<Failure>,
    counts: Vec<Count>,
    cells: Vec<Cell>,
    octets: Vec<u8>,
}

/// Room for the reply of `count` cells.
pub(crate) fn room_for(alloc: Global, count: usize) -> Result<ReplyRoom, AllocError>
    ensures { IfOk result (HasReplyRoom count) }
{
    Ok(ReplyRoom {
        failures: Vec::with_capacity(alloc, count)?,
        counts: Vec::with_capacity(alloc, count)?,
        cells: Vec::with_capacity(alloc, count)?,
        octets: Vec::with_capacity(alloc, LONGEST_MESSAGE)?,
    })
}

/// The reply to a command, by the answers of its cells.
fn reply_message(
    failures: Vec<Failure>,
    counts: Vec<Count>,
    cells: Vec<Cell>,
    command: &Command,
    answers: &[(Cell, Answer)],
) -> Message
    requires no_failures { failures.items ≡ [] }
    requires no_counts { counts.items ≡ [] }
    requires no_cells { cells.items ≡ [] }
    requires room_for_failures { length answers.now ≤ vec_capacity failures }
    requires room_for_counts { length answers.now ≤ vec_capacity counts }
    requires room_for_cells { length answers.now ≤ vec_capacity cells }
    ensures { result ≡ reply_message command.now answers.now }
{
    match command {
        Command::Write {
            id,
            serial,
            replaces,
            ..
        } => {
            let failures = refused_in(failures, answers);
            let (completed, cells) = match replaces {
                None => (Counts { list: counts }, accepted_in(cells, answers)),
                Some(_) => (counted_in(counts, answers), Cells { list: cells }),
            };
            write_reply(*id, *serial, *replaces, failures, completed, cells)
        }
        Command::Kill { id, serial } => {
            let failures = refused_in(failures, answers);
            let completed = counted_in(counts, answers);
            kill_reply(*id, *serial, failures, completed, Cells { list: cells })
        }
        Command::Status { id, serial } => {
            let failures = Failures { list: failures };
            let completed = Counts { list: counts };
            kill_reply(*id, *serial, failures, completed, Cells { list: cells })
        }
    }
}

/// The octets of the reply to a command, by the answers of its cells. It takes no memory.
#[tactic(auto, using(crate::proofs::Writable::reply_is_writable, crate::proofs::Writable::reply_is_meant))]
pub(crate) fn reply_in(room: ReplyRoom, command: &Command, answers: &[(Cell, Answer)]) -> Vec<u8>
    requires room { HasReplyRoom (length answers.now) room }
    requires valid { cells_are_valid (cells_answered answers.now) ≡ true }
    ensures written { result.items ≡ octets_of_message (reply_message command.now answers.now) }
    ensures meant { IsMessage result.items (reply_message command.now answers.now) }
{
    let ReplyRoom {
        failures,
        counts,
        cells,
        octets,
    } = room;
    let reply = reply_message(failures, counts, cells, command, answers);
    let mut out = octets;
    write_in(&reply, &mut out);
    out
}

/// The reply to a write or a kill, by the answers of its cells in the order's list: its octets, with the elements in
/// the table's order (3GPP TS 48.049, 8.1; which lists it has is own).
///
/// It asks for 1 to 64 distinct cells (see [`cells_ok`](crate::cells_ok)), and for each an answer that the command can
/// get: that it was done, or a cause.
///
/// # Errors
///
/// `Refused` if out of memory.
pub fn reply_of(
    alloc: Global,
    command: &Command,
    answers: &[(Cell, Answer)],
) -> Result<Vec<u8>, Refused>
    requires some { 1 ≤ length answers.now }
    requires valid { cells_are_valid (cells_answered answers.now) ≡ true }
    requires answered { All (λ answer. IsAnswerTo command.now answer.1) answers.now }
    ensures written { IfOk result (λ octets. octets.items
        ≡ octets_of_message (reply_message command.now answers.now)) }
    ensures meant { IfOk result (λ octets. IsMessage octets.items (reply_message command.now answers.now)) }
{
    let room = room_for(alloc, answers.len())?;
    Ok(reply_in(room, command, answers))
}
