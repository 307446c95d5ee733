//! What the answers of cells say to a session.

ghost use Rattle.std.specs.Prelude.{◌≡◌, IfOk};
ghost use Rattle.order_desk.specs.Reply.{accepting_cells, cell_by, failure_by, refused_in};

use bsc_table::Answer;
use cbsp_wire::{Cell, Cells, Failure, Failures};
use reply_outcome::Outcome;
use std::alloc::{AllocError as Refused, Global};

/// What a reply says of a cell that refused.
fn failure_by(cell: Cell, answer: Answer) -> Option<Failure>
    ensures { result ≡ failure_by cell answer }
{
    match answer {
        Answer::Cause(cause) => Some(Failure { cell, cause }),
        _ => None,
    }
}

/// The cell, if it accepted.
fn cell_by(cell: Cell, answer: Answer) -> Option<Cell>
    ensures { result ≡ cell_by cell answer }
{
    match answer {
        Answer::Started { .. } | Answer::Replaced { .. } | Answer::Stopped { .. } => Some(cell),
        _ => None,
    }
}

/// The failures of the cells that refused.
fn refused_in(alloc: Global, answers: &[(Cell, Answer)]) -> Result<Failures, Refused>
    ensures { IfOk result (λ failures. failures ≡ refused_in answers.now) }
{
    let mut list = Vec::new(alloc);
    let mut left = answers;
    'answers: while let [(cell, answer), rest @ ..] = left {
        if let Some(failure) = failure_by(*cell, *answer) {
            list.push(failure)?;
        }
        left = rest;
    }
    Ok(Failures { list })
}

/// The cells that accepted.
fn accepted_in(alloc: Global, answers: &[(Cell, Answer)]) -> Result<Cells, Refused>
    ensures { IfOk result (λ cells. cells ≡ accepting_cells answers.now) }
{
    let mut list = Vec::with_capacity(alloc, answers.len())?;
    let mut left = answers;
    'answers: while let [(cell, answer), rest @ ..] = left {
        if let Some(cell) = cell_by(*cell, *answer) {
            list.push(cell)?;
        }
        left = rest;
    }
    Ok(Cells { list })
}

/// What the reply to an order says, by the answers of its cells. The reply isn't made.
pub(crate) fn said_by(alloc: Global, answers: &[(Cell, Answer)]) -> Result<Outcome, Refused>
    ensures accepted { IfOk result (λ said. said.accepted ≡ accepting_cells answers.now) }
    ensures refused { IfOk result (λ said. said.refused ≡ refused_in answers.now) }
{
    Ok(Outcome {
        accepted: accepted_in(alloc, answers)?,
        refused: refused_in(alloc, answers)?,
    })
}
