//! A session of a book at a desk: its orders, and the replies to them.

ghost use Rattle.std.specs.Prelude.{◌<◌, ℕ, IfErr, List};
ghost use Rattle.book_runs.specs.Fit.{IsFit};
ghost use Rattle.warnc_run.specs.Faults.{IsOfRun};

use crate::fault::RunFault;
use alert_book::{Book, Session};
use order_desk::{Desk, Gate, Pass};
use std::alloc::Global;
use std::sync::Wait;

/// Serves the session of a part of a book to its end: each of its messages is an order to the desk, whose reply is
/// handed to the session. The pass has the notes of what was done.
///
/// # Errors
///
/// Returns the desk's fault, or `Refused` if out of memory. What was done by then stays done, and is noted.
pub(crate) fn run_session<R: Wait, G: Gate>(
    rt: &R,
    alloc: Global,
    book: &Book,
    part: u16,
    parts: u16,
    desk: &Desk,
    pass: &mut Pass,
    gate: &G,
) -> Result<(), RunFault>
    requires part { part < parts }
    requires book { IsFit book.now }
    ensures { IfErr result IsOfRun }
{
    // Each request leaves fewer that can follow it, so a session ends; and its message is an order, so the desk refuses
    // none for what it says.
    alert_book::session_laws();
    cbsp_wire::meaning_law();
    let mut session = Session::new(alloc, book, part, parts)?;
    let mut next = session.next(None)?;
    while let Some((at, octets)) = next {
        let reply = desk.order(rt, alloc, pass, at, &octets, gate)?;
        next = session.next(Some(&reply))?;
    }
    Ok(())
}
