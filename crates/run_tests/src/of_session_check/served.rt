//! Books, the sessions of their parts at a desk, and what a check says of them.

ghost use Rattle.std.specs.Prelude.{◌≡◌, ◌<◌, ◌≤◌, length, All, IfOk, OnOk};
ghost use Rattle.session_check.specs.Checked.{HasRightNumbers};
ghost use Rattle.session_check.specs.NotedSteps.{record_cells};

use alert_book::{Book, Session, read_book};
use bsc_table::CellRecord;
use device_ends::Source;
use device_ends::memory::MemoryReader;
use order_desk::{Desk, Open, Pass, SettleFault, cells_ok};
use session_check::check_sessions;
use std::alloc::Global;
use std::sync::Wait;
use std::test::Fail;
use std::thread::Threads;
use test_support::Drought;

/// The book of these rows.
pub fn book_of<T: AllocGlobal + Threads + Sync>(rt: &T, rows: &str) -> Result<Book, Fail> {
    let mut reader = MemoryReader::new(rows.as_bytes(), 64, None);
    let mut source = Source::new(&mut reader);
    match read_book(rt, &mut source) {
        Ok(book) => Ok(book),
        Err(fault) => Err(Fail::new(fault)),
    }
}

/// A desk of a book's cells.
pub fn opened(alloc: Global, book: &Book, slots: u16) -> Result<Desk, Fail>
    ensures { IfOk result (λ desk. desk.cells ≡ book.now.cells) }
{
    let cells = book.cells();
    if !cells_ok(cells) {
        return Err(Fail::new("these cells are of no desk"));
    }
    match Desk::open(alloc, cells, slots) {
        Ok(desk) => Ok(desk),
        Err(fault) => Err(Fail::new(fault)),
    }
}

/// Has a desk carry out an order.
pub fn reply_to<T: AllocGlobal + Wait>(
    rt: &T,
    desk: &Desk,
    pass: &mut Pass,
    at: u16,
    octets: &[u8],
) -> Result<Vec<u8>, Fail> {
    match desk.order(rt, rt.alloc(), pass, at, octets, &Open) {
        Ok(reply) => Ok(reply),
        Err(fault) => Err(Fail::new(fault)),
    }
}

/// Has a session's next message carried out, `late` slots after its own, and returns the reply; None if there is none.
fn turn<T: AllocGlobal + Wait>(
    rt: &T,
    session: &mut Session<'_>,
    desk: &Desk,
    pass: &mut Pass,
    late: u16,
    last: Option<&[u8]>,
) -> Result<Option<Vec<u8>>, Fail> {
    match session.next(last)? {
        Some((at, octets)) => {
            let reply = reply_to(rt, desk, pass, at.saturating_add(late), &octets)?;
            Ok(Some(reply))
        }
        None => Ok(None),
    }
}

/// Serves a session to its end, and returns how many messages there were.
fn serve<T: AllocGlobal + Wait>(
    rt: &T,
    session: &mut Session<'_>,
    desk: &Desk,
    pass: &mut Pass,
    late: u16,
) -> Result<u16, Fail> {
    let mut reply: Option<Vec<u8>> = None;
    for messages in 0..100_u16 {
        let last = match &reply {
            Some(octets) => Some(octets.as_slice()),
            None => None,
        };
        reply = turn(rt, session, desk, pass, late, last)?;
        if reply.is_none() {
            return Ok(messages);
        }
    }
    Err(Fail::new("the session has too many messages"))
}

/// Serves the session of a part at a desk, each message `late` slots after its own, and returns how many messages there
/// were.
pub fn served<T: AllocGlobal + Wait>(
    rt: &T,
    book: &Book,
    part: u16,
    parts: u16,
    desk: &Desk,
    pass: &mut Pass,
    late: u16,
) -> Result<u16, Fail> {
    if part >= parts {
        return Err(Fail::new("there is no such part"));
    }
    let mut session = Session::new(rt.alloc(), book, part, parts)?;
    let messages = serve(rt, &mut session, desk, pass, late);
    drop(session);
    messages
}

/// The records of a desk that is settled with passes.
pub fn settled(alloc: Global, desk: Desk, passes: &[Pass]) -> Result<Vec<CellRecord>, Fail>
    ensures cells { IfOk result (λ records. record_cells records.items ≡ desk.cells) }
    ensures agree { IfOk result (λ records. All (HasRightNumbers passes.now) records.items) }
{
    let closed = match desk.close() {
        Ok(closed) => closed,
        Err(fault) => return Err(Fail::new(fault)),
    };
    match closed.settle(alloc, passes) {
        Ok(records) => Ok(records),
        Err(fault) => Err(Fail::new(fault)),
    }
}

/// What the check says of the sessions of a book's parts, if memory is scarce for it, and then with all memory.
fn check_in(
    alloc: Global,
    drought: &mut Drought,
    book: &Book,
    parts: u16,
    records: &[CellRecord],
    passes: &[Pass],
) -> (Result<(), SettleFault>, Result<(), SettleFault>)
    requires parts { parts ≤ length passes.now }
    requires cells { record_cells records.now ≡ book.now.cells }
    requires agree { All (HasRightNumbers passes.now) records.now }
{
    drought.begin(alloc);
    let outcome = check_sessions(alloc, book, parts, records, passes);
    drought.end();
    (outcome, check_sessions(alloc, book, parts, records, passes))
}

/// What the check says of the sessions of a book's parts, once their desk is settled with the passes, if memory is
/// scarce for it, and then with all memory.
pub fn checked(
    alloc: Global,
    book: &Book,
    parts: u16,
    desk: Desk,
    passes: &[Pass],
    drought: &mut Drought,
) -> Result<(Result<(), SettleFault>, Result<(), SettleFault>), Fail>
    requires { desk.cells ≡ book.now.cells }
{
    if passes.len() < usize::from(parts) {
        drop(desk);
        return Err(Fail::new("there are too few passes"));
    }
    let records = settled(alloc, desk, passes)?;
    Ok(check_in(alloc, drought, book, parts, &records, passes))
}
