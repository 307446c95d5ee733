//! Books and sessions that are short of memory: growths are refused one after the other.

use crate::octets::{name_in, octets_in};
use crate::reading::{book_of, outcome_of};
use alert_book::{Book, BookFault, BookFaultKind, Refused, Session};
use cbsp_wire::write;
use std::alloc::{AllocError, Global};
use std::test::Fail;
use std::thread::Threads;
use test_support::{Room, Words};

/// A book of each verb, in two languages.
const BOOK: &str =
    "cell,1,1\nwrite,0,a,4370,0,1,en,2,2,0,1-1,One\nupdate,1,a,ru,2,2,0,*,Вода\nstop,2,a,1-1\n";

/// So many texts that a thread packs half of them.
const MANY: u16 = 64;

/// How many octets threads have room for to put their stacks. An arena of the allocator has no room there.
const STACKS: usize = 0x300_0000;

/// Whether a book of one cell is read, in a room of so many blocks or with all memory, or refused it.
fn is_read<T: AllocGlobal + Threads + Sync>(
    rt: &T,
    book: &[u8],
    room: &mut Room,
    blocks: Option<u16>,
) -> Result<bool, Fail> {
    if let Some(blocks) = blocks {
        room.leave(rt.alloc(), blocks);
    }
    let outcome = outcome_of(rt, book, 100, None);
    room.end();
    match outcome.fault {
        None if outcome.cells == 1 && outcome.left == 0 => Ok(true),
        Some(
            BookFault {
                row: 0,
                kind: BookFaultKind::Refused,
            },
        ) if !outcome.failed => Ok(false),
        _ => Err(Fail::new("another book, or another fault")),
    }
}

/// How often a book of one cell is refused until it is read, in rooms of more and more memory. After each refusal it is
/// read with all memory, if that `is_repeated`.
fn refusals<T: AllocGlobal + Threads + Sync>(
    rt: &T,
    book: &[u8],
    room: &mut Room,
    is_repeated: bool,
) -> Result<u16, Fail> {
    for blocks in 0..Room::MOST {
        if is_read(rt, book, room, Some(blocks))? {
            return Ok(blocks);
        }
        if is_repeated && !is_read(rt, book, room, None)? {
            return Err(Fail::new("no memory, with all memory"));
        }
    }
    Err(Fail::new("no book is read"))
}

/// A book of many texts.
fn many_texts(alloc: Global) -> Result<String, AllocError> {
    let mut book = String::from_str(alloc, "cell,1,1\n")?;
    for number in 0..MANY {
        write!(book, "write,0,{number},4370,0,{number},en,2,2,0,*,One\n")?;
    }
    Ok(book)
}

/// Reads a book where threads have room for their stacks, and for nothing else beside the room. The process keeps the
/// stacks, so that threads can start when there is no memory.
fn keep_stacks<T: AllocGlobal + Threads + Sync>(
    rt: &T,
    book: &[u8],
    room: &mut Room,
) -> Result<(), Fail> {
    let stacks: Vec<u8> = Vec::with_capacity(rt.alloc(), STACKS)?;
    room.leave(rt.alloc(), Room::MOST);
    drop(stacks);
    if is_read(rt, book, room, None)? {
        return Ok(());
    }
    Err(Fail::new("no book is read by threads"))
}

/// Whether a book is refused in each room, and read with all memory after that.
fn is_refused_in_each<T: AllocGlobal + Threads + Sync>(
    rt: &T,
    book: &[u8],
    room: &mut Room,
) -> Result<bool, Fail> {
    for blocks in 0..Room::MOST {
        if is_read(rt, book, room, Some(blocks))? {
            return Ok(false);
        }
    }
    is_read(rt, book, room, None)
}

#[test]
fn refused_memory_is_reported(rt: HostRuntime) -> Result<(), Fail> {
    let many = many_texts(rt.alloc())?;
    let mut room = Room::new(rt.alloc())?;
    let refused = refusals(&rt, BOOK.as_bytes(), &mut room, true)?;
    let of_many = refusals(&rt, many.as_bytes(), &mut room, false)?;
    drop(room);
    assert!(rt; refused >= 300 && of_many >= 500, "{refused} and {of_many}");
    Ok(())
}

// A thread that has no arena of the allocator gets no memory, whatever room the others have. So once there is enough
// for the calling thread, the other one is refused it, and no room is large enough.

#[test]
fn threads_that_pack_are_refused_memory(rt: HostRuntime) -> Result<(), Fail> {
    let book = many_texts(rt.alloc())?;
    let mut room = Room::new(rt.alloc())?;
    keep_stacks(&rt, book.as_bytes(), &mut room)?;
    let is_refused = is_refused_in_each(&rt, book.as_bytes(), &mut room);
    drop(room);
    assert!(rt; is_refused?);
    Ok(())
}

/// The replies to the requests of the book: each is accepted, with no broadcast completed.
const REPLIES: &str = "written replaced-unsent killed-0011";

/// The requests, with their slots: a write, its replacement in UCS-2, and the kill of that; then comes nothing more.
const REQUESTS: [(&str, u16); 3] = [("write-one", 0), ("update-вода", 1), ("kill-0011", 2)];

/// How often each of them is refused at least, and nothing more at last. So many of their growths are refused, as a
/// trace of the process counts them.
const LEAST: [u16; 4] = [7, 8, 6, 2];

/// The replies as octets.
fn replies(alloc: Global) -> Result<Vec<Vec<u8>>, Fail> {
    let mut replies = Vec::with_capacity(alloc, 3)?;
    let mut words = Words::of(REPLIES);
    for _ in 0..3 {
        replies.push(octets_in(alloc, words.word())?)?;
    }
    Ok(replies)
}

/// What a session shows of itself: the row that gave its last request, and that request's octets.
fn shown_by(alloc: Global, session: &Session<'_>) -> Result<(u32, Vec<u8>), Fail> {
    let octets = match session.sent() {
        Some(request) => write(alloc, &request.message)?,
        None => Vec::new(alloc),
    };
    Ok((session.row(), octets))
}

/// Asks for the request of this place, after the reply to the one before.
fn next_of(
    session: &mut Session<'_>,
    replies: &[Vec<u8>],
    place: usize,
) -> Result<Option<(u16, Vec<u8>)>, Refused> {
    let last = match place.checked_sub(1) {
        Some(before) => replies.get(before).map(|reply| reply.as_slice()),
        None => None,
    };
    session.next(last)
}

/// Whether that is the request of this place.
fn is_request(
    alloc: Global,
    given: Option<(u16, Vec<u8>)>,
    place: usize,
) -> Result<bool, AllocError> {
    match (given, REQUESTS.get(place)) {
        (Some((slot, octets)), Some((name, at))) => {
            Ok(slot == *at && name_in(alloc, &octets)? == *name)
        }
        (None, None) => Ok(true),
        _ => Ok(false),
    }
}

/// Whether a session is refused memory at its next request, in a room of so many blocks. It then shows what it showed,
/// and gives the request with all memory.
fn is_refused(
    alloc: Global,
    session: &mut Session<'_>,
    replies: &[Vec<u8>],
    room: &mut Room,
    place: usize,
    blocks: u16,
) -> Result<bool, Fail> {
    let before = shown_by(alloc, session)?;
    room.leave(alloc, blocks);
    let first = next_of(session, replies, place);
    room.end();
    let is_refused = first.is_err();
    let given = match first {
        Ok(given) => given,
        Err(_) if shown_by(alloc, session)? == before => next_of(session, replies, place)?,
        Err(_) => return Err(Fail::new("a session that is refused goes on")),
    };
    if is_request(alloc, given, place)? {
        return Ok(is_refused);
    }
    Err(Fail::new("another request"))
}

/// The same of a session once it gave the requests before.
fn is_refused_there(
    alloc: Global,
    session: &mut Session<'_>,
    replies: &[Vec<u8>],
    room: &mut Room,
    place: usize,
    blocks: u16,
) -> Result<bool, Fail> {
    for before in 0..place {
        drop(next_of(session, replies, before)?);
    }
    is_refused(alloc, session, replies, room, place, blocks)
}

/// How often the request of a place is refused until it is given, each time to a session of its own.
fn refusals_at(
    alloc: Global,
    book: &Book,
    replies: &[Vec<u8>],
    room: &mut Room,
    place: usize,
) -> Result<u16, Fail> {
    for blocks in 0..Room::MOST {
        let mut session = Session::new(alloc, book, 0, 1)?;
        let is_refused = is_refused_there(alloc, &mut session, replies, room, place, blocks);
        drop(session);
        if !is_refused? {
            return Ok(blocks);
        }
    }
    Err(Fail::new("no request is given"))
}

/// The first place whose request is refused too seldom, and how often it is; none if each is refused often enough.
fn first_too_seldom(alloc: Global, book: &Book) -> Result<Option<(usize, u16)>, Fail> {
    let replies = replies(alloc)?;
    let mut room = Room::new(alloc)?;
    for (place, least) in LEAST.iter().enumerate() {
        let refused = refusals_at(alloc, book, &replies, &mut room, place)?;
        if refused < *least {
            return Ok(Some((place, refused)));
        }
    }
    Ok(None)
}

#[test]
fn a_session_without_memory_stands_where_it_stood(rt: HostRuntime) -> Result<(), Fail> {
    let book = book_of(&rt, BOOK.as_bytes(), 64)?;
    let found = first_too_seldom(rt.alloc(), &book);
    drop(book);
    let found = found?;
    assert!(rt; found.is_none(), "{found:?}");
    Ok(())
}
