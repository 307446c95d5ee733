//! Tables that are short of memory: growths are refused one after the other, and nothing is written then.

use crate::of_book_texts::rows::{Bench, Ends};
use alert_book::Extent;
use book_texts::{TextsFault, texts_stream};
use device_ends::memory::MemoryReader;
use device_ends::{Sink, Source};
use std::alloc::Global;
use std::test::Fail;
use test_support::Room;

/// A book of three texts.
const BOOK: &str =
    "cell,1,1\nwrite,0,a,4370,0,1,en,2,2,0,*,One\nupdate,1,a,ru,2,2,0,*,Вода\nstop,2,a,1-1\n";

/// Its table, cut for one page.
const TABLE: &str = "row,name,lang,coding,characters,pages,room,first_ucs2,place,fits\n\
    2,a,en,GSM 7-bit,3,1,90,,,3\n3,a,ru,UCS-2,4,1,37,В,0,4\n";

/// What came of a call: how it ended, how many octets weren't read, how many were written, and whether they are those
/// of the table.
#[derive(Clone, Copy, PartialEq, Eq)]
struct Outcome {
    done: Result<(), TextsFault>,
    left: usize,
    written: usize,
    is_table: bool,
}

/// Writes the table in a room of so many blocks, or with all memory.
fn outcome_of(alloc: Global, room: &mut Room, what: Extent, blocks: Option<u16>) -> Outcome {
    let mut out = [0; 300];
    let mut rest = out.as_mut_slice();
    let mut reader = MemoryReader::new(BOOK.as_bytes(), 1000, None);
    let mut source = Source::new(&mut reader);
    let mut sink = Sink::new(&mut rest);
    if let Some(blocks) = blocks {
        room.leave(alloc, blocks);
    }
    let done = texts_stream(alloc, what, &mut source, &mut sink, Some(1));
    room.end();
    drop(source);
    drop(sink);
    let written = 300_usize.saturating_sub(rest.len());
    Outcome {
        done,
        left: reader.rest().len(),
        written,
        is_table: &out[..written] == TABLE.as_bytes(),
    }
}

/// How often the table is refused memory, with nothing written. After each refusal it is written with all memory.
fn refusals(alloc: Global, room: &mut Room, what: Extent) -> Result<u16, Fail> {
    for blocks in 0..Room::MOST {
        let found = outcome_of(alloc, room, what, Some(blocks));
        if found.done.is_ok() && found.is_table && found.left == 0 {
            return Ok(blocks);
        }
        if found.done != Err(TextsFault::Refused) || found.written != 0 {
            return Err(Fail::new("another table, or another fault"));
        }
        let again = outcome_of(alloc, room, what, None);
        if again.done.is_err() || !again.is_table || again.left != 0 {
            return Err(Fail::new("no table with all memory"));
        }
    }
    Err(Fail::new("it is refused to the end"))
}

/// The same, of the book, of it as a network book, or of a group: the fewest.
fn least_refusals(alloc: Global, room: &mut Room) -> Result<u16, Fail> {
    let of_book = refusals(alloc, room, Extent::Book)?;
    let of_network = refusals(alloc, room, Extent::Network)?;
    let of_group = refusals(alloc, room, Extent::Group(0))?;
    Ok(of_book.min(of_network).min(of_group))
}

#[test]
fn refused_memory_is_reported(rt: HostRuntime) -> Result<(), Fail> {
    let mut room = Room::new(rt.alloc())?;
    let refused = least_refusals(rt.alloc(), &mut room);
    drop(room);
    let refused = refused?;
    assert!(rt; refused >= 20, "{refused}");
    Ok(())
}

/// How a book of so many octets ends, one LF after the other.
fn end_of_lines(alloc: Global, octets: usize) -> Result<Result<(), TextsFault>, Fail> {
    let mut bench = Bench::new(alloc);
    for _ in 0..octets {
        bench.book.push('\n')?;
    }
    let (done, _) = bench.texts(alloc, Extent::Book, Ends::SOUND, None)?;
    Ok(done)
}

#[test]
fn a_book_is_too_long_by_one_octet(rt: HostRuntime) -> Result<(), Fail> {
    let most = end_of_lines(rt.alloc(), 16_777_216)?;
    let more = end_of_lines(rt.alloc(), 16_777_217)?;
    assert!(rt; most == Ok(()) && more == Err(TextsFault::TooLong));
    Ok(())
}
