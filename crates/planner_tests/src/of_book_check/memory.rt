//! Checks that are short of memory: growths are refused one after the other.

use alert_book::Extent;
use book_check::{CheckFault, check_stream};
use device_ends::memory::MemoryReader;
use device_ends::{Sink, Source};
use std::alloc::Global;
use std::test::Fail;
use test_support::Room;

/// How many octets are written at most.
const SIZE: usize = 1000;

/// A book whose rows have faults of several kinds; one row is right.
const BOOK: &[u8] = b"cell,1,1\nwrite,x,b,1,0,1,en,2,2,0,*,Two\nstop,0,b,1-2\n\
    update,0,b,en,2,2,0,*,\xD0\x92\xD0\xBE\xD0\xB4\xD0\xB0\nwrite,0,c,1,0,2,en,2,2,0,*,\nstop,0,\xFF,*\n";

/// What is told of it.
const TOLD: &str = "row,line,column,field,value,says\n\
2,2,2,AT,x,a number from 0 to 65535\n\
3,3,4,CELLS,1-2,no earlier row declares this cell: 1-2\n\
5,5,12,TEXT,,a text\n\
6,6,3,NAME,\\xff,not UTF-8: save as CSV UTF-8\n";

/// What comes of a check of the book, or of it as a network book, whose output takes no memory: the fault, and how many
/// octets are out.
fn outcome_of(alloc: Global, what: Extent, output: &mut [u8]) -> (Option<CheckFault>, usize) {
    let mut reader = MemoryReader::new(BOOK, 100, None);
    let size = output.len();
    let mut left = output;
    let fault = check_stream(
        alloc,
        what,
        &mut Source::new(&mut reader),
        &mut Sink::new(&mut left),
    );
    (fault.err(), size.saturating_sub(left.len()))
}

/// Whether the faults are told, in a room of that many blocks or with all memory, or it is refused memory.
fn is_told(
    alloc: Global,
    room: &mut Room,
    what: Extent,
    blocks: Option<u16>,
) -> Result<bool, Fail> {
    let mut output = [0; SIZE];
    if let Some(blocks) = blocks {
        room.leave(alloc, blocks);
    }
    let (fault, count) = outcome_of(alloc, what, &mut output);
    room.end();
    match fault {
        Some(CheckFault::Faults(4)) if &output[..count.min(SIZE)] == TOLD.as_bytes() => Ok(true),
        Some(CheckFault::Refused) if count == 0 => Ok(false),
        _ => Err(Fail::new("another fault, or another table")),
    }
}

/// How often a check is refused memory until its faults are told, in rooms of more and more memory. After each refusal
/// they are told with all memory.
fn refusals(alloc: Global, room: &mut Room, what: Extent) -> Result<u16, Fail> {
    for blocks in 0..Room::MOST {
        if is_told(alloc, room, what, Some(blocks))? {
            return Ok(blocks);
        }
        if !is_told(alloc, room, what, None)? {
            return Err(Fail::new("no memory, with all memory"));
        }
    }
    Err(Fail::new("no faults are told"))
}

/// The same, of the book or of it as a network book: the fewest.
fn least_refusals(alloc: Global, room: &mut Room) -> Result<u16, Fail> {
    let of_book = refusals(alloc, room, Extent::Book)?;
    let of_group = refusals(alloc, room, Extent::Group(0))?;
    Ok(of_book.min(of_group))
}

#[test]
fn refused_memory_is_reported(rt: HostRuntime) -> Result<(), Fail> {
    let mut room = Room::new(rt.alloc())?;
    let refused = least_refusals(rt.alloc(), &mut room);
    drop(room);
    let refused = refused?;
    assert!(rt; refused >= 100, "{refused}");
    Ok(())
}
