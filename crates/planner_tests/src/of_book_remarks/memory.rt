//! Books that are remarked short of memory: growths are refused one after the other.

use alert_book::Extent;
use book_remarks::{RemarkFault, remark_stream};
use device_ends::memory::MemoryReader;
use device_ends::{Sink, Source};
use slot_times::Start;
use std::alloc::AllocGlobal;
use std::sync::Wait;
use std::test::Fail;
use std::thread::Threads;
use test_support::Room;

/// How many octets are written at most.
const SIZE: usize = 1000;

/// A book of which several things are remarked.
const BOOK: &[u8] =
    b"cell,1,1\ncell,1,2\nwrite,0,a,4370,0,1,en,2,2,0,1-1,A\nwrite,0,b,4371,0,2,en,2,1,0,1-1,B\n\
    stop,1,a,*\nstop,0,b,*\n";

/// What is remarked of it, and how full its cells get, with times.
const REMARKS: &str = "row,name,cell,says,time\n\
4,b,,refused in 1 cell: BSC capacity exceeded,\n\
5,a,,leaves out 1-2,\n\
6,b,,orders nothing,\n\
,,1-2,gets nothing,\n\
,,1-1,fullest: 50 % at slot 0,2026-11-29T18:30:00.000Z\n\
,,1-2,fullest: 0 % at slot 0,2026-11-29T18:30:00.000Z\n";

/// The same of the network book of one group that it is.
const NETWORK_REMARKS: &str = "group,row,name,cell,says,time\n\
0,4,b,,refused in 1 cell: BSC capacity exceeded,\n\
0,5,a,,leaves out 1-2,\n\
0,6,b,,orders nothing,\n\
0,,,1-2,gets nothing,\n\
0,,,1-1,fullest: 50 % at slot 0,2026-11-29T18:30:00.000Z\n\
0,,,1-2,fullest: 0 % at slot 0,2026-11-29T18:30:00.000Z\n";

/// What comes of the book, whose output takes no memory: the fault, and how many octets are out.
fn outcome_of<T: AllocGlobal + Threads + Wait + Sync>(
    rt: &T,
    what: Extent,
    output: &mut [u8],
) -> (Option<RemarkFault>, usize) {
    let mut reader = MemoryReader::new(BOOK, 100, None);
    let size = output.len();
    let mut left = output;
    let fault = remark_stream(
        rt,
        &mut Source::new(&mut reader),
        &mut Sink::new(&mut left),
        what,
        8,
        Start::new(1_795_977_000_000_000),
        true,
    );
    (fault.err(), size.saturating_sub(left.len()))
}

/// Whether the remarks are written, in a room of that many blocks or with all memory, or it is refused memory.
fn is_told<T: AllocGlobal + Threads + Wait + Sync>(
    rt: &T,
    room: &mut Room,
    what: Extent,
    blocks: Option<u16>,
) -> Result<bool, Fail> {
    let mut output = [0; SIZE];
    if let Some(blocks) = blocks {
        room.leave(rt.alloc(), blocks);
    }
    let (fault, count) = outcome_of(rt, what, &mut output);
    room.end();
    let wanted = if what == Extent::Network {
        NETWORK_REMARKS
    } else {
        REMARKS
    };
    match fault {
        Some(RemarkFault::Remarks(4)) if &output[..count.min(SIZE)] == wanted.as_bytes() => Ok(
            true,
        ),
        Some(RemarkFault::Refused) if count == 0 => Ok(false),
        _ => Err(Fail::new("another fault, or another table")),
    }
}

/// How often a book is refused memory until its remarks are written, in rooms of more and more memory. After each
/// refusal they are written with all memory.
fn refusals<T: AllocGlobal + Threads + Wait + Sync>(
    rt: &T,
    room: &mut Room,
    what: Extent,
) -> Result<u16, Fail> {
    for blocks in 0..Room::MOST {
        if is_told(rt, room, what, Some(blocks))? {
            return Ok(blocks);
        }
        if !is_told(rt, room, what, None)? {
            return Err(Fail::new("no memory, with all memory"));
        }
    }
    Err(Fail::new("no remarks are written"))
}

/// How often it is refused memory, looked at so.
fn refusals_of<T: AllocGlobal + Threads + Wait + Sync>(rt: &T, what: Extent) -> Result<u16, Fail> {
    let mut room = Room::new(rt.alloc())?;
    let refused = refusals(rt, &mut room, what);
    drop(room);
    refused
}

#[test]
fn refused_memory_is_reported(rt: HostRuntime) -> Result<(), Fail> {
    let refused = refusals_of(&rt, Extent::Book)?;
    assert!(rt; refused >= 100, "{refused}");
    Ok(())
}

#[test]
fn refused_memory_of_networks_is_reported(rt: HostRuntime) -> Result<(), Fail> {
    let refused = refusals_of(&rt, Extent::Network)?;
    assert!(rt; refused >= 100, "{refused}");
    Ok(())
}
