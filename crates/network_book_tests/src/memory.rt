//! Network books that are short of memory: growths are refused one after the other.

use alert_book::{Book, BookFault, BookFaultKind, GroupFault, count_groups, read_group};
use device_ends::Source;
use device_ends::memory::MemoryReader;
use std::alloc::AllocGlobal;
use std::process::Abort;
use std::test::Fail;
use std::thread::Threads;
use test_support::Room;

/// A network of two cells and each verb, in two languages.
const NETWORK: &str = "cell,1,1\ncell,1,2\nwrite,0,a,4370,0,1,en,2,2,0,1-2 1-1,One\n\
    update,1,a,ru,2,2,0,*,Вода\nstop,2,a,1-1\n";

/// That memory was refused.
const REFUSED: BookFault = BookFault {
    row: 0,
    kind: BookFaultKind::Refused,
};

/// How many cells the book of the first group has.
fn cells_of(read: Result<Book, GroupFault>) -> Result<usize, GroupFault> {
    match read {
        Ok(book) => Ok(book.cells().len()),
        Err(fault) => Err(fault),
    }
}

/// How many cells the first group has or, of a network that `is_counted`, how many groups there are, in a room of so
/// many blocks or with all memory; None if the source has failed.
fn number_in<T: AllocGlobal + Threads + Sync>(
    rt: &T,
    room: &mut Room,
    is_counted: bool,
    blocks: Option<u16>,
) -> Option<Result<usize, GroupFault>> {
    let mut reader = MemoryReader::new(NETWORK.as_bytes(), 100, None);
    let mut source = Source::new(&mut reader);
    if let Some(blocks) = blocks {
        room.leave(rt.alloc(), blocks);
    }
    let number = if is_counted {
        match count_groups(rt, &mut source) {
            Ok(groups) => Ok(usize::from(groups)),
            Err(fault) => Err(GroupFault::Network(fault)),
        }
    } else {
        cells_of(read_group(rt, &mut source, 0))
    };
    room.end();
    if source.failed() {
        return None;
    }
    Some(number)
}

/// How often the network is refused until its number is found, in rooms of more and more memory. After each refusal it
/// is found with all memory.
fn refusals<T: AllocGlobal + Threads + Sync>(
    rt: &T,
    room: &mut Room,
    is_counted: bool,
    number: usize,
) -> Result<u16, Fail> {
    for blocks in 0..Room::MOST {
        let found = number_in(rt, room, is_counted, Some(blocks));
        if found == Some(Ok(number)) {
            return Ok(blocks);
        }
        if found != Some(Err(GroupFault::Network(REFUSED))) {
            return Err(Fail::new("another number, or another fault"));
        }
        if number_in(rt, room, is_counted, None) != Some(Ok(number)) {
            return Err(Fail::new("another number with all memory"));
        }
    }
    Err(Fail::new("no network is read"))
}

/// Expects that the first group is refused so often at least, and the number of groups so often.
fn expect_refusals<T: AllocGlobal + Abort + Threads + Sync>(
    rt: &T,
    least: u16,
    least_counted: u16,
) -> Result<(), Fail> {
    let mut room = Room::new(rt.alloc())?;
    let read = refusals(rt, &mut room, false, 2)?;
    let counted = refusals(rt, &mut room, true, 1)?;
    drop(room);
    assert!(rt;
        read >= least && counted >= least_counted,
        "{read} and {counted}"
    );
    Ok(())
}

#[test]
fn refused_memory_is_reported(rt: HostRuntime) -> Result<(), Fail> {
    expect_refusals(&rt, 30, 30)
}
