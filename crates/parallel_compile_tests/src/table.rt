//! Tables of lines: what is done, an arrow, and what comes of it. The desk of `stream` and what follows it has cells
//! 1-1 and 1-2, and airs a page in every second slot of both.
//!
//! ```text
//! gather N NUMBERS              N tapes are gathered from pieces with these numbers; that of number i is of cell 1-i
//! compile WORKERS RECORDS       so many workers make the records' tapes, or with `one` the call that takes none: how
//!                               many, if they are as by one thread with all memory
//! header WORKERS RECORDS        the tapes' headers, and how many idle blocks follow
//!   CI/SLOTS, airing            a record: of a cell 1-CI in which nothing is asked, of one that airs a page
//! text FAULT                    a fault's text
//! stream WORKERS SLOTS CLOCK    so many workers stream runs of so many slots, once the second cell was played up to a
//!                               slot: which slots they play in each cell, if the tapes are those of the settled desk
//! whole WORKERS SLOTS CLOCK     so too: how many pieces of the first cell they play
//! often WORKERS CELLS SLOTS N   so too, of a desk of so many cells in which nothing is asked, N times
//! set TAPE SLOT OCTET           of 100 slots: a tape's slot is set to the page with this octet changed, and checked
//! check TAPES RECORDS           of 100 slots: the first so many tapes are checked by the first so many records
//! exchange                      so too: both tapes, in the other order
//! piece CI FROM K               of 100 slots, of which the second cell has played 70: a page (x) or an idle slot (.)
//! ```
//!
//! An action can begin with
//!
//! ```text
//! scarce                        its call has no memory, and then 32 octets more each time until it isn't refused;
//!                               after each refusal the same call has all memory, but for one that makes threads.
//!                               What comes of each attempt is wanted: `3 times A | B`
//! count                         how often the gate is entered at each of three places
//! meet                          whoever is at the gate in one of two places waits until somebody is in the other
//! starve                        so too; then one of them takes all memory, and gives it back when the call has ended
//! ```

use crate::gate::{Crossing, Manner};
use crate::streams::*;
use crate::tapes::*;
use std::alloc::Global;
use std::mem;
use std::process::Abort;
use std::sync::Wait;
use std::test::Fail;
use std::thread::Threads;
use test_support::{Drought, Outcomes, Row, Words, is_refused};

/// Where a call is made: how much memory it has, and what happens at its gate.
#[derive(Drop)]
pub struct Stage {
    drought: Drought,
    outcomes: Outcomes,
    pub gate: Crossing,
}

impl Stage {
    /// A stage with all memory, whose gate lets everybody pass.
    fn new(alloc: Global) -> Result<Stage, Fail> {
        Ok(Stage {
            drought: Drought::of_room(alloc)?,
            outcomes: Outcomes::new(alloc),
            gate: Crossing::new(alloc, Manner::Pass)?,
        })
    }

    /// Has a new gate.
    fn set_gate(&mut self, alloc: Global, manner: Manner) -> Result<(), Fail> {
        let gate = Crossing::new(alloc, manner)?;
        drop(mem::replace(&mut self.gate, gate));
        Ok(())
    }

    /// Right before the call.
    pub fn begin(&mut self, alloc: Global) {
        self.drought.begin(alloc);
    }

    /// Right after the call.
    pub fn end(&mut self) {
        self.drought.end();
        self.gate.give_back();
    }
}

/// What comes of an action.
fn carried_out<T: AllocGlobal + Threads + Wait + Abort + Sync>(
    rt: &T,
    stage: &mut Stage,
    verb: &str,
    words: &mut Words,
) -> Result<String, Fail> {
    match verb {
        "gather" => gathered(rt.alloc(), stage, words),
        "compile" => compiled(rt, stage, words),
        "header" => headers(rt, stage, words),
        "text" => text_of(rt.alloc(), words),
        "stream" | "whole" => streamed(rt, stage, verb, words),
        "often" => streamed_often(rt, stage, words),
        "set" | "check" | "exchange" => checked(rt, stage, verb, words),
        "piece" => taken(rt, words),
        _ => Err(Fail::new("no such action")),
    }
}

/// What comes of an action, and of its gate, with so many blocks of memory if memory is scarce.
fn attempt<T: AllocGlobal + Threads + Wait + Abort + Sync>(
    rt: &T,
    stage: &mut Stage,
    action: &str,
    blocks: u16,
) -> Result<String, Fail> {
    let mut words = Words::of(action);
    let mut verb = stage.drought.verb(&mut words, blocks);
    let manner = Manner::of(verb);
    if manner != Manner::Pass {
        verb = words.word();
    }
    stage.set_gate(rt.alloc(), manner)?;
    let mut found = carried_out(rt, stage, verb, &mut words)?;
    found.push_str(&stage.gate.told(rt.alloc())?)?;
    if words.word().is_empty() {
        return Ok(found);
    }
    Err(Fail::new("words are left over"))
}

/// Whether an action is carried out again with all memory once it was refused. A stream is called again at its desk;
/// and threads leave their stacks to those after them, which then are made without memory.
fn is_made_again(action: &str) -> bool {
    let mut words = Words::of(action);
    let (verb, workers) = (words.word(), words.word());
    verb == "gather" || verb == "compile" && matches!(workers, "one" | "1")
}

/// Puts what comes of an action that was refused, and what comes of it with all memory.
fn put_refused<T: AllocGlobal + Threads + Wait + Abort + Sync>(
    rt: &T,
    stage: &mut Stage,
    action: &str,
    found: String,
) -> Result<(), Fail> {
    if !is_made_again(action) {
        return Ok(stage.outcomes.put_refused(&found)?);
    }
    let again = attempt(rt, stage, action, 0)?;
    let both = format!(in rt.alloc(); "{found}, then {again}")?;
    Ok(stage.outcomes.put_refused(&both)?)
}

/// Puts what comes of an action. If it is scarce, it is carried out until memory isn't refused.
fn outcome<T: AllocGlobal + Threads + Wait + Abort + Sync>(
    rt: &T,
    stage: &mut Stage,
    action: &str,
) -> Result<String, Fail> {
    let ample = action.strip_prefix("scarce ");
    for blocks in 0..Drought::MOST {
        let found = attempt(rt, stage, action, blocks)?;
        match ample {
            Some(ample) if is_refused(&found) => put_refused(rt, stage, ample, found)?,
            _ => return Ok(found),
        }
    }
    Ok(String::from_str(rt.alloc(), "refused to the end")?)
}

/// Carries out the rows of a table, and returns how many there are.
fn try_each<T: AllocGlobal + Threads + Wait + Abort + Sync>(
    rt: &T,
    stage: &mut Stage,
    table: &str,
) -> Result<u16, Fail> {
    let mut rows = 0_u16;
    for line in table.split('\n') {
        if let Some(row) = Row::of(line) {
            let found = outcome(rt, stage, row.action)?;
            stage.outcomes.end_row(row, &found)?;
            rows = rows.saturating_add(1);
        }
    }
    Ok(rows)
}

/// Expects what the rows of a table say, which are so many.
pub fn expect_rows<T: AllocGlobal + Threads + Wait + Abort + Sync>(
    rt: &T,
    table: &str,
    count: u16,
) -> Result<(), Fail> {
    let mut stage = Stage::new(rt.alloc())?;
    let rows = try_each(rt, &mut stage, table);
    assert_eq!(rt; stage.outcomes.differing(), "");
    drop(stage);
    assert!(rt; rows? == count);
    Ok(())
}

const GATHERED: &str = "
gather 2 1 0 -> 2 in order
gather 5 3 0 4 1 2 -> 5 in order
gather 0 -> 0 in order

# the least number that is missing, given twice or out of range is at fault
gather 2 0 0 -> Piece { index: 0 }
gather 2 1 -> Piece { index: 0 }
gather 2 -> Piece { index: 0 }
gather 2 0 1 2 -> Piece { index: 2 }
gather 2 9 7 1 0 -> Piece { index: 7 }
gather 3 2 2 0 9 -> Piece { index: 1 }
gather 3 2 1 0 1 2 -> Piece { index: 1 }
gather 0 4 4 -> Piece { index: 4 }

text piece -> piece failed
text workers -> piece failed
text refused -> out of memory
";

const WORKERS: &str = "
# any number of workers makes the same
compile 1 1/4 2/0 airing -> 3 as by one
compile 2 1/4 2/0 airing -> 3 as by one
compile 3 1/4 2/0 airing -> 3 as by one
compile 4 1/4 2/0 airing -> 3 as by one
compile 5 1/4 2/0 airing -> 3 as by one
compile 6 1/4 2/0 airing -> 3 as by one
compile 7 1/4 2/0 airing -> 3 as by one
compile 8 1/4 2/0 airing -> 3 as by one
compile 64 1/4 2/0 airing -> 3 as by one

# no records have no tapes
compile 3 -> 0 as by one

# workers are 1 to 64
compile 0 1/1 -> Workers
compile 65 1/1 -> Workers
compile 18446744073709551615 1/1 -> Workers

# idle cells air nothing: a header with the cell and the slots, and four blocks a slot
header 2 1/3 2/3 -> 0001000100000003 and 12 idle, 0001000200000003 and 12 idle

# two tapes are made at once, and the gate is entered once for each record
meet compile 2 1/3 2/3 -> 2 as by one, in both at once
count compile 2 1/4 2/0 airing -> 3 as by one, entered 1 1 1
";

const STREAMS: &str = "
stream 1 0 0 -> 1-1:; 1-2:
stream 2 0 0 -> 1-1:; 1-2:
stream 3 0 0 -> 1-1:; 1-2:
stream 64 0 0 -> 1-1:; 1-2:
stream 1 1 0 -> 1-1: 0..1; 1-2: 0..1
stream 2 1 0 -> 1-1: 0..1; 1-2: 0..1
stream 3 1 0 -> 1-1: 0..1; 1-2: 0..1
stream 64 1 0 -> 1-1: 0..1; 1-2: 0..1
stream 1 63 0 -> 1-1: 0..63; 1-2: 0..63
stream 2 63 0 -> 1-1: 0..63; 1-2: 0..63
stream 3 63 0 -> 1-1: 0..63; 1-2: 0..63
stream 64 63 0 -> 1-1: 0..63; 1-2: 0..63
stream 1 64 0 -> 1-1: 0..64; 1-2: 0..64
stream 2 64 0 -> 1-1: 0..64; 1-2: 0..64
stream 3 64 0 -> 1-1: 0..64; 1-2: 0..64
stream 64 64 0 -> 1-1: 0..64; 1-2: 0..64
stream 1 65 0 -> 1-1: 0..64 64..65; 1-2: 0..64 64..65
stream 2 65 0 -> 1-1: 0..64 64..65; 1-2: 0..64 64..65
stream 3 65 0 -> 1-1: 0..64 64..65; 1-2: 0..64 64..65
stream 64 65 0 -> 1-1: 0..64 64..65; 1-2: 0..64 64..65
stream 1 128 0 -> 1-1: 0..64 64..128; 1-2: 0..64 64..128
stream 2 128 0 -> 1-1: 0..64 64..128; 1-2: 0..64 64..128
stream 3 128 0 -> 1-1: 0..64 64..128; 1-2: 0..64 64..128
stream 64 128 0 -> 1-1: 0..64 64..128; 1-2: 0..64 64..128

# two cells and 100 slots by each of 1 to 8 workers
stream 1 100 0 -> 1-1: 0..64 64..100; 1-2: 0..64 64..100
stream 2 100 0 -> 1-1: 0..64 64..100; 1-2: 0..64 64..100
stream 3 100 0 -> 1-1: 0..64 64..100; 1-2: 0..64 64..100
stream 4 100 0 -> 1-1: 0..64 64..100; 1-2: 0..64 64..100
stream 5 100 0 -> 1-1: 0..64 64..100; 1-2: 0..64 64..100
stream 6 100 0 -> 1-1: 0..64 64..100; 1-2: 0..64 64..100
stream 7 100 0 -> 1-1: 0..64 64..100; 1-2: 0..64 64..100
stream 8 100 0 -> 1-1: 0..64 64..100; 1-2: 0..64 64..100

# a cell that was played before is played on, and each piece is whole
stream 2 200 70 -> 1-1: 0..64 64..128 128..192 192..200; 1-2: 70..134 134..198 198..200 200..200
stream 1 65 65 -> 1-1: 0..64 64..65; 1-2: 65..65 65..65

# workers are 1 to 64
stream 0 10 0 -> Workers
stream 65 10 0 -> Workers
stream 18446744073709551615 10 0 -> Workers

# both cells are played at once
meet stream 2 100 0 -> 1-1: 0..64 64..100; 1-2: 0..64 64..100, in both at once
";

const WHOLE: &str = "
# a worker hands on up to 16 pieces at a time, which are 1,024 slots
whole 1 1023 0 -> 16 pieces of 1-1
whole 2 1023 0 -> 16 pieces of 1-1
whole 3 1023 0 -> 16 pieces of 1-1
whole 1 1024 0 -> 16 pieces of 1-1
whole 2 1024 0 -> 16 pieces of 1-1
whole 3 1024 0 -> 16 pieces of 1-1
whole 1 1025 0 -> 17 pieces of 1-1
whole 2 1025 0 -> 17 pieces of 1-1
whole 3 1025 0 -> 17 pieces of 1-1
whole 1 2048 0 -> 32 pieces of 1-1
whole 2 2048 0 -> 32 pieces of 1-1
whole 3 2048 0 -> 32 pieces of 1-1
whole 1 4096 0 -> 64 pieces of 1-1
whole 2 4096 0 -> 64 pieces of 1-1
whole 3 4096 0 -> 64 pieces of 1-1

often 8 64 3 200 -> 200 times
";

const CHECKS: &str = "
# the page that a slot aired, and the same with an octet changed
set 0 0 none -> Ok(())
set 0 0 0 -> Err(Piece { index: 0 })
set 0 98 87 -> Err(Piece { index: 0 })
set 1 0 5 -> Err(Piece { index: 1 })
set 1 98 none -> Ok(())
set 1 98 6 -> Err(Piece { index: 1 })

# the page in a slot that is idle
set 1 99 none -> Err(Piece { index: 1 })

# as many tapes as records, in their order
check 2 2 -> Ok(())
check 1 2 -> Err(Piece { index: 1 })
check 0 2 -> Err(Piece { index: 0 })
check 2 1 -> Err(Piece { index: 1 })
check 2 0 -> Err(Piece { index: 0 })
check 0 0 -> Ok(())
exchange -> Err(Piece { index: 0 })
";

const PIECES: &str = "
# within what was played, across its end, and past it
piece 2 0 3 -> 1-2 from 0: x.x
piece 2 3 2 -> 1-2 from 3: .x
piece 2 0 64 -> 1-2 from 0: x.x.x.x.x.x.x.x.x.x.x.x.x.x.x.x.x.x.x.x.x.x.x.x.x.x.x.x.x.x.x.x.
piece 2 64 64 -> 1-2 from 64: x.x.x.
piece 2 69 1 -> 1-2 from 69: .
piece 2 70 64 -> 1-2 from 70:
piece 2 99 64 -> 1-2 from 99:
piece 2 65535 64 -> 1-2 from 65535:
piece 2 0 0 -> 1-2 from 0:

# of the other cell, which wasn't played, and of a cell of no desk
piece 1 0 64 -> 1-1 from 0:
piece 3 0 64 -> Unknown
";

#[test]
fn pieces_are_put_in_order(rt: HostRuntime) -> Result<(), Fail> {
    expect_rows(&rt, GATHERED, 14)
}

#[test]
fn any_number_of_workers_makes_the_same(rt: HostRuntime) -> Result<(), Fail> {
    expect_rows(&rt, WORKERS, 16)
}

#[test]
fn any_number_of_workers_streams_the_same(rt: HostRuntime) -> Result<(), Fail> {
    expect_rows(&rt, STREAMS, 38)
}

#[test]
fn long_runs_and_many_streams_are_whole(rt: HostRuntime) -> Result<(), Fail> {
    expect_rows(&rt, WHOLE, 16)
}

#[test]
fn a_check_finds_the_first_tape_that_differs(rt: HostRuntime) -> Result<(), Fail> {
    expect_rows(&rt, CHECKS, 14)
}

#[test]
fn a_piece_has_the_slots_that_were_played(rt: HostRuntime) -> Result<(), Fail> {
    expect_rows(&rt, PIECES, 11)
}
