//! The lines of a table, and what comes of them.
//!
//! What the next call gets:
//!
//! - `in TEXT`: a line of the book, `last TEXT`: one without a line feed. The first after a call begins a new book;
//!   `in-none` is a book of no lines;
//! - `reader N CALLS`, `writer N CALLS`: the end moves N octets a call, and fails after so many calls. At other calls
//!   neither fails;
//! - `failed-sink`: the sink has failed before the call;
//! - `worked DIGITS ..`: octets with which tapes are compared, after those of the lines before; `keep` has them be what
//!   the last call wrote.
//!
//! The calls:
//!
//! - `compile SLOTS WORKERS -> done`, or the fault; `live SLOTS SESSIONS WORKERS -> done`; `records`, `tapes`,
//!   `report`, `full` (the full report), `times` (that with times), `chart`, `orders` (of the cell 1-1), `link`,
//!   `loads`, `tables` (and the chart), `network-tapes`, `network-report`, `network-full`, `network-times`,
//!   `network-chart`, `network-orders`, `network-loads` and `network-tables` with the numbers of `compile`;
//! - `meet SLOTS SESSIONS WORKERS -> done, in both cells at once`: threads wait for each other in two cells;
//! - `starve SLOTS SESSIONS WORKERS`: so too; then one of them takes all memory, and gives it back when the call has
//!   ended;
//! - `scarce LEAST CALL -> refused; ..`: the call has no memory, and then rooms that grow by a least block, until it
//!   isn't refused. It is refused so often at least, and writes nothing before. After each refusal it is made again
//!   with all memory, and writes the worked octets; not after `scarce-threads`, as threads keep memory of a process;
//! - `late ENTRY LEAST CALL -> refused; ..`: so too, but memory ends when somebody enters the gate, for the first time
//!   or a later one.
//!
//! What a call wrote, of which a line has to speak before the next call:
//!
//! - `all -> worked` or `all -> N of M`: how much of the worked octets it is;
//! - `aired -> SERIAL-AND-IDENTIFIER ..`: the first block of each slot, 2b2b2b2b if it is idle;
//! - `cells -> LAC-CI ..`: whose tapes these are;
//! - `shown N -> IDENTIFIER SERIAL TEXT, ..`: what a handset shows of the Nth tape.
//!
//! `told -> N`: of how many cells the last call told that they are done.
//!
//! An answer may be one of two, `A or B`.

use crate::bench::{Bench, Call, Pace, make_call};
use crate::gate::Shortage;
use crate::tapes::{aired, cells, part_of, shown};
use std::alloc::Global;
use std::process::Abort;
use std::sync::Wait;
use std::test::Fail;
use std::thread::Threads;
use test_support::{Room, Row, Words, is_refused, octets_of};

/// The pace that the next two words say.
fn pace_of(words: &mut Words) -> Result<Pace, Fail> {
    Ok(Pace {
        octets: usize::from(words.number16()?),
        calls: Some(usize::from(words.number16()?)),
    })
}

/// Adds a line to the book.
fn add_line(bench: &mut Bench, line: &str) -> Result<(), Fail> {
    if bench.is_book_used {
        bench.book.clear();
        bench.is_book_used = false;
    }
    bench.book.extend_from_slice(line.as_bytes())?;
    Ok(())
}

/// Keeps what the last call wrote.
fn keep(alloc: Global, bench: &mut Bench) -> Result<(), Fail> {
    bench.worked = Vec::from_slice(alloc, &bench.written)?;
    bench.is_unseen = false;
    Ok(())
}

/// Has what a line says for the next call.
fn set(alloc: Global, bench: &mut Bench, verb: &str, words: &mut Words) -> Result<String, Fail> {
    match verb {
        "in-none" => add_line(bench, "")?,
        "reader" => bench.reader = pace_of(words)?,
        "writer" => bench.writer = pace_of(words)?,
        "failed-sink" => bench.is_sink_failed = true,
        "worked" => bench
            .worked
            .extend_from_slice(&octets_of(alloc, words.word())?)?,
        "keep" => keep(alloc, bench)?,
        _ => return Ok(String::from_str(alloc, "no such action")?),
    }
    Ok(String::new(alloc))
}

/// What a line reads of what the last call wrote.
fn read_back(
    alloc: Global,
    bench: &mut Bench,
    verb: &str,
    words: &mut Words,
) -> Result<String, Fail> {
    bench.is_unseen = false;
    match verb {
        "all" => part_of(alloc, &bench.written, &bench.worked),
        "aired" => aired(alloc, &bench.written),
        "cells" => cells(alloc, &bench.written),
        _ => shown(alloc, &bench.written, words.number16()?),
    }
}

/// What comes of a line of the book.
fn line_added(alloc: Global, bench: &mut Bench, line: &str, end: &str) -> Result<String, Fail> {
    add_line(bench, line)?;
    add_line(bench, end)?;
    Ok(String::new(alloc))
}

/// What comes of a call. The words: its numbers.
fn called<T: AllocGlobal + Threads + Wait + Sync>(
    rt: &T,
    bench: &mut Bench,
    verb: &str,
    words: &mut Words,
) -> Result<String, Fail> {
    if bench.is_unseen {
        return Ok(String::from_str(rt.alloc(), "no line said what the last call wrote")?);
    }
    let call = Call::of(verb, words)?;
    make_call(rt, bench, call)
}

/// What comes of a verb and the words after it.
fn done<T: AllocGlobal + Threads + Wait + Sync>(
    rt: &T,
    bench: &mut Bench,
    verb: &str,
    words: &mut Words,
) -> Result<String, Fail> {
    match verb {
        "compile"
        | "live"
        | "meet"
        | "starve"
        | "records"
        | "tapes"
        | "report"
        | "full"
        | "times"
        | "chart"
        | "orders"
        | "link"
        | "loads"
        | "tables"
        | "network-loads"
        | "network-tables"
        | "network-orders"
        | "network-tapes"
        | "network-report"
        | "network-full"
        | "network-times"
        | "network-chart" => called(rt, bench, verb, words),
        "all" | "aired" | "cells" | "shown" => read_back(rt.alloc(), bench, verb, words),
        "told" => Ok(format!(in rt.alloc(); "{}", bench.gate.cells_done())?),
        _ => set(rt.alloc(), bench, verb, words),
    }
}

/// What comes of an action.
fn carried_out<T: AllocGlobal + Threads + Wait + Sync>(
    rt: &T,
    bench: &mut Bench,
    action: &str,
) -> Result<String, Fail> {
    if let Some(line) = action.strip_prefix("in ") {
        return line_added(rt.alloc(), bench, line, "\n");
    }
    if let Some(line) = action.strip_prefix("last ") {
        return line_added(rt.alloc(), bench, line, "");
    }
    let mut words = Words::of(action);
    let verb = words.word();
    let found = done(rt, bench, verb, &mut words)?;
    if words.word().is_empty() {
        return Ok(found);
    }
    Ok(String::from_str(rt.alloc(), "words are left over")?)
}

/// Whether an answer is that memory was refused, and that no end has failed.
fn is_memory(answer: &str) -> bool {
    let is_refused = is_refused(answer) || answer.contains("Desk(Memory {");
    is_refused && !answer.contains("failed")
}

/// The number at the head of a text, and what comes after it.
fn number_of(text: &str) -> Result<(u16, &str), Fail> {
    let (number, rest) = text.split_once(' ').unwrap_or((text, ""));
    Ok((number.parse::<u16>()?, rest))
}

/// What is wrong with a call that is made again with all memory; nothing if it writes the worked octets.
fn wrong_again<T: AllocGlobal + Threads + Wait + Sync>(
    rt: &T,
    bench: &mut Bench,
    call: &str,
) -> Result<String, Fail> {
    let again = carried_out(rt, bench, call)?;
    bench.is_unseen = false;
    if again.as_str() != "done" {
        return Ok(again);
    }
    let is_worked = bench.written == bench.worked;
    Ok(String::from_str(rt.alloc(), if is_worked { "" } else { "other octets" })?)
}

/// What comes of a call in each room in turn, until it isn't refused memory: it has to be `LEAST` times.
fn refused_in_each<T: AllocGlobal + Threads + Wait + Sync>(
    rt: &T,
    bench: &mut Bench,
    entry: u64,
    rest: &str,
    is_repeated: bool,
) -> Result<String, Fail> {
    let (least, call) = number_of(rest)?;
    for blocks in 0..Room::MOST {
        bench.shortage = Some(Shortage { blocks, entry });
        let found = carried_out(rt, bench, call)?;
        if !is_memory(&found) {
            let often = if blocks < least {
                "not so often"
            } else {
                "refused"
            };
            return Ok(format!(in rt.alloc(); "{often}; {found}")?);
        }
        if is_repeated {
            let wrong = wrong_again(rt, bench, call)?;
            if !wrong.is_empty() {
                return Ok(format!(in rt.alloc(); "again: {wrong}")?);
            }
        }
    }
    Ok(String::from_str(rt.alloc(), "refused to the end")?)
}

/// What comes of an action, whose call may be refused memory.
fn outcome<T: AllocGlobal + Threads + Wait + Sync>(
    rt: &T,
    bench: &mut Bench,
    action: &str,
) -> Result<String, Fail> {
    let (verb, rest) = action.split_once(' ').unwrap_or((action, ""));
    match verb {
        "scarce" | "scarce-threads" => { refused_in_each(rt, bench, 0, rest, verb == "scarce") }
        "late" => {
            let (entry, rest) = number_of(rest)?;
            refused_in_each(rt, bench, u64::from(entry), rest, true)
        }
        _ => carried_out(rt, bench, action),
    }
}

/// Whether an answer is one of those that a row wants.
fn is_wanted(wanted: &str, found: &str) -> bool {
    wanted.split(" or ").any(|one| one == found)
}

/// Expects what a row says.
fn expect_row<T: AllocGlobal + Abort + Threads + Wait + Sync>(
    rt: &T,
    bench: &mut Bench,
    row: Row,
) -> Result<(), Fail> {
    let found = outcome(rt, bench, row.action)?;
    assert!(rt; is_wanted(row.wanted, &found), "{}: {found}", row.action);
    Ok(())
}

/// Expects what the rows of a table say, and returns how many there are.
fn expect_each<T: AllocGlobal + Abort + Threads + Wait + Sync>(
    rt: &T,
    bench: &mut Bench,
    table: &str,
) -> Result<u16, Fail> {
    let mut rows = 0_u16;
    for line in table.split('\n') {
        if let Some(row) = Row::of(line) {
            expect_row(rt, bench, row)?;
            rows = rows.saturating_add(1);
        }
    }
    Ok(rows)
}

/// Expects what the rows of a table say.
pub fn expect_rows<T: AllocGlobal + Abort + Threads + Wait + Sync>(
    rt: &T,
    table: &str,
) -> Result<(), Fail> {
    let mut bench = Bench::new(rt.alloc())?;
    let rows = expect_each(rt, &mut bench, table);
    let is_unseen = bench.is_unseen;
    drop(bench);
    assert!(rt; rows? > 0);
    assert!(rt; !is_unseen);
    Ok(())
}
