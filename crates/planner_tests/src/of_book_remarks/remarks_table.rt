//! What the rows of a table of remarks mean: a word that says what is done, and the rows of a book.
//!
//! What the next rows speak of:
//!
//! - `before ROWS`: these rows stand before those of each book that follows;
//! - `slots NUMBER`: a run has that many slots; `most NUMBER`: a read gives, and a write takes, that many octets at
//!   most;
//! - `start NUMBER`: slot 0 begins so many microseconds after 1970-01-01T00:00:00Z; remarks have no times before one is
//!   given;
//! - `network`: the book is a network book; `group NUMBER`: it is one of which this group is run; `cells NUMBER`: the
//!   rows of that many cells stand before those of each book that follows, from 1-0 on.
//!
//! What comes of a book:
//!
//! - `run ROWS`: `none`, or what is remarked, its line ends as bars, without how full cells get; or the fault and what
//!   was written;
//! - `full ROWS`: all lines, those too; `table ROWS`: with the columns' names;
//! - `strict ROWS`: the same as `run` where there are to be no remarks; `line ROWS`: the line of its fault, as the
//!   program prints it;
//! - `reads NUMBER ROWS`: the fault where the reader fails after NUMBER calls; `writes NUMBER ROWS`: where the writer
//!   does, and how many octets are out.

use crate::octets::add_rows;
use crate::of_book_remarks::runs::{Manner, Outcome, outcome_of};
use alert_book::Extent;
use slot_times::Start;
use std::alloc::{AllocGlobal, Global};
use std::io::Write;
use std::process::Abort;
use std::sync::Wait;
use std::test::Fail;
use std::thread::Threads;
use test_support::Row;

/// The columns' names, which stand before all that is remarked of a book, and of a network.
const NAMES: &str = "row,name,cell,says\n";

const NETWORK_NAMES: &str = "group,row,name,cell,says\n";

/// What a table has said about the books that follow.
#[derive(Drop)]
struct Given {
    /// The octets that stand before the rows of each.
    before: Vec<u8>,
    /// How they are remarked.
    manner: Manner,
    /// What came of the row under way.
    told: String,
}

/// Has the rows of this many cells stand before those of each book.
fn set_cells(before: &mut Vec<u8>, count: u16) -> Result<(), Fail> {
    before.clear();
    for number in 0..count {
        writeln!(before, "cell,1,{number}")?;
    }
    Ok(())
}

/// Whether a word says something of the books that follow.
fn is_setting(verb: &str) -> bool {
    matches!(
        verb,
        "before" | "slots" | "start" | "most" | "network" | "group" | "cells"
    )
}

/// Has what a row says of the books that follow.
fn set(given: &mut Given, verb: &str, rest: &str) -> Result<(), Fail> {
    match verb {
        "before" => {
            given.before.clear();
            add_rows(&mut given.before, rest)?;
        }
        "network" => given.manner.what = Extent::Network,
        "group" => given.manner.what = Extent::Group(rest.parse::<u16>()?),
        "cells" => set_cells(&mut given.before, rest.parse::<u16>()?)?,
        "slots" => given.manner.slots = rest.parse::<u16>()?,
        "start" => given.manner.start = Start::new(rest.parse::<u64>()?),
        _ => given.manner.most = rest.parse::<usize>()?,
    }
    Ok(())
}

/// Tells lines with bars at their ends, but for the last.
fn tell_lines(told: &mut String, lines: &str) -> Result<(), Fail> {
    for character in lines.trim_end_matches('\n').chars() {
        told.push(if character == '\n' { '|' } else { character })?;
    }
    Ok(())
}

/// Whether a line says how full a cell gets.
fn is_fullest(line: &str) -> bool {
    line.contains(",fullest: ")
}

/// Tells the lines of remarks, without those of how full cells get.
fn tell_remarks(told: &mut String, lines: &str) -> Result<(), Fail> {
    let mut is_more = false;
    for line in lines.trim_end_matches('\n').split('\n') {
        if line.is_empty() || is_fullest(line) {
            continue;
        }
        if is_more {
            told.push('|')?;
        }
        told.push_str(line)?;
        is_more = true;
    }
    if !is_more {
        told.push_str("none")?;
    }
    Ok(())
}

/// Tells what was written: of remarks what stands below the columns' names.
fn tell_text(told: &mut String, verb: &str, text: &[u8]) -> Result<(), Fail> {
    let text = std::str::from_utf8(text).map_err(|_| Fail::new("the table isn't UTF-8"))?;
    let below = match text.strip_prefix(NAMES) {
        Some(lines) => Some(lines),
        None => text.strip_prefix(NETWORK_NAMES),
    };
    match below {
        Some(lines) if verb == "full" => tell_lines(told, lines),
        Some(lines) if verb != "table" => tell_remarks(told, lines),
        _ => tell_lines(told, text),
    }
}

/// Tells what comes of a book.
fn tell(told: &mut String, verb: &str, outcome: &Outcome) -> Result<(), Fail> {
    let Some(fault) = outcome.fault else {
        return tell_text(told, verb, &outcome.text);
    };
    match verb {
        "reads" => Ok(write!(
            told,
            "{fault:?}, {}, {}",
            outcome.unread,
            outcome.text.len()
        )?),
        "writes" => Ok(write!(
            told,
            "{fault:?}, {}, {}",
            outcome.unwritten,
            outcome.text.len()
        )?),
        "line" => Ok(write!(told, "{fault}")?),
        _ => {
            write!(told, "{fault:?} ")?;
            tell_text(told, verb, &outcome.text)
        }
    }
}

/// The octets of the book that a row speaks of, and how it is remarked.
fn put_octets(octets: &mut Vec<u8>, given: &Given, verb: &str, rest: &str) -> Result<Manner, Fail> {
    let mut manner = given.manner;
    manner.strict = verb == "strict" || verb == "line";
    octets.extend_from_slice(&given.before)?;
    if verb != "reads" && verb != "writes" {
        add_rows(octets, rest)?;
        return Ok(manner);
    }
    let (number, rows) = rest.split_once(' ').unwrap_or((rest, ""));
    let calls = Some(number.parse::<usize>()?);
    if verb == "reads" {
        manner.reads = calls;
    } else {
        manner.writes = calls;
    }
    add_rows(octets, rows)?;
    Ok(manner)
}

/// Tells what comes of an action.
fn carry_out<T: AllocGlobal + Threads + Wait + Sync>(
    rt: &T,
    given: &mut Given,
    action: &str,
) -> Result<(), Fail> {
    given.told.clear();
    let (verb, rest) = action.split_once(' ').unwrap_or((action, ""));
    if is_setting(verb) {
        return set(given, verb, rest);
    }
    let mut octets = Vec::new(rt.alloc());
    let manner = put_octets(&mut octets, given, verb, rest)?;
    let outcome = outcome_of(rt, &octets, manner)?;
    tell(&mut given.told, verb, &outcome)
}

/// Expects what the rows of a table say, and returns how many there are.
fn expect_each<T: AllocGlobal + Threads + Wait + Sync>(
    rt: &T,
    given: &mut Given,
    table: &str,
) -> Result<u16, Fail> {
    let mut rows = 0_u16;
    for line in table.split('\n') {
        let Some(row) = Row::of(line) else {
            continue;
        };
        carry_out(rt, given, row.action)?;
        if row.wanted.is_empty() {
            continue;
        }
        if given.told.as_str() != row.wanted {
            return Err(Fail::new(format_args!("{} -> {}", row.action, given.told)));
        }
        rows = rows.saturating_add(1);
    }
    Ok(rows)
}

/// What a table begins with.
fn nothing_given(alloc: Global) -> Given {
    Given {
        before: Vec::new(alloc),
        manner: Manner {
            what: Extent::Book,
            slots: 24,
            start: None,
            strict: false,
            most: 65_536,
            reads: None,
            writes: None,
        },
        told: String::new(alloc),
    }
}

/// Expects what the rows of a table say. `count` of them want something.
pub fn expect_rows<T: AllocGlobal + Threads + Wait + Sync + Abort>(
    rt: &T,
    table: &str,
    count: u16,
) -> Result<(), Fail> {
    let mut given = nothing_given(rt.alloc());
    let rows = expect_each(rt, &mut given, table);
    drop(given);
    let rows = rows?;
    assert!(rt; rows == count, "{rows} rows");
    Ok(())
}
