//! What the rows of a table of checks mean: a word that says what is done, and the rows of a book.
//!
//! What the next rows speak of:
//!
//! - `before ROWS`: these rows stand before those of each book that follows; `times NUMBER ROWS`: and these, NUMBER
//!   times;
//! - `extent WORDS`: what is checked: `book`, as it is at first, `network`, or `group NUMBER`;
//! - `most NUMBER`: a read gives, and a write takes, that many octets at most.
//!
//! What comes of a check:
//!
//! - `check ROWS`: `clean`, or how many rows have a fault and what is told of them, its line ends as bars;
//! - `line ROWS`: the line of the fault, as the program prints it;
//! - `line_feeds NUMBER`: that line of a book of NUMBER line feeds, and how many octets are not read;
//! - `reads NUMBER ROWS`: the fault where the reader fails after NUMBER calls; `writes NUMBER ROWS`: where the writer
//!   does, and how many octets are out.

use crate::octets::add_rows;
use crate::of_book_check::checks::{Ends, Outcome, outcome_of};
use alert_book::Extent;
use std::alloc::{AllocGlobal, Global};
use std::process::Abort;
use std::test::Fail;
use test_support::Row;

/// The columns' names, which stand before all that is told.
const NAMES: &str = "row,line,column,field,value,says\n";

/// What a table has said about the books that follow.
#[derive(Drop)]
struct Given {
    /// The octets that stand before the rows of each.
    before: Vec<u8>,
    /// What is checked.
    what: Extent,
    /// How many octets a call moves at most.
    most: usize,
    /// What came of the row under way.
    told: String,
}

/// Has what a row says of the books that follow.
fn set(given: &mut Given, verb: &str, rest: &str) -> Result<(), Fail> {
    match verb {
        "before" => {
            given.before.clear();
            add_rows(&mut given.before, rest)?;
        }
        "times" => {
            let (number, rows) = rest.split_once(' ').unwrap_or((rest, ""));
            for _ in 0..number.parse::<u16>()? {
                add_rows(&mut given.before, rows)?;
            }
        }
        "extent" => given.what = extent_of(rest)?,
        _ => given.most = rest.parse::<usize>()?,
    }
    Ok(())
}

/// What the words of a row say is checked.
fn extent_of(words: &str) -> Result<Extent, Fail> {
    match words.split_once(' ') {
        Some(("group", number)) => Ok(Extent::Group(number.parse::<u16>()?)),
        None if words == "network" => Ok(Extent::Network),
        None if words == "book" => Ok(Extent::Book),
        _ => Err(Fail::new("no such extent")),
    }
}

/// Tells the rows of a table behind the columns' names.
fn tell_table(told: &mut String, text: &[u8]) -> Result<(), Fail> {
    let text = std::str::from_utf8(text).map_err(|_| Fail::new("the table isn't UTF-8"))?;
    let rows = text.strip_prefix(NAMES).ok_or("the table has no names")?;
    for character in rows.trim_end_matches('\n').chars() {
        told.push(if character == '\n' { '|' } else { character })?;
    }
    Ok(())
}

/// Tells what comes of a check.
fn tell(told: &mut String, verb: &str, outcome: &Outcome) -> Result<(), Fail> {
    let Some(fault) = outcome.fault else {
        told.push_str("clean")?;
        return tell_table(told, &outcome.text);
    };
    match verb {
        "check" => {
            write!(told, "{fault:?} ")?;
            tell_table(told, &outcome.text)
        }
        "line_feeds" => Ok(write!(told, "{fault}, {} left", outcome.left)?),
        "reads" => Ok(write!(
            told,
            "{fault:?}, {}, {}",
            outcome.unread,
            outcome.text.len()
        )?),
        "writes" => Ok(write!(
            told,
            "{fault:?}, {}, {}",
            outcome.unwritten,
            outcome.text.len()
        )?),
        _ => Ok(write!(told, "{fault}")?),
    }
}

/// The octets of the book that a row speaks of, and the ends of its check.
fn put_octets(octets: &mut Vec<u8>, given: &Given, verb: &str, rest: &str) -> Result<Ends, Fail> {
    let mut ends = Ends {
        most: given.most,
        reads: None,
        writes: None,
    };
    octets.extend_from_slice(&given.before)?;
    match verb {
        "line_feeds" => octets.resize(rest.parse::<usize>()?, b'\n')?,
        "reads" | "writes" => {
            let (number, rows) = rest.split_once(' ').unwrap_or((rest, ""));
            let calls = Some(number.parse::<usize>()?);
            if verb == "reads" {
                ends.reads = calls;
            } else {
                ends.writes = calls;
            }
            add_rows(octets, rows)?;
        }
        _ => add_rows(octets, rest)?,
    }
    Ok(ends)
}

/// Tells what comes of an action.
fn carry_out(alloc: Global, given: &mut Given, action: &str) -> Result<(), Fail> {
    given.told.clear();
    let (verb, rest) = action.split_once(' ').unwrap_or((action, ""));
    if matches!(verb, "before" | "times" | "extent" | "most") {
        return set(given, verb, rest);
    }
    let mut octets = Vec::new(alloc);
    let ends = put_octets(&mut octets, given, verb, rest)?;
    let outcome = outcome_of(alloc, given.what, &octets, ends)?;
    tell(&mut given.told, verb, &outcome)
}

/// Expects what the rows of a table say, and returns how many there are.
fn expect_each(alloc: Global, given: &mut Given, table: &str) -> Result<u16, Fail> {
    let mut rows = 0_u16;
    for line in table.split('\n') {
        let Some(row) = Row::of(line) else {
            continue;
        };
        carry_out(alloc, given, row.action)?;
        if row.wanted.is_empty() {
            continue;
        }
        if given.told.as_str() != row.wanted {
            return Err(Fail::new(format_args!("{} -> {}", row.action, given.told)));
        }
        rows = rows.saturating_add(1);
    }
    Ok(rows)
}

/// Expects what the rows of a table say. `count` of them want something.
pub fn expect_rows<T: AllocGlobal + Abort>(rt: &T, table: &str, count: u16) -> Result<(), Fail> {
    let mut given = Given {
        before: Vec::new(rt.alloc()),
        what: Extent::Book,
        most: 65_536,
        told: String::new(rt.alloc()),
    };
    let rows = expect_each(rt.alloc(), &mut given, table);
    drop(given);
    let rows = rows?;
    assert!(rt; rows == count, "{rows} rows");
    Ok(())
}
