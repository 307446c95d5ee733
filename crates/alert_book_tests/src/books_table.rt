//! What the rows of a table of books mean: a word that says what is done, and the rows of a book.
//!
//! What the next rows speak of:
//!
//! - `before ROWS`: these rows stand before those of each book that follows; `times NUMBER ROWS`: and these, so many
//!   times;
//! - `most NUMBER`: a read gives so many octets at most.
//!
//! What comes of a book:
//!
//! - `book ROWS` and `fault ROWS`: `read`, or its fault, as the program prints it and as the library gives it;
//! - `line_feeds NUMBER`: that line of a book of so many line feeds; `line_feeds_left NUMBER`: its fault, and how many
//!   octets are not read; `long_book WORDS`: the fault of the long book with these rows;
//! - `failing_after CALLS`: the fault of a book whose reader fails after so many calls, and whether the source says so;
//!   `line_failing_after CALLS`: the line of that fault;
//! - `cells_of ROWS`: the cells that it declares; `sent ROWS`: these, the message that its session sends first, and
//!   what follows that; `session PART PARTS STEP ..` and `goes PART PARTS STEP ..`: what the steps of a session give,
//! as
//!   sessions.rt says.

use crate::long_books::{END, long_book};
use crate::reading::{Outcome, add_rows, book_of, outcome_of};
use crate::sessions::{tell_cells, tell_session};
use alert_book::Book;
use std::alloc::{AllocError, Global};
use std::process::Abort;
use std::test::Fail;
use std::thread::Threads;
use test_support::Row;

/// What a table has said about the books that follow.
#[derive(Drop)]
struct Given {
    /// The octets that stand before the rows of each.
    before: Vec<u8>,
    /// How many octets a read gives at most.
    most: usize,
    /// What came of the row under way.
    told: String,
}

/// Has what a row says of the books that follow.
fn set(given: &mut Given, verb: &str, rest: &str) -> Result<(), Fail> {
    match verb {
        "before" => {
            given.before.clear();
            add_rows(&mut given.before, rest)?;
        }
        "times" => {
            let (number, rows) = rest.split_once(' ').unwrap_or((rest, ""));
            for _ in 0..number.parse::<u16>()? {
                add_rows(&mut given.before, rows)?;
            }
        }
        _ => given.most = rest.parse::<usize>()?,
    }
    Ok(())
}

/// Puts the octets of the book that a row speaks of.
fn put_octets(
    alloc: Global,
    octets: &mut Vec<u8>,
    before: &[u8],
    verb: &str,
    rest: &str,
) -> Result<(), Fail> {
    match verb {
        "line_feeds" | "line_feeds_left" => octets.resize(rest.parse::<usize>()?, b'\n')?,
        "long_book" => octets.extend_from_slice(long_book(alloc, 2, END, rest)?.as_bytes())?,
        "session" | "goes" | "failing_after" | "line_failing_after" => {
            octets.extend_from_slice(before)?;
        }
        _ => {
            octets.extend_from_slice(before)?;
            add_rows(octets, rest)?;
        }
    }
    Ok(())
}

/// Tells of a fault what a row asks for.
fn tell(told: &mut String, verb: &str, outcome: Outcome) -> Result<(), AllocError> {
    let Some(fault) = outcome.fault else {
        return told.push_str("read");
    };
    match verb {
        "book" | "line_feeds" | "line_failing_after" => write!(told, "{fault}"),
        "line_feeds_left" => write!(told, "{fault:?}, {} left", outcome.left),
        "failing_after" if outcome.failed => write!(told, "{fault:?}, the source has failed"),
        _ => write!(told, "{fault:?}"),
    }
}

/// Tells of a book what a row asks for.
fn tell_book(
    alloc: Global,
    told: &mut String,
    verb: &str,
    steps: &str,
    book: &Book,
) -> Result<(), Fail> {
    match verb {
        "session" | "goes" => tell_session(alloc, told, book, verb, steps),
        "sent" => {
            tell_cells(told, book.cells())?;
            tell_session(alloc, told, book, verb, "0 1 - -")
        }
        _ => Ok(tell_cells(told, book.cells())?),
    }
}

/// Tells what comes of the book of these octets.
fn tell_octets<T: AllocGlobal + Threads + Sync>(
    rt: &T,
    given: &mut Given,
    verb: &str,
    rest: &str,
    octets: &[u8],
) -> Result<(), Fail> {
    match verb {
        "cells_of" | "sent" | "session" | "goes" => {
            let book = book_of(rt, octets, given.most)?;
            let result = tell_book(rt.alloc(), &mut given.told, verb, rest, &book);
            drop(book);
            result
        }
        _ => {
            let calls = match verb {
                "failing_after" | "line_failing_after" => Some(rest.parse::<usize>()?),
                _ => None,
            };
            let outcome = outcome_of(rt, octets, given.most, calls);
            Ok(tell(&mut given.told, verb, outcome)?)
        }
    }
}

/// Tells what comes of an action.
fn carry_out<T: AllocGlobal + Threads + Sync>(
    rt: &T,
    given: &mut Given,
    action: &str,
) -> Result<(), Fail> {
    given.told.clear();
    let (verb, rest) = action.split_once(' ').unwrap_or((action, ""));
    if verb == "before" || verb == "times" || verb == "most" {
        return set(given, verb, rest);
    }
    let mut octets = Vec::new(rt.alloc());
    put_octets(rt.alloc(), &mut octets, &given.before, verb, rest)?;
    tell_octets(rt, given, verb, rest, &octets)
}

/// Expects what the rows of a table say, and returns how many there are.
fn expect_each<T: AllocGlobal + Threads + Sync>(
    rt: &T,
    given: &mut Given,
    table: &str,
) -> Result<u16, Fail> {
    let mut rows = 0_u16;
    for line in table.split('\n') {
        if let Some(row) = Row::of(line) {
            carry_out(rt, given, row.action)?;
            if given.told.as_str() != row.wanted {
                return Err(Fail::new(format_args!("{} -> {}", row.action, given.told)));
            }
            rows = rows.saturating_add(1);
        }
    }
    Ok(rows)
}

/// Expects what the rows of a table say, which are so many.
pub fn expect_rows<T: AllocGlobal + Abort + Threads + Sync>(
    rt: &T,
    table: &str,
    count: u16,
) -> Result<(), Fail> {
    let mut given = Given {
        before: Vec::new(rt.alloc()),
        most: 4096,
        told: String::new(rt.alloc()),
    };
    let rows = expect_each(rt, &mut given, table);
    drop(given);
    assert!(rt; rows? == count);
    Ok(())
}
