//! Sessions of a book's parts at a desk, as tables of lines: what a pass does, and what the check says of the passes.
//!
//! The steps of a row are parted by `;`, and what each but the first says is wanted. `book NAME SLOTS PARTS` is first:
//! a book of so many parts, a desk of its cells with so many slots, and the passes p, q and r. `check N` is last: what
//! the check says of the first N passes, once the desk is settled with them.
//!
//! If `scarce` stands before it, the check has no memory, and the row is carried out again, with 32 octets more each
//! time, until the check isn't refused. A check that was refused is made again, of the same passes and with all memory,
//! and that is told after it. What is told is wanted of each attempt: `3 times A | B` if that is A of the first three
//! attempts, and B of the one that isn't refused.

use crate::of_session_check::served::{book_of, checked, opened, reply_to, served};
use alert_book::Book;
use bsc_table::Answer;
use cbs_page::Serial;
use cbsp_wire::Cell;
use order_desk::{Desk, Open, Pass, SettleFault};
use std::alloc::AllocError;
use std::fmt::{Debug, Write};
use std::process::Abort;
use std::sync::Wait;
use std::test::Fail;
use std::thread::Threads;
use test_support::{Drought, Outcomes, Row, Words, digits_of, octets_of};

/// Two alerts, each in a cell of its own.
const APART: &str = "cell,1,1\ncell,1,2\n\
    write,0,a,4370,0,1,en,2,2,0,1-1,@\n\
    write,0,b,4371,0,2,en,2,2,0,1-2,Two\n";

/// Two alerts in both cells, one of which is replaced and one is stopped, and an order past a run of 4 slots.
const TOGETHER: &str = "cell,1,1\ncell,1,2\n\
    write,0,a,4370,0,1,en,2,4,0,*,One\n\
    write,0,b,4371,0,2,en,2,4,0,1-2 1-1,Two\n\
    update,2,a,en,2,4,0,*,Three\n\
    stop,2,b,1-2\n\
    write,9,b2,4372,0,3,en,2,4,0,1-1,Four\n\
    stop,9,b,1-1\n";

/// An alert of each verb in two cells.
const VERBS: &str = "cell,1,1\ncell,1,2\n\
    write,0,a,4370,0,1,en,2,2,0,*,One\n\
    update,1,a,en,2,2,0,*,Two\n\
    stop,2,a,1-1\n";

/// The rows of a book that a word names; none if there is no such book.
fn rows_of(name: &str) -> &'static str {
    match name {
        "apart" => APART,
        "together" => TOGETHER,
        "verbs" => VERBS,
        _ => "",
    }
}

/// Tells a value by its names.
fn put<D: Debug>(told: &mut String, value: &D) -> Result<(), AllocError> {
    write!(told, "{value:?}")
}

/// The cell 1-2.
const SECOND: Cell = Cell { lac: 1, ci: 2 };

/// `asks ID SERIAL`: a pass asks the second cell for a status.
fn ask<T: AllocGlobal + Wait>(
    rt: &T,
    told: &mut String,
    desk: &Desk,
    pass: &mut Pass,
    words: &mut Words,
) -> Result<(), Fail> {
    let (id, serial) = (words.number16()?, Serial::of(words.hex16()?));
    match desk.status(rt, rt.alloc(), pass, SECOND, id, serial, &Open) {
        Ok(Some((completed, state))) => put(told, &Answer::Told { completed, state })?,
        Ok(None) => put(told, &Answer::Unknown)?,
        Err(fault) => put(told, &fault)?,
    }
    Ok(())
}

/// `plays SLOTS`: a pass plays the second cell.
fn play<T: AllocGlobal + Wait>(
    rt: &T,
    told: &mut String,
    desk: &Desk,
    pass: &mut Pass,
    words: &mut Words,
) -> Result<(), Fail> {
    match desk.play(rt, rt.alloc(), pass, SECOND, words.number16()?, &Open) {
        Ok(range) => write!(told, "{}..{}", range.from, range.to)?,
        Err(fault) => put(told, &fault)?,
    }
    Ok(())
}

/// `orders OCTETS`: a pass orders at slot 0.
fn order<T: AllocGlobal + Wait>(
    rt: &T,
    told: &mut String,
    desk: &Desk,
    pass: &mut Pass,
    words: &mut Words,
) -> Result<(), Fail> {
    let octets = octets_of(rt.alloc(), words.word())?;
    let reply = reply_to(rt, desk, pass, 0, &octets)?;
    let digits = digits_of(rt.alloc(), &reply)?;
    Ok(told.push_str(&digits)?)
}

/// A book of so many parts, and a desk of its cells.
#[derive(Clone, Copy)]
struct Place<'a> {
    book: &'a Book,
    desk: &'a Desk,
    parts: u16,
}

/// Does with a pass what the words say. `serves PART LATE` serves the session of a part, each message so many slots
/// late, and tells how many messages there were; and `notes` tells how many notes the pass has.
fn with_pass<T: AllocGlobal + Wait>(
    rt: &T,
    told: &mut String,
    place: Place<'_>,
    pass: &mut Pass,
    words: &mut Words,
) -> Result<(), Fail> {
    let Place { book, desk, parts } = place;
    match words.word() {
        "serves" => {
            let (part, late) = (words.number16()?, words.number16()?);
            let messages = served(rt, book, part, parts, desk, pass, late)?;
            Ok(write!(told, "{messages}")?)
        }
        "orders" => order(rt, told, desk, pass, words),
        "asks" => ask(rt, told, desk, pass, words),
        "plays" => play(rt, told, desk, pass, words),
        _ => Ok(write!(told, "{}", pass.notes().len())?),
    }
}

/// Carries out a step, and tells what comes of it.
fn step<T: AllocGlobal + Wait>(
    rt: &T,
    told: &mut String,
    place: Place<'_>,
    passes: &mut [Pass],
    step: &str,
) -> Result<(), Fail> {
    let mut words = Words::of(step);
    let number = match words.word() {
        "p" => 0,
        "q" => 1,
        "r" => 2,
        _ => return Err(Fail::new("no such pass")),
    };
    match passes.get_mut(number) {
        Some(pass) => with_pass(rt, told, place, pass, &mut words)?,
        None => return Err(Fail::new("no such pass")),
    }
    if words.word().is_empty() {
        return Ok(told.push_str("; ")?);
    }
    Err(Fail::new("words are left over"))
}

/// Makes the passes of a desk, and carries out the steps of a row after the first, up to the last.
fn steps<T: AllocGlobal + Wait>(
    rt: &T,
    told: &mut String,
    place: Place<'_>,
    passes: &mut Vec<Pass>,
    steps: &str,
) -> Result<(), Fail> {
    for _ in 0..3 {
        passes.push(place.desk.pass())?;
    }
    for one in steps.split(';') {
        step(rt, told, place, passes.as_mut_slice(), one)?;
    }
    Ok(())
}

/// How many slots a desk has, how many parts its book, and how many passes are checked.
#[derive(Clone, Copy)]
struct Numbers {
    slots: u16,
    parts: u16,
    passes: u16,
}

/// Tells what a check says, and if that is that memory was refused, what it says then with all memory.
fn put_outcomes(
    told: &mut String,
    outcomes: (Result<(), SettleFault>, Result<(), SettleFault>),
) -> Result<(), AllocError> {
    let (first, again) = outcomes;
    put(told, &first)?;
    if first == Err(SettleFault::Refused) {
        told.push_str(", then ")?;
        put(told, &again)?;
    }
    Ok(())
}

/// Carries out the steps of a row at a desk of a book's cells, and tells what comes of them and of the check.
fn at_desk<T: AllocGlobal + Wait>(
    rt: &T,
    told: &mut String,
    drought: &mut Drought,
    book: &Book,
    numbers: Numbers,
    middle: &str,
) -> Result<(), Fail> {
    let Numbers { slots, parts, .. } = numbers;
    let mut passes = Vec::new(rt.alloc());
    let desk = opened(rt.alloc(), book, slots)?;
    let place = Place {
        book,
        desk: &desk,
        parts,
    };
    let done = steps(rt, told, place, &mut passes, middle);
    let first = passes.get(..usize::from(numbers.passes));
    match (done, first) {
        (Ok(()), Some(first)) => {
            let outcomes = checked(rt.alloc(), book, parts, desk, first, drought)?;
            Ok(put_outcomes(told, outcomes)?)
        }
        (Ok(()), None) => {
            drop(desk);
            Err(Fail::new("there are three passes"))
        }
        (Err(fail), _) => {
            drop(desk);
            Err(fail)
        }
    }
}

/// What comes of a row, with so many blocks of memory for a check that is `scarce`.
fn found<T: AllocGlobal + Threads + Wait + Sync>(
    rt: &T,
    drought: &mut Drought,
    action: &str,
    blocks: u16,
) -> Result<String, Fail> {
    let (first, rest) = action.split_once(';').unwrap_or((action, ""));
    let (middle, last) = rest.rsplit_once(';').unwrap_or(("", rest));
    let (mut first, mut last) = (Words::of(first), Words::of(last));
    if first.word() != "book" || drought.verb(&mut last, blocks) != "check" {
        return Err(Fail::new("no book, or no check"));
    }
    let rows = rows_of(first.word());
    let numbers = Numbers {
        slots: first.number16()?,
        parts: first.number16()?,
        passes: last.number16()?,
    };
    let mut told = String::new(rt.alloc());
    let book = book_of(rt, rows)?;
    let done = at_desk(rt, &mut told, drought, &book, numbers, middle);
    drop(book);
    done?;
    Ok(told)
}

/// Scarce memory for the check of a row, and what came of the row's attempts.
#[derive(Drop)]
struct Trial {
    drought: Drought,
    outcomes: Outcomes,
}

/// Carries out a row, again and again if memory is refused.
fn try_row<T: AllocGlobal + Threads + Wait + Sync>(
    rt: &T,
    trial: &mut Trial,
    row: Row,
) -> Result<(), Fail> {
    let is_scarce = row.action.contains("; scarce ");
    for blocks in 0..Drought::MOST {
        let found = found(rt, &mut trial.drought, row.action, blocks)?;
        if !is_scarce || !found.contains("Refused") {
            return Ok(trial.outcomes.end_row(row, &found)?);
        }
        trial.outcomes.put_refused(&found)?;
    }
    Err(Fail::new("it is refused to the end"))
}

/// Expects what the rows of a table say, which are so many.
pub fn expect_rows<T: AllocGlobal + Threads + Wait + Abort + Sync>(
    rt: &T,
    table: &str,
    count: u16,
) -> Result<(), Fail> {
    let mut trial = Trial {
        drought: Drought::of_room(rt.alloc())?,
        outcomes: Outcomes::new(rt.alloc()),
    };
    let mut rows = 0_u16;
    for line in table.split('\n') {
        if let Some(row) = Row::of(line) {
            try_row(rt, &mut trial, row)?;
            rows = rows.saturating_add(1);
        }
    }
    assert_eq!(rt; trial.outcomes.differing(), "");
    drop(trial);
    assert!(rt; rows == count);
    Ok(())
}
