//! How the lines of a table, `action -> wanted`, are carried out.
//!
//! - `says OCTETS`: what the message at their front says, or why it isn't read; and how many octets follow it.
//! - `in_order OCTETS`: the same, and they are also what is written of it.
//! - `writes OCTETS`: the octets that are written of what they say, or why none are.
//! - `split OCTETS`: the type of the message at their front, and how many octets are its body and follow it.
//! - `scarce ACTION -> refused; WANTED`: the action is refused with hardly any memory, with one block more each time,
//!   until it has enough.

use crate::of_cbsp_link::said::put_message;
use cbsp_link::{LinkError, LinkMessage, read, split, write};
use std::alloc::{AllocError, Global};
use std::fmt::Write;
use std::process::Abort;
use std::test::Fail;
use test_support::{Drought, Row, Words, after_refusals, digits_of, is_refused, octets_of};

/// The octets of all the words that are left, of which `10*8d46` stands for `8d46` ten times.
fn octets_in(alloc: Global, words: &mut Words<'_>) -> Result<Vec<u8>, Fail> {
    let mut digits = String::new(alloc);
    for _ in 0..1000_u16 {
        let word = words.word();
        let (times, repeated) = word.split_once('*').unwrap_or(("1", word));
        for _ in 0..times.parse::<u16>()? {
            digits.push_str(repeated)?;
        }
    }
    octets_of(alloc, &digits)
}

/// What an error is called in a row.
fn text_of(alloc: Global, error: LinkError) -> Result<String, AllocError> {
    match error {
        LinkError::OutOfMemory => String::from_str(alloc, "Refused"),
        LinkError::Fault(_) => format!(in alloc; "{error}"),
    }
}

/// The message at the front of octets, and the number of octets after it, where memory can be scarce.
fn read_in(
    alloc: Global,
    drought: &mut Drought,
    octets: &[u8],
) -> Result<(LinkMessage, usize), LinkError> {
    drought.begin(alloc);
    let outcome = read(alloc, octets);
    drought.end();
    let (message, rest) = outcome?;
    Ok((message, rest.len()))
}

/// The octets of a message, where memory can be scarce.
fn written_in(
    alloc: Global,
    drought: &mut Drought,
    message: &LinkMessage,
) -> Result<Vec<u8>, LinkError> {
    drought.begin(alloc);
    let outcome = write(alloc, message);
    drought.end();
    outcome
}

/// `says OCTETS`.
fn says(alloc: Global, drought: &mut Drought, octets: &[u8]) -> Result<String, AllocError> {
    match read_in(alloc, drought, octets) {
        Ok((message, after)) => {
            let mut row = String::new(alloc);
            put_message(&mut row, &message)?;
            if after > 0 {
                write!(row, ", and {after} more")?;
            }
            Ok(row)
        }
        Err(error) => text_of(alloc, error),
    }
}

/// `writes OCTETS`.
fn writes(alloc: Global, drought: &mut Drought, octets: &[u8]) -> Result<String, AllocError> {
    match read_in(alloc, drought, octets) {
        Ok((message, _)) => match written_in(alloc, drought, &message) {
            Ok(written) => digits_of(alloc, &written),
            Err(error) => text_of(alloc, error),
        },
        Err(error) => text_of(alloc, error),
    }
}

/// `in_order OCTETS`.
fn in_order(alloc: Global, drought: &mut Drought, octets: &[u8]) -> Result<String, AllocError> {
    let mut row = says(alloc, drought, octets)?;
    let again = writes(alloc, drought, octets)?;
    if is_refused(&again) {
        return Ok(again);
    }
    if again != digits_of(alloc, octets)? {
        row.push_str(" but not in order")?;
    }
    Ok(row)
}

/// `split OCTETS`.
fn parts(alloc: Global, octets: &[u8]) -> Result<String, AllocError> {
    match split(octets) {
        Ok(frame) => {
            let (body, rest) = (frame.body.len(), frame.rest.len());
            format!(in alloc; "type {}, body {body}, rest {rest}", frame.message_type)
        }
        Err(fault) => format!(in alloc; "{fault}"),
    }
}

/// What comes of an action, for which so many blocks of memory are left if it is `scarce`.
fn carried_out(
    alloc: Global,
    drought: &mut Drought,
    action: &str,
    blocks: u16,
) -> Result<String, Fail> {
    let mut words = Words::of(action);
    let verb = drought.verb(&mut words, blocks);
    let octets = octets_in(alloc, &mut words)?;
    let found = match verb {
        "says" => says(alloc, drought, &octets)?,
        "in_order" => in_order(alloc, drought, &octets)?,
        "writes" => writes(alloc, drought, &octets)?,
        "split" => parts(alloc, &octets)?,
        _ => String::from_str(alloc, "no such action")?,
    };
    Ok(found)
}

/// Expects what a row says. If memory is refused, the action has one block more than before.
fn expect_row(alloc: Global, drought: &mut Drought, row: Row) -> Result<(), Fail> {
    for refused in 0..Drought::MOST {
        let found = carried_out(alloc, drought, row.action, refused)?;
        if !is_refused(&found) {
            let found = after_refusals(alloc, refused, found)?;
            if found.as_str() == row.wanted {
                return Ok(());
            }
            return Err(Fail::new(format_args!("{} -> {found}", row.action)));
        }
    }
    Err(Fail::new("it is refused to the end"))
}

/// Expects what the lines of a table say, which are as many.
pub fn expect_rows(rt: &impl Abort, alloc: Global, table: &str, count: u16) -> Result<(), Fail> {
    let mut drought = Drought::new(alloc)?;
    let mut rows = 0_u16;
    for line in table.split('\n') {
        if let Some(row) = Row::of(line) {
            expect_row(alloc, &mut drought, row)?;
            rows = rows.saturating_add(1);
        }
    }
    drop(drought);
    assert!(rt; rows == count);
    Ok(())
}
