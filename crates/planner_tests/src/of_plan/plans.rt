//! How tests plan, and what the rows of a table mean: a word that says what is done, and the rows of a plan.
//!
//! - `plan ROWS`: the book that they come to, its line ends as bars, or the line of the fault, as the program prints
//!   it;
//! - `line_feeds NUMBER`: the same of a plan of NUMBER line feeds;
//! - `reads NUMBER ROWS`: the fault where the reader fails after NUMBER calls of 10 octets; `writes NUMBER ROWS`: where
//!   the writer does, and how many octets are out.

use crate::octets::add_rows;
use device_ends::memory::{MemoryReader, MemoryWriter};
use device_ends::{Sink, Source};
use plan::{PlanFault, plan_stream};
use std::alloc::{AllocError, AllocGlobal, Global};
use std::process::Abort;
use std::test::Fail;
use test_support::Row;

/// What comes of a plan.
#[derive(Drop)]
struct Outcome {
    fault: Option<PlanFault>,
    text: Vec<u8>,
}

/// Plans octets, between ends that move so many octets at most and fail after so many calls, if they do.
fn outcome_of(
    alloc: Global,
    octets: &[u8],
    most: usize,
    reads: Option<usize>,
    writes: Option<usize>,
) -> Result<Outcome, AllocError> {
    let most = most.max(1);
    let mut reader = MemoryReader::new(octets, most, reads);
    let mut writer = MemoryWriter::new(alloc, most, writes);
    let mut source = Source::new(&mut reader);
    let mut sink = Sink::new(&mut writer);
    let fault = plan_stream(alloc, &mut source, &mut sink).err();
    Ok(Outcome {
        fault,
        text: Vec::from_slice(alloc, writer.contents())?,
    })
}

/// Tells a text with its line ends as bars.
fn tell_text(told: &mut String, text: &[u8]) -> Result<(), Fail> {
    let text = std::str::from_utf8(text).map_err(|_| Fail::new("the book isn't UTF-8"))?;
    for character in text.chars() {
        told.push(if character == '\n' { '|' } else { character })?;
    }
    Ok(())
}

/// Tells what comes of a plan.
fn tell(told: &mut String, verb: &str, outcome: &Outcome) -> Result<(), Fail> {
    match outcome.fault {
        None => tell_text(told, &outcome.text),
        Some(fault) if verb == "plan" || verb == "line_feeds" => {
            tell_text(told, &outcome.text)?;
            Ok(write!(told, "{fault}")?)
        }
        Some(fault) => Ok(write!(told, "{fault:?}, {}", outcome.text.len())?),
    }
}

/// What comes of an action.
fn outcome_in(alloc: Global, verb: &str, rest: &str) -> Result<Outcome, Fail> {
    let mut octets = Vec::new(alloc);
    if verb == "line_feeds" {
        octets.resize(rest.parse::<usize>()?, b'\n')?;
        return Ok(outcome_of(alloc, &octets, 65_536, None, None)?);
    }
    if verb == "plan" {
        add_rows(&mut octets, rest)?;
        return Ok(outcome_of(alloc, &octets, 65_536, None, None)?);
    }
    let (number, rows) = rest.split_once(' ').unwrap_or((rest, ""));
    let calls = Some(number.parse::<usize>()?);
    add_rows(&mut octets, rows)?;
    if verb == "reads" {
        return Ok(outcome_of(alloc, &octets, 10, calls, None)?);
    }
    Ok(outcome_of(alloc, &octets, 10, None, calls)?)
}

/// Expects what the rows of a table say, and returns how many there are.
fn expect_each(alloc: Global, table: &str) -> Result<u16, Fail> {
    let mut rows = 0_u16;
    for line in table.split('\n') {
        let Some(row) = Row::of(line) else {
            continue;
        };
        let (verb, rest) = row.action.split_once(' ').unwrap_or((row.action, ""));
        let outcome = outcome_in(alloc, verb, rest)?;
        let mut told = String::new(alloc);
        tell(&mut told, verb, &outcome)?;
        if told.as_str() != row.wanted {
            return Err(Fail::new(format_args!("{} -> {}", row.action, told)));
        }
        rows = rows.saturating_add(1);
    }
    Ok(rows)
}

/// Expects what the rows of a table say. There are `count` of them.
pub fn expect_rows<T: AllocGlobal + Abort>(rt: &T, table: &str, count: u16) -> Result<(), Fail> {
    let rows = expect_each(rt.alloc(), table)?;
    assert!(rt; rows == count, "{rows} rows");
    Ok(())
}
