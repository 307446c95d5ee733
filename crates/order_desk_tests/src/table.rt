//! Tables of lines: what is done at a desk, an arrow, and what comes of it. `p`, `q` and `r` are the passes of users.
//!
//! The steps of a row are parted by `;`, and what the last one says is wanted.
//!
//! A step `scarce ..` has no memory, and the row is carried out again, with 32 octets more each time, until the step
//! isn't refused. What it and the steps after it say is wanted of each attempt: `3 times A | 2 times B | C` if that is
//! A of the first three attempts, B of the next two, and C of the one that isn't refused.

use crate::ends::{close, settle, show};
use crate::replies::{judge_cells, reply};
use crate::run::{Run, begin, put_fault, put_settle_fault, take_out, with_pass};
use order_desk::{DeskFault, SettleFault};
use std::alloc::AllocError;
use std::process::Abort;
use std::sync::Wait;
use std::test::Fail;
use test_support::{Drought, Row, Words};

/// `fault N`: the fault of an order that memory ended after so many answers, by its name and its text.
fn tell_memory(run: &mut Run, words: &mut Words) -> Result<(), Fail> {
    let done = words.number16()?;
    Ok(put_fault(&mut run.told, DeskFault::Memory { done })?)
}

/// `settle-fault PART`: the fault of a settlement with the session of a part, by its name and its text.
fn tell_session(run: &mut Run, words: &mut Words) -> Result<(), Fail> {
    let part = words.number16()?;
    Ok(put_settle_fault(&mut run.told, SettleFault::Session { part })?)
}

/// Tells what comes of an action.
fn carry_out<T: AllocGlobal + Wait>(
    rt: &T,
    run: &mut Run,
    verb: &str,
    words: &mut Words,
) -> Result<(), Fail> {
    match verb {
        "p" | "q" | "r" => with_pass(rt, run, verb, words),
        "desk" | "next-desk" => begin(rt.alloc(), run, verb, words),
        "piece" => take_out(rt, run, words),
        "shows" => show(run),
        "close" => close(rt.alloc(), run),
        "settle" | "settle-as" => settle(rt.alloc(), run, verb, words),
        "reply" => reply(rt.alloc(), run, words),
        "cells" => judge_cells(rt.alloc(), run, words),
        "fault" => tell_memory(run, words),
        "settle-fault" => tell_session(run, words),
        _ => Err(Fail::new("no such action")),
    }
}

/// Carries out a step, with so many blocks of memory if it begins with `scarce`, and tells what comes of it.
fn carry_out_step<T: AllocGlobal + Wait>(
    rt: &T,
    run: &mut Run,
    step: &str,
    blocks: u16,
) -> Result<(), Fail> {
    run.told.clear();
    let mut words = Words::of(step);
    let verb = run.drought.verb(&mut words, blocks);
    carry_out(rt, run, verb, &mut words)?;
    if words.word().is_empty() {
        return Ok(());
    }
    Err(Fail::new("words are left over"))
}

/// Whether what a step tells is that memory was refused.
fn is_refused(told: &str) -> bool {
    told.contains("Refused") || told.starts_with("Memory {")
}

/// Puts what a step told to what those before it told.
fn put_step(run: &mut Run) -> Result<(), AllocError> {
    let Run { row, told, .. } = run;
    if !row.is_empty() && !told.is_empty() {
        row.push_str(", ")?;
    }
    row.push_str(told)
}

/// Carries out the steps of a row, with so many blocks of memory for the one that begins with `scarce`. Keeps what
/// comes of that and of those after it, or else of the last. Returns whether memory was refused.
fn carry_out_each<T: AllocGlobal + Wait>(
    rt: &T,
    run: &mut Run,
    steps: &str,
    blocks: u16,
) -> Result<bool, Fail> {
    let (mut is_scarce, mut refused) = (false, false);
    for step in steps.split(';') {
        if !is_scarce {
            run.row.clear();
        }
        carry_out_step(rt, run, step, blocks)?;
        if step.trim_start().starts_with("scarce ") {
            is_scarce = true;
            refused = is_refused(&run.told);
        }
        put_step(run)?;
    }
    Ok(refused)
}

/// Carries out a row, again and again if memory is refused.
fn try_row<T: AllocGlobal + Wait>(rt: &T, run: &mut Run, row: Row) -> Result<(), Fail> {
    for blocks in 0..Drought::MOST {
        if !carry_out_each(rt, run, row.action, blocks)? {
            return Ok(run.outcomes.end_row(row, &run.row)?);
        }
        run.outcomes.put_refused(&run.row)?;
    }
    Err(Fail::new("it is refused to the end"))
}

/// Carries out the rows of a table, and returns how many there are.
fn try_each<T: AllocGlobal + Wait>(rt: &T, run: &mut Run, table: &str) -> Result<u16, Fail> {
    let mut rows = 0_u16;
    for line in table.split('\n') {
        if let Some(row) = Row::of(line) {
            try_row(rt, run, row)?;
            rows = rows.saturating_add(1);
        }
    }
    Ok(rows)
}

/// Expects what the rows of a table say, and returns how many there are.
pub fn expect_each<T: AllocGlobal + Wait + Abort>(
    rt: &T,
    run: &mut Run,
    table: &str,
) -> Result<u16, Fail> {
    let rows = try_each(rt, run, table)?;
    assert_eq!(rt; run.outcomes.differing(), "");
    Ok(rows)
}

/// Expects what the rows of a table say, which are so many.
pub fn expect_rows<T: AllocGlobal + Wait + Abort>(
    rt: &T,
    table: &str,
    count: u16,
) -> Result<(), Fail> {
    let mut run = Run::new(rt.alloc())?;
    let rows = expect_each(rt, &mut run, table);
    drop(run);
    assert!(rt; rows? == count);
    Ok(())
}
