//! Judging with hardly any memory: each allocation is refused once.

use crate::of_verification::cells::expect_lines;
use crate::of_verification::tables::TAMPERED;
use bsc_table::CellRecord;
use slot_times::Start;
use std::alloc::{AllocError, Global};
use std::process::Abort;
use std::test::Fail;
use test_support::take_all;
use verification::{Detail, Findings, TableLayout, differences};

/// How many octets each block of the memory has that is given back.
const BLOCK: usize = 1024;

/// How many differences a tape has.
fn count_of(alloc: Global, run: &CellRecord, blocks: &[[u8; 23]]) -> Result<usize, AllocError> {
    let found = differences(alloc, run, blocks)?;
    Ok(found.len())
}

/// The length of the text of what a tape has.
fn text_length(alloc: Global, findings: &Findings) -> Result<usize, AllocError> {
    let table = findings.table()?;
    Ok(table.text.len())
}

/// Blocks that are given back one after another, once all other memory is taken.
fn spare_blocks(alloc: Global) -> Result<Vec<Vec<u8>>, Fail> {
    let mut spare: Vec<Vec<u8>> = Vec::with_capacity(alloc, 400)?;
    for _ in 0..400 {
        spare.push(Vec::with_capacity(alloc, BLOCK)?)?;
    }
    Ok(spare)
}

/// How often differences are refused memory before they are found, each time with one block more.
fn refusals(
    rt: &impl Abort,
    alloc: Global,
    run: &CellRecord,
    blocks: &[[u8; 23]],
    spare: &mut Vec<Vec<u8>>,
) -> u16 {
    let mut refused = 0_u16;
    for _ in 0..400 {
        if let Ok(count) = count_of(alloc, run, blocks) {
            assert_eq!(rt; count, 5);
            return refused;
        }
        refused = refused.saturating_add(1);
        let _ = spare.pop();
    }
    assert!(rt; false, "no differences with 400 KB");
    refused
}

/// How often a tape and the text of what it has, of this length, are refused memory, each time with one block more.
fn text_refusals(
    rt: &impl Abort,
    alloc: Global,
    findings: &mut Findings,
    blocks: &[[u8; 23]],
    wanted: usize,
    spare: &mut Vec<Vec<u8>>,
) -> u16 {
    let mut refused = 0_u16;
    let cell = cbsp_wire::Cell { lac: 1, ci: 8 };
    let mut taken = false;
    for _ in 0..400 {
        taken = taken || findings.take(cell, 12, blocks).is_ok();
        if taken {
            if let Ok(length) = text_length(alloc, findings) {
                assert_eq!(rt; length, wanted);
                return refused;
            }
        }
        refused = refused.saturating_add(1);
        let _ = spare.pop();
    }
    assert!(rt; false, "no text with 400 KB");
    refused
}

#[test]
fn refused_memory_is_reported(rt: HostRuntime) -> Result<(), Fail> {
    let mut spare = spare_blocks(rt.alloc())?;
    let mut taken = Vec::with_capacity(rt.alloc(), 100_000)?;
    let cells = expect_lines(&rt, rt.alloc(), TAMPERED, 17)?;
    take_all(rt.alloc(), &mut taken);
    let mut refused = 0;
    if let Some(run) = cells.runs.last() {
        refused = refusals(&rt, rt.alloc(), run, cells.tape.list.as_slice(), &mut spare);
    }
    taken.clear();
    drop(cells);
    assert!(rt; refused > 3);
    Ok(())
}

/// Expects that memory for a table with times, of this length, is refused, and that the tape is judged afterwards.
fn expect_refusals(
    rt: &impl Abort,
    alloc: Global,
    detail: Detail,
    wanted: usize,
) -> Result<(), Fail> {
    let mut spare = spare_blocks(alloc)?;
    let mut taken = Vec::with_capacity(alloc, 100_000)?;
    let cells = expect_lines(rt, alloc, TAMPERED, 17)?;
    let (runs, tape) = cells.into_runs();
    let layout = TableLayout {
        detail,
        start: Start::new(1_795_977_000_000_000),
    };
    let mut findings = Findings::new(alloc, layout, runs)?;
    take_all(alloc, &mut taken);
    let refused = text_refusals(
        rt,
        alloc,
        &mut findings,
        tape.list.as_slice(),
        wanted,
        &mut spare,
    );
    taken.clear();
    drop(findings);
    drop(tape);
    assert!(rt; refused > 3);
    Ok(())
}

#[test]
fn refused_memory_leaves_the_tape(rt: HostRuntime) -> Result<(), Fail> {
    expect_refusals(&rt, rt.alloc(), Detail::Explained, 51 + 84 + 72 + 99 + 98)
}

#[test]
fn refused_memory_leaves_the_tape_of_a_plain_table(rt: HostRuntime) -> Result<(), Fail> {
    expect_refusals(&rt, rt.alloc(), Detail::Plain, 38 + 63 + 58 + 64 + 63 + 64)
}
