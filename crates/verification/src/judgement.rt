//! What a tape finds of the cells of a run, before it is taken.

ghost use Rattle.std.specs.Prelude.{◌≡◌, IfOk, map};
ghost use Rattle.std.specs.List.{AllZip};
ghost use Rattle.verification.specs.Found.{IsFoundIn, lines_told};
ghost use Rattle.verification.specs.FoundSteps.{put_each, put_found};
ghost use Rattle.verification.specs.Judgement.{IsFoundOf};
ghost use Rattle.verification.specs.Rows.{tape_of};

use crate::cell::differences;
use crate::detail::{Detail, TableLayout};
use crate::difference::Difference;
use crate::explained::explained_lines;
use bsc_table::CellRecord;
use cbsp_wire::Cell;
use std::alloc::{AllocError, Global};
use std::marker::Model;

/// What was found of a cell.
#[derive(Drop)]
pub enum CellFinding {
    /// It had no tape.
    NoTape,
    /// Its tape has another number of slots than the run.
    OtherSlots,
    /// Its tape has these differences, which the explained table, if it is wanted, tells in these lines.
    Judged(Vec<Difference>, Vec<u8>),
}

/// A cell of the run, and what was found of it.
#[derive(Drop)]
pub struct CellState {
    /// The record of its run.
    pub run: CellRecord,
    /// What was found.
    pub finding: CellFinding,
}

/// What a tape found of each cell of a run, in their order: nothing of a cell of which it isn't.
#[derive(Drop)]
pub struct Judgement {
    pub(crate) found: Vec<Option<CellFinding>>,
}

impl Model for Judgement {
    ghost use Rattle.std.specs.Prelude.{List, Option};
    ghost use Rattle.verification.specs.declared.judgement.CellFinding.{CellFinding};

    ghost Value = { List (Option CellFinding) };

    ghost view = { λ j. j.found.items };
}

/// The lines that the explained table has of a cell's differences, if that is wanted. The only error is out of memory.
fn told_lines(
    alloc: Global,
    layout: TableLayout,
    run: &CellRecord,
    blocks: &[[u8; 23]],
    found: &[Difference],
) -> Result<Vec<u8>, AllocError>
    ensures { IfOk result (λ lines. lines.items ≡ lines_told layout run.now blocks.now found.now) }
{
    match layout.detail {
        Detail::Plain => Ok(Vec::new(alloc)),
        Detail::Explained => explained_lines(alloc, layout.start, run, blocks, found),
    }
}

/// What was found of a cell by a tape of this many slots, with these blocks. The only error is out of memory.
fn judge(
    alloc: Global,
    layout: TableLayout,
    run: &CellRecord,
    slots: u32,
    blocks: &[[u8; 23]],
) -> Result<CellFinding, AllocError>
    ensures { IfOk result (IsFoundIn layout run.now slots blocks.now) }
{
    if slots != u32::from(run.slots()) {
        return Ok(CellFinding::OtherSlots);
    }
    let found = differences(alloc, run, blocks)?;
    let lines = told_lines(alloc, layout, run, blocks, &found)?;
    Ok(CellFinding::Judged(found, lines))
}

/// What a tape of this many slots, with these blocks, finds of the cell of a run, if it is of it. The only error is out
/// of memory.
fn found_of(
    alloc: Global,
    layout: TableLayout,
    run: &CellRecord,
    cell: Cell,
    slots: u32,
    blocks: &[[u8; 23]],
) -> Result<Option<CellFinding>, AllocError>
    ensures { IfOk result (IsFoundOf layout (tape_of cell slots blocks.now) run.now) }
{
    if run.cell() != cell {
        return Ok(None);
    }
    let finding = judge(alloc, layout, run, slots, blocks)?;
    Ok(Some(finding))
}

/// What such a tape finds of each of some cells. The only error is out of memory.
pub(crate) fn judgement_of(
    alloc: Global,
    layout: TableLayout,
    cells: &[CellState],
    cell: Cell,
    slots: u32,
    blocks: &[[u8; 23]],
) -> Result<Judgement, AllocError>
    ensures { IfOk result (AllZip (IsFoundOf layout (tape_of cell slots blocks.now)) (map (λ c. c.run) cells.now)) }
{
    let mut found = Vec::with_capacity(alloc, cells.len())?;
    for state in cells {
        found.push(found_of(alloc, layout, &state.run, cell, slots, blocks)?)?;
    }
    Ok(Judgement { found })
}

/// Puts what was found of a cell there, if the tape was of it.
fn put_found(state: &mut CellState, found: Option<CellFinding>)
    ensures { state.new ≡ put_found state.old found }
{
    if let Some(finding) = found {
        state.finding = finding;
    }
}

/// Puts what a tape found of each of some cells there.
pub(crate) fn put_each(cells: &mut [CellState], judgement: Judgement)
    ensures { cells.new ≡ put_each cells.old judgement }
{
    let mut place = 0;
    for found in judgement.found {
        if place < cells.len() {
            put_found(&mut cells[place], found);
            place += 1;
        }
    }
}
