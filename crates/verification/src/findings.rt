//! What the tapes of a run have, tape by tape.

ghost use Rattle.std.specs.Prelude.{◌≡◌, ℕ, ◌++◌, List, [], IfOk, OnOk, map};
ghost use Rattle.std.specs.List.{flat_map, list_any};
ghost use Rattle.cbsp_wire.specs.Range.{is_cell};
ghost use Rattle.verification.specs.Found.{AreRowsOfTaken, HasTaken, IsTableOfTaken, TakesTape, unjudged};
ghost use Rattle.verification.specs.FoundSteps.{explained_found, lines_of_state, rows_of_found, rows_of_state};
ghost use Rattle.verification.specs.FoundSteps.{text_of_found};
ghost use Rattle.verification.specs.Judgement.{FindsOf, TakesJudged};
ghost use Rattle.verification.specs.Rows.{difference_row, is_known, tape_of};
ghost use Rattle.verification.specs.Table.{other_line};

use crate::detail::{Detail, TableLayout};
use crate::difference::Difference;
use crate::judgement::{CellFinding, CellState, Judgement, judgement_of, put_each};
use crate::lines::{finding_line, header_line};
use crate::row::{Finding, Row};
use crate::timed::plain_table;
use bsc_table::CellRecord;
use cbsp_wire::Cell;
use slot_times::Start;
use std::alloc::{AllocError, Global};
use std::marker::Model;

/// What was found of the tapes of a run so far.
#[derive(Drop)]
pub struct Findings {
    alloc: Global,
    layout: TableLayout,
    cells: Vec<CellState>,
    seen: Vec<Cell>,
    others: Vec<Row>,
}

impl Model for Findings {
    ghost use Rattle.verification.specs.Found.{FindingsState};

    ghost Value = { FindingsState };

    ghost view = { λ f. record {
      layout = f.layout;
      cells = f.cells.items;
      seen = f.seen.items;
      others = f.others.items;
    } };
}

/// The rows of tapes, and the text of their table.
#[derive(Drop)]
pub struct Table {
    /// The rows, as the plain table has them.
    pub rows: Vec<Row>,
    /// The text, plain or explained.
    pub text: Vec<u8>,
}

/// The cells of these records, before any tape. The only error is out of memory.
fn unjudged_cells(alloc: Global, records: Vec<CellRecord>) -> Result<Vec<CellState>, AllocError>
    ensures { IfOk result (λ cells. cells.items ≡ map unjudged records.items) }
{
    let mut cells = Vec::with_capacity(alloc, records.len())?;
    for run in records {
        cells.push(CellState {
            run,
            finding: CellFinding::NoTape,
        })?;
    }
    Ok(cells)
}

/// Whether a cell is one of these.
fn is_among(cells: &[Cell], cell: Cell) -> bool
    ensures { result ≡ list_any (is_cell cell) cells.now }
{
    for other in cells {
        if cell == *other {
            return true;
        }
    }
    false
}

/// Whether a cell is one of the run's.
fn is_known(cells: &[CellState], cell: Cell) -> bool
    ensures { result ≡ is_known (map (λ c. c.run) cells.now) cell }
{
    for state in cells {
        if cell == state.run.cell() {
            return true;
        }
    }
    false
}

/// Appends the rows of a cell. The only error is out of memory.
fn push_rows(rows: &mut Vec<Row>, state: &CellState) -> Result<(), AllocError>
    ensures { OnOk result (rows.new.items ≡ rows.old.items ++ rows_of_state state.now) }
{
    let cell = state.run.cell();
    let finding = match &state.finding {
        CellFinding::NoTape => Finding::NoTape,
        CellFinding::OtherSlots => Finding::OtherSlots,
        CellFinding::Judged(differences, _) => return push_differences(rows, cell, differences),
    };
    rows.push(Row { cell, finding })?;
    Ok(())
}

/// Appends the rows of differences of a cell. The only error is out of memory.
fn push_differences(
    rows: &mut Vec<Row>,
    cell: Cell,
    differences: &[Difference],
) -> Result<(), AllocError>
    ensures { OnOk result (rows.new.items ≡ rows.old.items ++ map (difference_row cell) differences.now) }
{
    for difference in differences {
        rows.push(Row {
            cell,
            finding: Finding::Differs(*difference),
        })?;
    }
    Ok(())
}

/// The rows of cells, one after another. The only error is out of memory.
fn rows_of_cells(alloc: Global, cells: &[CellState]) -> Result<Vec<Row>, AllocError>
    ensures { IfOk result (λ rows. rows.items ≡ flat_map rows_of_state cells.now) }
{
    let mut rows = Vec::new(alloc);
    for state in cells {
        push_rows(&mut rows, state)?;
    }
    Ok(rows)
}

impl Findings {
    /// Of no tapes, in a run with these records, for a table that is laid out so.
    ///
    /// # Errors
    ///
    /// Out of memory.
    pub fn new(
        alloc: Global,
        layout: TableLayout,
        records: Vec<CellRecord>,
    ) -> Result<Findings, AllocError>
        ensures { IfOk result (λ findings. HasTaken layout records.items findings []) }
    {
        let cells = unjudged_cells(alloc, records)?;
        Ok(Findings {
            alloc,
            layout,
            cells,
            seen: Vec::new(alloc),
            others: Vec::new(alloc),
        })
    }

    /// What a tape finds: of which cell it is, how many slots it has, and its blocks. This takes nothing, so that tapes
    /// may be judged side by side and taken in their order. Nothing is found of the second tape of a cell.
    ///
    /// # Errors
    ///
    /// Out of memory.
    pub fn judged(
        &self,
        cell: Cell,
        slots: u32,
        blocks: &[[u8; 23]],
    ) -> Result<Judgement, AllocError>
        ensures { IfOk result (λ judgement. FindsOf self.now (tape_of cell slots blocks.now) judgement) }
    {
        if is_among(&self.seen, cell) {
            return Ok(Judgement {
                found: Vec::new(self.alloc),
            });
        }
        judgement_of(self.alloc, self.layout, &self.cells, cell, slots, blocks)
    }

    /// Takes the next tape, which is of a cell and was judged. The first tape of a cell counts.
    ///
    /// # Errors
    ///
    /// Out of memory. Some of the tape may then have been taken.
    pub fn take_judged(&mut self, cell: Cell, judgement: Judgement) -> Result<(), AllocError>
        ensures { OnOk result ((slots : ℕ) (blocks : List (List ℕ)) →
            TakesJudged self.old self.new (tape_of cell slots blocks) judgement) }
    {
        if !is_known(&self.cells, cell) {
            self.others.push(Row {
                cell,
                finding: Finding::UnknownCell,
            })?;
        } else if is_among(&self.seen, cell) {
            self.others.push(Row {
                cell,
                finding: Finding::SecondTape,
            })?;
        } else {
            put_each(self.cells.as_mut_slice(), judgement);
        }
        self.seen.push(cell)?;
        Ok(())
    }

    /// Takes the next tape: of which cell it is, how many slots it has, and its blocks. The first tape of a cell is
    /// judged.
    ///
    /// # Errors
    ///
    /// Out of memory. Some of the tape may then have been taken.
    pub fn take(&mut self, cell: Cell, slots: u32, blocks: &[[u8; 23]]) -> Result<(), AllocError>
        ensures { OnOk result (TakesTape self.old self.new (tape_of cell slots blocks.now)) }
    {
        let judgement = self.judged(cell, slots, blocks)?;
        self.take_judged(cell, judgement)
    }

    /// The rows of the cells, in the order of their records, and then those of tapes that weren't judged, in their
    /// order.
    ///
    /// # Errors
    ///
    /// Out of memory.
    pub fn rows(&self) -> Result<Vec<Row>, AllocError>
        ensures taken { IfOk result (λ rows. AreRowsOfTaken self.now rows.items) }
        ensures found { IfOk result (λ rows. rows.items ≡ rows_of_found self.now) }
    {
        let mut rows = rows_of_cells(self.alloc, &self.cells)?;
        rows.extend_from_slice(&self.others)?;
        Ok(rows)
    }

    /// The rows, and the text of their table, as it was to be laid out.
    ///
    /// # Errors
    ///
    /// Out of memory.
    pub fn table(&self) -> Result<Table, AllocError>
        ensures { IfOk result (λ table. IsTableOfTaken self.now table.rows.items table.text.items) }
    {
        let rows = self.rows()?;
        let text = self.text(&rows)?;
        Ok(Table { rows, text })
    }

    /// The text of the rows. The only error is out of memory.
    fn text(&self, rows: &[Row]) -> Result<Vec<u8>, AllocError>
        ensures { IfOk result (λ text. text.items ≡ text_of_found self.now rows.now) }
    {
        match self.layout.detail {
            Detail::Plain => plain_table(self.alloc, self.layout.start, rows),
            Detail::Explained => self.explained(self.layout.start),
        }
    }

    /// The explained table. The only error is out of memory.
    fn explained(&self, start: Option<Start>) -> Result<Vec<u8>, AllocError>
        ensures { IfOk result (λ text. text.items ≡ explained_found start self.now) }
    {
        let mut text = header_line(self.alloc, start)?;
        push_cells(self.alloc, &mut text, start, &self.cells)?;
        push_others(self.alloc, &mut text, start, &self.others)?;
        Ok(text)
    }
}

/// Appends the lines of a cell. The only error is out of memory.
fn push_lines(
    alloc: Global,
    text: &mut Vec<u8>,
    start: Option<Start>,
    state: &CellState,
) -> Result<(), AllocError>
    ensures { OnOk result (text.new.items ≡ text.old.items ++ lines_of_state start state.now) }
{
    let cell = state.run.cell();
    let finding = match &state.finding {
        CellFinding::NoTape => Finding::NoTape,
        CellFinding::OtherSlots => Finding::OtherSlots,
        CellFinding::Judged(_, lines) => return text.extend_from_slice(lines),
    };
    text.extend_from_slice(&finding_line(alloc, start, cell, &finding)?)
}

/// Appends the lines of cells, one after another. The only error is out of memory.
fn push_cells(
    alloc: Global,
    text: &mut Vec<u8>,
    start: Option<Start>,
    cells: &[CellState],
) -> Result<(), AllocError>
    ensures { OnOk result (text.new.items ≡ text.old.items ++ flat_map (lines_of_state start) cells.now) }
{
    for state in cells {
        push_lines(alloc, text, start, state)?;
    }
    Ok(())
}

/// Appends the lines of rows that tell of whole tapes. The only error is out of memory.
fn push_others(
    alloc: Global,
    text: &mut Vec<u8>,
    start: Option<Start>,
    rows: &[Row],
) -> Result<(), AllocError>
    ensures { OnOk result (text.new.items ≡ text.old.items ++ flat_map (other_line start) rows.now) }
{
    for row in rows {
        let line = finding_line(alloc, start, row.cell, &row.finding)?;
        text.extend_from_slice(&line)?;
    }
    Ok(())
}
