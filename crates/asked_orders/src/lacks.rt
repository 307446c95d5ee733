//! How many orders of a book weren't done in its run.

ghost use Rattle.std.specs.Prelude.{◌≡◌, ◌↔◌, [], map, slice_index_or, IfOk, IsTrue};
ghost use Rattle.std.specs.List.{list_any};
ghost use Rattle.std.specs.Option.{option_copied};
ghost use Rattle.asked_orders.specs.Lacks.{fate_of, fates_from, fates_in, has_asked, idle_from, is_asked_at};
ghost use Rattle.asked_orders.specs.Lacks.{is_refusal, is_refused_at, lacks_of, no_lacks, one_if, refused_from};
ghost use Rattle.asked_orders.specs.declared.lacks.Fate.{Fate};
ghost use Rattle.asked_orders.specs.declared.lacks.Fate.TheVariants as fates;

use crate::asked::{asks, entry_at, is_taken, keep_taken};
use alert_book::Order;
use bsc_table::{CellRecord, Entry};
use cbsp_wire::Cell;
use std::alloc::{AllocError, Global};
use std::marker::Model;

/// What became of an order in a cell.
#[derive(Clone, Copy, Debug, PartialEq, Eq)]
pub(crate) enum Fate {
    /// The order didn't ask the cell: it doesn't name it, or no version of its alert is live there.
    Unasked,
    /// The cell did what it orders.
    Taken,
    /// The cell refused it.
    Refused,
}

/// What became of each order of a book in a cell, in their order.
#[derive(Debug, Drop)]
pub(crate) struct CellFates {
    fates: Vec<Fate>,
}

impl Model for CellFates {
    ghost use Rattle.std.specs.Prelude.{List};
    ghost use Rattle.asked_orders.specs.declared.lacks.Fate.{Fate};

    ghost Value = { List Fate };

    ghost view = { λ c. c.fates.items };
}

/// How many orders of a book weren't done in its run.
#[derive(Clone, Copy, Debug, PartialEq, Eq)]
pub struct Lacks {
    /// How many orders a cell at least refused.
    pub refused: usize,
    /// How many orders asked no cell, and so do nothing: updates and stops of alerts of which no version is live in any
    /// of the cells that they name.
    pub idle: usize,
}

impl Lacks {
    /// Whether every order was done.
    pub fn is_none(self) -> bool
        ensures { IsTrue result ↔ (self ≡ no_lacks) }
    {
        self.refused == 0 && self.idle == 0
    }
}

/// What became of an order that asked a cell by this entry.
fn fate_of(next: Option<&Entry>) -> Fate
    ensures { result ≡ fate_of (option_copied next.entry) }
{
    if is_taken(next) {
        Fate::Taken
    } else {
        Fate::Refused
    }
}

/// What became of orders in a cell with this log.
fn fates_of(
    alloc: Global,
    cell: Cell,
    log: &[Entry],
    orders: &[Order],
) -> Result<Vec<Fate>, AllocError>
    ensures { IfOk result (λ all. all.items ≡ fates_from cell log.now 0 [] orders.now) }
{
    let mut all = Vec::with_capacity(alloc, orders.len())?;
    let mut accepted = Vec::new(alloc);
    let mut asked = 0;
    for order in orders {
        let next = entry_at(log, asked);
        if asks(order, cell, accepted.as_slice(), next) {
            keep_taken(&mut accepted, order, next)?;
            all.push(fate_of(next))?;
            asked += 1;
        } else {
            all.push(Fate::Unasked)?;
        }
    }
    Ok(all)
}

/// What became of the orders of a book in a cell of its run.
fn fates_in(alloc: Global, orders: &[Order], run: &CellRecord) -> Result<CellFates, AllocError>
    ensures { IfOk result (λ in_cell. in_cell ≡ fates_in orders.now run.now) }
{
    Ok(CellFates {
        fates: fates_of(alloc, run.cell(), run.log(), orders)?,
    })
}

/// What became of the orders of a book in each cell of its run.
fn all_fates(
    alloc: Global,
    orders: &[Order],
    records: &[CellRecord],
) -> Result<Vec<CellFates>, AllocError>
    ensures { IfOk result (λ cells. cells.items ≡ map (fates_in orders.now) records.now) }
{
    let mut cells = Vec::with_capacity(alloc, records.len())?;
    for run in records {
        cells.push(fates_in(alloc, orders, run)?)?;
    }
    Ok(cells)
}

/// What became of the order at a place.
fn fate_at(in_cell: &CellFates, place: usize) -> Fate
    ensures { result ≡ slice_index_or in_cell.now place fates.Unasked }
{
    match in_cell.fates.get(place) {
        Some(fate) => *fate,
        None => Fate::Unasked,
    }
}

/// Whether a cell refused it.
fn is_refusal(fate: Fate) -> bool
    ensures { result ≡ is_refusal fate }
{
    match fate {
        Fate::Refused => true,
        Fate::Unasked | Fate::Taken => false,
    }
}

/// Whether it asked a cell.
fn has_asked(fate: Fate) -> bool
    ensures { result ≡ has_asked fate }
{
    match fate {
        Fate::Unasked => false,
        Fate::Taken | Fate::Refused => true,
    }
}

/// Whether some cell refused the order at a place.
fn is_refused_at(cells: &[CellFates], place: usize) -> bool
    ensures { result ≡ is_refused_at cells.now place }
{
    for in_cell in cells {
        if is_refusal(fate_at(in_cell, place)) {
            return true;
        }
    }
    false
}

/// Whether the order at a place asked some cell.
fn is_asked_at(cells: &[CellFates], place: usize) -> bool
    ensures { result ≡ is_asked_at cells.now place }
{
    for in_cell in cells {
        if has_asked(fate_at(in_cell, place)) {
            return true;
        }
    }
    false
}

/// How many of these orders some cell refused.
fn count_refused(cells: &[CellFates], orders: &[Order]) -> usize
    ensures { result ≡ refused_from cells.now 0 orders.now }
{
    let mut count = 0;
    for (place, _) in orders.iter().enumerate() {
        count += usize::from(is_refused_at(cells, place));
    }
    count
}

/// How many of these orders asked no cell.
fn count_idle(cells: &[CellFates], orders: &[Order]) -> usize
    ensures { result ≡ idle_from cells.now 0 orders.now }
{
    let mut count = 0;
    for (place, _) in orders.iter().enumerate() {
        count += usize::from(!is_asked_at(cells, place));
    }
    count
}

/// How many orders of a book weren't done in its run: those that some cell refused, and those that asked no cell.
///
/// Takes time in proportion to the orders times the cells.
///
/// # Errors
///
/// Out of memory.
pub fn lacks_of(
    alloc: Global,
    orders: &[Order],
    records: &[CellRecord],
) -> Result<Lacks, AllocError>
    ensures { IfOk result (λ lacks. lacks ≡ lacks_of orders.now records.now) }
{
    let cells = all_fates(alloc, orders, records)?;
    Ok(Lacks {
        refused: count_refused(&cells, orders),
        idle: count_idle(&cells, orders),
    })
}
