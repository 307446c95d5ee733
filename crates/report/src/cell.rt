//! The rows of a cell.

ghost use Rattle.std.specs.Prelude.{◌≡◌, ◌<◌, ◌++◌, All, List, OnOk, length};
ghost use Rattle.bsc_table.specs.Orders.{IsWellFormed};
ghost use Rattle.bsc_table.specs.Record.{rank_of};
ghost use Rattle.handset.specs.Reception.{ShownMessage};
ghost use Rattle.handset.specs.Keeping.{messages_shown};
ghost use Rattle.report.specs.Rows.{cell_rows, demand_of, is_shown, showing_of};
ghost use Rattle.report.specs.RowSteps.{HasNames, end_slot, refused_row, row_by, rows_by, started_row};

use crate::last_pages::{count_last_pages, first_last_pages};
use crate::names::ShownIds;
use crate::row::{Demand, Row, Showing};
use crate::stops::stops_of;
use bsc_table::{Answer, Category, CellRecord, Command, Entry};
use cbs_page::Serial;
use cbsp_wire::Cell;
use handset::Reading;
use std::alloc::{AllocError, Global};

/// What the rows of a cell have in common.
#[derive(Clone, Copy)]
struct CellContext<'a> {
    cell: Cell,
    slots: u16,
    shown: &'a ShownIds,
}

/// Where a message ends, by its start, period and broadcasts, and its stop.
fn end_slot(slots: u16, start: u32, period: u16, broadcasts: u16, stop: Option<u16>) -> u16
    ensures { result ≡ end_slot slots start period broadcasts stop }
{
    if let Some(slot) = stop {
        return slot;
    }
    if broadcasts == 0 {
        return slots;
    }
    let over = u64::from(start) + u64::from(broadcasts) * u64::from(period);
    over.min(u64::from(slots)) as u16
}

/// What a write of this many pages asks of the channel.
fn demand_of(category: Category, pages: u8, period: u16) -> Demand
    requires { 0 < period }
    ensures { result ≡ demand_of (rank_of category) pages period }
{
    let share = match category {
        Category::High | Category::Normal => (u16::from(pages) * 100).div_ceil(period),
        Category::Background => 0,
    };
    Demand {
        pages,
        period,
        share,
    }
}

impl<'a> CellContext<'a> {
    /// Whether a message is shown.
    fn shown_status(&self, id: u16, serial: Serial) -> Showing
        ensures { (shown : List ShownMessage) → HasNames self.now.shown.now shown
            → result ≡ showing_of (is_shown shown id serial) }
    {
        if self.shown.has(id, serial) {
            Showing::Yes
        } else {
            Showing::No
        }
    }

    /// The row of a write that was accepted, which is the entry at a place, by its start, its stop, how many broadcasts
    /// were completed, and the slot of the first of them.
    fn started_row(
        &self,
        place: usize,
        command: &Command,
        start: u32,
        stop: Option<u16>,
        completed: u16,
        first: Option<u16>,
    ) -> Option<Row>
        requires { IsWellFormed command.now }
        ensures { (shown : List ShownMessage) → HasNames self.now.shown.now shown
            → result ≡ started_row self.now.cell place self.now.slots shown stop completed first command.now start }
    {
        match command {
            Command::Write {
                id,
                serial,
                category,
                period,
                broadcasts,
                contents,
                ..
            } => Some(Row {
                entry: place,
                lac: self.cell.lac,
                ci: self.cell.ci,
                id: *id,
                serial: *serial,
                start,
                end: end_slot(self.slots, start, *period, *broadcasts, stop),
                completed,
                shown: self.shown_status(*id, *serial),
                first_shown: first,
                demand: Some(demand_of(*category, contents.as_slice().len() as u8, *period)),
            }),
            Command::Kill { .. } => None,
            Command::Status { .. } => None,
        }
    }

    /// The row of a write or a kill that was refused, which is the entry at a place.
    fn refused_row(&self, place: usize, command: &Command, slot: u16, cause: u8) -> Option<Row>
        requires { IsWellFormed command.now }
        ensures { result ≡ refused_row self.now.cell place slot cause command.now }
    {
        let (id, serial, demand) = match command {
            Command::Write {
                id,
                serial,
                category,
                period,
                contents,
                ..
            } => {
                let pages = contents.as_slice().len() as u8;
                (*id, *serial, Some(demand_of(*category, pages, *period)))
            }
            Command::Kill { id, serial } => (*id, *serial, None),
            Command::Status { .. } => return None,
        };
        Some(Row {
            entry: place,
            lac: self.cell.lac,
            ci: self.cell.ci,
            id,
            serial,
            start: u32::from(slot),
            end: slot,
            completed: 0,
            shown: Showing::Refused(cause),
            first_shown: None,
            demand,
        })
    }

    /// The row of the entry at a place, if it has one, by the stop of its message, how many broadcasts were completed,
    /// and the slot of the first of them.
    fn row(
        &self,
        place: usize,
        entry: &Entry,
        stop: Option<u16>,
        completed: u16,
        first: Option<u16>,
    ) -> Option<Row>
        requires { IsWellFormed entry.now.command }
        ensures { (shown : List ShownMessage) → HasNames self.now.shown.now shown
            → result ≡ row_by self.now.cell place self.now.slots shown stop completed first entry.now.slot
            entry.now.command entry.now.answer }
    {
        match entry.answer {
            Answer::Started { slot } => {
                let start = u32::from(slot);
                self.started_row(place, &entry.command, start, stop, completed, first)
            }
            Answer::Replaced { slot, .. } => {
                self.started_row(place, &entry.command, slot, stop, completed, first)
            }
            Answer::Cause(cause) => self.refused_row(place, &entry.command, entry.slot, cause),
            Answer::Stopped { .. } => None,
            Answer::Told { .. } => None,
            Answer::Unknown => None,
            Answer::Refused => None,
        }
    }

    /// Appends the rows of a log's entries, by the stops and the completed broadcasts of the messages at their places,
    /// and the slots of the first ones.
    fn push_rows(
        &self,
        rows: &mut Vec<Row>,
        log: &[Entry],
        stops: &[Option<u16>],
        completed: &[u16],
        firsts: &[Option<u16>],
    ) -> Result<(), AllocError>
        requires formed { All (λ e. IsWellFormed e.command) log.now }
        requires stops { length stops.now ≡ length log.now }
        requires completed { length completed.now ≡ length log.now }
        requires firsts { length firsts.now ≡ length log.now }
        ensures { OnOk result ((shown : List ShownMessage) → HasNames self.now.shown.now shown
            → rows.new.items ≡ rows.old.items
            ++ rows_by self.now.cell self.now.slots shown stops.now completed.now firsts.now log.now) }
    {
        for (place, entry) in log.iter().enumerate() {
            if let Some(row) = self.row(
                place,
                entry,
                stops[place],
                completed[place],
                firsts[place],
            ) {
                rows.push(row)?;
            }
        }
        Ok(())
    }
}

/// Appends the rows of a cell, in two walks over its log and two over its slots.
///
/// # Errors
///
/// Out of memory.
pub fn push_cell(
    alloc: Global,
    rows: &mut Vec<Row>,
    run: &CellRecord,
    reading: &Reading,
) -> Result<(), AllocError>
    ensures { OnOk result (rows.new.items
        ≡ rows.old.items ++ cell_rows run.now (messages_shown reading.now.shown.items)) }
{
    // The last page of an accepted message is aired as often as a broadcast of it is completed.
    bsc_table::legal_histories();
    scheduler::air_laws();
    let slots = run.slots();
    let stops = stops_of(alloc, run.log())?;
    let completed = count_last_pages(alloc, run.log(), run.air())?;
    let firsts = first_last_pages(alloc, run.log(), run.air())?;
    let shown = ShownIds::of(alloc, &reading.shown)?;
    let in_cell = CellContext {
        cell: run.cell(),
        slots,
        shown: &shown,
    };
    in_cell.push_rows(
        rows,
        run.log(),
        stops.as_slice(),
        completed.as_slice(),
        firsts.as_slice(),
    )
}
