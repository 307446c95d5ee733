//! The table of the loads of a run's cells.

ghost use Rattle.std.specs.Prelude.{◌≡◌, ◌<◌, ◌≤◌, ◌++◌, ℕ, List, length, All, IfOk, OnOk};
ghost use Rattle.std.specs.List.{flat_map};
ghost use Rattle.admission.specs.declared.measure.TheConstants.{SCALE};
ghost use Rattle.cell_loads.specs.LoadsText.{cell_text, is_change, loads_text, change_text, slots_text};
ghost use Rattle.cell_loads.specs.TableSteps.{IsTable};
ghost use Rattle.chart.specs.Facts.{fullest_slot};

use crate::table::Table;
use bsc_table::CellRecord;
use cbsp_wire::Cell;
use chart::{fullest_slot, hundredths, run_loads};
use slot_times::Start;
use std::alloc::{AllocError, Global};

/// Whether the load is another one than at the slot before, or there is no slot before.
fn is_change(loads: &[u64], slot: usize) -> bool
    requires { slot < length loads.now }
    ensures { result ≡ is_change loads.now slot }
{
    slot == 0 || loads[slot] != loads[slot - 1]
}

/// Appends the line of a slot, if the load changes there. Errors are out of memory, here and below.
fn push_slot(
    table: &mut Table,
    start: Option<Start>,
    cell: Cell,
    loads: &[u64],
    fullest: u16,
    slot: usize,
) -> Result<(), AllocError>
    requires within { slot < length loads.now }
    requires slots { length loads.now < 65536 }
    requires fit { All (λ load. load ≤ SCALE) loads.now }
    requires fullest { fullest ≡ fullest_slot loads.now }
    ensures { OnOk result ((octets : List ℕ) → IsTable table.old octets
        → IsTable table.new (octets ++ change_text start cell loads.now slot)) }
{
    if !is_change(loads, slot) {
        return Ok(());
    }
    let share = hundredths(loads[slot]);
    table.push_load(
        start,
        cell,
        slot as u16,
        share,
        slot == usize::from(fullest),
    )
}

/// Appends the lines of a cell that has reserved these loads.
fn push_slots(
    table: &mut Table,
    start: Option<Start>,
    cell: Cell,
    loads: &[u64],
) -> Result<(), AllocError>
    requires slots { length loads.now < 65536 }
    requires fit { All (λ load. load ≤ SCALE) loads.now }
    ensures { OnOk result ((octets : List ℕ) → IsTable table.old octets
        → IsTable table.new (octets ++ slots_text start cell loads.now)) }
{
    let fullest = fullest_slot(loads);
    for slot in 0..loads.len() {
        push_slot(table, start, cell, loads, fullest, slot)?;
    }
    Ok(())
}

/// Appends the lines of a cell, by its record.
fn push_cell(
    alloc: Global,
    table: &mut Table,
    start: Option<Start>,
    run: &CellRecord,
) -> Result<(), AllocError>
    ensures { OnOk result ((octets : List ℕ) → IsTable table.old octets
        → IsTable table.new (octets ++ cell_text start run.now)) }
{
    let loads = run_loads(alloc, run)?;
    push_slots(table, start, run.cell(), &loads)
}

/// Appends the lines of all cells.
fn push_cells(
    alloc: Global,
    table: &mut Table,
    start: Option<Start>,
    records: &[CellRecord],
) -> Result<(), AllocError>
    ensures { OnOk result ((octets : List ℕ) → IsTable table.old octets
        → IsTable table.new (octets ++ flat_map (cell_text start) records.now)) }
{
    for run in records {
        push_cell(alloc, table, start, run)?;
    }
    Ok(())
}

/// The table of the loads of a run's cells, in their order. Of slot 0, and of each slot at which the load of a cell is
/// another one than at the slot before, it has a line: the cell, the slot, and the share of the cell that is reserved
/// from there on, in hundredths, rounded up; a mark at the first slot at which the cell is fullest; and the time at
/// which the slot begins, if slot 0 has one. The line of the columns' names is over it if it is headed.
///
/// # Errors
///
/// Out of memory.
pub fn loads_text(
    alloc: Global,
    start: Option<Start>,
    headed: bool,
    records: &[CellRecord],
) -> Result<Vec<u8>, AllocError>
    ensures { IfOk result (λ octets. octets.items ≡ loads_text start headed records.now) }
{
    let mut table = Table::new(alloc, start, headed)?;
    push_cells(alloc, &mut table, start, records)?;
    table.into_octets()
}
