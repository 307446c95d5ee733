//! How full a cell is in its run, and when it is fullest.

ghost use Rattle.std.specs.Prelude.{◌≡◌, ◌<◌, ◌≤◌, length, All, IfOk};
ghost use Rattle.admission.specs.declared.measure.TheConstants.{SCALE};
ghost use Rattle.chart.specs.Facts.{fullest_in, fullest_slot};
ghost use Rattle.chart.specs.Load.{all_loads};

use crate::facts::{hundredths, most_of, slot_of};
use crate::kept::accepted_in;
use crate::load::loads_of;
use bsc_table::CellRecord;
use std::alloc::{AllocError, Global};

/// How full a cell gets.
#[derive(Clone, Copy, Debug, PartialEq, Eq)]
pub struct Fullest {
    /// The most load that it has reserved at a slot, in hundredths of the cell, rounded up: 0 to 100.
    pub share: u64,
    /// The first slot at which it has.
    pub slot: u16,
}

/// The loads that a cell has reserved at each slot of its run, in parts of [`SCALE`](admission::SCALE).
///
/// # Errors
///
/// Out of memory.
pub fn run_loads(alloc: Global, run: &CellRecord) -> Result<Vec<u64>, AllocError>
    ensures slots { IfOk result (λ loads. length loads.items ≡ run.now.slots) }
    ensures few { IfOk result (λ loads. length loads.items < 65536) }
    ensures loads { IfOk result (λ loads. loads.items ≡ all_loads run.now) }
    ensures within { IfOk result (λ loads. All (λ load. load ≤ SCALE) loads.items) }
{
    // The loads of accepted messages fit.
    bsc_table::legal_histories();
    let slots = run.slots();
    let messages = accepted_in(alloc, run.log())?;
    let loads = loads_of(alloc, &messages, slots)?;
    Ok(loads)
}

/// The first slot with the greatest of these loads; 0 if there are none.
pub fn fullest_slot(loads: &[u64]) -> u16
    requires { length loads.now < 65536 }
    ensures { result ≡ fullest_slot loads.now }
{
    slot_of(loads, most_of(loads))
}

/// How full a cell gets in its run, as the heading of its section says it.
///
/// # Errors
///
/// Out of memory.
pub fn fullest_of(alloc: Global, run: &CellRecord) -> Result<Fullest, AllocError>
    ensures { IfOk result (λ fullest. fullest ≡ fullest_in run.now) }
{
    let loads = run_loads(alloc, run)?;
    let most = most_of(&loads);
    Ok(Fullest {
        share: hundredths(most),
        slot: slot_of(&loads, most),
    })
}
