//! The record of a cell whose run is over.

ghost use Rattle.std.specs.Prelude.{◌≡◌};
ghost use Rattle.bsc_table.specs.Legal.{IsLegal};
ghost use Rattle.bsc_table.specs.Book.{air_pairs};
ghost use Rattle.bsc_table.specs.Promised.{IsServed, IsBounded};

use crate::entry::{Aired, Entry};
use cbsp_wire::Cell;
use std::marker::Model;

/// The record of a cell whose run is over. In clauses its clock is the number of its slots.
#[derive(Drop)]
pub struct CellRecord {
    cell: Cell,
    slots: u16,
    log: Vec<Entry>,
    air: Vec<Option<Aired>>,
}

impl Model for CellRecord {
    ghost use Rattle.bsc_table.specs.Record.{Record};

    ghost Value = { Record };

    ghost use Rattle.bsc_table.specs.Book.{record_of_run};
    ghost use Rattle.bsc_table.specs.Legal.{IsLegal};

    ghost view = { record_of_run };

    ghost invariant = { λ r. IsLegal (record_of_run r) };
}

impl CellRecord {
    /// The record of a run of which all slots were played.
    pub(crate) fn of(cell: Cell, slots: u16, log: Vec<Entry>, air: Vec<Option<Aired>>) -> CellRecord
        requires { IsLegal (record {
          cell = cell;
          slots = slots;
          clock = slots;
          log = log.items;
          air = air_pairs
              air.items;
        }) }
        ensures same { result ≡ record {
          cell = cell;
          slots = slots;
          clock = slots;
          log = log.items;
          air = air_pairs
              air.items;
        } }
        ensures served { IsServed result }
        ensures bounded { IsBounded result }
    {
        CellRecord {
            cell,
            slots,
            log,
            air,
        }
    }

    /// The cell.
    pub fn cell(&self) -> Cell
        ensures { result ≡ self.now.cell }
    {
        self.cell
    }

    /// How many slots its run had. All of them were played.
    pub fn slots(&self) -> u16
        ensures slots { result ≡ self.now.slots }
        ensures clock { result ≡ self.now.clock }
        ensures legal { IsLegal self.now }
        ensures served { IsServed self.now }
        ensures bounded { IsBounded self.now }
    {
        self.slots
    }

    /// The commands that were answered, in order.
    pub fn log(&self) -> &[Entry]
        ensures { result.now ≡ self.now.log }
    {
        self.log.as_slice()
    }

    /// What each slot aired.
    pub fn air(&self) -> &[Option<Aired>]
        ensures { air_pairs result.now ≡ self.now.air }
    {
        self.air.as_slice()
    }
}
