//! Tables of what tapes show by all their pages, of one to four blocks (3GPP TS 44.012).

use crate::table::Table;
use handset::{Reading, Recording, TakesReadings, TakesRecordings};
use short_pages::show;
use std::alloc::{AllocError, Global};

/// A table of the messages that tapes show by all their pages.
#[derive(Drop)]
pub struct AirTable {
    pub(crate) alloc: Global,
    pub(crate) table: Table,
}

impl TakesRecordings for AirTable {
    ghost use Rattle.std.specs.Prelude.{map};
    ghost use Rattle.short_pages.specs.Slots.{reading_on_air};
    ghost use Rattle.warnc_inspect.specs.ReadOutput.{table_of};
    ghost use Rattle.warnc_inspect.specs.ReadSteps.{IsTable};

    ghost Given = { Unit {0} };

    ghost HasTaken = { λ _ air recordings. IsTable air.table (table_of (map reading_on_air recordings)) };

    fn take(&mut self, recording: Recording) -> Result<(), AllocError> {
        let shown = show(self.alloc, recording.blocks())?;
        self.table.take(Reading {
            cell: recording.cell(),
            slots: recording.slots(),
            shown,
        })
    }
}
