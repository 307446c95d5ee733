//! The lines of a report with times on the clock.

ghost use Rattle.std.specs.Prelude.{◌≡◌, ℕ, List, [], ◌++◌, IfOk, OnOk};
ghost use Rattle.report.specs.ReportText.{line, plain_fields, showing_text, shown_time, time_fields};
ghost use Rattle.report.specs.ReportText.{timed_header_line, timed_line, timed_part_text, words_of_showing};
ghost use Rattle.report.specs.Sources.{Orders};
ghost use Rattle.report.specs.declared.row.Columns.TheVariants.{Full, Plain};

use crate::cause::cause_words;
use crate::full::{
    demand_pages, demand_period, demand_share, number_or_none, order_name, order_row,
};
use crate::row::{Columns, Row, Showing};
use crate::sources::BookOrders;
use crate::table::{Table, refused_text, serial_text};
use itoa::Buffer;
use slot_times::{Start, slot_time};
use std::alloc::{AllocError, Global};

/// The text of the time at which the next slot begins, if there is a slot.
fn shown_time<'a>(buffer: &'a mut [u8; 24], start: Start, slot: Option<u16>) -> &'a [u8]
    ensures { result.now ≡ shown_time start slot }
{
    match slot {
        Some(slot) => {
            *buffer = slot_time(start, u32::from(slot) + 1);
            buffer.as_slice()
        }
        None => b"",
    }
}

impl Table {
    ghost use Rattle.report.specs.TextSteps.{IsTable};

    /// The text of no rows of a report with times, with the line of the columns' names if it is headed.
    ///
    /// # Errors
    ///
    /// Out of memory.
    pub fn timed(alloc: Global, columns: Columns, headed: bool) -> Result<Table, AllocError>
        ensures { IfOk result (λ table. (start : Start) (orders : Orders)
            → IsTable table (timed_part_text columns start headed orders [])) }
    {
        let mut table = Table::empty(alloc)?;
        if !headed {
            return Ok(table);
        }
        table.push_timed_names(columns)?;
        Ok(table)
    }

    /// Appends the line of the columns' names.
    fn push_timed_names(&mut self, columns: Columns) -> Result<(), AllocError>
        ensures { OnOk result ((octets : List ℕ) → IsTable self.old octets
            → IsTable self.new (octets ++ timed_header_line columns)) }
    {
        match columns {
            Columns::Plain => self.push_plain_timed_names(),
            Columns::Full => self.push_full_timed_names(),
        }
    }

    /// Appends the line of the names of plain columns and of times.
    fn push_plain_timed_names(&mut self) -> Result<(), AllocError>
        ensures { OnOk result ((octets : List ℕ) → IsTable self.old octets
            → IsTable self.new (octets ++ timed_header_line Plain)) }
    {
        self.push_line(&[
            b"lac",
            b"ci",
            b"id",
            b"serial",
            b"start",
            b"end",
            b"completed",
            b"shown",
            b"start_time",
            b"end_time",
        ])
    }

    /// Appends the line of the names of full columns and of times.
    fn push_full_timed_names(&mut self) -> Result<(), AllocError>
        ensures { OnOk result ((octets : List ℕ) → IsTable self.old octets
            → IsTable self.new (octets ++ timed_header_line Full)) }
    {
        self.push_line(&[
            b"row",
            b"name",
            b"lac",
            b"ci",
            b"id",
            b"serial",
            b"start",
            b"end",
            b"completed",
            b"shown",
            b"first_shown",
            b"pages",
            b"period",
            b"share",
            b"cause",
            b"start_time",
            b"end_time",
            b"first_shown_time",
        ])
    }

    /// Appends the line of a row.
    ///
    /// # Errors
    ///
    /// Out of memory.
    pub fn push_timed(
        &mut self,
        columns: Columns,
        start: Start,
        orders: &BookOrders,
        row: &Row,
    ) -> Result<(), AllocError>
        ensures { OnOk result ((octets : List ℕ) → IsTable self.old octets
            → IsTable self.new (octets ++ timed_line columns start orders.now row.now)) }
    {
        match row.shown {
            Showing::Yes => self.push_timed_shown(columns, start, orders, row, b"yes", b""),
            Showing::No => self.push_timed_shown(columns, start, orders, row, b"no", b""),
            Showing::Refused(cause) => {
                let words = cause_words(cause).as_bytes();
                self.push_timed_shown(columns, start, orders, row, &refused_text(cause), words)
            }
        }
    }

    /// Appends the line of a row, by the texts of whether it is shown, and of the cause.
    fn push_timed_shown<'a>(
        &mut self,
        columns: Columns,
        start: Start,
        orders: &BookOrders,
        row: &Row,
        shown: &'a [u8],
        cause: &'a [u8],
    ) -> Result<(), AllocError>
        requires shown { shown.now ≡ showing_text row.now.shown }
        requires cause { cause.now ≡ words_of_showing row.now.shown }
        ensures { OnOk result ((octets : List ℕ) → IsTable self.old octets
            → IsTable self.new (octets ++ timed_line columns start orders.now row.now)) }
    {
        match columns {
            Columns::Plain => self.push_plain_timed(start, row, shown),
            Columns::Full => self.push_full_timed(start, orders, row, shown, cause),
        }
    }

    /// Appends the line of a row with plain columns, by the text of whether it is shown.
    fn push_plain_timed<'a>(
        &mut self,
        start: Start,
        row: &Row,
        shown: &'a [u8],
    ) -> Result<(), AllocError>
        requires shown { shown.now ≡ showing_text row.now.shown }
        ensures { OnOk result ((octets : List ℕ) → IsTable self.old octets
            → IsTable self.new (octets ++ line (plain_fields row.now ++ time_fields Plain start row.now))) }
    {
        let mut lac = Buffer::new();
        let mut ci = Buffer::new();
        let mut id = Buffer::new();
        let serial = serial_text(row.serial);
        let mut start_slot = Buffer::new();
        let mut end_slot = Buffer::new();
        let mut completed = Buffer::new();
        let start_time = slot_time(start, row.start);
        let end_time = slot_time(start, u32::from(row.end));
        self.push_line(&[
            lac.format(row.lac).as_bytes(),
            ci.format(row.ci).as_bytes(),
            id.format(row.id).as_bytes(),
            &serial,
            start_slot.format(row.start).as_bytes(),
            end_slot.format(row.end).as_bytes(),
            completed.format(row.completed).as_bytes(),
            shown,
            &start_time,
            &end_time,
        ])
    }

    /// Appends the line of a row with full columns, by the texts of whether it is shown, and of the cause.
    fn push_full_timed<'a>(
        &mut self,
        start: Start,
        orders: &BookOrders,
        row: &Row,
        shown: &'a [u8],
        cause: &'a [u8],
    ) -> Result<(), AllocError>
        requires shown { shown.now ≡ showing_text row.now.shown }
        requires cause { cause.now ≡ words_of_showing row.now.shown }
        ensures { OnOk result ((octets : List ℕ) → IsTable self.old octets
            → IsTable self.new (octets ++ timed_line Full start orders.now row.now)) }
    {
        let order = orders.of_row(row);
        let mut book_row = Buffer::new();
        let mut lac = Buffer::new();
        let mut ci = Buffer::new();
        let mut id = Buffer::new();
        let serial = serial_text(row.serial);
        let mut start_slot = Buffer::new();
        let mut end_slot = Buffer::new();
        let mut completed = Buffer::new();
        let mut first = Buffer::new();
        let mut pages = Buffer::new();
        let mut period = Buffer::new();
        let mut share = Buffer::new();
        let start_time = slot_time(start, row.start);
        let end_time = slot_time(start, u32::from(row.end));
        let mut first_time = [0; 24];
        self.push_line(&[
            order_row(&mut book_row, order),
            order_name(order),
            lac.format(row.lac).as_bytes(),
            ci.format(row.ci).as_bytes(),
            id.format(row.id).as_bytes(),
            &serial,
            start_slot.format(row.start).as_bytes(),
            end_slot.format(row.end).as_bytes(),
            completed.format(row.completed).as_bytes(),
            shown,
            number_or_none(&mut first, row.first_shown),
            number_or_none(&mut pages, demand_pages(row.demand)),
            number_or_none(&mut period, demand_period(row.demand)),
            number_or_none(&mut share, demand_share(row.demand)),
            cause,
            &start_time,
            &end_time,
            shown_time(&mut first_time, start, row.first_shown),
        ])
    }
}
