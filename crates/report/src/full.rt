//! The lines of a full report.

ghost use Rattle.std.specs.Prelude.{◌≡◌, ℕ, List, [], ◌++◌, IfOk, OnOk};
ghost use Rattle.report.specs.ReportText.{demand_period, demand_pages, demand_share, full_header_line, full_line};
ghost use Rattle.report.specs.ReportText.{full_part_text, number_or_none, order_name, order_row, showing_text};
ghost use Rattle.report.specs.ReportText.{words_of_showing};
ghost use Rattle.std.specs.Option.{option_copied};
ghost use Rattle.report.specs.Sources.{Orders};

use crate::cause::cause_words;
use crate::row::{Demand, Row, Showing};
use crate::sources::{BookOrders, NamedOrder};
use crate::table::{Table, refused_text, serial_text};
use itoa::Buffer;
use std::alloc::{AllocError, Global};

/// The text of a number, if there is one.
pub(crate) fn number_or_none<'a>(buffer: &'a mut Buffer, number: Option<u16>) -> &'a [u8]
    ensures { result.now ≡ number_or_none number }
{
    match number {
        Some(number) => buffer.format(number).as_bytes(),
        None => b"",
    }
}

/// The text of the row that gives an order, if the order is known.
pub(crate) fn order_row<'a>(buffer: &'a mut Buffer, order: Option<&NamedOrder>) -> &'a [u8]
    ensures { result.now ≡ order_row (option_copied order.entry) }
{
    match order {
        Some(order) => buffer.format(order.row).as_bytes(),
        None => b"",
    }
}

/// The name of an order's alert, if the order is known.
pub(crate) fn order_name(order: Option<&NamedOrder>) -> &[u8]
    ensures { result.now ≡ order_name (option_copied order.entry) }
{
    match order {
        Some(order) => order.name.as_bytes(),
        None => b"",
    }
}

/// How many pages a write's message has, if the order is a write.
pub(crate) fn demand_pages(demand: Option<Demand>) -> Option<u16>
    ensures { result ≡ demand_pages demand }
{
    match demand {
        Some(demand) => Some(u16::from(demand.pages)),
        None => None,
    }
}

/// Its period.
pub(crate) fn demand_period(demand: Option<Demand>) -> Option<u16>
    ensures { result ≡ demand_period demand }
{
    match demand {
        Some(demand) => Some(demand.period),
        None => None,
    }
}

/// Its share of the channel.
pub(crate) fn demand_share(demand: Option<Demand>) -> Option<u16>
    ensures { result ≡ demand_share demand }
{
    match demand {
        Some(demand) => Some(demand.share),
        None => None,
    }
}

impl Table {
    ghost use Rattle.report.specs.TextSteps.{IsTable};

    /// The text of no rows of a full report, with the line of the columns' names if it is headed.
    ///
    /// # Errors
    ///
    /// Out of memory.
    pub fn full(alloc: Global, headed: bool) -> Result<Table, AllocError>
        ensures { IfOk result (λ table. (orders : Orders) → IsTable table (full_part_text headed orders [])) }
    {
        let mut table = Table::empty(alloc)?;
        if !headed {
            return Ok(table);
        }
        table.push_full_names()?;
        Ok(table)
    }

    /// Appends the line of the columns' names.
    fn push_full_names(&mut self) -> Result<(), AllocError>
        ensures { OnOk result ((octets : List ℕ) → IsTable self.old octets
            → IsTable self.new (octets ++ full_header_line)) }
    {
        self.push_line(&[
            b"row",
            b"name",
            b"lac",
            b"ci",
            b"id",
            b"serial",
            b"start",
            b"end",
            b"completed",
            b"shown",
            b"first_shown",
            b"pages",
            b"period",
            b"share",
            b"cause",
        ])
    }

    /// Appends the line of a row.
    ///
    /// # Errors
    ///
    /// Out of memory.
    pub fn push_full(&mut self, orders: &BookOrders, row: &Row) -> Result<(), AllocError>
        ensures { OnOk result ((octets : List ℕ) → IsTable self.old octets
            → IsTable self.new (octets ++ full_line orders.now row.now)) }
    {
        match row.shown {
            Showing::Yes => self.push_full_shown(orders, row, b"yes", b""),
            Showing::No => self.push_full_shown(orders, row, b"no", b""),
            Showing::Refused(cause) => {
                let words = cause_words(cause).as_bytes();
                self.push_full_shown(orders, row, &refused_text(cause), words)
            }
        }
    }

    /// Appends the line of a row, by the texts of whether it is shown, and of the cause.
    fn push_full_shown<'a>(
        &mut self,
        orders: &BookOrders,
        row: &Row,
        shown: &'a [u8],
        cause: &'a [u8],
    ) -> Result<(), AllocError>
        requires shown { shown.now ≡ showing_text row.now.shown }
        requires cause { cause.now ≡ words_of_showing row.now.shown }
        ensures { OnOk result ((octets : List ℕ) → IsTable self.old octets
            → IsTable self.new (octets ++ full_line orders.now row.now)) }
    {
        let order = orders.of_row(row);
        let mut book_row = Buffer::new();
        let mut lac = Buffer::new();
        let mut ci = Buffer::new();
        let mut id = Buffer::new();
        let serial = serial_text(row.serial);
        let mut start = Buffer::new();
        let mut end = Buffer::new();
        let mut completed = Buffer::new();
        let mut first = Buffer::new();
        let mut pages = Buffer::new();
        let mut period = Buffer::new();
        let mut share = Buffer::new();
        self.push_line(&[
            order_row(&mut book_row, order),
            order_name(order),
            lac.format(row.lac).as_bytes(),
            ci.format(row.ci).as_bytes(),
            id.format(row.id).as_bytes(),
            &serial,
            start.format(row.start).as_bytes(),
            end.format(row.end).as_bytes(),
            completed.format(row.completed).as_bytes(),
            shown,
            number_or_none(&mut first, row.first_shown),
            number_or_none(&mut pages, demand_pages(row.demand)),
            number_or_none(&mut period, demand_period(row.demand)),
            number_or_none(&mut share, demand_share(row.demand)),
            cause,
        ])
    }
}
