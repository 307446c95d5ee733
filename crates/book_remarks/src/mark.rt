//! What became of each order of a book in a cell of its run.

ghost use Rattle.std.specs.Prelude.{◌≡◌, ◌≤◌, [], is_some, length, slice_index_or, IfOk, IfSome, None, OnOk};
ghost use Rattle.std.specs.List.{list_any, slice_get};
ghost use Rattle.std.specs.Option.{option_copied};
ghost use Rattle.bsc_table.specs.Book.{air_pairs, aired_pair};
ghost use Rattle.bsc_table.specs.Record.{start_of};
ghost use Rattle.report.specs.LastPages.{first_airing, page_count_of};
ghost use Rattle.scheduler.specs.Pages.{airs_page};
ghost use Rattle.book_remarks.specs.Answers.{accepted_after, column_of, is_done, is_never_whole, is_unseen, mark_by};
ghost use Rattle.book_remarks.specs.Answers.{mark_of, mark_of_entry, marks_from, sends_page};
ghost use Rattle.book_remarks.specs.MarkSteps.{IsFirstOf};

use alert_book::Order;
use asked_orders::{asks, is_entry_of, is_write, may_ask, names};
use bsc_table::{Aired, Answer, CellRecord, Command, Entry};
use cbsp_wire::Cell;
use report::first_last_pages;
use std::alloc::{AllocError, Global};
use std::marker::Model;

/// What became of an order in a cell.
#[derive(Clone, Copy, Debug, PartialEq, Eq)]
pub enum Mark {
    /// The order doesn't name the cell.
    Elsewhere,
    /// The cell wasn't asked: no version of the alert is live there.
    LeftOut,
    /// The cell did what was ordered.
    Done {
        /// The slot at which it did.
        slot: u16,
        /// Whether it accepted a message of which no broadcast is whole in the run, so that no phone shows it.
        unseen: bool,
    },
    /// The cell refused it with this cause (3GPP TS 48.049, 8.2, Cause).
    Refused {
        /// The cause.
        cause: u8,
    },
}

/// A cell of a run, and what became there of each order of the book, in their order.
#[derive(Debug, Drop)]
pub struct CellColumn {
    /// The cell.
    pub cell: Cell,
    /// What became of each order.
    pub marks: Vec<Mark>,
}

impl Model for CellColumn {
    ghost use Rattle.book_remarks.specs.Answers.{Column};

    ghost Value = { Column };

    ghost view = { λ c. record { cell = c.cell; marks = c.marks.items } };
}

/// Whether a slot sends this page of the entry at a place of the log.
fn airs_page(used: &Option<Aired>, place: usize, page: usize) -> bool
    ensures { result ≡ airs_page place page (aired_pair used.now) }
{
    match used {
        Some(aired) => usize::from(aired.entry) == place && usize::from(aired.page) == page,
        None => false,
    }
}

/// Whether one of these slots sends this page of the entry at a place of the log.
fn is_sent(air: &[Option<Aired>], place: usize, page: usize) -> bool
    ensures { result ≡ list_any (airs_page place page) (air_pairs air.now) }
{
    for used in air {
        if airs_page(used, place, page) {
            return true;
        }
    }
    false
}

/// Whether some slot from this one on sends this page of the entry at a place of the log.
fn sends_page(air: &[Option<Aired>], slot: u16, place: usize, page: usize) -> bool
    ensures { result ≡ sends_page (air_pairs air.now) slot place page }
{
    let later = &air[usize::from(slot).min(air.len())..];
    is_sent(later, place, page)
}

/// The same of a page that is on the air first in a slot that is known: most messages that nobody sees are never there,
/// and all others are there first when they began.
fn sends_page_by(
    air: &[Option<Aired>],
    slot: u16,
    place: usize,
    page: usize,
    first: Option<u16>,
) -> bool
    requires { first ≡ first_airing place page (air_pairs air.now) 0 }
    ensures { result ≡ sends_page (air_pairs air.now) slot place page }
{
    match first {
        None => false,
        Some(first) => slot <= first || sends_page(air, slot, place, page),
    }
}

/// Whether no broadcast of a write is whole from this slot on, which is the entry at a place of the log, and whose last
/// page is on the air first in this slot, if it is.
fn is_never_whole(
    air: &[Option<Aired>],
    slot: u16,
    place: usize,
    command: &Command,
    first: Option<u16>,
) -> bool
    requires { first ≡ first_airing place (page_count_of command.now) (air_pairs air.now) 0 }
    ensures { result ≡ is_never_whole (air_pairs air.now) slot place command.now }
{
    match command {
        Command::Write { contents, .. } => {
            !sends_page_by(air, slot, place, contents.as_slice().len(), first)
        }
        Command::Kill { .. } => false,
        Command::Status { .. } => false,
    }
}

/// Whether an entry started a message.
pub(crate) fn starts(entry: &Entry) -> bool
    ensures { result ≡ is_some (start_of entry.now.answer) }
{
    match entry.answer {
        Answer::Started { .. } | Answer::Replaced { .. } => true,
        Answer::Stopped { .. }
        | Answer::Told { .. }
        | Answer::Unknown
        | Answer::Cause(_)
        | Answer::Refused => false,
    }
}

/// Whether an entry at a place of the log started a message of which no broadcast is whole.
fn is_unseen(air: &[Option<Aired>], place: usize, entry: &Entry, first: Option<u16>) -> bool
    requires { first ≡ first_airing place (page_count_of entry.now.command) (air_pairs air.now) 0 }
    ensures { result ≡ is_unseen (air_pairs air.now) place entry.now }
{
    starts(entry) && is_never_whole(air, entry.slot, place, &entry.command, first)
}

/// What became of an order, by the answer to it at a slot.
fn mark_by(slot: u16, unseen: bool, answer: Answer) -> Mark
    ensures { result ≡ mark_by slot unseen answer }
{
    match answer {
        Answer::Cause(cause) => Mark::Refused { cause },
        Answer::Started { .. }
        | Answer::Replaced { .. }
        | Answer::Stopped { .. }
        | Answer::Told { .. }
        | Answer::Unknown
        | Answer::Refused => Mark::Done { slot, unseen },
    }
}

/// What became of an order that asked, by its entry, which is at this place of the log.
fn mark_of_entry(
    air: &[Option<Aired>],
    place: usize,
    next: Option<&Entry>,
    first: Option<u16>,
) -> Mark
    requires { IsFirstOf (air_pairs air.now) place (option_copied next) first }
    ensures { result ≡ mark_of_entry (air_pairs air.now) place (option_copied next.entry) }
{
    match next {
        Some(entry) => mark_by(
            entry.slot,
            is_unseen(air, place, entry, first),
            entry.answer,
        ),
        None => Mark::LeftOut,
    }
}

/// What became of an order in a cell that has accepted the first versions of these alerts, and whose log goes on with
/// this entry, at this place, whose last page is on the air first in this slot.
fn mark_of(
    order: &Order,
    cell: Cell,
    accepted: &[u16],
    air: &[Option<Aired>],
    place: usize,
    next: Option<&Entry>,
    first: Option<u16>,
) -> Mark
    requires { IsFirstOf (air_pairs air.now) place (option_copied next) first }
    ensures { result ≡ mark_of order.now cell accepted.now (air_pairs air.now) place (option_copied next.entry) }
{
    if !names(order, cell) {
        return Mark::Elsewhere;
    }
    if !is_entry_of(order, next) || !may_ask(accepted, order) {
        return Mark::LeftOut;
    }
    mark_of_entry(air, place, next, first)
}

/// Whether a cell did what was ordered.
fn is_done(mark: Mark) -> bool
    ensures { result ≡ is_done mark }
{
    match mark {
        Mark::Done { .. } => true,
        Mark::Elsewhere | Mark::LeftOut | Mark::Refused { .. } => false,
    }
}

/// Keeps the alerts of which a cell accepted the first version, after one more order of which this became there.
fn keep_accepted(accepted: &mut Vec<u16>, order: &Order, mark: Mark) -> Result<(), AllocError>
    ensures { OnOk result (accepted.new.items ≡ accepted_after accepted.old.items order.now mark) }
{
    if !is_write(order) || !is_done(mark) {
        return Ok(());
    }
    accepted.push(order.number)?;
    Ok(())
}

/// The entry at a place of a log, if it is so long.
fn entry_at(log: &[Entry], place: usize) -> Option<&Entry>
    ensures { option_copied result ≡ slice_get log.now place }
{
    match log.get(place) {
        Some(entry) => Some(entry),
        None => None,
    }
}

/// The slot of these at a place, if there is one.
fn first_at(firsts: &[Option<u16>], place: usize) -> Option<u16>
    ensures { result ≡ slice_index_or firsts.now place None }
{
    match firsts.get(place) {
        Some(first) => *first,
        None => None,
    }
}

/// What became of orders in a cell that has sent these pages and has this log.
fn marks_of(
    alloc: Global,
    cell: Cell,
    air: &[Option<Aired>],
    log: &[Entry],
    orders: &[Order],
) -> Result<Vec<Mark>, AllocError>
    requires { length air.now ≤ 65535 }
    ensures { IfOk result (λ marks. marks.items ≡ marks_from cell (air_pairs air.now) log.now 0 [] orders.now) }
{
    let firsts = first_last_pages(alloc, log, air)?;
    let mut marks = Vec::with_capacity(alloc, orders.len())?;
    let mut accepted = Vec::new(alloc);
    let mut place = 0;
    for order in orders {
        let next = entry_at(log, place);
        let first = first_at(firsts.as_slice(), place);
        let mark = mark_of(order, cell, accepted.as_slice(), air, place, next, first);
        place += usize::from(asks(order, cell, accepted.as_slice(), next));
        keep_accepted(&mut accepted, order, mark)?;
        marks.push(mark)?;
    }
    Ok(marks)
}

/// What became of the orders of a book in a cell, by the record of its run.
///
/// # Errors
///
/// Out of memory.
pub fn column_of(
    alloc: Global,
    orders: &[Order],
    run: &CellRecord,
) -> Result<CellColumn, AllocError>
    ensures { IfOk result (λ column. column ≡ column_of orders.now run.now) }
{
    // A run's air has as many slots as the run: 65,535 at most.
    run.slots();
    let cell = run.cell();
    Ok(CellColumn {
        cell,
        marks: marks_of(alloc, cell, run.air(), run.log(), orders)?,
    })
}
