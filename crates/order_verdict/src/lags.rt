//! How late the pages of messages come, by which a delay is chosen.

ghost use Rattle.std.specs.Prelude.{◌≡◌, ◌++◌, map, IfOk, OnOk, string_bytes};
ghost use Rattle.order_verdict.specs.Judged.{own_pages_in};
ghost use Rattle.order_verdict.specs.Kept.{air_kept, ordered_kept};
ghost use Rattle.order_verdict.specs.Lags.{lag_line, lag_lines, lag_text, lags_text, message_text, slot_of_last};
ghost use Rattle.order_verdict.specs.Lags.{slots_between, stop_text};
ghost use Rattle.verification.specs.Shift.{slot_of_first};

use crate::air::{AirPage, pages_on_air};
use crate::judged::own_pages;
use crate::ordered::{Ordered, ordered_messages};
use cell_orders::OrderRow;
use std::alloc::{AllocError, Global};
use verification::JudgedPage;

/// The names of the columns.
const HEADER: &str = "row,id,serial,at,first,stop,last\n";

/// The slots from one slot to another, with a sign if that comes before it. The only error is out of memory, here and
/// below.
fn slots_between(alloc: Global, from: usize, to: usize) -> Result<String, AllocError>
    ensures { IfOk result (λ text. string_bytes text ≡ slots_between from to) }
{
    if from <= to {
        let late = to - from;
        format!(in alloc; "{late}")
    } else {
        let early = from - to;
        format!(in alloc; "-{early}")
    }
}

/// The slots from that of a row to that of a page, or nothing if there is no such row or page.
fn lag_text(alloc: Global, from: Option<u32>, page: Option<usize>) -> Result<String, AllocError>
    ensures { IfOk result (λ text. string_bytes text ≡ lag_text from page) }
{
    match (from, page) {
        (Some(from), Some(page)) => slots_between(alloc, from as usize, page),
        (Some(_), None) => Ok(String::new(alloc)),
        (None, _) => Ok(String::new(alloc)),
    }
}

/// A slot, or nothing if there is none.
fn stop_text(alloc: Global, slot: Option<u32>) -> Result<String, AllocError>
    ensures { IfOk result (λ text. string_bytes text ≡ stop_text slot) }
{
    match slot {
        Some(slot) => format!(in alloc; "{slot}"),
        None => Ok(String::new(alloc)),
    }
}

/// The slot of the first of some pages.
fn slot_of_first(pages: &[JudgedPage]) -> Option<usize>
    ensures { result ≡ slot_of_first pages.now }
{
    match pages.first() {
        Some(page) => Some(page.slot),
        None => None,
    }
}

/// The slot of the last of some pages.
fn slot_of_last(pages: &[JudgedPage]) -> Option<usize>
    ensures { result ≡ slot_of_last pages.now }
{
    match pages.last() {
        Some(page) => Some(page.slot),
        None => None,
    }
}

/// The columns that say which message it is.
fn message_text(alloc: Global, ordered: &Ordered) -> Result<String, AllocError>
    ensures { IfOk result (λ text. string_bytes text ≡ message_text (ordered_kept ordered.now)) }
{
    let (row, id, at) = (ordered.row, ordered.early.id, ordered.early.start);
    let serial = hex::encode(alloc, ordered.early.serial.to_be_bytes().as_slice())?;
    format!(in alloc; "{row},{id},{serial},{at}")
}

/// The line of a message of which these pages were sent.
fn lag_line(alloc: Global, ordered: &Ordered, pages: &[JudgedPage]) -> Result<String, AllocError>
    ensures { IfOk result (λ text. string_bytes text ≡ lag_line (ordered_kept ordered.now) pages.now) }
{
    let message = message_text(alloc, ordered)?;
    let first = lag_text(alloc, Some(ordered.early.start), slot_of_first(pages))?;
    let stop = stop_text(alloc, ordered.ended)?;
    let last = lag_text(alloc, ordered.ended, slot_of_last(pages))?;
    format!(in alloc; "{message},{first},{stop},{last}\n")
}

/// Appends the line of a message.
fn push_line(
    alloc: Global,
    text: &mut String,
    ordered: &Ordered,
    air: &[AirPage],
) -> Result<(), AllocError>
    ensures { OnOk result (string_bytes text.new ≡ string_bytes text.old
        ++ lag_line (ordered_kept ordered.now) (own_pages_in (ordered_kept ordered.now) (map air_kept air.now))) }
{
    let pages = own_pages(alloc, ordered, air)?;
    let line = lag_line(alloc, ordered, &pages)?;
    text.push_str(&line)?;
    Ok(())
}

/// Appends the lines of messages.
fn push_lines(
    alloc: Global,
    text: &mut String,
    messages: &[Ordered],
    air: &[AirPage],
) -> Result<(), AllocError>
    ensures { OnOk result (string_bytes text.new ≡ string_bytes text.old
        ++ lag_lines (map ordered_kept messages.now) (map air_kept air.now)) }
{
    for ordered in messages {
        push_line(alloc, text, ordered, air)?;
    }
    Ok(())
}

/// How late the pages of the messages come that a cell took by these rows, where its channel sent these blocks, as
/// CSV: a line of the columns' names, and a line for each message, in the order of the rows. It has the number of the
/// message's row and its slot, and how many slots after that its first page comes; and the slot of the row that stops
/// it, if one does, and how many slots after that its last page comes. Pages before it have a minus sign, and of a
/// message without a page there is nothing.
///
/// # Errors
///
/// Out of memory.
pub fn lags_text(
    alloc: Global,
    rows: &[OrderRow],
    blocks: &[[u8; 23]],
) -> Result<String, AllocError>
    ensures { IfOk result (λ text. string_bytes text ≡ lags_text rows.now blocks.now) }
{
    let messages = ordered_messages(alloc, 0, rows)?;
    let air = pages_on_air(alloc, blocks)?;
    let mut text = String::from_str(alloc, HEADER)?;
    push_lines(alloc, &mut text, &messages, &air)?;
    Ok(text)
}
