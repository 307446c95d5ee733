//! What is told beside differences: what was expected, and what came.

ghost use Rattle.std.specs.Prelude.{◌≡◌, ◌++◌, ◌≤◌, AllPairs, find, map, IfOk, OnOk, string_bytes};
ghost use Rattle.std.specs.List.{flat_map};
ghost use Rattle.std.specs.Option.{option_to_list};
ghost use Rattle.verification.specs.Asked.{asked_of_log};
ghost use Rattle.verification.specs.Came.{came_asked, AllHavePages};
ghost use Rattle.verification.specs.Explained.{end_slot, explained_kind, explained_of, explanation, field_of};
ghost use Rattle.verification.specs.Explained.{is_message_of, limit_text};
ghost use Rattle.verification.specs.Found.{explained_lines, shift_lines_for};
ghost use Rattle.verification.specs.Kept.{asked_kept};
ghost use Rattle.verification.specs.RowText.{kind_text};
ghost use Rattle.verification.specs.Sent.{sent_in};
ghost use Rattle.verification.specs.Table.{difference_lines, shift_lines, told_line};

use crate::asked::{Asked, asked_messages};
use crate::came::{Came, message_of, messages_with_pages};
use crate::difference::{Difference, Kind};
use crate::lines::{shift_line, told_line};
use crate::lost::{explained_broadcasts, slots_text};
use crate::page_fields::{explained_page, field_of, octets_sent};
use crate::sent::{sent_pages, sort_by_name};
use crate::shift::{any_is_untimely, shift_of};
use crate::text::kind_text;
use bsc_table::CellRecord;
use cbs_page::PAGE_OCTETS;
use cbsp_wire::Cell;
use slot_times::Start;
use std::alloc::{AllocError, Global};
use std::marker::Model;

/// What a row tells.
#[derive(Drop)]
pub struct Explanation {
    /// The difference.
    pub difference: String,
    /// What was expected.
    pub expected: String,
    /// What came.
    pub got: String,
}

impl Model for Explanation {
    ghost use Rattle.std.specs.Prelude.{string_bytes};
    ghost use Rattle.verification.specs.Explained.{explanation};
    ghost use Rattle.verification.specs.Explained as specs;

    ghost Value = { specs.Explanation };

    ghost view = { λ told. explanation (string_bytes told.difference) (string_bytes told.expected)
        (string_bytes told.got) };
}

impl<'a> Asked<'a> {
    /// The first slot after the periods of its requested broadcasts.
    fn end_slot(&self) -> u64
        ensures { result ≡ end_slot (asked_kept self.now) }
    {
        u64::from(self.start) + u64::from(self.broadcasts) * u64::from(self.period)
    }
}

/// What is told of a page that came, and of what was expected in its place. The only error is out of memory.
fn explained_sent(
    alloc: Global,
    kind: Kind,
    expected: String,
    sent: &Option<[u8; PAGE_OCTETS]>,
) -> Result<Explanation, AllocError>
    ensures { IfOk result (λ told. told ≡ explanation (kind_text kind) (string_bytes expected) (field_of sent.now)) }
{
    Ok(Explanation {
        difference: kind_text(alloc, kind)?,
        expected,
        got: field_of(alloc, sent)?,
    })
}

/// From which slot a message's pages are allowed, or up to which: that of its start, its stop or its end, as the kind
/// of the difference is; or in which slots a page is to come once. The only error is out of memory.
fn limit_text(alloc: Global, asked: &Asked, kind: Kind) -> Result<String, AllocError>
    ensures { IfOk result (λ text. string_bytes text ≡ limit_text (asked_kept asked.now) kind) }
{
    match kind {
        Kind::BeforeStart => {
            let start = asked.start;
            format!(in alloc; "from slot {start}")
        }
        Kind::AfterStop => match asked.stop {
            Some(stop) => format!(in alloc; "up to slot {stop}"),
            None => Ok(String::new(alloc)),
        },
        Kind::AfterLast => {
            let end = asked.end_slot();
            format!(in alloc; "up to slot {end}")
        }
        Kind::Otherwise { .. } => Ok(String::new(alloc)),
        Kind::NotWhole { .. } => Ok(String::new(alloc)),
        Kind::NotOrdered => Ok(String::new(alloc)),
        Kind::Again { broadcast } => {
            let slots = slots_text(alloc, asked, broadcast)?;
            format!(in alloc; "once in {slots}")
        }
    }
}

/// What is told of a difference of a message. The only error is out of memory.
fn explained_kind(
    alloc: Global,
    slots: u16,
    message: &Came,
    page: &Option<[u8; PAGE_OCTETS]>,
    kind: Kind,
) -> Result<Option<Explanation>, AllocError>
    requires { AllPairs (λ a b. a.slot ≤ b.slot) message.now.pages.items }
    ensures { IfOk result (λ told. option_to_list told
        ≡ explained_kind slots (came_asked message.now) message.now.pages.items page.now kind) }
{
    let asked = &message.asked;
    match kind {
        Kind::Otherwise { page: number } => {
            Ok(Some(explained_page(alloc, asked, number, page)?))
        }
        Kind::NotWhole { broadcast } => {
            explained_broadcasts(alloc, slots, asked, &message.pages, broadcast)
        }
        _ => {
            let limit = limit_text(alloc, asked, kind)?;
            Ok(Some(explained_sent(alloc, kind, limit, page)?))
        }
    }
}

/// What is told of a difference. The only error is out of memory.
fn explained(
    alloc: Global,
    slots: u16,
    came: &[Came],
    blocks: &[[u8; 23]],
    difference: &Difference,
) -> Result<Option<Explanation>, AllocError>
    requires { AllHavePages (sent_in blocks.now) came.now }
    ensures { IfOk result (λ told. option_to_list told ≡ explained_of slots
        (find (is_message_of difference.now) (map came_asked came.now)) blocks.now difference.now) }
{
    let page = octets_sent(blocks, difference);
    match message_of(came, difference) {
        Some(message) => explained_kind(alloc, slots, message, &page, difference.kind),
        None => {
            let nothing = String::new(alloc);
            Ok(Some(explained_sent(alloc, difference.kind, nothing, &page)?))
        }
    }
}

/// Appends the lines of a difference. The only error is out of memory.
fn push_lines(
    alloc: Global,
    text: &mut Vec<u8>,
    start: Option<Start>,
    cell: Cell,
    difference: &Difference,
    told: &Option<Explanation>,
) -> Result<(), AllocError>
    ensures { OnOk result (text.new.items
        ≡ text.old.items ++ flat_map (told_line start cell difference.now) (option_to_list told.now)) }
{
    match told {
        Some(told) => text.extend_from_slice(&told_line(alloc, start, cell, difference, told)?),
        None => Ok(()),
    }
}

/// Messages, each with its pages in some blocks. The only error is out of memory.
fn came_in<'a>(
    alloc: Global,
    messages: &[Asked<'a>],
    blocks: &[[u8; 23]],
) -> Result<Vec<Came<'a>>, AllocError>
    ensures asked { IfOk result (λ came. map came_asked came.items ≡ map asked_kept messages.now) }
    ensures pages { IfOk result (λ came. AllHavePages (sent_in blocks.now) came.items) }
{
    let mut sent = sent_pages(alloc, blocks)?;
    sort_by_name(&mut sent)?;
    messages_with_pages(alloc, messages, &sent)
}

/// The line of the shift of all pages, if they have one, or no lines. The only error is out of memory.
fn shift_lines(
    alloc: Global,
    start: Option<Start>,
    run: &CellRecord,
    messages: &[Asked],
    came: &[Came],
    blocks: &[[u8; 23]],
) -> Result<Vec<u8>, AllocError>
    requires log { map asked_kept messages.now ≡ asked_of_log run.now.log }
    requires same { map came_asked came.now ≡ map asked_kept messages.now }
    requires pages { AllHavePages (sent_in blocks.now) came.now }
    ensures { IfOk result (λ lines. lines.items ≡ shift_lines start run.now blocks.now) }
{
    match shift_of(alloc, run.slots(), messages, came, blocks)? {
        Some(shift) => shift_line(alloc, start, run.cell(), shift),
        None => Ok(Vec::new(alloc)),
    }
}

/// The same where the differences are such that a shift may be why. The only error is out of memory.
fn shift_lines_for(
    alloc: Global,
    start: Option<Start>,
    run: &CellRecord,
    messages: &[Asked],
    came: &[Came],
    blocks: &[[u8; 23]],
    found: &[Difference],
) -> Result<Vec<u8>, AllocError>
    requires log { map asked_kept messages.now ≡ asked_of_log run.now.log }
    requires same { map came_asked came.now ≡ map asked_kept messages.now }
    requires pages { AllHavePages (sent_in blocks.now) came.now }
    ensures { IfOk result (λ lines. lines.items ≡ shift_lines_for start run.now blocks.now found.now) }
{
    if any_is_untimely(found) {
        return shift_lines(alloc, start, run, messages, came, blocks);
    }
    Ok(Vec::new(alloc))
}

/// Appends the lines of differences, one after another. The only error is out of memory.
fn push_all_lines(
    alloc: Global,
    text: &mut Vec<u8>,
    start: Option<Start>,
    run: &CellRecord,
    came: &[Came],
    blocks: &[[u8; 23]],
    found: &[Difference],
) -> Result<(), AllocError>
    requires asked { map came_asked came.now ≡ asked_of_log run.now.log }
    requires pages { AllHavePages (sent_in blocks.now) came.now }
    ensures { OnOk result (text.new.items
        ≡ text.old.items ++ flat_map (difference_lines start run.now blocks.now) found.now) }
{
    for difference in found {
        let told = explained(alloc, run.slots(), came, blocks, difference)?;
        push_lines(alloc, text, start, run.cell(), difference, &told)?;
    }
    Ok(())
}

/// The lines that the explained table has of differences between a cell's record and the blocks of its tape, with times
/// if slot 0 has one.
///
/// # Errors
///
/// Out of memory.
pub fn explained_lines(
    alloc: Global,
    start: Option<Start>,
    run: &CellRecord,
    blocks: &[[u8; 23]],
    found: &[Difference],
) -> Result<Vec<u8>, AllocError>
    ensures { IfOk result (λ lines. lines.items ≡ explained_lines start run.now blocks.now found.now) }
{
    if found.is_empty() {
        return Ok(Vec::new(alloc));
    }
    let messages = asked_messages(alloc, run.log())?;
    let came = came_in(alloc, &messages, blocks)?;
    let mut lines = shift_lines_for(alloc, start, run, &messages, &came, blocks, found)?;
    push_all_lines(alloc, &mut lines, start, run, &came, blocks, found)?;
    Ok(lines)
}
