//! What is drawn of an accepted message beside its row.

ghost use Rattle.std.specs.Prelude.{◌≡◌, ◌++◌, ◌<◌, IfOk, IfSome, OnOk, Some, false, length};
ghost use Rattle.std.specs.Prelude.{encode_utf8_all, string_bytes};
ghost use Rattle.std.specs.Option.{option_map, option_map_or};
ghost use Rattle.cbs_page.specs.Coding.{alphabet_of};
ghost use Rattle.cbs_page.specs.Text.{text_in};
ghost use Rattle.scheduler.specs.Pages.{airs_page};
ghost use Rattle.bsc_table.specs.Book.{air_pairs, aired_pair};
ghost use Rattle.bsc_table.specs.Record.{rank_of};
ghost use Rattle.handset.specs.Keeping.{messages_shown};
ghost use Rattle.chart.specs.Kept.{accepted_kept};
ghost use Rattle.chart.specs.Message.{are_apart, category_words, drawn_marks, first_mark, first_mark_after, has_marks};
ghost use Rattle.chart.specs.Message.{is_every, is_marked, marks_of, marks_path, number_instead};
ghost use Rattle.chart.specs.Message.{number_of_marks, pace_text, period_of, rank_words, stroke_text, text_asked};
ghost use Rattle.chart.specs.Message.{text_asked_by, text_of_contents, text_shown};
ghost use Rattle.chart.specs.Words.{word_in};

use crate::kept::KeptMessage;
use crate::load::end_within;
use crate::page::Page;
use crate::view::Stretch;
use crate::word::{Language, Word, word_in};
use bsc_table::{Aired, Category, Command, Entry};
use cbs_page::{Content, Dcs, PageView, Serial, push_page_text};
use handset::Shown;
use report::{Demand, Row};
use std::alloc::{AllocError, Global};

/// What comes before the slot of the mark where a phone shows a message first.
pub const FIRST: &str = "M";

/// What comes after it: the mark is a short one.
pub const FIRST_END: &str = " 0v6";

/// What comes before the marks, which are strokes of one line: it begins at slot 0, over the picture.
pub const MARKS: &str = "<path class=\"whole\" d=\"M0 0";

/// What comes before how far the line goes along to a stroke.
pub const ALONG: &str = "h";

/// A stroke down across the picture.
pub const DOWN: &str = "V9";

/// A stroke up across it.
pub const UP: &str = "V0";

/// What comes after them.
pub const MARKS_END: &str = "\"/>\n";

/// The most marks of a message. Of one with more whole broadcasts their number is said.
pub const MOST_MARKS: usize = 400;

/// How far apart the marks of broadcasts stand at least that follow each other by the message's period, in pixels.
pub const LEAST_GAP: u64 = 4;

/// How wide a page is for that, in pixels.
pub const PAGE_WIDTH: u64 = 1280;

/// The class of the bar of a message that is broadcast every 8 slots, or more often.
pub const EVERY_15_S: &str = "f5";

/// The same of 16 slots.
pub const EVERY_30_S: &str = "f4";

/// The same of 32 slots.
pub const EVERY_MINUTE: &str = "f3";

/// The same of 64 slots.
pub const EVERY_2_MINUTES: &str = "f2";

/// The class of one that is broadcast more rarely.
pub const RARER: &str = "f1";

/// The category of a message in words; nothing of none.
pub(crate) fn category_words(language: Language, found: Option<KeptMessage>) -> &'static str
    ensures { result.now ≡ category_words language (option_map accepted_kept found) }
{
    match found {
        None => "",
        Some(kept) => word_in(language, category_word(kept.category)),
    }
}

/// The word of a category.
fn category_word(category: Category) -> Word
    ensures { (language : Language) → word_in language result ≡ rank_words language (rank_of category) }
{
    match category {
        Category::High => Word::High,
        Category::Normal => Word::Normal,
        Category::Background => Word::Background,
    }
}

/// The text that a handset shows of a message, if it shows one.
pub(crate) fn text_shown(shown: &[Shown], id: u16, serial: Serial) -> &str
    ensures { result.now ≡ text_shown (messages_shown shown.now) id serial }
{
    for message in shown {
        if message.id == id && message.serial == serial {
            return message.text.as_str();
        }
    }
    ""
}

/// Appends the text of a page with this content to a text.
fn push_content(text: &mut String, dcs: Dcs, content: &Content) -> Result<(), AllocError>
    ensures { OnOk result (string_bytes text.new ≡ string_bytes text.old
        ++ encode_utf8_all (text_in (alphabet_of dcs.0) content.now.octets)) }
{
    // What a page shows doesn't depend on the message that it is of.
    let page = PageView {
        serial: Serial::of(0),
        id: 0,
        dcs,
        number: 1,
        total: 1,
        content: content.octets,
    };
    if page.readable() {
        push_page_text(text, &page)?;
    }
    Ok(())
}

/// The texts of the pages with these contents, in their order. The only error is out of memory.
fn text_of_contents(alloc: Global, dcs: Dcs, contents: &[Content]) -> Result<String, AllocError>
    ensures { IfOk result (λ text. string_bytes text ≡ text_of_contents dcs.0 contents.now) }
{
    let mut text = String::new(alloc);
    for content in contents {
        push_content(&mut text, dcs, content)?;
    }
    Ok(text)
}

/// The text that a command asks phones to show. The only error is out of memory.
fn text_asked_by(alloc: Global, command: &Command) -> Result<String, AllocError>
    ensures { IfOk result (λ text. string_bytes text ≡ text_asked_by command.now) }
{
    match command {
        Command::Write { dcs, contents, .. } => text_of_contents(alloc, *dcs, contents.as_slice()),
        Command::Kill { .. } | Command::Status { .. } => Ok(String::new(alloc)),
    }
}

/// The text that phones were to show of an accepted message. The only error is out of memory.
pub(crate) fn text_asked(
    alloc: Global,
    log: &[Entry],
    found: Option<KeptMessage>,
) -> Result<String, AllocError>
    ensures { IfOk result (λ text. string_bytes text ≡ text_asked log.now (option_map accepted_kept found)) }
{
    let Some(kept) = found else {
        return Ok(String::new(alloc));
    };
    match log.get(usize::from(kept.entry)) {
        None => Ok(String::new(alloc)),
        Some(entry) => text_asked_by(alloc, &entry.command),
    }
}

/// Whether what a slot airs is the last page of a message.
fn is_last_page(aired: Option<Aired>, kept: &KeptMessage) -> bool
    ensures { result ≡ option_map_or (airs_page kept.now.entry kept.now.pages) (Some (aired_pair aired)) false }
{
    match aired {
        None => false,
        Some(aired) => aired.entry == kept.entry && aired.page == kept.pages,
    }
}

/// Whether a slot airs the last page of a message.
fn is_marked(air: &[Option<Aired>], kept: &KeptMessage, slot: usize) -> bool
    requires { slot < length air.now }
    ensures { result ≡ is_marked (air_pairs air.now) (accepted_kept kept.now).message slot }
{
    is_last_page(air[slot], kept)
}

/// A stroke of the line that a message's marks are.
#[derive(Clone, Copy, Debug, PartialEq, Eq)]
pub struct Stroke {
    /// How far the line goes along to it, in slots.
    pub along: usize,
    /// Whether it crosses the picture downwards, or else upwards.
    pub is_down: bool,
}

/// Appends a stroke.
#[tactic(auto, unfolding(crate::specs::Message::stroke_text))]
fn push_stroke(page: &mut Page, stroke: Stroke) -> Result<(), AllocError>
    ensures { OnOk result (page.new ≡ page.old ++ stroke_text stroke) }
{
    page.markup(ALONG)?;
    page.number(stroke.along as u64)?;
    page.markup(if stroke.is_down { DOWN } else { UP })
}

/// The period of a message in slots; 0 of none.
pub(crate) fn period_of(demand: Option<Demand>) -> u16
    ensures { result ≡ period_of demand }
{
    match demand {
        None => 0,
        Some(demand) => demand.period,
    }
}

/// Whether a message is broadcast every this many slots, or more often. The last of its broadcasts may be cut off.
fn is_every(slots: u16, row: &Row) -> bool
    ensures { result ≡ is_every slots row.now }
{
    let length = u32::from(row.end).saturating_sub(row.start);
    row.completed > 0
        && period_of(row.demand) <= slots
        && length <= u32::from(slots) * (u32::from(row.completed) + 1)
}

/// How often a message is broadcast, as the class of its bar.
pub(crate) fn pace(row: &Row) -> &'static str
    ensures { result.now ≡ pace_text row.now }
{
    if is_every(8, row) {
        EVERY_15_S
    } else if is_every(16, row) {
        EVERY_30_S
    } else if is_every(32, row) {
        EVERY_MINUTE
    } else if is_every(64, row) {
        EVERY_2_MINUTES
    } else {
        RARER
    }
}

/// Whether marks of broadcasts that follow each other by this period, in slots, stand far enough apart.
fn are_apart(stretch: Stretch, period: u16) -> bool
    ensures { result ≡ are_apart stretch period }
{
    LEAST_GAP * u64::from(stretch.width()) <= u64::from(period) * PAGE_WIDTH
}

/// Whether the marks of a message of this period are drawn, of which this many broadcasts are whole at the slots that
/// are drawn.
fn has_marks(stretch: Stretch, period: u16, whole: usize) -> bool
    ensures { result ≡ has_marks stretch period whole }
{
    whole <= MOST_MARKS && are_apart(stretch, period)
}

/// How many broadcasts of a message are whole at the slots that are drawn.
fn count_marks(stretch: Stretch, air: &[Option<Aired>], kept: &KeptMessage) -> usize
    requires { 0 < kept.now.period }
    ensures { result
        ≡ number_of_marks stretch (length air.now) (air_pairs air.now) (accepted_kept kept.now).message }
{
    let from = (kept.start as usize).max(usize::from(stretch.from));
    let to = end_within(kept, air.len()).min(usize::from(stretch.to));
    let mut count = 0;
    for slot in from..to {
        count += usize::from(is_marked(air, kept, slot));
    }
    count
}

/// The number of a message's whole broadcasts at the slots that are drawn, where that stands in place of marks.
pub(crate) fn number_instead(
    stretch: Stretch,
    air: &[Option<Aired>],
    found: Option<KeptMessage>,
) -> Option<usize>
    requires { IfSome found (λ k. 0 < k.period) }
    ensures { result
        ≡ number_instead stretch (length air.now) (air_pairs air.now) (option_map accepted_kept found) }
{
    let kept = found?;
    let whole = count_marks(stretch, air, &kept);
    if has_marks(stretch, kept.period, whole) {
        None
    } else {
        Some(whole)
    }
}

/// Appends the marks of a message: all, or none where their number stands in their place.
pub(crate) fn push_drawn_marks(
    page: &mut Page,
    stretch: Stretch,
    air: &[Option<Aired>],
    found: Option<KeptMessage>,
    number: Option<usize>,
) -> Result<(), AllocError>
    requires { IfSome found (λ k. 0 < k.period) }
    ensures { OnOk result (page.new ≡ page.old ++ drawn_marks number
        (marks_of stretch (length air.now) (air_pairs air.now) (option_map accepted_kept found))) }
{
    match number {
        None => push_marks_path(page, stretch, air, found),
        Some(_) => Ok(()),
    }
}

/// Appends the path of the marks of a message.
#[tactic(auto, unfolding(crate::specs::Message::marks_path))]
fn push_marks_path(
    page: &mut Page,
    stretch: Stretch,
    air: &[Option<Aired>],
    found: Option<KeptMessage>,
) -> Result<(), AllocError>
    requires { IfSome found (λ k. 0 < k.period) }
    ensures { OnOk result (page.new ≡ page.old ++ marks_path
        (marks_of stretch (length air.now) (air_pairs air.now) (option_map accepted_kept found))) }
{
    page.markup(MARKS)?;
    push_marks(page, stretch, air, found)?;
    page.markup(MARKS_END)
}

/// Appends the marks of a message: one for each broadcast, after the slot that makes it whole.
fn push_marks(
    page: &mut Page,
    stretch: Stretch,
    air: &[Option<Aired>],
    found: Option<KeptMessage>,
) -> Result<(), AllocError>
    requires { IfSome found (λ k. 0 < k.period) }
    ensures { OnOk result (page.new ≡ page.old
        ++ marks_of stretch (length air.now) (air_pairs air.now) (option_map accepted_kept found)) }
{
    let Some(kept) = found else {
        return Ok(());
    };
    let from = (kept.start as usize).max(usize::from(stretch.from));
    let to = end_within(&kept, air.len()).min(usize::from(stretch.to));
    let mut place = 0;
    let mut is_down = true;
    for slot in from..to {
        if !is_marked(air, &kept, slot) {
            continue;
        }
        let along = slot + 1 - place;
        push_stroke(page, Stroke { along, is_down })?;
        place = slot + 1;
        is_down = !is_down;
    }
    Ok(())
}

/// Appends the mark where a phone shows a message first: at the end of the slot after whose blocks it does.
pub(crate) fn push_first_mark(
    page: &mut Page,
    stretch: Stretch,
    first: Option<u16>,
) -> Result<(), AllocError>
    ensures { OnOk result (page.new ≡ page.old ++ first_mark stretch first) }
{
    match first {
        Some(slot) if stretch.holds(slot) => push_first_mark_after(page, slot),
        _ => Ok(()),
    }
}

/// Appends the mark at the end of this slot.
#[tactic(auto, unfolding(crate::specs::Message::first_mark_after))]
fn push_first_mark_after(page: &mut Page, slot: u16) -> Result<(), AllocError>
    ensures { OnOk result (page.new ≡ page.old ++ first_mark_after slot) }
{
    page.markup(FIRST)?;
    page.number(u64::from(slot) + 1)?;
    page.markup(FIRST_END)
}
