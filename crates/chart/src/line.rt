//! The lines of a cell: one for each row of its report.

ghost use Rattle.std.specs.Prelude.{◌≡◌, ◌<◌, ◌++◌, IfSome, OnOk};
ghost use Rattle.std.specs.List.{flat_map};
ghost use Rattle.bsc_table.specs.Record.{accepted_named};
ghost use Rattle.chart.specs.Message.{text_asked, text_shown};
ghost use Rattle.chart.specs.Kept.{accepted_kept};
ghost use Rattle.std.specs.Option.{option_copied, option_map};
ghost use Rattle.handset.specs.Keeping.{messages_shown};
ghost use Rattle.report.specs.ReportText.{order_name};
ghost use Rattle.chart.specs.ChartText.{bar, bar_front, first_text, line_front, line_of, message_end, message_front};
ghost use Rattle.chart.specs.ChartText.{message_line};
ghost use Rattle.chart.specs.ChartText.{message_name, message_title, name_text, not_shown_text, number_if, number_text};
ghost use Rattle.chart.specs.ChartText.{number_word};
ghost use Rattle.chart.specs.ChartText.{picture_front, picture_size, refusal_front, refusal_line};
ghost use Rattle.chart.specs.ChartText.{refusal_picture};
ghost use Rattle.chart.specs.ChartText.{every_text, refusal_title, shown_after, slots_text, standing_text, unseen_text};

use crate::cause::push_cause;
use crate::identifier::push_meaning;
use crate::kept::{KeptMessage, named};
use crate::message::{
    category_words, number_instead, pace, period_of, push_drawn_marks, push_first_mark, text_asked,
    text_shown,
};
use crate::page::Page;
use crate::time::{push_slot, push_time_in_brackets};
use crate::view::Stretch;
use crate::word::{Word, Wording};
use bsc_table::CellRecord;
use handset::Shown;
use report::{BookOrders, NamedOrder, Row, Showing};
use std::alloc::{AllocError, Global};

/// The front of a line.
pub const LINE: &str = "<div><p><b>";

/// What comes after the name of its alert.
pub const ORDER_END: &str = "</b> ";

/// Between two numbers.
pub const SPACE: &str = " ";

/// What comes after the name of a message.
pub const NAME_END: &str = " <i>";

/// What comes after its category.
pub const CATEGORY_END: &str = "</i> ";

/// What comes before what is said in small.
pub const SMALL: &str = "<small>";

/// What comes after it.
pub const SMALL_END: &str = "</small> ";

/// What comes before its text.
pub const TEXT: &str = "<bdi>";

/// What comes after its text.
pub const TEXT_END: &str = "</bdi></p>\n";

/// What comes after the name of a refused order.
pub const CAUSE: &str = " <span class=\"cause\">";

/// What comes after its cause.
pub const CAUSE_END: &str = "</span></p>\n";

/// The front of a line's picture, up to its first slot.
pub const PICTURE: &str = "<svg viewBox=\"";

/// What comes between its first slot and its width.
pub const ORIGIN: &str = " 0 ";

/// What comes before its title.
pub const TITLE: &str = " 10\" preserveAspectRatio=\"none\"><title>";

/// The front of the bar, up to its class.
pub const BAR: &str = "</title>\n<rect class=\"";

/// What comes before its start.
pub const BAR_START: &str = "\" x=\"";

/// What comes before its width.
pub const WIDTH: &str = "\" width=\"";

/// What comes after the bar.
pub const BAR_END: &str = "\"/>\n";

/// What comes before the mark where a phone shows the message first.
pub const SHOWN_MARK: &str = "<path d=\"";

/// The end of a line.
pub const LINE_END: &str = "\"/></svg></div>\n";

/// The front of its mark, up to the slot.
pub const REFUSAL: &str = "</title>\n<path class=\"refusal\" d=\"M";

/// The end of its mark and of the line.
pub const REFUSAL_END: &str = " 0v10\"/></svg></div>\n";

/// Appends what a row is of.
#[tactic(auto, unfolding(crate::specs::ChartText::name_text))]
fn push_name(page: &mut Page, row: &Row) -> Result<(), AllocError>
    ensures { OnOk result (page.new ≡ page.old ++ name_text row.now) }
{
    page.number(u64::from(row.id))?;
    page.markup(SPACE)?;
    page.digits(row.serial.number().to_be_bytes().as_slice())
}

/// The name of an order's alert, if the order is known.
fn order_name(order: Option<&NamedOrder>) -> &str
    ensures { result.now ≡ order_name (option_copied order.entry) }
{
    match order {
        Some(order) => order.name.as_str(),
        None => "",
    }
}

/// Appends the front of a row's line: the name of the alert that its order is of, and its own.
#[tactic(auto, unfolding(crate::specs::ChartText::line_front))]
fn push_line_front(page: &mut Page, orders: &BookOrders, row: &Row) -> Result<(), AllocError>
    ensures { OnOk result (page.new ≡ page.old ++ line_front orders.now row.now) }
{
    page.markup(LINE)?;
    page.text(order_name(orders.of_row(row)))?;
    page.markup(ORDER_END)?;
    push_name(page, row)
}

/// Appends the size of a row's picture.
#[tactic(auto, unfolding(crate::specs::ChartText::picture_size))]
fn push_picture_size(page: &mut Page, stretch: Stretch) -> Result<(), AllocError>
    ensures { OnOk result (page.new ≡ page.old ++ picture_size stretch) }
{
    page.markup(PICTURE)?;
    page.number(u64::from(stretch.from))?;
    page.markup(ORIGIN)?;
    page.number(u64::from(stretch.width()))
}

/// Appends the front of a row's picture, up to its name in the title and what its identifier means.
#[tactic(auto, unfolding(crate::specs::ChartText::picture_front))]
fn push_picture_front(
    page: &mut Page,
    wording: Wording,
    stretch: Stretch,
    row: &Row,
) -> Result<(), AllocError>
    ensures { OnOk result (page.new ≡ page.old ++ picture_front wording stretch row.now) }
{
    push_picture_size(page, stretch)?;
    page.markup(TITLE)?;
    push_name(page, row)?;
    push_meaning(page, wording.language, row.id)
}

/// Appends a period in slots.
#[tactic(auto, unfolding(crate::specs::ChartText::slots_text))]
fn push_slots(page: &mut Page, wording: Wording, period: u16) -> Result<(), AllocError>
    ensures { OnOk result (page.new ≡ page.old ++ slots_text wording period) }
{
    page.word(wording, Word::Every)?;
    page.number(u64::from(period))
}

/// Appends a period in words.
fn push_every(page: &mut Page, wording: Wording, period: u16) -> Result<(), AllocError>
    ensures { OnOk result (page.new ≡ page.old ++ every_text wording period) }
{
    if period == 1 {
        page.word(wording, Word::EverySlot)
    } else {
        push_slots(page, wording, period)
    }
}

/// Appends from when to when an accepted message stands, and how often it is to be sent.
#[tactic(auto, unfolding(crate::specs::ChartText::standing_text))]
fn push_standing(page: &mut Page, wording: Wording, row: &Row) -> Result<(), AllocError>
    ensures { OnOk result (page.new ≡ page.old ++ standing_text wording row.now) }
{
    page.word(wording, Word::From)?;
    push_slot(page, wording.start, row.start)?;
    page.word(wording, Word::To)?;
    push_slot(page, wording.start, u32::from(row.end))?;
    push_every(page, wording, period_of(row.demand))
}

/// Appends after which slot a phone shows a message first, or that none does.
fn push_first(page: &mut Page, wording: Wording, first: Option<u16>) -> Result<(), AllocError>
    ensures { OnOk result (page.new ≡ page.old ++ first_text wording first) }
{
    match first {
        None => page.word(wording, Word::NotShown),
        Some(slot) => push_shown_after(page, wording, slot),
    }
}

/// Appends the slot after which a phone shows a message first, and when it is over.
#[tactic(auto, unfolding(crate::specs::ChartText::shown_after))]
fn push_shown_after(page: &mut Page, wording: Wording, slot: u16) -> Result<(), AllocError>
    ensures { OnOk result (page.new ≡ page.old ++ shown_after wording slot) }
{
    page.word(wording, Word::Shown)?;
    page.number(u64::from(slot))?;
    push_time_in_brackets(page, wording.start, u32::from(slot) + 1)
}

/// Appends what the title says of an accepted message after its name.
#[tactic(auto, unfolding(crate::specs::ChartText::message_title))]
fn push_message_title(page: &mut Page, wording: Wording, row: &Row) -> Result<(), AllocError>
    ensures { OnOk result (page.new ≡ page.old ++ message_title wording row.now) }
{
    push_standing(page, wording, row)?;
    page.word(wording, Word::Whole)?;
    page.number(u64::from(row.completed))?;
    push_first(page, wording, row.first_shown)
}

/// Appends the front of the bar of an accepted message, up to its start.
#[tactic(auto, unfolding(crate::specs::ChartText::bar_front))]
fn push_bar_front(page: &mut Page, row: &Row) -> Result<(), AllocError>
    ensures { OnOk result (page.new ≡ page.old ++ bar_front row.now) }
{
    page.markup(BAR)?;
    page.markup(pace(row))?;
    page.markup(BAR_START)
}

/// Appends the bar of an accepted message, as far as it is drawn.
#[tactic(auto, unfolding(crate::specs::ChartText::bar))]
fn push_bar(page: &mut Page, stretch: Stretch, row: &Row) -> Result<(), AllocError>
    ensures { OnOk result (page.new ≡ page.old ++ bar stretch row.now) }
{
    push_bar_front(page, row)?;
    page.number(u64::from(stretch.bar_from(row)))?;
    page.markup(WIDTH)?;
    page.number(u64::from(stretch.bar_width(row)))?;
    page.markup(BAR_END)
}

/// Appends the names of an accepted message and its category.
#[tactic(auto, unfolding(crate::specs::ChartText::message_name))]
fn push_message_name(
    page: &mut Page,
    wording: Wording,
    orders: &BookOrders,
    row: &Row,
    found: Option<KeptMessage>,
) -> Result<(), AllocError>
    ensures { OnOk result (page.new
        ≡ page.old ++ message_name wording orders.now row.now (option_map accepted_kept found)) }
{
    push_line_front(page, orders, row)?;
    page.markup(NAME_END)?;
    page.markup(category_words(wording.language, found))?;
    page.markup(CATEGORY_END)
}

/// What comes after a number of whole broadcasts.
fn number_word(whole: usize) -> Word
    ensures { result ≡ number_word whole }
{
    if whole == 1 {
        Word::Broadcast
    } else {
        Word::Broadcasts
    }
}

/// Appends the number of a message's whole broadcasts in words.
#[tactic(auto, unfolding(crate::specs::ChartText::number_text))]
fn push_number(page: &mut Page, wording: Wording, whole: usize) -> Result<(), AllocError>
    ensures { OnOk result (page.new ≡ page.old ++ number_text wording whole) }
{
    page.markup(SMALL)?;
    page.number(whole as u64)?;
    page.word(wording, number_word(whole))?;
    page.markup(SMALL_END)
}

/// Appends it, where it stands in place of marks.
fn push_number_if(
    page: &mut Page,
    wording: Wording,
    number: Option<usize>,
) -> Result<(), AllocError>
    ensures { OnOk result (page.new ≡ page.old ++ number_if wording number) }
{
    match number {
        None => Ok(()),
        Some(whole) => push_number(page, wording, whole),
    }
}

/// Appends that no phone shows a message.
#[tactic(auto, unfolding(crate::specs::ChartText::not_shown_text))]
fn push_not_shown(page: &mut Page, wording: Wording) -> Result<(), AllocError>
    ensures { OnOk result (page.new ≡ page.old ++ not_shown_text wording) }
{
    page.markup(SMALL)?;
    page.word(wording, Word::Unseen)?;
    page.markup(SMALL_END)
}

/// Appends it of an accepted message that none shows.
fn push_unseen(page: &mut Page, wording: Wording, shown: Showing) -> Result<(), AllocError>
    ensures { OnOk result (page.new ≡ page.old ++ unseen_text wording shown) }
{
    match shown {
        Showing::No => push_not_shown(page, wording),
        Showing::Yes | Showing::Refused(_) => Ok(()),
    }
}

/// Appends what is said of an accepted message.
#[tactic(auto, unfolding(crate::specs::ChartText::message_front))]
fn push_message_front(
    page: &mut Page,
    wording: Wording,
    orders: &BookOrders,
    row: &Row,
    found: Option<KeptMessage>,
    number: Option<usize>,
    text: &str,
) -> Result<(), AllocError>
    ensures { OnOk result (page.new ≡ page.old
        ++ message_front wording orders.now row.now (option_map accepted_kept found) number text.now) }
{
    push_message_name(page, wording, orders, row, found)?;
    push_number_if(page, wording, number)?;
    push_unseen(page, wording, row.shown)?;
    page.markup(TEXT)?;
    page.text(text)?;
    page.markup(TEXT_END)
}

/// Appends the end of the line of an accepted message: the mark where a phone shows it first.
#[tactic(auto, unfolding(crate::specs::ChartText::message_end))]
fn push_message_end(page: &mut Page, stretch: Stretch, first: Option<u16>) -> Result<(), AllocError>
    ensures { OnOk result (page.new ≡ page.old ++ message_end stretch first) }
{
    page.markup(SHOWN_MARK)?;
    push_first_mark(page, stretch, first)?;
    page.markup(LINE_END)
}

/// Appends what is said of a refused order.
#[tactic(auto, unfolding(crate::specs::ChartText::refusal_front))]
fn push_refusal_front(
    page: &mut Page,
    wording: Wording,
    orders: &BookOrders,
    row: &Row,
    cause: u8,
) -> Result<(), AllocError>
    ensures { OnOk result (page.new ≡ page.old ++ refusal_front wording orders.now row.now cause) }
{
    push_line_front(page, orders, row)?;
    page.markup(CAUSE)?;
    page.word(wording, Word::RefusedBecause)?;
    push_cause(page, wording.language, cause)?;
    page.markup(CAUSE_END)
}

/// Appends what the title says of a refused order after its name.
#[tactic(auto, unfolding(crate::specs::ChartText::refusal_title))]
fn push_refusal_title(page: &mut Page, wording: Wording, row: &Row) -> Result<(), AllocError>
    ensures { OnOk result (page.new ≡ page.old ++ refusal_title wording row.now) }
{
    page.word(wording, Word::RefusedAt)?;
    push_slot(page, wording.start, row.start)
}

/// Appends the picture of a refused order.
#[tactic(auto, unfolding(crate::specs::ChartText::refusal_picture))]
fn push_refusal_picture(
    page: &mut Page,
    wording: Wording,
    stretch: Stretch,
    row: &Row,
) -> Result<(), AllocError>
    ensures { OnOk result (page.new ≡ page.old ++ refusal_picture wording stretch row.now) }
{
    push_picture_front(page, wording, stretch, row)?;
    push_refusal_title(page, wording, row)?;
    page.markup(REFUSAL)?;
    page.number(u64::from(row.start))?;
    page.markup(REFUSAL_END)
}

/// What the lines of a cell have in common: words and clock, the slots that are drawn, the orders of the book, the
/// cell's record, what a handset shows of its blocks, and the messages that its log accepted.
#[derive(Clone, Copy)]
pub(crate) struct CellContext<'a> {
    pub(crate) alloc: Global,
    pub(crate) wording: Wording,
    pub(crate) stretch: Stretch,
    pub(crate) orders: &'a BookOrders,
    pub(crate) run: &'a CellRecord,
    pub(crate) shown: &'a [Shown],
    pub(crate) messages: &'a [KeptMessage],
}

impl<'a> CellContext<'a> {
    ghost use Rattle.chart.specs.LineSteps.{IsContext};

    /// The accepted message that a row is of.
    fn named(&self, row: &Row) -> Option<KeptMessage>
        requires { IsContext self.now }
        ensures message { option_map accepted_kept result
            ≡ accepted_named row.now.id row.now.serial self.now.run.now.log }
        ensures period { IfSome result (λ k. 0 < k.period) }
    {
        named(self.messages, row.id, row.serial.number())
    }

    /// Appends the line of an accepted message that phones show.
    fn push_seen(&self, page: &mut Page, row: &Row) -> Result<(), AllocError>
        requires { IsContext self.now }
        ensures { OnOk result (page.new ≡ page.old
            ++ message_line self.now.wording self.now.run.now self.now.stretch self.now.orders.now row.now
            (accepted_named row.now.id row.now.serial self.now.run.now.log)
            (text_shown (messages_shown self.now.shown.now) row.now.id row.now.serial)) }
    {
        let text = text_shown(self.shown, row.id, row.serial);
        self.push_message(page, row, text)
    }

    /// Appends the line of one that none shows.
    fn push_unseen(&self, page: &mut Page, row: &Row) -> Result<(), AllocError>
        requires { IsContext self.now }
        ensures { OnOk result (page.new ≡ page.old
            ++ message_line self.now.wording self.now.run.now self.now.stretch self.now.orders.now row.now
            (accepted_named row.now.id row.now.serial self.now.run.now.log)
            (text_asked self.now.run.now.log
            (accepted_named row.now.id row.now.serial self.now.run.now.log))) }
    {
        let text = text_asked(self.alloc, self.run.log(), self.named(row))?;
        self.push_message(page, row, text.as_str())
    }

    /// Appends the line of an accepted message with this text.
    fn push_message(&self, page: &mut Page, row: &Row, text: &str) -> Result<(), AllocError>
        requires { IsContext self.now }
        ensures { OnOk result (page.new ≡ page.old
            ++ message_line self.now.wording self.now.run.now self.now.stretch self.now.orders.now row.now
            (accepted_named row.now.id row.now.serial self.now.run.now.log) text.now) }
    {
        let found = self.named(row);
        let number = number_instead(self.stretch, self.run.air(), found);
        push_message_front(page, self.wording, self.orders, row, found, number, text)?;
        push_picture_front(page, self.wording, self.stretch, row)?;
        push_message_title(page, self.wording, row)?;
        push_bar(page, self.stretch, row)?;
        push_drawn_marks(page, self.stretch, self.run.air(), found, number)?;
        push_message_end(page, self.stretch, row.first_shown)
    }

    /// Appends the line of a refused order.
    fn push_refusal(&self, page: &mut Page, row: &Row, cause: u8) -> Result<(), AllocError>
        ensures { OnOk result (page.new ≡ page.old
            ++ refusal_line self.now.wording self.now.stretch self.now.orders.now row.now cause) }
    {
        push_refusal_front(page, self.wording, self.orders, row, cause)?;
        push_refusal_picture(page, self.wording, self.stretch, row)
    }

    /// Appends the line of a row.
    fn push_line(&self, page: &mut Page, row: &Row) -> Result<(), AllocError>
        requires { IsContext self.now }
        ensures { OnOk result (page.new ≡ page.old
            ++ line_of self.now.wording self.now.run.now self.now.stretch self.now.orders.now
            (messages_shown self.now.shown.now) row.now) }
    {
        match row.shown {
            Showing::Yes => self.push_seen(page, row),
            Showing::No => self.push_unseen(page, row),
            Showing::Refused(cause) => self.push_refusal(page, row, cause),
        }
    }

    /// Appends the lines of rows.
    pub(crate) fn push_lines(&self, page: &mut Page, rows: &[Row]) -> Result<(), AllocError>
        requires { IsContext self.now }
        ensures { OnOk result (page.new ≡ page.old
            ++ flat_map (line_of self.now.wording self.now.run.now self.now.stretch self.now.orders.now
            (messages_shown self.now.shown.now)) rows.now) }
    {
        for row in rows {
            self.push_line(page, row)?;
        }
        Ok(())
    }
}
