//! The fields of a message, whatever its type, and whether they are a message's.

ghost use Rattle.std.specs.Prelude.{◌≡◌, length, nat_le, true};
ghost use Rattle.std.specs.List.{list_all};
ghost use Rattle.cbsp_wire.specs.Table.{presence_of};
ghost use Rattle.cbsp_wire.specs.Value.{fields_of, type_of};
ghost use Rattle.cbsp_wire.specs.Range.{is_there_if, contents_are_valid, numbers_are_valid, all_cells_are_valid};
ghost use Rattle.cbsp_wire.specs.Range.{values_are_valid, is_full};
ghost use Rattle.cbsp_wire.specs.Range.{is_writable};
ghost use Rattle.cbsp_wire.specs.Value as values;

use crate::lists::cells_are_valid;
use crate::lists::cursor::Items;
use crate::message::message_type::{MessageType, Presence};
use crate::message::{Cell, Count, Failure, Message, iei};
use crate::reading::elements::presence;
use crate::reading::range::{has_alphabet, is_page_count, is_period, is_up_to};
use cbs_page::{Content, Serial};
use std::marker::Model;

/// The fields that a message has, `None` or no items if its type has no such field.
#[derive(Drop)]
pub(crate) struct Fields<'a> {
    /// The message identifier.
    pub(crate) id: Option<u16>,
    /// The new serial number.
    pub(crate) new_serial: Option<u16>,
    /// The old serial number.
    pub(crate) old_serial: Option<u16>,
    /// The failures.
    pub(crate) failures: &'a [Failure],
    /// The completed broadcasts.
    pub(crate) completed: &'a [Count],
    /// The cells.
    pub(crate) cells: &'a [Cell],
    /// The channel indicator.
    pub(crate) channel: Option<u8>,
    /// The category.
    pub(crate) category: Option<u8>,
    /// The repetition period.
    pub(crate) period: Option<u16>,
    /// The broadcasts requested.
    pub(crate) broadcasts: Option<u16>,
    /// The number of pages.
    pub(crate) pages: Option<usize>,
    /// The data coding.
    pub(crate) dcs: Option<u8>,
    /// The contents.
    pub(crate) contents: &'a [Content],
}

impl<'a> Model for Fields<'a> {
    ghost Value = { values.Fields };

    ghost view = { λ f. record {
      id = f.id;
      new_serial = f.new_serial;
      old_serial = f.old_serial;
      failures = f.failures.now;
      completed = f.completed.now;
      cells = f.cells.now;
      channel = f.channel;
      category = f.category;
      period = f.period;
      broadcasts = f.broadcasts;
      pages = f.pages;
      dcs = f.dcs;
      contents = f.contents.now;
    } };
}

/// The number of a serial number, if there is one.
fn serial_number(serial: Option<Serial>) -> Option<u16>
    ensures { result ≡ serial }
{
    match serial {
        Some(serial) => Some(serial.number()),
        None => None,
    }
}

/// The type of a message.
pub(crate) fn type_of(message: &Message) -> MessageType
    ensures { result ≡ type_of message.now }
{
    match message {
        Message::Write { .. } => MessageType::Write,
        Message::WriteDone { .. } => MessageType::WriteDone,
        Message::WriteFailed { .. } => MessageType::WriteFailed,
        Message::Kill { .. } => MessageType::Kill,
        Message::KillDone { .. } => MessageType::KillDone,
        Message::KillFailed { .. } => MessageType::KillFailed,
    }
}

/// The message identifier, which every message has.
fn id_of(message: &Message) -> Option<u16>
    ensures { result ≡ (fields_of message.now).id }
{
    match message {
        Message::Write { id, .. }
        | Message::WriteDone { id, .. }
        | Message::WriteFailed { id, .. }
        | Message::Kill { id, .. }
        | Message::KillDone { id, .. }
        | Message::KillFailed { id, .. } => Some(*id),
    }
}

/// The new serial number, of an order to write and its replies.
fn new_serial_of(message: &Message) -> Option<u16>
    ensures { result ≡ (fields_of message.now).new_serial }
{
    match message {
        Message::Write { new_serial, .. }
        | Message::WriteDone { new_serial, .. }
        | Message::WriteFailed { new_serial, .. } => Some(new_serial.number()),
        Message::Kill { .. } | Message::KillDone { .. } | Message::KillFailed { .. } => None,
    }
}

/// The old serial number.
fn old_serial_of(message: &Message) -> Option<u16>
    ensures { result ≡ (fields_of message.now).old_serial }
{
    match message {
        Message::Write { old_serial, .. }
        | Message::WriteDone { old_serial, .. }
        | Message::WriteFailed { old_serial, .. } => serial_number(*old_serial),
        Message::Kill { old_serial, .. }
        | Message::KillDone { old_serial, .. }
        | Message::KillFailed { old_serial, .. } => Some(old_serial.number()),
    }
}

/// The failures, of the two failure replies.
fn failures_of(message: &Message) -> &[Failure]
    ensures { result.now ≡ (fields_of message.now).failures }
{
    match message {
        Message::WriteFailed { failures, .. } | Message::KillFailed { failures, .. } =>
            &failures.list,
        Message::Write { .. }
        | Message::WriteDone { .. }
        | Message::Kill { .. }
        | Message::KillDone { .. } => &[],
    }
}

/// The completed broadcasts, of replies.
fn completed_of(message: &Message) -> &[Count]
    ensures { result.now ≡ (fields_of message.now).completed }
{
    match message {
        Message::WriteDone { completed, .. }
        | Message::WriteFailed { completed, .. }
        | Message::KillDone { completed, .. }
        | Message::KillFailed { completed, .. } => &completed.list,
        Message::Write { .. } | Message::Kill { .. } => &[],
    }
}

/// The cells.
fn cells_of(message: &Message) -> &[Cell]
    ensures { result.now ≡ (fields_of message.now).cells }
{
    match message {
        Message::Write { cells, .. }
        | Message::WriteDone { cells, .. }
        | Message::WriteFailed { cells, .. }
        | Message::Kill { cells, .. }
        | Message::KillDone { cells, .. }
        | Message::KillFailed { cells, .. } => &cells.list,
    }
}

/// The channel indicator.
fn channel_of(message: &Message) -> Option<u8>
    ensures { result ≡ (fields_of message.now).channel }
{
    match message {
        Message::Write { channel, .. }
        | Message::WriteDone { channel, .. }
        | Message::WriteFailed { channel, .. }
        | Message::Kill { channel, .. }
        | Message::KillDone { channel, .. }
        | Message::KillFailed { channel, .. } => *channel,
    }
}

/// The category, of an order to write.
fn category_of(message: &Message) -> Option<u8>
    ensures { result ≡ (fields_of message.now).category }
{
    match message {
        Message::Write { category, .. } => *category,
        Message::WriteDone { .. }
        | Message::WriteFailed { .. }
        | Message::Kill { .. }
        | Message::KillDone { .. }
        | Message::KillFailed { .. } => None,
    }
}

/// The repetition period, of an order to write.
fn period_of(message: &Message) -> Option<u16>
    ensures { result ≡ (fields_of message.now).period }
{
    match message {
        Message::Write { period, .. } => Some(*period),
        Message::WriteDone { .. }
        | Message::WriteFailed { .. }
        | Message::Kill { .. }
        | Message::KillDone { .. }
        | Message::KillFailed { .. } => None,
    }
}

/// The number of broadcasts requested, of an order to write.
fn broadcasts_of(message: &Message) -> Option<u16>
    ensures { result ≡ (fields_of message.now).broadcasts }
{
    match message {
        Message::Write { broadcasts, .. } => Some(*broadcasts),
        Message::WriteDone { .. }
        | Message::WriteFailed { .. }
        | Message::Kill { .. }
        | Message::KillDone { .. }
        | Message::KillFailed { .. } => None,
    }
}

/// The number of pages, of an order to write.
fn pages_of(message: &Message) -> Option<usize>
    ensures { result ≡ (fields_of message.now).pages }
{
    match message {
        Message::Write { contents, .. } => Some(contents.as_slice().len()),
        Message::WriteDone { .. }
        | Message::WriteFailed { .. }
        | Message::Kill { .. }
        | Message::KillDone { .. }
        | Message::KillFailed { .. } => None,
    }
}

/// The data coding, of an order to write.
fn dcs_of(message: &Message) -> Option<u8>
    ensures { result ≡ (fields_of message.now).dcs }
{
    match message {
        Message::Write { dcs, .. } => Some(dcs.0),
        Message::WriteDone { .. }
        | Message::WriteFailed { .. }
        | Message::Kill { .. }
        | Message::KillDone { .. }
        | Message::KillFailed { .. } => None,
    }
}

/// The contents, of an order to write.
fn contents_of(message: &Message) -> &[Content]
    ensures { result.now ≡ (fields_of message.now).contents }
{
    match message {
        Message::Write { contents, .. } => contents.as_slice(),
        Message::WriteDone { .. }
        | Message::WriteFailed { .. }
        | Message::Kill { .. }
        | Message::KillDone { .. }
        | Message::KillFailed { .. } => &[],
    }
}

/// The fields of a message.
pub(crate) fn fields_of(message: &Message) -> Fields<'_>
    ensures { result ≡ fields_of message.now }
{
    Fields {
        id: id_of(message),
        new_serial: new_serial_of(message),
        old_serial: old_serial_of(message),
        failures: failures_of(message),
        completed: completed_of(message),
        cells: cells_of(message),
        channel: channel_of(message),
        category: category_of(message),
        period: period_of(message),
        broadcasts: broadcasts_of(message),
        pages: pages_of(message),
        dcs: dcs_of(message),
        contents: contents_of(message),
    }
}

/// Whether items are there, if the message needs them.
fn is_there_if<T>(presence: Presence, items: &[T]) -> bool
    ensures { result ≡ is_there_if presence items.now }
{
    match presence {
        Presence::Mandatory => !items.is_empty(),
        Presence::Optional | Presence::Absent => true,
    }
}

/// States, as its contract, what the type of a page's octets says. It does nothing.
fn has_82_octets(octets: &[u8; 82])
    ensures { length octets.now ≡ 82 }
{}

/// Whether at most 82 octets are used of each content.
// The contract has also what the types of the contents say, which is known of one content at a time alone.
fn used_is_valid(contents: &[Content]) -> bool
    ensures valid { result ≡ list_all (λ c. nat_le c.used 82) contents.now }
    ensures full { result ≡ true → list_all is_full contents.now ≡ true }
{
    let mut left = contents;
    'contents: while let [content, rest @ ..] = left {
        has_82_octets(&content.octets);
        if content.used > 82 {
            return false;
        }
        left = rest;
    }
    true
}

/// Whether there are as many contents as pages, from 1 to 15, and at most 82 octets used of each.
fn contents_are_valid(pages: Option<usize>, contents: &[Content]) -> bool
    ensures valid { result ≡ contents_are_valid pages contents.now }
    ensures full { result ≡ true → list_all is_full contents.now ≡ true }
{
    let count_is_valid = match pages {
        None => true,
        Some(pages) => is_page_count(pages) && pages == contents.len(),
    };
    count_is_valid && used_is_valid(contents)
}

/// Whether the period, the data coding, the category and the channel indicator are in their ranges.
fn numbers_are_valid(fields: &Fields<'_>) -> bool
    ensures { result ≡ numbers_are_valid fields.now }
{
    is_period(fields.period)
        && has_alphabet(fields.dcs)
        && is_up_to(2, fields.category)
        && is_up_to(1, fields.channel)
}

/// Whether the lists name at most 64 cells each, and none twice.
#[tactic(auto, using(crate::proofs::ItemLemmas::same_cells))]
fn all_cells_are_valid(fields: &Fields<'_>) -> bool
    ensures { result ≡ all_cells_are_valid fields.now }
{
    cells_are_valid(Items::new(fields.cells))
        && cells_are_valid(Items::new(fields.completed))
        && cells_are_valid(Items::new(fields.failures))
}

/// Whether all values are in their ranges.
fn values_are_valid(fields: &Fields<'_>) -> bool
    ensures valid { result ≡ values_are_valid fields.now }
    ensures full { result ≡ true → list_all is_full fields.now.contents ≡ true }
{
    contents_are_valid(fields.pages, fields.contents)
        && numbers_are_valid(fields)
        && all_cells_are_valid(fields)
}

/// Whether some octets mean the message: its values are in their ranges, and its mandatory lists have items.
pub(crate) fn is_writable(message: &Message) -> bool
    ensures { result ≡ is_writable message.now }
{
    let fields = fields_of(message);
    let message_type = type_of(message);
    values_are_valid(&fields)
        && is_there_if(presence(message_type, iei::CELL_LIST), fields.cells)
        && is_there_if(presence(message_type, iei::FAILURE_LIST), fields.failures)
}
