//! The value of a message, looked up among its elements.

ghost use Rattle.std.specs.Prelude.{◌≡◌, ◌<◌, [], ◌∷◌, length, unwrap_or, IfOk, IfSome, MatchOption};
ghost use Rattle.cbsp_wire.specs.declared.message.message_type.MessageType.TheVariants as types;
ghost use Rattle.cbsp_wire.specs.Body.{elements_in};
ghost use Rattle.cbsp_wire.specs.Element.{bodies_of};
ghost use Rattle.cbsp_wire.specs.Walk.{walk_of};
ghost use Rattle.cbsp_wire.specs.Value.{first_items, content_of, u16_value, u8_value, cells_of, counts_of, failures_of};
ghost use Rattle.cbsp_wire.specs.Value.{contents_of, message_of};

use crate::lists::item::{ListItem, read_items};
use crate::lists::items_of;
use crate::message::message_type::MessageType;
use crate::message::{Cells, Contents, Counts, Failures, Message, iei};
use crate::reading::elements::{find, first_octet, u16_from_be};
use crate::reading::places::Elements;
use crate::reading::range::content_count;
use cbs_page::{Content, Dcs, Serial};
use std::alloc::{AllocError, Global};

/// The value of the first element of this number, as two octets, if there is one.
pub(crate) fn u16_value(elements: &Elements<'_>, element: u8) -> Option<u16>
    ensures { result ≡ u16_value element (elements_in elements.now) }
{
    match elements.first(element) {
        Some(body) => Some(u16_from_be(body)),
        None => None,
    }
}

/// The value of the first element of this number, as two octets, or 0.
fn u16_value_or_0(elements: &Elements<'_>, element: u8) -> u16
    ensures { result ≡ unwrap_or (u16_value element (elements_in elements.now)) 0 }
{
    u16_value(elements, element).unwrap_or(0)
}

/// The serial number that the first element of this number holds, or 0.
fn serial_value_or_0(elements: &Elements<'_>, element: u8) -> Serial
    ensures { result ≡ unwrap_or (u16_value element (elements_in elements.now)) 0 }
{
    Serial::of(u16_value_or_0(elements, element))
}

/// The serial number that the first element of this number holds, if there is one.
fn serial_value(elements: &Elements<'_>, element: u8) -> Option<Serial>
    ensures { result ≡ u16_value element (elements_in elements.now) }
{
    match u16_value(elements, element) {
        Some(number) => Some(Serial::of(number)),
        None => None,
    }
}

/// The value of the first element of this number, as one octet, if there is one.
pub(crate) fn u8_value(elements: &Elements<'_>, element: u8) -> Option<u8>
    ensures { result ≡ u8_value element (elements_in elements.now) }
{
    match elements.first(element) {
        Some(body) => Some(first_octet(body)),
        None => None,
    }
}

/// The items of the list with this number, none if it isn't there.
fn list<T: ListItem>(
    alloc: Global,
    elements: &Elements<'_>,
    element: u8,
) -> Result<Vec<T>, AllocError>
    ensures { IfOk result
        (λ items. items.items
        ≡ first_items T.DISCRIMINATOR T.items_in (bodies_of element (elements_in elements.now))) }
{
    match elements.first(element) {
        Some(body) => read_items(alloc, items_of(T::DISCRIMINATOR, body)),
        None => Ok(Vec::new(alloc)),
    }
}

/// The cells of element 04, none if it isn't there.
fn cells(alloc: Global, elements: &Elements<'_>) -> Result<Cells, AllocError>
    ensures { IfOk result (λ cells. cells ≡ cells_of (elements_in elements.now)) }
{
    Ok(Cells {
        list: list(alloc, elements, iei::CELL_LIST)?,
    })
}

/// The completed broadcasts of element 08, none if it isn't there.
fn counts(alloc: Global, elements: &Elements<'_>) -> Result<Counts, AllocError>
    ensures { IfOk result (λ counts. counts ≡ counts_of (elements_in elements.now)) }
{
    Ok(Counts {
        list: list(alloc, elements, iei::BROADCASTS_COMPLETED)?,
    })
}

/// The failures of element 09, none if it isn't there.
fn failures(alloc: Global, elements: &Elements<'_>) -> Result<Failures, AllocError>
    ensures { IfOk result (λ failures. failures ≡ failures_of (elements_in elements.now)) }
{
    Ok(Failures {
        list: list(alloc, elements, iei::FAILURE_LIST)?,
    })
}

/// The content that the body of an element 01 is.
fn content(body: &[u8]) -> Content
    requires { length body.now ≡ 83 }
    ensures { result ≡ content_of body.now }
{
    let mut octets = [0; 82];
    octets.copy_from_slice(&body[1..]);
    Content {
        used: body[0],
        octets,
    }
}

/// The contents, in page order.
fn contents(alloc: Global, elements: &Elements<'_>) -> Result<Contents, AllocError>
    ensures { IfOk result (λ contents. contents ≡ contents_of (elements_in elements.now)) }
{
    let octets = elements.octets_from(iei::MESSAGE_CONTENT);
    Contents::new(read_contents(alloc, elements.message_type(), octets)?)
}

#[tactic(auto, unfolding(crate::specs::Table::table, crate::specs::Table::size_of))]
fn read_contents(
    alloc: Global,
    message_type: MessageType,
    octets: &[u8],
) -> Result<Vec<Content>, AllocError>
    ensures { IfOk result (λ contents. contents.items ≡ contents_of (walk_of message_type octets.now).elements) }
{
    let mut contents = Vec::with_capacity(alloc, content_count(message_type, octets))?;
    let mut left = octets;
    'walk: while let Some((body, rest)) = find(message_type, iei::MESSAGE_CONTENT, left) {
        contents.push(content(body))?;
        left = rest;
    }
    Ok(contents)
}

/// The order to write that the elements say.
#[tactic(auto, unfolding(crate::specs::Value::message_of))]
fn write_from_elements(alloc: Global, elements: &Elements<'_>) -> Result<Message, AllocError>
    ensures { IfOk result (λ message. message ≡ message_of types.Write (elements_in elements.now)) }
{
    Ok(Message::Write {
        id: u16_value_or_0(elements, iei::MESSAGE_IDENTIFIER),
        new_serial: serial_value_or_0(elements, iei::NEW_SERIAL_NUMBER),
        old_serial: serial_value(elements, iei::OLD_SERIAL_NUMBER),
        cells: cells(alloc, elements)?,
        channel: u8_value(elements, iei::CHANNEL_INDICATOR),
        category: u8_value(elements, iei::CATEGORY),
        period: u16_value_or_0(elements, iei::REPETITION_PERIOD),
        broadcasts: u16_value_or_0(elements, iei::BROADCASTS_REQUESTED),
        dcs: Dcs(u8_value(elements, iei::DATA_CODING).unwrap_or(0)),
        contents: contents(alloc, elements)?,
    })
}

/// The message that the elements say.
#[tactic(auto, unfolding(crate::specs::Value::message_of))]
pub(crate) fn message_from_elements(
    alloc: Global,
    elements: &Elements<'_>,
) -> Result<Message, AllocError>
    ensures { IfOk result (λ message. message ≡ message_of elements.now.message_type (elements_in elements.now)) }
{
    let id = u16_value_or_0(elements, iei::MESSAGE_IDENTIFIER);
    let channel = u8_value(elements, iei::CHANNEL_INDICATOR);
    let message = match elements.message_type() {
        MessageType::Write => write_from_elements(alloc, elements)?,
        MessageType::WriteDone => Message::WriteDone {
            id,
            new_serial: serial_value_or_0(elements, iei::NEW_SERIAL_NUMBER),
            old_serial: serial_value(elements, iei::OLD_SERIAL_NUMBER),
            completed: counts(alloc, elements)?,
            cells: cells(alloc, elements)?,
            channel,
        },
        MessageType::WriteFailed => Message::WriteFailed {
            id,
            new_serial: serial_value_or_0(elements, iei::NEW_SERIAL_NUMBER),
            old_serial: serial_value(elements, iei::OLD_SERIAL_NUMBER),
            failures: failures(alloc, elements)?,
            completed: counts(alloc, elements)?,
            cells: cells(alloc, elements)?,
            channel,
        },
        MessageType::Kill => Message::Kill {
            id,
            old_serial: serial_value_or_0(elements, iei::OLD_SERIAL_NUMBER),
            cells: cells(alloc, elements)?,
            channel,
        },
        MessageType::KillDone => Message::KillDone {
            id,
            old_serial: serial_value_or_0(elements, iei::OLD_SERIAL_NUMBER),
            completed: counts(alloc, elements)?,
            cells: cells(alloc, elements)?,
            channel,
        },
        MessageType::KillFailed => Message::KillFailed {
            id,
            old_serial: serial_value_or_0(elements, iei::OLD_SERIAL_NUMBER),
            failures: failures(alloc, elements)?,
            completed: counts(alloc, elements)?,
            cells: cells(alloc, elements)?,
            channel,
        },
    };
    Ok(message)
}
