//! Whether the elements that were taken are a message's.

ghost use Rattle.std.specs.Prelude.{◌≡◌, ◌∷◌, [], length, map, nat_le};
ghost use Rattle.std.specs.List.{list_all};
ghost use Rattle.cbsp_wire.specs.Body.{elements_in};
ghost use Rattle.cbsp_wire.specs.Element.{bodies_of};
ghost use Rattle.cbsp_wire.specs.Table.{presence_of};
ghost use Rattle.cbsp_wire.specs.Walk.{walk_of};
ghost use Rattle.cbsp_wire.specs.Range.{has_mandatory, has_none_twice, is_there_if, is_period};
ghost use Rattle.cbsp_wire.specs.Range.{has_alphabet};
ghost use Rattle.cbsp_wire.specs.Range.{is_page_count, passes, first_passes, is_list_body, cells_are_valid};
ghost use Rattle.cbsp_wire.specs.Range.{contents_are_valid, numbers_are_valid, lists_are_valid, all_cells_are_valid};
ghost use Rattle.cbsp_wire.specs.Range.{elements_are_valid};
ghost use Rattle.cbsp_wire.specs.Value.{u8_value, contents_of, fields_in, first_items};
ghost use Rattle.cbsp_wire.specs.declared.message.iei.TheConstants.{MESSAGE_CONTENT, NUMBER_OF_PAGES};

use crate::lists::cursor::Octets;
use crate::lists::item::ListItem;
use crate::lists::{cells_are_valid, is_list_body, items_of};
use crate::message::message_type::{MessageType, Presence};
use crate::message::{Cell, Count, Failure, iei};
use crate::reading::elements::{NUMBERS, find, first_octet, presence};
use crate::reading::places::Elements;
use crate::reading::value::{u8_value, u16_value};
use cbs_page::{Dcs, MAX_PAGES};

/// Whether the element is there, if the message needs it.
fn is_there(elements: &Elements<'_>, element: u8) -> bool
    ensures { result ≡ is_there_if (presence_of elements.now.message_type element)
        (bodies_of element (elements_in elements.now)) }
{
    match presence(elements.message_type(), element) {
        Presence::Mandatory => elements.has(element),
        Presence::Optional | Presence::Absent => true,
    }
}

/// Whether each mandatory element is there.
pub(crate) fn has_mandatory(elements: &Elements<'_>) -> bool
    ensures { result ≡ has_mandatory elements.now.message_type (elements_in elements.now) }
{
    NUMBERS.iter().all(|element| is_there(elements, *element))
}

/// Whether no element but 01 comes twice.
fn has_none_twice(elements: &Elements<'_>) -> bool
    ensures { result ≡ has_none_twice (elements_in elements.now) }
{
    NUMBERS.iter().all(|element| elements.comes_once(*element))
}

/// The number of contents.
pub(crate) fn content_count(message_type: MessageType, octets: &[u8]) -> usize
    ensures { result ≡ length (bodies_of MESSAGE_CONTENT (walk_of message_type octets.now).elements) }
{
    let mut count = 0;
    let mut left = octets;
    'walk: while let Some((_, rest)) = find(message_type, iei::MESSAGE_CONTENT, left) {
        count += 1;
        left = rest;
    }
    count
}

/// Whether at most 82 octets are used of each content.
fn used_is_valid(message_type: MessageType, octets: &[u8]) -> bool
    ensures { result ≡ list_all (λ c. nat_le c.used 82) (contents_of (walk_of message_type octets.now).elements) }
{
    let mut left = octets;
    'walk: while let Some((body, rest)) = find(message_type, iei::MESSAGE_CONTENT, left) {
        if first_octet(body) > 82 {
            return false;
        }
        left = rest;
    }
    true
}

/// Whether a message may have so many pages.
pub(crate) fn is_page_count(pages: usize) -> bool
    ensures { result ≡ is_page_count pages }
{
    1 <= pages && pages <= MAX_PAGES
}

/// Whether there are as many contents as pages, from 1 to 15, and at most 82 octets used of each.
fn contents_are_valid(elements: &Elements<'_>) -> bool
    ensures { let es = elements_in elements.now in
        result ≡ contents_are_valid (u8_value NUMBER_OF_PAGES es) (contents_of es) }
{
    let message_type = elements.message_type();
    let octets = elements.octets_from(iei::MESSAGE_CONTENT);
    let count_is_valid = match u8_value(elements, iei::NUMBER_OF_PAGES) {
        None => true,
        Some(pages) => {
            let pages = usize::from(pages);
            is_page_count(pages) && pages == content_count(message_type, octets)
        }
    };
    count_is_valid && used_is_valid(message_type, octets)
}

/// Whether the repetition period, if it is given, may be one.
pub(crate) fn is_period(period: Option<u16>) -> bool
    ensures { result ≡ passes is_period period }
{
    match period {
        None => true,
        Some(period) => 1 <= period && period <= 1024,
    }
}

/// Whether the data coding, if it is given, has an alphabet.
pub(crate) fn has_alphabet(dcs: Option<u8>) -> bool
    ensures { result ≡ passes has_alphabet dcs }
{
    match dcs {
        None => true,
        Some(dcs) => Dcs(dcs).alphabet().is_some(),
    }
}

/// Whether the octet, if it is given, is at most `limit`.
pub(crate) fn is_up_to(limit: u8, octet: Option<u8>) -> bool
    ensures { result ≡ passes (λ n. nat_le n limit) octet }
{
    match octet {
        None => true,
        Some(octet) => octet <= limit,
    }
}

/// Whether the period, the data coding, the category and the channel indicator are in their ranges.
fn numbers_are_valid(elements: &Elements<'_>) -> bool
    ensures { result ≡ numbers_are_valid (fields_in (elements_in elements.now)) }
{
    is_period(u16_value(elements, iei::REPETITION_PERIOD))
        && has_alphabet(u8_value(elements, iei::DATA_CODING))
        && is_up_to(2, u8_value(elements, iei::CATEGORY))
        && is_up_to(1, u8_value(elements, iei::CHANNEL_INDICATOR))
}

/// Whether the list of this number, if it is there, has the discriminator and whole items.
fn has_list<T: ListItem>(elements: &Elements<'_>, element: u8) -> bool
    ensures { result ≡ first_passes (is_list_body T.DISCRIMINATOR T.SIZE)
        (bodies_of element (elements_in elements.now)) }
{
    match elements.first(element) {
        None => true,
        Some(body) => is_list_body(T::DISCRIMINATOR, T::SIZE, body),
    }
}

/// Whether the three lists have the discriminator and whole items.
fn lists_are_valid(elements: &Elements<'_>) -> bool
    ensures { result ≡ lists_are_valid (elements_in elements.now) }
{
    has_list::<Cell>(elements, iei::CELL_LIST)
        && has_list::<Count>(elements, iei::BROADCASTS_COMPLETED)
        && has_list::<Failure>(elements, iei::FAILURE_LIST)
}

/// Whether the list of this number, if it is there, names at most 64 cells, and none twice.
fn list_cells_are_valid<T: ListItem>(elements: &Elements<'_>, element: u8) -> bool
    ensures { let bodies = bodies_of element (elements_in elements.now) in
        result ≡ cells_are_valid (map T.cell_of (first_items T.DISCRIMINATOR T.items_in bodies)) }
{
    match elements.first(element) {
        None => true,
        Some(body) => cells_are_valid(Octets::<T>::new(items_of(T::DISCRIMINATOR, body))),
    }
}

/// Whether the lists name at most 64 cells each, and none twice.
#[tactic(auto, using(crate::proofs::ItemLemmas::same_cells))]
fn all_cells_are_valid(elements: &Elements<'_>) -> bool
    ensures { result ≡ all_cells_are_valid (fields_in (elements_in elements.now)) }
{
    list_cells_are_valid::<Cell>(elements, iei::CELL_LIST)
        && list_cells_are_valid::<Count>(elements, iei::BROADCASTS_COMPLETED)
        && list_cells_are_valid::<Failure>(elements, iei::FAILURE_LIST)
}

/// Whether no element comes twice and all values are in their ranges.
pub(crate) fn elements_are_valid(elements: &Elements<'_>) -> bool
    ensures { result ≡ elements_are_valid (elements_in elements.now) }
{
    has_none_twice(elements)
        && lists_are_valid(elements)
        && contents_are_valid(elements)
        && numbers_are_valid(elements)
        && all_cells_are_valid(elements)
}
