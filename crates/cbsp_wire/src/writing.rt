//! Writing a message.

ghost use Rattle.std.specs.Prelude.{◌≡◌, ◌+◌, ◌*◌, ◌/◌, ◌%◌, ◌≤◌, ◌<◌, ◌^◌, ◌++◌, ◌∷◌, [], length, map, IsTrue, IfOk};
ghost use Rattle.std.specs.Prelude.{IfErr, IfSome, vec_len, vec_capacity};
ghost use Rattle.std.specs.List.{flat_map};
ghost use Rattle.cbs_page.specs.Text.{max_pages};
ghost use Rattle.cbsp_wire.specs.Meaning.{IsMessage, IsUnwritten};
ghost use Rattle.cbsp_wire.specs.WritingSteps.{HasRoomIn};
ghost use Rattle.cbsp_wire.specs.Range.{is_writable, max_listed};
ghost use Rattle.cbsp_wire.specs.Written.{number_octets, number_bodies, octet_bodies, list_head, list_bodies};
ghost use Rattle.cbsp_wire.specs.Written.{cell_octets, count_octets, failure_octets, content_body};
ghost use Rattle.cbsp_wire.specs.Written.{bodies_in, octets_of_message};
ghost use Rattle.cbsp_wire.specs.WritingSteps.{element_octets, field_octets, AreShort};

use crate::cause;
use crate::fault::WireFault;
use crate::lists::item::{Discriminator, ListItem, put_items};
use crate::message::{Message, iei};
use crate::reading::elements::{NUMBERS, elements};
use crate::writing::fields::{Fields, fields_of, is_writable, type_of};
use cbs_page::Content;
use std::alloc::Global;

pub(crate) mod fields;

/// Appends octets to a vector that has room for them, one by one, so that no memory is taken: `extend_from_slice`
/// doesn't promise that the capacity stays.
pub(crate) fn put(out: &mut Vec<u8>, octets: &[u8])
    requires { HasRoomIn out.old octets.now }
    ensures appended { out.new.items ≡ out.old.items ++ octets.now }
    ensures room { vec_capacity out.new ≡ vec_capacity out.old }
{
    for octet in octets {
        out.push_reserved(*octet);
    }
}

/// The two octets of a number, the high one first.
pub(crate) fn octets_of_number(number: u16) -> [u8; 2]
    ensures { result ≡ number_octets number }
{
    [(number / 256) as u8, (number % 256) as u8]
}

/// Appends an element of two octets, if there is one.
fn put_number(out: &mut Vec<u8>, element: u8, number: Option<u16>)
    requires { HasRoomIn out.old (element_octets element (number_bodies number)) }
    ensures appended { out.new.items ≡ out.old.items ++ element_octets element (number_bodies number) }
    ensures room { vec_capacity out.new ≡ vec_capacity out.old }
{
    if let Some(number) = number {
        let [high, low] = octets_of_number(number);
        put(out, &[element, high, low]);
    }
}

/// Appends an element of one octet, if there is one.
fn put_octet(out: &mut Vec<u8>, element: u8, octet: Option<u8>)
    requires { HasRoomIn out.old (element_octets element (octet_bodies octet)) }
    ensures appended { out.new.items ≡ out.old.items ++ element_octets element (octet_bodies octet) }
    ensures room { vec_capacity out.new ≡ vec_capacity out.old }
{
    if let Some(octet) = octet {
        put(out, &[element, octet]);
    }
}

/// Appends what comes before the items of a list: its number, its length and the one discriminator, if all items share
/// one.
fn put_list_head(out: &mut Vec<u8>, element: u8, discriminator: Discriminator, items_len: u16)
    requires fits { items_len < 65535 }
    requires room { HasRoomIn out.old (element ∷ list_head discriminator items_len) }
    ensures appended { out.new.items ≡ out.old.items ++ element ∷ list_head discriminator items_len }
    ensures room { vec_capacity out.new ≡ vec_capacity out.old }
{
    match discriminator {
        Discriminator::Once => {
            let [high, low] = octets_of_number(1 + items_len);
            put(out, &[element, high, low, 1]);
        }
        Discriminator::Each => put_number(out, element, Some(items_len)),
    }
}

/// Appends a list, if it has items.
fn put_list<T: ListItem>(out: &mut Vec<u8>, element: u8, items: &[T])
    requires short { length items.now ≤ max_listed }
    requires room { HasRoomIn out.old (element_octets element (list_bodies T.DISCRIMINATOR T.octets_of items.now)) }
    ensures appended { out.new.items
        ≡ out.old.items ++ element_octets element (list_bodies T.DISCRIMINATOR T.octets_of items.now) }
    ensures room { vec_capacity out.new ≡ vec_capacity out.old }
{
    if items.is_empty() {
        return;
    }
    put_list_head(out, element, T::DISCRIMINATOR, items.len() as u16 * T::SIZE);
    put_items(out, items);
}

/// Appends the number of pages, if it is given.
fn put_pages(out: &mut Vec<u8>, element: u8, pages: Option<usize>)
    requires few { IfSome pages (λ n. n ≤ max_pages) }
    requires room { HasRoomIn out.old (element_octets element (octet_bodies pages)) }
    ensures appended { out.new.items ≡ out.old.items ++ element_octets element (octet_bodies pages) }
    ensures room { vec_capacity out.new ≡ vec_capacity out.old }
{
    if let Some(pages) = pages {
        put(out, &[element, pages as u8]);
    }
}

/// Appends the contents.
fn put_contents(out: &mut Vec<u8>, element: u8, contents: &[Content])
    requires { HasRoomIn out.old (element_octets element (map content_body contents.now)) }
    ensures appended { out.new.items ≡ out.old.items ++ element_octets element (map content_body contents.now) }
    ensures room { vec_capacity out.new ≡ vec_capacity out.old }
{
    let mut left = contents;
    'contents: while let [content, rest @ ..] = left {
        put(out, &[element, content.used]);
        put(out, content.octets.as_slice());
        left = rest;
    }
}

macro_rules! put_field {
    ($out:expr, $row:path, $fields:expr, number $field:ident) => { put_number($out, $row, $fields.$field) };
    ($out:expr, $row:path, $fields:expr, octet $field:ident) => { put_octet($out, $row, $fields.$field) };
    ($out:expr, $row:path, $fields:expr, pages $field:ident) => { put_pages($out, $row, $fields.$field) };
    ($out:expr, $row:path, $fields:expr, list $field:ident) => { put_list($out, $row, $fields.$field) };
    ($out:expr, $row:path, $fields:expr, contents $field:ident) => { put_contents($out, $row, $fields.$field) };
}

macro_rules! put_for {
    ($out:expr, $fields:expr, $number:expr; $($row:path, $form:ident $size:literal,
        $write:ident $write_done:ident $write_failed:ident $kill:ident $kill_done:ident $kill_failed:ident,
        $writer:ident $field:ident;)*) => {
        match $number {
            $($row => put_field!($out, $row, $fields, $writer $field),)*
            _ => {}
        }
    };
}

/// Appends the elements with this number.
#[tactic(auto, unfolding(crate::specs::Written::bodies_in))]
fn put_elements_with(out: &mut Vec<u8>, fields: &Fields<'_>, number: u8)
    requires short { AreShort fields.now }
    requires room { HasRoomIn out.old (field_octets fields.now number) }
    ensures appended { out.new.items ≡ out.old.items ++ field_octets fields.now number }
    ensures room { vec_capacity out.new ≡ vec_capacity out.old }
{
    elements!(put_for, out, fields, number)
}

/// Appends the elements with these numbers, in this order.
fn put_elements(out: &mut Vec<u8>, fields: &Fields<'_>, numbers: &[u8])
    requires short { AreShort fields.now }
    requires room { HasRoomIn out.old (flat_map (field_octets fields.now) numbers.now) }
    ensures appended { out.new.items ≡ out.old.items ++ flat_map (field_octets fields.now) numbers.now }
    ensures room { vec_capacity out.new ≡ vec_capacity out.old }
{
    for number in numbers {
        put_elements_with(out, fields, *number);
    }
}

/// Appends the octets of a message, with its elements in the table's order, and takes no memory: the vector keeps its
/// capacity.
///
/// It asks for a message that some octets mean, for which `write` returns no cause, and for room of 1,547 octets, the
/// longest message.
#[tactic(auto, unfolding(crate::specs::Written::octets_of_message))]
pub fn write_in(message: &Message, out: &mut Vec<u8>)
    requires meant { IsTrue (is_writable message.now) }
    requires room { vec_len out.old + 1547 ≤ vec_capacity out.old }
    ensures appended { out.new.items ≡ out.old.items ++ octets_of_message message.now }
    ensures room_stays { vec_capacity out.new ≡ vec_capacity out.old }
{
    let fields = fields_of(message);
    let start = out.len();
    put(out, &[type_of(message).to_octet(), 0, 0, 0]);
    put_elements(out, &fields, &NUMBERS);
    let length = out.len() - start - 4;
    out[start + 1] = (length / 65536) as u8;
    out[start + 2] = (length / 256 % 256) as u8;
    out[start + 3] = (length % 256) as u8;
}

/// The octets of a message, with its elements in the table's order.
///
/// # Errors
///
/// `Cause(0x01)` if no octets mean it, as of a message without contents; `Refused` if out of memory.
pub fn write(alloc: Global, message: &Message) -> Result<Vec<u8>, WireFault>
    ensures written { IfOk result (λ octets. octets.items ≡ octets_of_message message.now) }
    ensures meant { IfOk result (λ octets. IsMessage octets.items message.now) }
    ensures refused { IfErr result (λ fault. IsUnwritten message.now fault) }
{
    if !is_writable(message) {
        return Err(WireFault::Cause(cause::PARAMETER_VALUE_INVALID));
    }
    match Vec::with_capacity(alloc, 1547) {
        Ok(mut out) => {
            write_in(message, &mut out);
            Ok(out)
        }
        Err(_) => Err(WireFault::Refused),
    }
}
