//! Elements at the front of octets (3GPP TS 48.049, 8.2).

ghost use Rattle.std.specs.Prelude.{◌≡◌, ◌≤◌, length, IfOk, IfErr, IfSome, MatchOption, Ok, Err, None, Some};
ghost use Rattle.cbsp_wire.specs.Element as Number;
ghost use Rattle.cbsp_link.specs.Element.{size_of, element_at, elements_in, fault_in, first_body};
ghost use Rattle.cbsp_link.specs.Value.{pair_in, octet_in, pages_in};
ghost use Rattle.cbsp_wire.specs.Value.{content_of};

use crate::fault::LinkFault;
use crate::iei;
use cbs_page::Content;
use std::alloc::{AllocError, Global};

/// The number that the first two octets are, the high one first; 0 if there are fewer.
fn u16_from_be(octets: &[u8]) -> u16
    ensures { result ≡ Number.u16_from_be octets.now }
{
    match octets {
        [high, low, ..] => u16::from(*high) * 256 + u16::from(*low),
        _ => 0,
    }
}

/// The first octet; 0 if there is none.
fn first_octet(octets: &[u8]) -> u8
    ensures { result ≡ Number.first_octet octets.now }
{
    match octets {
        [octet, ..] => *octet,
        [] => 0,
    }
}

/// How many octets an element's body takes, of the octets after its identifier: a number of them, or two of length and
/// as many as they say. None if no element has the identifier.
#[tactic(auto, unfolding(crate::specs::Element::table, crate::specs::Element::size_of))]
fn size(number: u8, octets: &[u8]) -> Option<usize>
    ensures { result ≡ size_of number octets.now }
{
    match number {
        0x01 => Some(83),
        0x02 | 0x03 | 0x06 | 0x07 | 0x0E | 0x10 => Some(2),
        0x04 | 0x08 | 0x09 | 0x0A => Some(2 + usize::from(u16_from_be(octets))),
        0x05 | 0x0B | 0x0C | 0x0D | 0x0F | 0x12 | 0x13 | 0x14 | 0x15 | 0x16 | 0x17 | 0x18 => Some(
            1,
        ),
        0x11 => Some(50),
        _ => None,
    }
}

/// The body of the element with this identifier, at the front of the octets after that, and the octets after it.
#[tactic(auto, unfolding(crate::specs::Element::element_at))]
fn element(number: u8, octets: &[u8]) -> Result<(&[u8], &[u8]), LinkFault>
    ensures taken { IfOk result
        (λ x. element_at number octets.now ≡ Ok (record { number = number; body = x.0.now }, x.1.now)) }
    ensures fault { IfErr result (λ f. element_at number octets.now ≡ Err f) }
    ensures shorter { IfOk result (λ x. length x.1.now ≤ length octets.now) }
    ensures sized { IfOk result (λ x. size_of number octets.now ≡ Some (length x.0.now)) }
{
    let Some(size) = size(number, octets) else {
        return Err(LinkFault::UnknownElement(number));
    };
    if octets.len() < size {
        return Err(LinkFault::CutElement(number));
    }
    Ok(octets.split_at(size))
}

/// The fault of the first element that has one.
pub(crate) fn fault(octets: &[u8]) -> Option<LinkFault>
    ensures { result ≡ fault_in octets.now }
{
    let mut left = octets;
    'walk: while let [number, after @ ..] = left {
        match element(*number, after) {
            Ok((_, rest)) => left = rest,
            Err(fault) => return Some(fault),
        }
    }
    None
}

/// The body of the first element with this identifier.
pub(crate) fn first(octets: &[u8], wanted: u8) -> Option<&[u8]>
    ensures { MatchOption result (first_body wanted (elements_in octets.now) ≡ None)
        (λ body. first_body wanted (elements_in octets.now) ≡ Some body.now) }
{
    let mut left = octets;
    'walk: while let [number, after @ ..] = left {
        match element(*number, after) {
            Ok((body, rest)) => {
                if *number == wanted {
                    return Some(body);
                }
                left = rest;
            }
            Err(_) => return None,
        }
    }
    None
}

/// The number of the first element with this identifier, as two octets.
pub(crate) fn pair(octets: &[u8], wanted: u8) -> Option<u16>
    ensures { result ≡ pair_in wanted (elements_in octets.now) }
{
    match first(octets, wanted) {
        Some(body) => Some(u16_from_be(body)),
        None => None,
    }
}

/// The number of the first element with this identifier, as one octet.
pub(crate) fn octet(octets: &[u8], wanted: u8) -> Option<u8>
    ensures { result ≡ octet_in wanted (elements_in octets.now) }
{
    match first(octets, wanted) {
        Some(body) => Some(first_octet(body)),
        None => None,
    }
}

/// The content that the body of an element 01 is.
fn content(body: &[u8]) -> Content
    requires { length body.now ≡ 83 }
    ensures { result ≡ content_of body.now }
{
    let mut octets = [0; 82];
    octets.copy_from_slice(&body[1..]);
    Content {
        used: body[0],
        octets,
    }
}

/// The contents of all pages, in the order of their elements.
#[tactic(auto, unfolding(crate::specs::Element::table, crate::specs::Element::size_of))]
pub(crate) fn contents(alloc: Global, octets: &[u8]) -> Result<Vec<Content>, AllocError>
    ensures { IfOk result (λ contents. contents.items ≡ pages_in (elements_in octets.now)) }
{
    let mut contents = Vec::new(alloc);
    let mut left = octets;
    'walk: while let [number, after @ ..] = left {
        match element(*number, after) {
            Ok((body, rest)) => {
                if *number == iei::MESSAGE_CONTENT {
                    contents.push(content(body))?;
                }
                left = rest;
            }
            Err(_) => return Ok(contents),
        }
    }
    Ok(contents)
}
