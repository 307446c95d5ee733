//! Data of a direction that wait, and the octets of its stream.

ghost use Rattle.std.specs.Prelude.{◌≡◌, IfOk};
ghost use Rattle.std.specs.List.{filter};
ghost use Rattle.link_streams.specs.Stream.{distance, is_later, is_past, most_octets, first_octet_at, octet_from};
ghost use Rattle.link_streams.specs.Stream.{octets_from, sequence_after};

use crate::message::LinkOctets;
use std::alloc::{AllocError, Global};
use std::marker::Model;

/// The greatest number of octets by which a stream grows at once.
const MOST_OCTETS: u32 = 33_554_432;

/// Data of a segment.
#[derive(Debug, Drop)]
pub struct Waiting {
    /// The sequence number of the first octet.
    pub first: u32,
    /// The octets.
    pub octets: LinkOctets,
}

/// Data that wait, in the order in which they came. In clauses they are the list itself.
#[derive(Debug, Drop)]
pub struct WaitingList {
    /// The data.
    pub list: Vec<Waiting>,
}

impl Model for WaitingList {
    ghost use Rattle.std.specs.Prelude.{List};
    ghost use Rattle.link_streams.specs.declared.waiting.Waiting.{Waiting};

    ghost Value = { List Waiting };

    ghost view = { λ waiting. waiting.list.items };
}

/// The place so many after another.
pub(crate) fn sequence_after(place: u32, count: usize) -> u32
    ensures { result ≡ sequence_after place count }
{
    place.wrapping_add((count % 0x1_0000_0000) as u32)
}

/// How far a place is ahead of another.
pub(crate) fn distance(from: u32, place: u32) -> u32
    ensures { result ≡ distance from place }
{
    place.wrapping_sub(from)
}

/// Whether a place is later than another.
fn is_later(from: u32, place: u32) -> bool
    ensures { result ≡ is_later from place }
{
    let ahead = distance(from, place);
    ahead > 0 && ahead < 0x8000_0000
}

/// Whether so many octets from a place on have one after those that the stream has.
pub(crate) fn is_past(next: u32, first: u32, count: usize) -> bool
    ensures { result ≡ is_later next (sequence_after first count) }
{
    is_later(next, sequence_after(first, count))
}

/// The octet that data have at a place.
fn octet_from(part: &Waiting, place: u32) -> Option<u8>
    ensures { result ≡ octet_from part.now place }
{
    let octets = part.octets.list.as_slice();
    let ahead = distance(part.first, place) as usize;
    if ahead < octets.len() {
        Some(octets[ahead])
    } else {
        None
    }
}

/// The octet at a place.
fn first_octet_at(waiting: &[Waiting], place: u32) -> Option<u8>
    ensures { result ≡ first_octet_at waiting.now place }
{
    for part in waiting {
        if let Some(octet) = octet_from(part, place) {
            return Some(octet);
        }
    }
    None
}

/// The octets from a place on, up to the first gap.
pub(crate) fn octets_from(
    alloc: Global,
    waiting: &[Waiting],
    place: u32,
) -> Result<Vec<u8>, AllocError>
    ensures { IfOk result (λ octets. octets.items ≡ octets_from most_octets waiting.now place) }
{
    let mut octets = Vec::new(alloc);
    let mut here = place;
    for _ in 0..MOST_OCTETS {
        let Some(octet) = first_octet_at(waiting, here) else {
            return Ok(octets);
        };
        octets.push(octet)?;
        here = sequence_after(here, 1);
    }
    Ok(octets)
}

/// Keeps the data that have an octet after those that the stream has.
pub(crate) fn keep_past(waiting: &mut Vec<Waiting>, next: u32)
    ensures { waiting.new.items ≡ filter (is_past next) waiting.old.items }
{
    waiting.retain(|part| is_past(next, part.first, part.octets.list.len()));
}
