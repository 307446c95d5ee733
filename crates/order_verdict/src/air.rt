//! The pages that a cell's channel sends.

ghost use Rattle.std.specs.Prelude.{◌≡◌, ◌≤◌, AllPairs, map, slice_index, IfOk};
ghost use Rattle.cbs_page.specs.Page.{place_of};
ghost use Rattle.order_verdict.specs.Air.{content_in, dcs_in, id_in, number_in, page_total_in, pages_on_air, serial_in};
ghost use Rattle.order_verdict.specs.Kept.{air_kept};

use arrayvec::ArrayVec;
use short_pages::page_of_slot;
use std::alloc::{AllocError, Global};

/// How many octets of a page come before its content.
const HEADER: usize = 6;

/// A page, and the slot in which it is sent.
#[derive(Drop)]
pub struct AirPage {
    /// The slot.
    pub slot: usize,
    /// The octets that came: 22 for each of its blocks.
    pub octets: ArrayVec<u8, 88>,
}

/// The octet at a place; 0 where there is none.
fn octet_at(octets: &[u8], place: usize) -> u8
    ensures { result ≡ slice_index octets.now place }
{
    match octets.get(place) {
        Some(octet) => *octet,
        None => 0,
    }
}

/// The page's number and the total in a page parameter, with 1 of 1 if either half is 0.
fn place_of(parameter: u8) -> (u8, u8)
    ensures { result ≡ place_of parameter }
{
    let number = parameter >> 4;
    let total = parameter & 0xF;
    if number == 0 || total == 0 {
        (1, 1)
    } else {
        (number, total)
    }
}

impl AirPage {
    /// The serial number.
    pub fn serial(&self) -> u16
        ensures { result ≡ serial_in (air_kept self.now).octets }
    {
        let octets = self.octets.as_slice();
        u16::from_be_bytes([octet_at(octets, 0), octet_at(octets, 1)])
    }

    /// The message identifier.
    pub fn id(&self) -> u16
        ensures { result ≡ id_in (air_kept self.now).octets }
    {
        let octets = self.octets.as_slice();
        u16::from_be_bytes([octet_at(octets, 2), octet_at(octets, 3)])
    }

    /// The data coding.
    pub fn dcs(&self) -> u8
        ensures { result ≡ dcs_in (air_kept self.now).octets }
    {
        octet_at(self.octets.as_slice(), 4)
    }

    /// The page's number.
    pub fn number(&self) -> u8
        ensures { result ≡ number_in (air_kept self.now).octets }
    {
        let (number, _) = place_of(octet_at(self.octets.as_slice(), 5));
        number
    }

    /// How many pages the message has.
    pub fn total(&self) -> u8
        ensures { result ≡ page_total_in (air_kept self.now).octets }
    {
        let (_, total) = place_of(octet_at(self.octets.as_slice(), 5));
        total
    }

    /// What came of the content.
    pub fn content(&self) -> &[u8]
        ensures { result.now ≡ content_in (air_kept self.now).octets }
    {
        let octets = self.octets.as_slice();
        if octets.len() < HEADER {
            return &[];
        }
        &octets[HEADER..]
    }
}

/// The pages in a tape's blocks, one a slot at most, in order: those of one to four blocks.
///
/// # Errors
///
/// Out of memory.
pub fn pages_on_air(alloc: Global, blocks: &[[u8; 23]]) -> Result<Vec<AirPage>, AllocError>
    ensures pages { IfOk result (λ air. map air_kept air.items ≡ pages_on_air blocks.now) }
{
    let (slots, _) = blocks.as_chunks::<4>();
    let mut air = Vec::new(alloc);
    for slot in 0..slots.len() {
        if let Some(octets) = page_of_slot(&slots[slot]) {
            air.push(AirPage { slot, octets })?;
        }
    }
    Ok(air)
}
