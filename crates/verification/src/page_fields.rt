//! Pages as fields of the explained table.

ghost use Rattle.std.specs.Prelude.{◌≡◌, ◌∷◌, [], ◌++◌, drop, find, Some, IfOk, string_bytes};
ghost use Rattle.std.specs.Option.{option_to_list};
ghost use Rattle.handset.specs.Reception.{page_octets};
ghost use Rattle.verification.specs.Explained.{explained_pages, field_of, is_named_by, octets_asked, octets_begun};
ghost use Rattle.verification.specs.Explained.{octets_in_front, octets_sent, page_field};
ghost use Rattle.verification.specs.Kept.{asked_kept};
ghost use Rattle.verification.specs.declared.difference.Kind.TheVariants as kinds;

use crate::asked::Asked;
use crate::difference::{Difference, Kind};
use crate::explained::Explanation;
use crate::text::kind_text;
use cbs_page::{MAX_PAGES, PAGE_OCTETS, PageView, Serial, page_bytes, page_text, read_page};
use handset::page_in_front;
use std::alloc::{AllocError, Global};

/// How many blocks a slot has.
const BLOCKS: usize = 4;

/// The octets that two blocks carry.
fn joined(block: &[u8; 23], next: &[u8; 23]) -> [u8; 44]
    ensures { result ≡ drop 1 block.now ++ drop 1 next.now }
{
    let mut octets = [0; 44];
    octets[..22].copy_from_slice(&block[1..]);
    octets[22..].copy_from_slice(&next[1..]);
    octets
}

/// The octets that four blocks carry: all but the type of each.
fn octets_of(first: &[u8; 23], second: &[u8; 23], third: &[u8; 23], last: &[u8; 23]) -> [u8; 88]
    ensures { result ≡ page_octets (first.now ∷ second.now ∷ third.now ∷ last.now ∷ []) }
{
    let mut octets = [0; 88];
    octets[..44].copy_from_slice(&joined(first, second));
    octets[44..].copy_from_slice(&joined(third, last));
    octets
}

/// The octets of the page at the front of some blocks, if there is one.
fn octets_in_front(blocks: &[[u8; 23]]) -> Option<[u8; PAGE_OCTETS]>
    ensures { option_to_list result ≡ octets_in_front blocks.now }
{
    let [first, second, third, last, ..] = blocks else {
        return None;
    };
    match page_in_front(blocks) {
        Some(_) => Some(octets_of(first, second, third, last)),
        None => None,
    }
}

/// Whether the octets of a page have the identifier and the serial number of a difference.
fn is_named_by(difference: &Difference, octets: &[u8; PAGE_OCTETS]) -> bool
    ensures { result ≡ is_named_by difference.now octets.now }
{
    let page = read_page(octets);
    page.id == difference.id && page.serial.number() == difference.serial.number()
}

/// The first page with the name of a difference of those that begin in the first four blocks.
fn page_begun(blocks: &[[u8; 23]], difference: &Difference) -> Option<[u8; PAGE_OCTETS]>
    ensures { result ≡ find (is_named_by difference.now) (octets_begun blocks.now) }
{
    for place in 0..BLOCKS {
        if let Some(octets) = octets_in_front(&blocks[place.min(blocks.len())..]) {
            if is_named_by(difference, &octets) {
                return Some(octets);
            }
        }
    }
    None
}

/// The page that came in the slot of a difference and has its name.
pub fn octets_sent(blocks: &[[u8; 23]], difference: &Difference) -> Option<[u8; PAGE_OCTETS]>
    ensures { result ≡ octets_sent blocks.now difference.now }
{
    let first = difference.slot.saturating_mul(BLOCKS).min(blocks.len());
    page_begun(&blocks[first..], difference)
}

impl<'a> Asked<'a> {
    /// The octets of its page of a number, if it has one.
    fn octets(&self, number: u8) -> Option<[u8; PAGE_OCTETS]>
        ensures { result ≡ octets_asked (asked_kept self.now) number }
    {
        let contents = self.contents.as_slice();
        if number == 0 || contents.len() > MAX_PAGES {
            return None;
        }
        let content = contents.get(usize::from(number) - 1)?;
        let total = contents.len() as u8;
        let serial = Serial::of(self.serial);
        Some(page_bytes(self.id, serial, self.dcs, number, total, &content.octets))
    }
}

/// A page as a field: its text, or its octets in hexadecimal where its data coding has no alphabet. The only error is
/// out of memory.
fn page_field(alloc: Global, octets: &[u8; PAGE_OCTETS]) -> Result<String, AllocError>
    ensures { IfOk result (λ text. string_bytes text ≡ page_field octets.now) }
{
    // The number and the total of the page don't matter to its text.
    let page = PageView {
        number: 1,
        total: 1,
        ..read_page(octets)
    };
    if page.readable() {
        return page_text(alloc, &page);
    }
    hex::encode(alloc, octets.as_slice())
}

/// A page as a field, which is empty without one. The only error is out of memory.
pub fn field_of(alloc: Global, page: &Option<[u8; PAGE_OCTETS]>) -> Result<String, AllocError>
    ensures { IfOk result (λ text. string_bytes text ≡ field_of page.now) }
{
    match page {
        Some(octets) => page_field(alloc, octets),
        None => Ok(String::new(alloc)),
    }
}

/// A page that was asked, and the one that came in its place. The only error is out of memory.
fn two_pages(
    alloc: Global,
    kind: Kind,
    asked: &[u8; PAGE_OCTETS],
    sent: &[u8; PAGE_OCTETS],
) -> Result<Explanation, AllocError>
    ensures { IfOk result (λ told. told ≡ explained_pages kind (Some asked.now) (Some sent.now)) }
{
    let difference = kind_text(alloc, kind)?;
    let (expected, got) = (page_field(alloc, asked)?, page_field(alloc, sent)?);
    if expected.as_bytes() != got.as_bytes() {
        return Ok(Explanation {
            difference,
            expected,
            got,
        });
    }
    Ok(Explanation {
        difference,
        expected: hex::encode(alloc, asked.as_slice())?,
        got: hex::encode(alloc, sent.as_slice())?,
    })
}

/// A page of a message that reads otherwise, by the page that came. The only error is out of memory.
pub fn explained_page(
    alloc: Global,
    asked: &Asked,
    number: u8,
    sent: &Option<[u8; PAGE_OCTETS]>,
) -> Result<Explanation, AllocError>
    ensures { IfOk result (λ told. told ≡ explained_pages (kinds.Otherwise number)
        (octets_asked (asked_kept asked.now) number) sent.now) }
{
    let kind = Kind::Otherwise { page: number };
    let own = asked.octets(number);
    match (&own, sent) {
        (Some(own), Some(sent)) => two_pages(alloc, kind, own, sent),
        _ => Ok(Explanation {
            difference: kind_text(alloc, kind)?,
            expected: field_of(alloc, &own)?,
            got: field_of(alloc, sent)?,
        }),
    }
}
