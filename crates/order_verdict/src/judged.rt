//! The pages of a message that were sent, each right or not.

ghost use Rattle.std.specs.Prelude.{◌≡◌, length, map, take, IfOk};
ghost use Rattle.std.specs.Option.{option_copied};
ghost use Rattle.std.specs.Str.{bytes_eq};
ghost use Rattle.order_verdict.specs.Judged.{is_as_named, is_before, is_content, is_own_page, is_right, judged_page};
ghost use Rattle.order_verdict.specs.Judged.{own_pages_in};
ghost use Rattle.order_verdict.specs.Kept.{air_kept, ordered_kept};
ghost use Rattle.verification.specs.Kept.{asked_kept};

use crate::air::AirPage;
use crate::ordered::Ordered;
use cbs_page::Content;
use std::alloc::{AllocError, Global};
use verification::{Asked, JudgedPage};

/// Whether a page has the identifier and serial number of a message.
pub fn is_as_named(asked: &Asked, page: &AirPage) -> bool
    ensures { result ≡ is_as_named (asked_kept asked.now) (air_kept page.now).octets }
{
    page.id() == asked.id && page.serial() == asked.serial
}

/// Whether a slot comes before another, if there is one.
fn is_before(end: Option<u32>, slot: usize) -> bool
    ensures { result ≡ is_before end slot }
{
    match end {
        Some(end) => slot < end as usize,
        None => true,
    }
}

/// Whether a page is a message's own.
fn is_own_page(ordered: &Ordered, page: &AirPage) -> bool
    ensures { result ≡ is_own_page (ordered_kept ordered.now) (air_kept page.now) }
{
    is_as_named(&ordered.early, page)
        && ordered.since as usize <= page.slot
        && is_before(ordered.until, page.slot)
}

/// Whether octets are the first ones of others.
fn is_front(came: &[u8], octets: &[u8]) -> bool
    ensures { result ≡ bytes_eq came.now (take (length came.now) octets.now) }
{
    came.len() <= octets.len() && came == &octets[..came.len()]
}

/// Whether what came is the beginning of a content, with all its used octets.
fn is_content(content: Option<&Content>, came: &[u8]) -> bool
    ensures { result ≡ is_content (option_copied content.entry) came.now }
{
    match content {
        Some(content) => usize::from(content.used) <= came.len() && is_front(came, &content.octets),
        None => false,
    }
}

/// Whether a page of a message is as it was ordered.
fn is_right(asked: &Asked, page: &AirPage) -> bool
    ensures { result ≡ is_right (asked_kept asked.now) (air_kept page.now).octets }
{
    let contents = asked.contents.as_slice();
    let place = usize::from(page.number()).saturating_sub(1);
    page.dcs() == asked.dcs.0
        && usize::from(page.total()) == contents.len()
        && is_content(contents.get(place), page.content())
}

/// A page of a message, judged.
fn judged_page(asked: &Asked, page: &AirPage) -> JudgedPage
    ensures { result ≡ judged_page (asked_kept asked.now) (air_kept page.now) }
{
    JudgedPage {
        slot: page.slot,
        number: page.number(),
        right: is_right(asked, page),
    }
}

/// Of the pages that were sent those of a message, each judged.
///
/// # Errors
///
/// Out of memory.
pub fn own_pages(
    alloc: Global,
    ordered: &Ordered,
    air: &[AirPage],
) -> Result<Vec<JudgedPage>, AllocError>
    ensures { IfOk result (λ pages. pages.items ≡ own_pages_in (ordered_kept ordered.now) (map air_kept air.now)) }
{
    let mut pages = Vec::new(alloc);
    for page in air {
        if is_own_page(ordered, page) {
            pages.push(judged_page(&ordered.early, page))?;
        }
    }
    Ok(pages)
}
