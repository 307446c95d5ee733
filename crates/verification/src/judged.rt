//! The pages of a message that were sent, each right or not.

ghost use Rattle.std.specs.Prelude.{◌≡◌, ◌-◌, IfOk, IsTrue, Some, encode_utf8_all};
ghost use Rattle.std.specs.List.{slice_get};
ghost use Rattle.cbs_page.specs.Page.{is_readable};
ghost use Rattle.verification.specs.ByName.{AreByName};
ghost use Rattle.verification.specs.Judged.{is_right, judged, judged_in, reads_as};
ghost use Rattle.verification.specs.Kept.{asked_kept};

use crate::asked::Asked;
use crate::sent::{SentPage, name_number};
use cbs_page::{Content, PageView, page_text};
use std::alloc::{AllocError, Global};

/// A page of a message that was sent, as far as a message's differences depend on it.
#[derive(Clone, Copy)]
pub struct JudgedPage {
    /// The slot to which it belongs.
    pub slot: usize,
    /// Its number.
    pub number: u8,
    /// Whether it is as it was asked.
    pub right: bool,
}

/// Whether a page shows the text of a content in its own data coding. Most contents are the same, and then no text is
/// made. The only error is out of memory.
fn reads_as(alloc: Global, page: &PageView, content: &Content) -> Result<bool, AllocError>
    requires { IsTrue (is_readable page.now) }
    ensures { IfOk result (λ says. says ≡ reads_as page.now (Some content.now)) }
{
    if page.content == content.octets {
        return Ok(true);
    }
    let own = PageView {
        content: content.octets,
        ..*page
    };
    let sent = page_text(alloc, page)?;
    let asked = page_text(alloc, &own)?;
    Ok(sent.as_bytes() == asked.as_bytes())
}

/// Whether a page of a message is as it was asked. The only error is out of memory.
fn is_right(alloc: Global, asked: &Asked, page: &PageView) -> Result<bool, AllocError>
    ensures { IfOk result (λ says. says ≡ is_right (asked_kept asked.now) page.now) }
{
    if !page.readable() {
        return Ok(false);
    }
    let contents = asked.contents.as_slice();
    if usize::from(page.total) != contents.len() || page.dcs.0 != asked.dcs.0 {
        return Ok(false);
    }
    let place = usize::from(page.number).saturating_sub(1);
    match contents.get(place) {
        Some(content) => reads_as(alloc, page, content),
        None => Ok(false),
    }
}

/// A page of a message, judged. The only error is out of memory.
fn judged_page(alloc: Global, asked: &Asked, sent: &SentPage) -> Result<JudgedPage, AllocError>
    ensures { IfOk result (λ page. page ≡ judged (asked_kept asked.now) sent.now) }
{
    Ok(JudgedPage {
        slot: sent.slot,
        number: sent.page.number,
        right: is_right(alloc, asked, &sent.page)?,
    })
}

/// Of pages by name those among which all of a message are.
fn near<'p>(asked: &Asked, sent: &'p [SentPage]) -> &'p [SentPage]
    requires { AreByName sent.now }
    ensures { judged_in (asked_kept asked.now) result.now ≡ judged_in (asked_kept asked.now) sent.now }
{
    let name = name_number(asked.id, asked.serial);
    let first = sent.partition_point(|page| page.name_number() < name);
    let later = &sent[first..];
    let count = later.partition_point(|page| page.name_number() <= name);
    &later[..count]
}

/// Of the pages that were sent, by name, those of a message, each judged. The only error is out of memory.
pub fn judged_pages(
    alloc: Global,
    asked: &Asked,
    sent: &[SentPage],
) -> Result<Vec<JudgedPage>, AllocError>
    requires { AreByName sent.now }
    ensures { IfOk result (λ pages. pages.items ≡ judged_in (asked_kept asked.now) sent.now) }
{
    let candidates = near(asked, sent);
    let mut pages = Vec::new(alloc);
    for sent_page in candidates {
        if asked.has_name_of(&sent_page.page) {
            pages.push(judged_page(alloc, asked, sent_page)?)?;
        }
    }
    Ok(pages)
}
