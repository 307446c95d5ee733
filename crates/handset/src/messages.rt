//! Messages in their pages (3GPP TS 23.041, clause 9.4.1): which pages count, when a message is complete, and its text.

ghost use Rattle.std.specs.Prelude.{◌≡◌, ◌&&◌, ◌++◌, ◌∷◌, [], All, IfOk, IsTrue, find, encode_utf8_all, string_bytes};
ghost use Rattle.std.specs.Option.{option_copied, option_to_list};
ghost use Rattle.cbs_page.specs.Page.{is_readable};
ghost use Rattle.handset.specs.Reception.{name_of, is_of};
ghost use Rattle.handset.specs.Keeping.{is_numbered, messages_shown};
ghost use Rattle.handset.specs.KeepingSteps.{agrees_with_first, counts, is_kept_whole, message_whole, text_kept};
ghost use Rattle.handset.specs.KeepingSteps.{total_kept};

use cbs_page::{PageView, Serial, push_page_text};
use std::alloc::Global;

/// Out of memory.
pub use std::alloc::AllocError as Refused;

/// A message that a handset shows.
#[derive(Drop, Debug)]
pub struct Shown {
    /// Source and type of the warning (TS 23.041, clause 9.4.1.2.2).
    pub id: u16,
    /// Which warning, and which version of it (TS 23.041, clause 9.4.1.2.1).
    pub serial: Serial,
    /// The texts of its pages, in the order of their numbers.
    pub text: String,
}

/// Whether two pages are of one message: their identifiers and their serial numbers are the same.
fn is_of_one(page: &PageView, other: &PageView) -> bool
    ensures { result ≡ is_of (name_of page.now) other.now }
{
    other.id == page.id && other.serial == page.serial
}

/// The first page of the message that a page is of.
fn first_page<'a>(pages: &'a [PageView], page: &PageView) -> Option<&'a PageView>
    ensures { option_copied result ≡ find (is_of (name_of page.now)) pages.now }
{
    pages.iter().find(|other| is_of_one(page, other))
}

/// The page of this number of the message that a page is of.
fn page_of_number<'a>(pages: &'a [PageView], page: &PageView, number: u8) -> Option<&'a PageView>
    ensures { option_copied result ≡ find (is_numbered (name_of page.now) number) pages.now }
{
    pages
        .iter()
        .find(|other| is_of_one(page, other) && other.number == number)
}

/// Whether a page has the total and the data coding of the first page of its message, if there is one.
fn agrees_with_first(pages: &[PageView], page: &PageView) -> bool
    ensures { result ≡ agrees_with_first (find (is_of (name_of page.now)) pages.now) page.now }
{
    match first_page(pages, page) {
        None => true,
        Some(first) => page.total == first.total && page.dcs == first.dcs,
    }
}

/// Whether a page is to be kept: it is readable, none of its number came before, and it agrees with the first of its
/// message.
pub fn is_counted(pages: &[PageView], page: &PageView) -> bool
    ensures { result ≡ (is_readable page.now && counts pages.now page.now) }
{
    page.readable()
        && page_of_number(pages, page, page.number).is_none()
        && agrees_with_first(pages, page)
}

/// The page of this number of the message of the last page, among pages and this last one.
fn page_with<'a>(pages: &'a [PageView], last: &'a PageView, number: u8) -> Option<&'a PageView>
    ensures { option_copied result ≡ find (is_numbered (name_of last.now) number) (pages.now ++ last.now ∷ []) }
{
    match page_of_number(pages, last, number) {
        Some(page) => Some(page),
        None if last.number == number => Some(last),
        None => None,
    }
}

/// The total of the message of the last page: that of its first page.
fn total_with(pages: &[PageView], last: &PageView) -> u8
    ensures { result ≡ total_kept (name_of last.now) (pages.now ++ last.now ∷ []) }
{
    match first_page(pages, last) {
        Some(first) => first.total,
        None => last.total,
    }
}

/// Whether the message of the last page has all its pages, with this last one.
fn is_complete(pages: &[PageView], last: &PageView) -> bool
    ensures { result ≡ is_kept_whole (name_of last.now) (pages.now ++ last.now ∷ []) }
{
    let total = total_with(pages, last);
    // From the last number on: where pages come in order, that is the one that is missing.
    let mut number = total;
    while number > 0 {
        if page_with(pages, last, number).is_none() {
            return false;
        }
        number -= 1;
    }
    total != 0
}

/// The message of the last page, if it has all its pages with this one.
///
/// # Errors
///
/// `Refused` if out of memory.
pub fn message_if_complete(
    alloc: Global,
    pages: &[PageView],
    last: &PageView,
) -> Result<Option<Shown>, Refused>
    requires pages { All (λ p. IsTrue (is_readable p)) pages.now }
    requires last { IsTrue (is_readable last.now) }
    ensures { IfOk result (λ message.
        messages_shown (option_to_list message) ≡ message_whole (pages.now ++ last.now ∷ []) last.now) }
{
    if !is_complete(pages, last) {
        return Ok(None);
    }
    Ok(Some(Shown {
        id: last.id,
        serial: last.serial,
        text: text(alloc, pages, last)?,
    }))
}

/// The texts of the pages of the message of the last page, in the order of their numbers.
fn text(alloc: Global, pages: &[PageView], last: &PageView) -> Result<String, Refused>
    requires pages { All (λ p. IsTrue (is_readable p)) pages.now }
    requires last { IsTrue (is_readable last.now) }
    ensures { IfOk result (λ text.
        string_bytes text ≡ encode_utf8_all (text_kept (name_of last.now) (pages.now ++ last.now ∷ []))) }
{
    let mut text = String::new(alloc);
    for before in 0..total_with(pages, last) {
        if let Some(page) = page_with(pages, last, before + 1) {
            push_page_text(&mut text, page)?;
        }
    }
    Ok(text)
}
