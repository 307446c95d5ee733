//! The pages of a text: which alphabet it gets, how it is cut, and what each page holds (3GPP TS 23.041, clause
//! 9.4.1.2.5; the cutting is this project's own: each page takes all that it can, and an escape pair is never split).

ghost use Rattle.std.specs.Prelude.{◌≡◌, ◌≢◌, ◌≤◌, [], true, length, IfOk, IfErr, position, is_some};
ghost use Rattle.std.specs.List.{list_all};
ghost use Rattle.std.specs.Str.{chars};
ghost use Rattle.gsm_alphabet.specs.Alphabet.{code_of};
ghost use Rattle.cbs_page.specs.PagingSteps.{IsPaged, IsPagingFault, fault_for};
ghost use Rattle.cbs_page.specs.Text.{is_bad, IsTextFault, IsPagedText};
ghost use Rattle.cbs_page.specs.Text.{ShowsText};
ghost use Rattle.cbs_page.specs.Text.{max_pages};

use crate::coding::{Dcs, language_dcs};
use crate::content::Content;
use crate::pages::{paged_septets, paged_units};
use crate::plain::are_own_septets;
use crate::spelling::{is_bad_character, septets_of_text, units_of_text};
use gsm_alphabet::encode_char;
use std::alloc::Global;
use thiserror::Error;

/// The most pages that a message has (3GPP TS 23.041, clause 9.4.1.2.4).
pub const MAX_PAGES: usize = 15;

/// A text as it is sent: its data coding, and 1 to 15 pages.
#[derive(Debug, Drop)]
pub struct Paged {
    /// Language and alphabet of all pages.
    pub dcs: Dcs,
    /// The contents, page 1 first.
    pub pages: Vec<Content>,
}

/// Why a text isn't sent. If several apply, it is the first of this list.
#[derive(Clone, Copy, Debug, PartialEq, Eq, Error)]
pub enum TextFault {
    /// No language has this word.
    #[error("unknown language")]
    BadLanguage,
    /// There is no text.
    #[error("text is empty")]
    Empty,
    /// The character at this place, counted from 0, can't be sent: a control character other than LF, or one above
    /// U+FFFF. It is the first of them.
    #[error("bad character at {place}")]
    BadCharacter {
        /// How many characters stand before it.
        place: usize,
    },
    /// The text needs more than 15 pages.
    #[error("too many pages")]
    TooManyPages,
    /// Out of memory.
    #[error("out of memory")]
    Refused,
}

/// The pages of a text in a language. The text is GSM 7-bit if that alphabet has each of its characters, with the
/// language's data coding value, and UCS-2 otherwise.
///
/// # Errors
///
/// The first of [`TextFault`] that applies, with out of memory last.
pub fn paginate(alloc: Global, text: &str, language: &str) -> Result<Paged, TextFault>
    ensures sent { IfOk result (IsPagedText language.now (chars text.now)) }
    ensures shown { IfOk result (λ paged. ShowsText (chars text.now) paged) }
    ensures count { IfOk result (λ paged. (1 ≤ length paged.pages.items) × (length paged.pages.items ≤ max_pages)) }
    ensures fault { IfErr result (IsTextFault language.now (chars text.now)) }
{
    let Some(value) = language_dcs(language) else {
        return Err(TextFault::BadLanguage);
    };
    if text.is_empty() {
        return Err(TextFault::Empty);
    }
    paged_text(alloc, text, value)
}

/// The pages of a text in the language with this data coding value. Most texts are ASCII, or else GSM 7-bit: these are
/// tried first, and where they don't succeed, a second look says why.
fn paged_text(alloc: Global, text: &str, value: u8) -> Result<Paged, TextFault>
    requires { chars text.now ≢ [] }
    ensures sent { IfOk result (IsPaged value (chars text.now)) }
    ensures fault { IfErr result (IsPagingFault (chars text.now)) }
{
    if are_own_septets(text.as_bytes()) {
        return paged_septets(alloc, text.as_bytes(), Dcs(value));
    }
    if let Some(septets) = septets_of_text(text) {
        return paged_septets(alloc, septets.as_slice(), Dcs(value));
    }
    if is_gsm(text) {
        return Err(fault_of_text(text));
    }
    match units_of_text(text) {
        Some(units) => paged_units(alloc, units.as_slice()),
        None => Err(fault_of_text(text)),
    }
}

/// Why a text of more codes than are sent, or with a character that can't be sent, isn't sent.
fn fault_of_text(text: &str) -> TextFault
    ensures { result ≡ fault_for (position is_bad (chars text.now)) }
{
    match bad_place(text) {
        Some(place) => TextFault::BadCharacter { place },
        None => TextFault::TooManyPages,
    }
}

/// The place of the first character that can't be sent.
fn bad_place(text: &str) -> Option<usize>
    ensures { result ≡ position is_bad (chars text.now) }
{
    text.chars().position(is_bad_character)
}

/// Whether the GSM 7-bit alphabet has each character of a text.
fn is_gsm(text: &str) -> bool
    ensures { result ≡ list_all (λ c. is_some (code_of c)) (chars text.now) }
{
    text.chars().all(has_code)
}

/// Whether the GSM 7-bit alphabet has a character.
fn has_code(character: char) -> bool
    ensures { result ≡ is_some (code_of character) }
{
    encode_char(character).is_some()
}
