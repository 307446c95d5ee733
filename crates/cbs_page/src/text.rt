//! The text that a page shows (3GPP TS 23.038, clauses 6.1.2.2, 6.2.1 and 6.2.3).

ghost use Rattle.std.specs.Prelude.{◌≡◌, ◌++◌, ◌&&◌, nat_le, IsTrue, IfOk, OnErr, OnOk, ◌≤◌, take, length};
ghost use Rattle.std.specs.Prelude.{ℕ, ◌<◌, map, encode_utf8_all, slice_index_or, string_bytes, true};
ghost use Rattle.std.specs.List.{list_all};
ghost use Rattle.gsm_alphabet.specs.Alphabet.{text_of_septets};
ghost use Rattle.ucs2_text.specs.Ucs2.{character_of_unit};
ghost use Rattle.cbs_page.specs.Page.{is_readable};
ghost use Rattle.cbs_page.specs.TextSteps.{is_plain};
ghost use Rattle.cbs_page.specs.Text.{PutsFront, text_of_page, without_trailing};

use crate::coding::Alphabet;
use crate::octets::PageView;
use gsm_alphabet::{decode_ext, decode_one};
use septets::unpack;
use std::alloc::Global;
use std::str;
use ucs2_text::{char_of, units_of};

/// Out of memory.
pub use std::alloc::AllocError as Refused;

/// The septet that begins a character of the extension table (3GPP TS 23.038, clause 6.2.1.1).
const ESCAPE: u8 = 0x1B;

/// Carriage return, which fills a page after its text, as a septet.
const CR: u8 = 0x0D;

/// Carriage return as a unit of UCS-2.
const CR_UNIT: u16 = 0x000D;

/// The text that a readable page shows: the carriage returns at its end are dropped first, then the rest is decoded. A
/// surrogate unit shows U+FFFD, and an escape alone at the end shows a space.
///
/// # Errors
///
/// `Refused` if out of memory.
pub fn page_text(alloc: Global, view: &PageView) -> Result<String, Refused>
    requires { IsTrue (is_readable view.now) }
    ensures { IfOk result (λ text. string_bytes text ≡ encode_utf8_all (text_of_page view.now)) }
{
    let mut text = String::new(alloc);
    push_page_text(&mut text, view)?;
    Ok(text)
}

/// Puts the text that a readable page shows, as `page_text` has it, behind a text.
///
/// # Errors
///
/// `Refused` if out of memory; the text may then have the first characters of the page behind it.
pub fn push_page_text(text: &mut String, view: &PageView) -> Result<(), Refused>
    requires { IsTrue (is_readable view.now) }
    ensures pushed { OnOk result (string_bytes text.new
        ≡ string_bytes text.old ++ encode_utf8_all (text_of_page view.now)) }
    ensures refused { OnErr result (PutsFront (string_bytes text.old) (string_bytes text.new)
        (encode_utf8_all (text_of_page view.now))) }
{
    match view.dcs.alphabet() {
        Some(Alphabet::Gsm) => {
            let septets = unpack(&view.content);
            push_gsm(text, without_filling(&septets, filled_from(&septets), CR))
        }
        Some(Alphabet::Ucs2) => {
            let units = units_of(&view.content);
            push_units(text, without_filling(&units, units.len(), CR_UNIT))
        }
        None => Ok(()),
    }
}

/// The items before those at the end that fill the page, as all from `end` on do.
fn without_filling<T: Copy + PartialEq>(items: &[T], end: usize, filling: T) -> &[T]
    requires within { end ≤ length items.now }
    requires filled { (place : ℕ) → end ≤ place → place < length items.now
        → T.eq (slice_index_or items.now place filling) filling ≡ true }
    ensures { result.now ≡ without_trailing (λ item. T.eq item filling) items.now }
{
    match items[..end].iter().rposition(|item| *item != filling) {
        Some(last) => &items[..=last],
        None => &items[..0],
    }
}

/// A place from which on carriage return fills the page. After a short text there are many, so eight are compared at
/// once, and at most seven are left before that place.
fn filled_from(septets: &[u8]) -> usize
    ensures within { result ≤ length septets.now }
    ensures filled { (place : ℕ) → result ≤ place → place < length septets.now
        → slice_index_or septets.now place 13 ≡ 13 }
{
    let mut end = septets.len();
    while let Some(front) = septets[..end].strip_suffix(&[CR; 8]) {
        end = front.len();
    }
    end
}

/// Puts the text of septets behind a text. Most pages are plain, and then their septets are the text's octets.
fn push_gsm(text: &mut String, septets: &[u8]) -> Result<(), Refused>
    ensures pushed { OnOk result (string_bytes text.new
        ≡ string_bytes text.old ++ encode_utf8_all (text_of_septets septets.now)) }
    ensures refused { OnErr result (PutsFront (string_bytes text.old) (string_bytes text.new)
        (encode_utf8_all (text_of_septets septets.now))) }
{
    if are_plain(septets) {
        if let Ok(plain) = str::from_utf8(septets) {
            return text.push_str(plain);
        }
    }
    push_decoded(text, septets)
}

/// Whether each septet shows the character of its own number. All are looked at, with no branch: that is a few vector
/// steps.
fn are_plain(septets: &[u8]) -> bool
    ensures { result ≡ list_all is_plain septets.now }
{
    let mut are_plain = true;
    for septet in septets {
        are_plain &= is_plain(*septet);
    }
    are_plain
}

/// Whether a septet is one of those that show the characters of their own numbers.
pub fn is_plain(septet: u8) -> bool
    ensures { result ≡ is_plain septet }
{
    (septet < 128)
        & (is_within(septet, 0x61, 0x7A)
            | is_within(septet, 0x20, 0x23)
            | is_within(septet, 0x41, 0x5A)
            | is_within(septet, 0x25, 0x3F)
            | (septet == b'\n')
            | (septet == CR))
}

/// Whether a septet is in a range.
fn is_within(septet: u8, least: u8, most: u8) -> bool
    ensures { result ≡ (nat_le least septet && nat_le septet most) }
{
    (least <= septet) & (septet <= most)
}

/// Puts the text of septets behind a text, one character after another.
fn push_decoded(text: &mut String, septets: &[u8]) -> Result<(), Refused>
    ensures pushed { OnOk result (string_bytes text.new
        ≡ string_bytes text.old ++ encode_utf8_all (text_of_septets septets.now)) }
    ensures refused { OnErr result (PutsFront (string_bytes text.old) (string_bytes text.new)
        (encode_utf8_all (text_of_septets septets.now))) }
{
    let mut escaped = false;
    for septet in septets {
        if escaped {
            text.push(decode_ext(*septet))?;
            escaped = false;
        } else if *septet == ESCAPE {
            escaped = true;
        } else {
            text.push(decode_one(*septet))?;
        }
    }
    if escaped {
        text.push(' ')?;
    }
    Ok(())
}

/// Puts the text of UCS-2 units behind a text.
fn push_units(text: &mut String, units: &[u16]) -> Result<(), Refused>
    ensures pushed { OnOk result (string_bytes text.new
        ≡ string_bytes text.old ++ encode_utf8_all (map character_of_unit units.now)) }
    ensures refused { OnErr result (PutsFront (string_bytes text.old) (string_bytes text.new)
        (encode_utf8_all (map character_of_unit units.now))) }
{
    for unit in units {
        text.push(char_of(*unit))?;
    }
    Ok(())
}
