//! A text to its pages (3GPP TS 23.041, clause 9.4.1, and TS 23.038, clauses 6.1.2.2 and 6.2).

ghost use Rattle.std.specs.Prelude.{◌≡◌, ◌≢◌, ◌≤◌, drop, length, not, position, is_some, take};
ghost use Rattle.std.specs.Str.{chars};
ghost use Rattle.cbs_page.specs.Text.{max_pages};
ghost use Rattle.gsm_alphabet.specs.Alphabet.{code_of};
ghost use Rattle.warnc_c.specs.Calls.{IsFaultNumber, IsFirstUcs2, IsPaginated, KeepsRest, octets_of, used_of};

use crate::status;
use cbs_page::{Content, MAX_PAGES, Paged, TextFault, paginate};
use gsm_alphabet::encode_char;
use std::alloc::Global;
use std::str;

/// The pages of a text.
#[repr(C)]
pub struct Pages {
    /// What the pages hold, page 1 first.
    pub octets: [[u8; 82]; MAX_PAGES],
    /// How many octets of each page its text takes, 1 to 82.
    pub used: [u8; MAX_PAGES],
    /// How many pages there are, 1 to 15.
    pub count: u8,
    /// Their data coding (3GPP TS 23.038, clause 5).
    pub coding: u8,
}

/// Cuts a text in UTF-8 into the pages that carry it, in a language that is named by an ISO 639 code or `und`. Of the
/// room for pages the first `count` are written.
///
/// The answer is [`status::OK`]; or, the first of these that applies, [`status::UTF8`], [`status::LANGUAGE`],
/// [`status::EMPTY`], [`status::CHARACTER`], before which `place` characters stand, [`status::PAGES`], or
/// [`status::MEMORY`].
#[unsafe(no_mangle)]
pub extern "C" fn warnc_paginate(
    alloc: Global,
    text: &[u8],
    language: &[u8],
    pages: &mut Pages,
    place: &mut usize,
) -> u32
    ensures answer { IsPaginated language.now text.now result place.new pages.new }
    ensures pages_stay { result ≢ 0 → pages.new ≡ pages.old }
    ensures rest_stays { result ≡ 0 → KeepsRest pages.new.count pages.old pages.new }
    ensures place_stays { result ≢ 3 → place.new ≡ place.old }
{
    let Ok(text) = str::from_utf8(text) else {
        return status::UTF8;
    };
    let Ok(language) = str::from_utf8(language) else {
        return status::LANGUAGE;
    };
    match paginate(alloc, text, language) {
        Ok(paged) => {
            put_pages(&paged, pages);
            status::OK
        }
        Err(fault) => fault_number(fault, place),
    }
}

/// The number of a fault.
fn fault_number(fault: TextFault, place: &mut usize) -> u32
    ensures number { IsFaultNumber fault result place.new }
    ensures stays { result ≢ 3 → place.new ≡ place.old }
    ensures fails { result ≢ 0 }
{
    match fault {
        TextFault::BadLanguage => status::LANGUAGE,
        TextFault::Empty => status::EMPTY,
        TextFault::BadCharacter { place: at } => {
            *place = at;
            status::CHARACTER
        }
        TextFault::TooManyPages => status::PAGES,
        TextFault::Refused => status::MEMORY,
    }
}

/// Puts the pages of a text where C has room for them.
fn put_pages(paged: &Paged, pages: &mut Pages)
    requires { length paged.now.pages.items ≤ max_pages }
    ensures coding { pages.new.coding ≡ paged.now.dcs.0 }
    ensures count { pages.new.count ≡ length paged.now.pages.items }
    ensures octets { take (length paged.now.pages.items) pages.new.octets ≡ octets_of paged.now.pages.items }
    ensures used { take (length paged.now.pages.items) pages.new.used ≡ used_of paged.now.pages.items }
    ensures rest { KeepsRest (length paged.now.pages.items) pages.old pages.new }
{
    put_octets(&mut pages.octets, &paged.pages);
    put_used(&mut pages.used, &paged.pages);
    pages.count = paged.pages.len() as u8;
    pages.coding = paged.dcs.0;
}

/// Puts contents over the first ones.
fn put_octets(octets: &mut [[u8; 82]], contents: &[Content])
    requires { length contents.now ≤ length octets.old }
    ensures put { take (length contents.now) octets.new ≡ octets_of contents.now }
    ensures rest { drop (length contents.now) octets.new ≡ drop (length contents.now) octets.old }
{
    for (place, content) in contents.iter().enumerate() {
        octets[place] = content.octets;
    }
}

/// Puts how many octets contents take over the first such numbers.
fn put_used(used: &mut [u8], contents: &[Content])
    requires { length contents.now ≤ length used.old }
    ensures put { take (length contents.now) used.new ≡ used_of contents.now }
    ensures rest { drop (length contents.now) used.new ≡ drop (length contents.now) used.old }
{
    for (place, content) in contents.iter().enumerate() {
        used[place] = content.used;
    }
}

/// Finds the first character that GSM 7-bit lacks, for which the whole text is sent in UCS-2 (3GPP TS 23.038, clauses
/// 6.2.1 and 6.2.3): before it stand `place` characters.
///
/// The answer is [`status::OK`]; [`status::GSM`] if there is none; [`status::UTF8`].
#[unsafe(no_mangle)]
pub extern "C" fn warnc_first_ucs2(text: &[u8], place: &mut usize) -> u32
    ensures answer { IsFirstUcs2 text.now result place.new }
    ensures stays { result ≢ 0 → place.new ≡ place.old }
{
    let Ok(text) = str::from_utf8(text) else {
        return status::UTF8;
    };
    let Some(found) = first_ucs2(text) else {
        return status::GSM;
    };
    *place = found;
    status::OK
}

/// How many characters stand before the first that GSM 7-bit lacks.
fn first_ucs2(text: &str) -> Option<usize>
    ensures { result ≡ position (λ character. not (is_some (code_of character))) (chars text.now) }
{
    text.chars().position(forces_ucs2)
}

/// Whether GSM 7-bit lacks a character.
fn forces_ucs2(character: char) -> bool
    ensures { result ≡ not (is_some (code_of character)) }
{
    encode_char(character).is_none()
}
