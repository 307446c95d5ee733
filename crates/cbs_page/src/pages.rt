//! The pages of codes: each takes all that it can, and an escape pair is never split.

ghost use Rattle.std.specs.Prelude.{◌≡◌, ◌≢◌, ℕ, ◌<◌, ◌≤◌, All, List, [], length, IfErr, IfOk};
ghost use Rattle.std.specs.List.{flat_map};
ghost use Rattle.cbs_page.specs.PagingSteps.{HoldInFew, HoldText, IsPagesFault, TakesPages, page_end};
ghost use Rattle.cbs_page.specs.Text.{codes_of, IsContentOf};
ghost use Rattle.cbs_page.specs.declared.coding.Alphabet.TheVariants.{Gsm, Ucs2};

use crate::coding::Dcs;
use crate::content::Content;
use crate::paging::{MAX_PAGES, Paged, TextFault};
use crate::spelling::ESCAPE;
use arrayvec::ArrayVec;
use septets::{SEPTETS, pack};
use std::alloc::{AllocError, Global};
use ucs2_text::put_units;

/// How many units a page of UCS-2 holds (3GPP TS 23.038, clause 6.2.3).
const UNITS: usize = 41;

/// The pages of a text with these septets, in this data coding.
///
/// # Errors
///
/// More than 15 pages, and after it out of memory.
pub fn paged_septets(alloc: Global, septets: &[u8], dcs: Dcs) -> Result<Paged, TextFault>
    requires { All (λ septet. septet < 128) septets.now }
    ensures dcs { IfOk result (λ paged. paged.dcs.0 ≡ dcs.0) }
    ensures held { IfOk result (λ paged. (text : List ℕ) → text ≢ [] → flat_map (codes_of Gsm) text ≡ septets.now
        → HoldInFew Gsm text paged.pages.items) }
    ensures fault { IfErr result (λ fault. (text : List ℕ) → text ≢ [] → flat_map (codes_of Gsm) text ≡ septets.now
        → IsPagesFault Gsm text fault) }
{
    if count_of_septets(septets) > MAX_PAGES {
        return Err(TextFault::TooManyPages);
    }
    match contents_of_septets(alloc, septets) {
        Ok(pages) => Ok(Paged { dcs, pages }),
        Err(_) => Err(TextFault::Refused),
    }
}

/// How many pages these septets take.
fn count_of_septets(septets: &[u8]) -> usize
    ensures { (text : List ℕ) → text ≢ [] → flat_map (codes_of Gsm) text ≡ septets.now → TakesPages Gsm text result }
{
    let mut pages = 1;
    let mut rest = septets;
    while rest.len() > SEPTETS {
        let (_piece, after) = rest.split_at(septets_of_page(rest));
        pages += 1;
        rest = after;
    }
    pages
}

/// The contents of the pages of these septets; of none, a page that is all filling.
fn contents_of_septets(alloc: Global, septets: &[u8]) -> Result<Vec<Content>, AllocError>
    requires { All (λ septet. septet < 128) septets.now }
    ensures { IfOk result (λ pages. (text : List ℕ) → text ≢ [] → flat_map (codes_of Gsm) text ≡ septets.now
        → HoldText Gsm text pages.items) }
{
    let mut pages = Vec::with_capacity(alloc, septets.len() / SEPTETS + 1)?;
    let mut rest = septets;
    while rest.len() > SEPTETS {
        let (piece, after) = rest.split_at(septets_of_page(rest));
        pages.push(content_of_septets(piece))?;
        rest = after;
    }
    pages.push(content_of_septets(rest))?;
    Ok(pages)
}

/// How many septets the first page takes of more than fit: an escape and its septet stand on one page.
fn septets_of_page(septets: &[u8]) -> usize
    requires { 93 < length septets.now }
    ensures value { result ≡ page_end Gsm septets.now }
    ensures bounds { (92 ≤ result) × (result ≤ 93) }
{
    if septets[SEPTETS - 1] == ESCAPE {
        SEPTETS - 1
    } else {
        SEPTETS
    }
}

/// The content of a page that holds these septets.
fn content_of_septets(septets: &[u8]) -> Content
    requires room { length septets.now ≤ 93 }
    requires small { All (λ septet. septet < 128) septets.now }
    ensures { IsContentOf Gsm septets.now result }
{
    let mut taken = ArrayVec::new();
    let _fits = taken.try_extend_from_slice(septets);
    Content {
        used: ((7 * septets.len() + 7) / 8) as u8,
        octets: pack(&taken),
    }
}

/// The pages of a text with these units.
///
/// # Errors
///
/// More than 15 pages, and after it out of memory.
pub fn paged_units(alloc: Global, units: &[u16]) -> Result<Paged, TextFault>
    ensures dcs { IfOk result (λ paged. paged.dcs.0 ≡ 72) }
    ensures held { IfOk result (λ paged. (text : List ℕ) → text ≢ [] → flat_map (codes_of Ucs2) text ≡ units.now
        → HoldInFew Ucs2 text paged.pages.items) }
    ensures fault { IfErr result (λ fault. (text : List ℕ) → text ≢ [] → flat_map (codes_of Ucs2) text ≡ units.now
        → IsPagesFault Ucs2 text fault) }
{
    if count_of_units(units) > MAX_PAGES {
        return Err(TextFault::TooManyPages);
    }
    match contents_of_units(alloc, units) {
        Ok(pages) => Ok(Paged {
            dcs: Dcs::UCS2,
            pages,
        }),
        Err(_) => Err(TextFault::Refused),
    }
}

/// How many pages these units take.
fn count_of_units(units: &[u16]) -> usize
    ensures { (text : List ℕ) → text ≢ [] → flat_map (codes_of Ucs2) text ≡ units.now → TakesPages Ucs2 text result }
{
    let mut pages = 1;
    let mut rest = units;
    while rest.len() > UNITS {
        let (_piece, after) = rest.split_at(UNITS);
        pages += 1;
        rest = after;
    }
    pages
}

/// The contents of the pages of these units; of none, a page that is all filling.
fn contents_of_units(alloc: Global, units: &[u16]) -> Result<Vec<Content>, AllocError>
    ensures { IfOk result (λ pages. (text : List ℕ) → text ≢ [] → flat_map (codes_of Ucs2) text ≡ units.now
        → HoldText Ucs2 text pages.items) }
{
    let mut pages = Vec::with_capacity(alloc, units.len() / UNITS + 1)?;
    let mut rest = units;
    while rest.len() > UNITS {
        let (piece, after) = rest.split_at(UNITS);
        pages.push(content_of_units(piece))?;
        rest = after;
    }
    pages.push(content_of_units(rest))?;
    Ok(pages)
}

/// The content of a page that holds these units.
fn content_of_units(units: &[u16]) -> Content
    requires { length units.now ≤ 41 }
    ensures { IsContentOf Ucs2 units.now result }
{
    let mut taken = ArrayVec::new();
    let _fits = taken.try_extend_from_slice(units);
    Content {
        used: (2 * units.len()) as u8,
        octets: put_units(&taken),
    }
}
