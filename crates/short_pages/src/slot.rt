//! Slots with short pages (3GPP TS 44.012, 3.3).

ghost use Rattle.std.specs.Prelude.{◌≡◌, ◌≤◌, ◌==◌, ◌*◌, None, Some, length, option_map, take, if◌then◌else◌, IfOk};
ghost use Rattle.handset.specs.Reception.{page_octets};
ghost use Rattle.short_pages.specs.Slots.{completed, completed_slot, page_of_slot, short_page};

use crate::page::whole_page;
use arrayvec::ArrayVec;
use cbch_blocks::cut;
use std::alloc::{AllocError, Global};

/// The type of a block that is a page alone: number 0, and the last.
const ALONE: u8 = 0x30;

/// The type of the first block of a page of several.
const FIRST: u8 = 0x20;

/// The type of the second block, which more follow.
const SECOND: u8 = 0x21;

/// The type of the second block of a page of two.
const LAST_OF_TWO: u8 = 0x31;

/// The type of the third block of a page of three.
const LAST_OF_THREE: u8 = 0x32;

/// The type of the third block of a page of four.
const THIRD: u8 = 0x22;

/// The type of its fourth.
const LAST_OF_FOUR: u8 = 0x33;

/// The octets that came of the page in a slot, of 22 for each of its blocks; `None` if its blocks are no page's (3GPP
/// TS 44.012, 3.3).
pub fn page_of_slot(slot: &[[u8; 23]; 4]) -> Option<ArrayVec<u8, 88>>
    ensures { option_map (λ octets. octets.items) result ≡ page_of_slot slot.now }
{
    let count = block_count(slot);
    if count == 0 {
        return None;
    }
    Some(octets_of(&slot[..count]))
}

/// The four blocks of a slot. A page of one to three blocks gets those of the page of four that shows the characters
/// that came whole (3GPP TS 44.012, 3.3); any other slot keeps its own.
pub fn completed_slot(slot: &[[u8; 23]; 4]) -> [[u8; 23]; 4]
    ensures { result ≡ completed_slot slot.now }
{
    let count = short_count(slot);
    if count == 0 {
        return *slot;
    }
    let came = octets_of(&slot[..count]);
    cut(&whole_page(&came))
}

/// The blocks of a tape, four for each slot, with four blocks of each page.
///
/// # Errors
///
/// Out of memory.
pub fn completed_blocks(alloc: Global, blocks: &[[u8; 23]]) -> Result<Vec<[u8; 23]>, AllocError>
    ensures { IfOk result (λ whole. whole.items ≡ completed blocks.now) }
{
    let (slots, rest) = blocks.as_chunks::<4>();
    let mut whole = Vec::with_capacity(alloc, blocks.len())?;
    for slot in slots {
        whole.extend_from_slice(&completed_slot(slot))?;
    }
    whole.extend_from_slice(rest)?;
    Ok(whole)
}

/// How many blocks the page of a slot has; 0 if there is none.
fn block_count(slot: &[[u8; 23]; 4]) -> usize
    ensures few { result ≤ 4 }
    ensures page { page_of_slot slot.now ≡ (if result == 0 then None else Some (page_octets (take result slot.now))) }
{
    let [first, second, third, fourth] = slot;
    match (first[0], second[0], third[0], fourth[0]) {
        (FIRST, SECOND, THIRD, LAST_OF_FOUR) => 4,
        _ => short_count(slot),
    }
}

/// How many blocks the short page of a slot has; 0 if there is none.
fn short_count(slot: &[[u8; 23]; 4]) -> usize
    ensures few { result ≤ 3 }
    ensures page { short_page slot.now ≡ (if result == 0 then None else Some (page_octets (take result slot.now))) }
{
    let [first, second, third, _] = slot;
    match (first[0], second[0], third[0]) {
        (ALONE, _, _) => 1,
        (FIRST, LAST_OF_TWO, _) => 2,
        (FIRST, SECOND, LAST_OF_THREE) => 3,
        _ => 0,
    }
}

/// The octets that some of a slot's blocks carry: all but the type of each.
fn octets_of(blocks: &[[u8; 23]]) -> ArrayVec<u8, 88>
    requires { length blocks.now ≤ 4 }
    ensures octets { result.items ≡ page_octets blocks.now }
    ensures long { length result.items ≡ 22 * length blocks.now }
{
    let mut octets = ArrayVec::new();
    for block in blocks {
        let _ = octets.try_extend_from_slice(&block[1..]);
    }
    octets
}
