//! What the blocks of one sender carry, as they come.

ghost use Rattle.std.specs.Prelude.{◌≡◌, ◌+◌, ◌*◌, ◌<◌, ◌≤◌, ◌^◌, ◌++◌, ◌∷◌, [], ℕ, List, Option, length, map, take};
ghost use Rattle.std.specs.Prelude.{unwrap_or, IfErr, IfOk, MatchBool, OnOk};
ghost use Rattle.std.specs.Option.{option_to_list};
ghost use Rattle.cbch_blocks.specs.Blocks.{idle_block};
ghost use Rattle.handset.specs.KeepingSteps.{page_ended, under_way_with};
ghost use Rattle.handset.specs.Reception.{block_type, page_types};
ghost use Rattle.gsmtap.specs.Carried.{summary_in, summary_of};
ghost use Rattle.gsmtap.specs.CarriedSteps.{gathered_by};
ghost use Rattle.gsmtap.specs.Listening.{AreCounted, HasHeard, IsKept, IsKeptOfSome, IsListening, IsListeningToSome};
ghost use Rattle.gsmtap.specs.Listening.{IsUnheard, identifiers_of, settled};
ghost use Rattle.gsmtap.specs.TapeOfCapture.{nothing_known};
ghost use Rattle.gsmtap.specs.TapeSteps.{last_slot};
ghost use Rattle.gsmtap.specs.Track.{Known, put};

use crate::carried::{Carried, note};
use crate::fault::AirFaultKind;
use crate::tap::Sent;
use crate::track::{Track, followed, latest, place_in, slot_in};
use cbch_blocks::idle;
use cbs_page::PageView;
use handset::page_in_front;
use std::alloc::{AllocError, Global};

/// How many places a tape has at most: four for each of 65,535 slots.
const PLACES: u64 = 262_140;

/// The type of the first block of a page (3GPP TS 44.012), of the second and of the third.
const FIRST: u8 = 0x20;

const SECOND: u8 = 0x21;

const THIRD: u8 = 0x22;

/// The pages in blocks that came one after the other. Of the blocks those of a page that isn't whole are kept.
#[derive(Drop)]
pub struct PageCount {
    kept: Vec<[u8; 23]>,
    pages: usize,
    identifiers: Vec<u16>,
}

impl PageCount {
    /// No block.
    fn new(alloc: Global) -> PageCount
        ensures { AreCounted result [] }
    {
        PageCount {
            kept: Vec::new(alloc),
            pages: 0,
            identifiers: Vec::new(alloc),
        }
    }

    /// Counts the page that one more block ends, if it ends one.
    fn push(&mut self, block: &[u8; 23]) -> Result<(), AllocError>
        requires { (blocks : List (List ℕ)) × AreCounted self.old blocks × (length blocks < 2 ^ 63) }
        ensures { OnOk result ((blocks : List (List ℕ)) → AreCounted self.old blocks →
            AreCounted self.new (blocks ++ block.now ∷ [])) }
    {
        let page = self.ended_by(block);
        self.count(page)?;
        go_on(&mut self.kept, block)
    }

    /// The page that one more block ends, if it ends one.
    fn ended_by(&self, block: &[u8; 23]) -> Option<PageView>
        requires few { length self.now.kept.items ≤ 3 }
        requires begun { map block_type self.now.kept.items ≡ take (length self.now.kept.items) page_types }
        ensures { option_to_list result ≡ page_ended self.now.kept.items block.now }
    {
        page_ended(&self.kept, block)
    }

    /// Counts a page, if there is one.
    fn count(&mut self, page: Option<PageView>) -> Result<(), AllocError>
        requires { self.old.pages < 2 ^ 63 }
        ensures pages { OnOk result (self.new.pages ≡ self.old.pages + length (option_to_list page)) }
        ensures identifiers { OnOk result (self.new.identifiers.items
            ≡ gathered_by self.old.identifiers.items (identifiers_of (option_to_list page))) }
        ensures kept { self.new.kept ≡ self.old.kept }
    {
        match page {
            Some(page) => {
                self.pages += 1;
                note(&mut self.identifiers, page.id)
            }
            None => Ok(()),
        }
    }

    /// The same of a place of a tape, which is idle where no block is known.
    fn push_place(&mut self, block: &Option<[u8; 23]>) -> Result<(), AllocError>
        requires { (blocks : List (List ℕ)) × AreCounted self.old blocks × (length blocks < 2 ^ 63) }
        ensures { OnOk result ((blocks : List (List ℕ)) → AreCounted self.old blocks →
            AreCounted self.new (blocks ++ unwrap_or block.now idle_block ∷ [])) }
    {
        let [idle, ..] = idle();
        match block {
            Some(octets) => self.push(octets),
            None => self.push(&idle),
        }
    }
}

/// The page that a block ends, after the blocks of one that isn't whole.
fn page_ended(kept: &[[u8; 23]], block: &[u8; 23]) -> Option<PageView>
    requires few { length kept.now ≤ 3 }
    requires begun { map block_type kept.now ≡ take (length kept.now) page_types }
    ensures { option_to_list result ≡ page_ended kept.now block.now }
{
    match kept {
        [first, second, third] => page_in_front(&[*first, *second, *third, *block]),
        _ => None,
    }
}

/// The blocks of a page that isn't whole, after one block more.
fn go_on(kept: &mut Vec<[u8; 23]>, block: &[u8; 23]) -> Result<(), AllocError>
    ensures { OnOk result (kept.new.items ≡ under_way_with kept.old.items block.now) }
{
    match (block[0], kept.len()) {
        (FIRST, _) => kept.clear(),
        (SECOND, 1) => {}
        (THIRD, 2) => {}
        _ => {
            kept.clear();
            return Ok(());
        }
    }
    kept.push(*block)?;
    Ok(())
}

/// What a sender's blocks carry that came so far. Of the tape that they make its latest two slots are kept, since a
/// block comes one slot back at most.
#[derive(Drop)]
pub struct Listener {
    track: Option<Track>,
    count: PageCount,
    recent: [Option<[u8; 23]>; 8],
    end: u64,
}

impl Listener {
    /// No block came.
    pub fn new(alloc: Global) -> Listener
        ensures { IsListening (nothing_known 65535) result }
    {
        Listener {
            track: None,
            count: PageCount::new(alloc),
            recent: [None; 8],
            end: 0,
        }
    }

    /// Takes one block more.
    ///
    /// # Errors
    ///
    /// Returns the fault of the block, or [`AirFaultKind::Refused`].
    pub fn hear(&mut self, sent: &Sent) -> Result<(), AirFaultKind>
        requires { IsListeningToSome self.old }
        ensures heard { OnOk result (HasHeard sent.now self.old self.new) }
        ensures fault { IfErr result (IsUnheard sent.now self.old) }
    {
        let place = place_in(sent.frame);
        if place >= 4 {
            return Ok(());
        }
        let Some(there) = followed(self.track, slot_in(sent.frame)) else {
            return Err(AirFaultKind::StepsBack);
        };
        let track = latest(self.track, there);
        let slot = settled(Some(track));
        let moved = slot - settled(self.track);
        let Ok(()) = self.settle(moved) else {
            return Err(AirFaultKind::Refused);
        };
        self.track = Some(track);
        if self.put(slot, 4 * there.slot + u64::from(place), &sent.block) {
            Ok(())
        } else {
            Err(AirFaultKind::Differs)
        }
    }

    /// Puts a block at a place of the tape, where the slots from this one on are kept, and returns whether it may stand
    /// there.
    fn put(&mut self, slot: u64, place: u64, block: &[u8; 23]) -> bool
        requires few { slot < 2 ^ 61 }
        requires from { 4 * slot ≤ place }
        requires to { place < 4 * slot + 8 }
        requires eight { length self.old.recent ≡ 8 }
        ensures put { (blocks : List (Option (List ℕ))) → length blocks ≡ 262140 → IsKept blocks slot self.old →
            MatchBool result ((next : List (Option (List ℕ))) × (put blocks place block.now ≡ Some next)
            × IsKept next slot self.new) (put blocks place block.now ≡ None) }
        ensures track { self.new.track ≡ self.old.track }
    {
        if place >= PLACES {
            return true;
        }
        let index = (place - 4 * slot) as usize;
        match self.recent[index] {
            None => {
                self.recent[index] = Some(*block);
                self.end = self.end.max(place + 1);
                true
            }
            Some(known) => known == *block,
        }
    }

    /// Moves on by so many slots, in which no block can come any more.
    fn settle(&mut self, slots: u64) -> Result<(), AllocError>
        requires some { IsKeptOfSome (2 ^ 60) self.old }
        ensures kept { OnOk result ((blocks : List (Option (List ℕ))) (slot : ℕ) → IsKept blocks slot self.old →
            IsKept blocks (slot + slots) self.new) }
        ensures track { self.new.track ≡ self.old.track }
    {
        // what follows the two slots that are kept is idle: it makes no difference how many slots there are
        let steps = slots.min(3);
        let mut moved = 0;
        'slots: while moved < steps {
            self.settle_slot()?;
            moved += 1;
        }
        Ok(())
    }

    /// Moves on by a slot.
    fn settle_slot(&mut self) -> Result<(), AllocError>
        requires { IsKeptOfSome (2 ^ 61) self.old }
        ensures kept { OnOk result ((blocks : List (Option (List ℕ))) (slot : ℕ) → IsKept blocks slot self.old →
            IsKept blocks (slot + 1) self.new) }
        ensures track { self.new.track ≡ self.old.track }
        ensures end { self.new.end ≡ self.old.end }
    {
        let [first, second, third, fourth, fifth, sixth, seventh, eighth] = self.recent;
        self.count.push_place(&first)?;
        self.count.push_place(&second)?;
        self.count.push_place(&third)?;
        self.count.push_place(&fourth)?;
        self.recent = [fifth, sixth, seventh, eighth, None, None, None, None];
        Ok(())
    }

    /// What the blocks carry that came.
    ///
    /// # Errors
    ///
    /// Returns the error of the memory.
    pub fn carried(mut self) -> Result<Carried, AllocError>
        requires { IsListeningToSome self }
        ensures { IfOk result (λ carried. (known : Known) → IsListening known self →
            summary_of carried ≡ summary_in known.blocks) }
    {
        self.settle_slot()?;
        self.settle_slot()?;
        Ok(Carried {
            slots: ((self.end + 3) / 4) as usize,
            pages: self.count.pages,
            identifiers: self.count.identifiers,
        })
    }
}

/// The slot before which no block can come any more.
fn settled(track: Option<Track>) -> u64
    ensures { result ≡ settled track }
{
    match track {
        None => 0,
        Some(track) => track.slot.saturating_sub(1),
    }
}
