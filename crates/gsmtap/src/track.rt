//! Where blocks stand on a tape, by the numbers of their frames.

ghost use Rattle.std.specs.Prelude.{◌≡◌, ◌+◌, ◌*◌, ◌<◌, ◌≤◌, ◌^◌, length, replicate, IfErr, IfOk, IfSome, OnOk};
ghost use Rattle.std.specs.Prelude.{Ok, Err, Some, None, MatchBool, vec_len};
ghost use Rattle.gsmtap.specs.TapeOfCapture.{after_sent, nothing_known};
ghost use Rattle.gsmtap.specs.TapeSteps.{IsBlockKind, known_of, last_slot};
ghost use Rattle.gsmtap.specs.Track.{ahead, followed, latest, nearest, place_in, put, slot_of_frame, with_block};

use crate::fault::AirFaultKind;
use crate::tap::Sent;
use std::alloc::{AllocError, Global};

/// How many slots a hyperframe has.
const SLOTS: u32 = 6656;

/// How many 51-multiframes a hyperframe has.
const MULTIFRAMES: u32 = 53_248;

/// Where blocks stand: the latest slot in which one was placed, or that of one.
#[derive(Clone, Copy, Debug, PartialEq, Eq)]
pub struct Track {
    /// The slot of the hyperframe that is slot 0 of the tape.
    pub first: u32,
    /// The slot of the tape.
    pub slot: u64,
}

/// The blocks of a tape that are known, and the latest slot of one.
#[derive(Drop)]
pub struct Air {
    /// The latest slot in which a block was placed, if one was.
    pub track: Option<Track>,
    /// Four places for each slot.
    pub blocks: Vec<Option<[u8; 23]>>,
}

impl Air {
    /// No block of a tape of this many slots.
    pub fn new(alloc: Global, slots: u16) -> Result<Air, AllocError>
        ensures { IfOk result (λ air. known_of air ≡ nothing_known slots) }
    {
        let blocks = vec![in alloc; None; 4 * usize::from(slots)]?;
        Ok(Air {
            track: None,
            blocks,
        })
    }

    /// Places one block more.
    #[tactic(auto, unfolding(crate::specs::Track::with_block))]
    pub fn place(&mut self, sent: &Sent) -> Result<(), AirFaultKind>
        requires { last_slot self.old.track < 2 ^ 60 }
        ensures placed { OnOk result (with_block (known_of self.old) sent.now ≡ Ok (known_of self.new)) }
        ensures long { length self.new.blocks.items ≡ length self.old.blocks.items }
        ensures bound { OnOk result (last_slot self.new.track ≤ last_slot self.old.track + 3328) }
        ensures fault { IfErr result (λ kind. with_block (known_of self.old) sent.now ≡ Err kind) }
        ensures kinds { IfErr result IsBlockKind }
    {
        let place = place_in(sent.frame);
        if place >= 4 {
            return Ok(());
        }
        let Some(there) = followed(self.track, slot_in(sent.frame)) else {
            return Err(AirFaultKind::StepsBack);
        };
        if !put(
            &mut self.blocks,
            4 * there.slot + u64::from(place),
            &sent.block,
        ) {
            return Err(AirFaultKind::Differs);
        }
        self.track = Some(latest(self.track, there));
        Ok(())
    }
}

/// The slot of a frame within the hyperframe.
pub fn slot_in(frame: u32) -> u32
    ensures slot { result ≡ slot_of_frame frame }
    ensures bound { result < 6656 }
{
    frame / 51 % MULTIFRAMES / 8
}

/// The 51-multiframe of a frame within its slot.
pub fn place_in(frame: u32) -> u32
    ensures { result ≡ place_in frame }
{
    frame / 51 % MULTIFRAMES % 8
}

/// Where a block stands that is in this slot of the hyperframe.
#[tactic(auto, unfolding(crate::specs::Track::followed))]
pub fn followed(track: Option<Track>, there: u32) -> Option<Track>
    requires few { last_slot track < 2 ^ 62 }
    requires there { there < 6656 }
    ensures followed { result ≡ followed track there }
    ensures bound { last_slot result ≤ last_slot track + 3328 }
{
    match track {
        None => Some(Track {
            first: there,
            slot: 0,
        }),
        Some(track) => match nearest(track, there) {
            Some(slot) => Some(Track {
                first: track.first,
                slot,
            }),
            None => None,
        },
    }
}

/// The latest slot of a track, after a block that stands there.
pub fn latest(before: Option<Track>, there: Track) -> Track
    ensures { result ≡ latest before there }
{
    match before {
        None => there,
        Some(before) => Track {
            first: there.first,
            slot: before.slot.max(there.slot),
        },
    }
}

/// The slot of a track that is nearest to its latest one and is this slot of the hyperframe.
fn nearest(track: Track, there: u32) -> Option<u64>
    requires few { track.slot < 2 ^ 62 }
    requires there { there < 6656 }
    ensures slot { result ≡ nearest track there }
    ensures bound { IfSome result (λ slot. slot ≤ track.slot + 3328) }
{
    let here = ((u64::from(track.first) + track.slot) % u64::from(SLOTS)) as u32;
    let distance = ahead(here, there);
    if distance < SLOTS / 2 {
        Some(track.slot + u64::from(distance))
    } else if distance == SLOTS - 1 && track.slot >= 1 {
        Some(track.slot - 1)
    } else {
        None
    }
}

/// How far a slot of the hyperframe lies ahead of another.
fn ahead(here: u32, there: u32) -> u32
    requires here { here < 6656 }
    requires there { there < 6656 }
    ensures { result ≡ ahead here there }
{
    (there + SLOTS - here) % SLOTS
}

/// Puts a block at a place of a tape, and returns whether it may stand there.
#[tactic(auto, unfolding(crate::specs::Track::put))]
fn put(blocks: &mut Vec<Option<[u8; 23]>>, place: u64, block: &[u8; 23]) -> bool
    ensures put { MatchBool result (put blocks.old.items place block.now ≡ Some blocks.new.items)
        (put blocks.old.items place block.now ≡ None) }
    ensures long { length blocks.new.items ≡ length blocks.old.items }
{
    if place >= blocks.len() as u64 {
        return true;
    }
    let place = place as usize;
    match blocks[place] {
        None => {
            blocks[place] = Some(*block);
            true
        }
        Some(known) => known == *block,
    }
}
