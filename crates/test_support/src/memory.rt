//! Scarce memory, for tests that refuse it: takes all that the process may have, so that a call can be tried with what
//! is given back. No clause stands here: contracts allow any call to be refused memory, so none can say what is left.

use crate::words::Words;
use std::alloc::Global;
use std::test::Fail;

/// The largest size that is asked for: 2^46 octets, half of what a process can name.
const LARGEST: usize = 0x4000_0000_0000;

/// Takes blocks of a size as long as there are some, and puts them into `taken` as long as that has room for them.
fn take_size(alloc: Global, size: usize, taken: &mut Vec<Vec<u8>>) {
    for _ in 0..20_000 {
        let Ok(block) = Vec::with_capacity(alloc, size) else {
            break;
        };
        let _ = taken.push(block);
    }
}

/// Takes blocks of so many sizes, of this one and its halves.
fn take_halves(alloc: Global, largest: usize, sizes: u16, taken: &mut Vec<Vec<u8>>) {
    let mut size = largest;
    for _ in 0..sizes {
        take_size(alloc, size, taken);
        size /= 2;
    }
}

/// Takes blocks of each multiple of 16 up to 2,048: small blocks that were freed are kept by their size.
fn take_small(alloc: Global, taken: &mut Vec<Vec<u8>>) {
    let mut size = 2048_usize;
    for _ in 0..128 {
        take_size(alloc, size, taken);
        size = size.saturating_sub(16);
    }
}

/// Takes all the memory that the process may have, in blocks of falling size, and puts the blocks into `taken` as long
/// as that has room for them.
pub fn take_all(alloc: Global, taken: &mut Vec<Vec<u8>>) {
    take_halves(alloc, LARGEST, 43, taken);
}

/// The memory of a process: all of it is taken but some blocks, which can be given back one after the other.
#[derive(Drop)]
pub struct Scarce {
    spare: Vec<Vec<u8>>,
    taken: Vec<Vec<u8>>,
}

impl Scarce {
    /// Makes so many spare blocks of so many octets each. Nothing else is taken yet.
    pub fn new(alloc: Global, blocks: u16, octets: usize) -> Result<Scarce, Fail> {
        let mut spare: Vec<Vec<u8>> = Vec::with_capacity(alloc, usize::from(blocks))?;
        for _ in 0..blocks {
            spare.push(Vec::with_capacity(alloc, octets)?)?;
        }
        let taken = Vec::with_capacity(alloc, 200_000)?;
        Ok(Scarce { spare, taken })
    }

    /// Takes all memory but the spare blocks.
    pub fn take(&mut self, alloc: Global) {
        take_all(alloc, &mut self.taken);
    }

    /// Gives a spare block back.
    pub fn give_block(&mut self) {
        let _ = self.spare.pop();
    }

    /// Gives all memory back but the spare blocks.
    pub fn give_all(&mut self) {
        self.taken.clear();
    }
}

/// How many octets each block has that a drought leaves. It is a small one, so that each growth of a call is refused at
/// some number of blocks: those that stand side by side make one room.
const BLOCK: usize = 24;

/// How many blocks are apart at most. Memory that was used lies in pieces, so those after them are one block.
const APART: u16 = 40;

/// How much of memory a block takes.
const WHOLE_BLOCK: usize = 32;

/// How many sizes have 2^30 octets or more.
const LARGE_SIZES: u16 = 17;

/// How many halves come after them, down to 4,096 octets.
const HALVES: u16 = 18;

/// How often a call in a drought is refused at least: its first blocks are kept apart, and too small for any growth.
const LEAST: u16 = 8;

/// How many octets the front of a room has at least. The C library keeps small blocks that were freed by their size and
/// doesn't split them, so a room is what is left of a large block once its front is taken again.
const FRONT: u16 = 4096;

/// How much of a block the C library takes for itself.
const HEAD: usize = 8;

/// Hardly any memory, for as long as one call lasts. What stands round the call has all memory, and so has the call, if
/// its step doesn't begin with `scarce`.
#[derive(Drop)]
pub struct Drought {
    left: Option<u16>,
    is_room: bool,
    spare: Vec<Vec<u8>>,
    large: Vec<Vec<u8>>,
    taken: Vec<Vec<u8>>,
}

impl Drought {
    /// How many blocks of memory are left at most.
    pub const MOST: u16 = 4000;

    /// Makes what a drought needs.
    pub fn new(alloc: Global) -> Result<Drought, Fail> {
        Ok(Drought {
            left: None,
            is_room: false,
            spare: Vec::with_capacity(alloc, usize::from(APART) + 1)?,
            large: Vec::with_capacity(alloc, 100_000)?,
            taken: Vec::with_capacity(alloc, 100_000)?,
        })
    }

    /// Makes what a drought needs that leaves a single room, 32 octets larger with each block. That is what the least
    /// growth takes, so each growth of a call is refused alone at some number of blocks, unless it fits where the call
    /// has freed memory. The number at which the call isn't refused is what it holds at most.
    pub fn of_room(alloc: Global) -> Result<Drought, Fail> {
        let mut drought = Drought::new(alloc)?;
        drought.is_room = true;
        Ok(drought)
    }

    /// Leaves so many blocks to the next call.
    pub fn leave(&mut self, blocks: u16) {
        self.left = Some(blocks);
    }

    /// The verb of a step, its first word. If that is `scarce`, so many small blocks are left to the step's call, and
    /// the verb comes after it.
    pub fn verb<'a>(&mut self, words: &mut Words<'a>, blocks: u16) -> &'a str {
        let verb = words.word();
        if verb == "scarce" {
            self.left = Some(blocks);
            return words.word();
        }
        self.left = None;
        verb
    }

    /// Makes a block that the drought leaves.
    fn make_spare(&mut self, alloc: Global, octets: usize) {
        if let Ok(block) = Vec::with_capacity(alloc, octets) {
            let _ = self.spare.push(block);
        }
    }

    /// Makes so many blocks, those after the first ones as one.
    fn make_blocks(&mut self, alloc: Global, blocks: u16) {
        for _ in 0..blocks.min(APART) {
            self.make_spare(alloc, BLOCK);
        }
        let rest = usize::from(blocks.saturating_sub(APART));
        self.make_spare(alloc, rest * WHOLE_BLOCK);
    }

    /// Takes all memory but the spare blocks.
    fn take_rest(&mut self, alloc: Global) {
        if self.large.is_empty() {
            take_halves(alloc, LARGEST, LARGE_SIZES, &mut self.large);
        }
        take_halves(alloc, LARGEST >> LARGE_SIZES, HALVES, &mut self.taken);
        take_small(alloc, &mut self.taken);
    }

    /// Takes all memory but a room of so many blocks, and returns whether it has no more: the C library may have given
    /// 16 octets more than were asked for.
    fn leave_room(&mut self, alloc: Global, blocks: u16, front: u16) -> bool {
        let room = usize::from(blocks) * WHOLE_BLOCK;
        let front = usize::from(front);
        self.make_spare(alloc, (front + room).saturating_sub(HEAD));
        self.take_rest(alloc);
        self.spare.clear();
        if let Ok(block) = Vec::with_capacity(alloc, front.saturating_sub(HEAD)) {
            let _ = self.taken.push(block);
        }
        Vec::<u8>::with_capacity(alloc, room + HEAD).is_err()
    }

    /// Begins the drought, right before the call: takes all memory but the blocks, or but the room.
    pub fn begin(&mut self, alloc: Global) {
        let Some(left) = self.left else {
            return;
        };
        if !self.is_room {
            self.make_blocks(alloc, left);
            self.take_rest(alloc);
            self.spare.clear();
            return;
        }
        let mut front = FRONT;
        for _ in 0..8 {
            if self.leave_room(alloc, left, front) {
                return;
            }
            self.taken.clear();
            front = front.saturating_add(48);
        }
    }

    /// Ends the drought, right after the call. The largest blocks stay taken, since there can be thousands: what is
    /// given back is enough for any row.
    pub fn end(&mut self) {
        self.taken.clear();
    }
}

/// Whether a text is the name of a fault that says that memory was refused, and nothing done.
pub fn is_refused(text: &str) -> bool {
    text.contains("Refused")
        || text.contains("AllocError")
        || text.starts_with("Memory { done: 0 }")
}

/// What came of a step that was refused so often before; it says so, if that is as often as each call is in a drought.
pub fn after_refusals(alloc: Global, refused: u16, found: String) -> Result<String, Fail> {
    if refused < LEAST {
        return Ok(found);
    }
    Ok(format!(in alloc; "refused; {found}")?)
}
