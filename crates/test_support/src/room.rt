//! Memory for one call: all is taken but one room.

use crate::memory::Drought;
use std::alloc::Global;
use std::test::Fail;

/// A room of memory, and what is taken round it.
#[derive(Drop)]
pub struct Room {
    drought: Drought,
}

impl Room {
    /// How many least blocks, of 32 octets each, a room has at most.
    pub const MOST: u16 = Drought::MOST;

    /// Makes what a room needs. Nothing is taken yet.
    pub fn new(alloc: Global) -> Result<Room, Fail> {
        let drought = Drought::of_room(alloc)?;
        Ok(Room { drought })
    }

    /// Takes all memory but a room of so many least blocks.
    pub fn leave(&mut self, alloc: Global, blocks: u16) {
        self.drought.leave(blocks);
        self.drought.begin(alloc);
    }

    /// Gives all memory back.
    pub fn end(&mut self) {
        self.drought.end();
    }
}
