//! Tapes as lines make and change them, slot by slot.

ghost use Rattle.std.specs.Prelude.{◌≤◌};

use bsc_table::CellRecord;
use cbch_blocks::{cut, idle, tape_of};
use cbs_page::{Serial, page_bytes, paginate};
use std::alloc::Global;
use std::test::Fail;
use test_support::Words;

/// The blocks of a tape.
#[derive(Drop)]
pub struct Blocks {
    alloc: Global,
    pub list: Vec<[u8; 23]>,
}

impl Blocks {
    /// No blocks.
    pub fn new(alloc: Global) -> Blocks {
        Blocks {
            alloc,
            list: Vec::new(alloc),
        }
    }

    /// The blocks of a run's own tape.
    fn copy(&mut self, run: &CellRecord) -> Result<(), Fail> {
        self.list.clear();
        let tape = tape_of(self.alloc, run)?;
        let (blocks, _) = tape.bytes().get(8..).ok_or("no header")?.as_chunks::<23>();
        self.list.extend_from_slice(blocks)?;
        Ok(())
    }

    /// Appends idle slots.
    fn idle(&mut self, slots: u16) -> Result<(), Fail> {
        for _ in 0..slots {
            self.list.extend_from_slice(idle().as_slice())?;
        }
        Ok(())
    }

    /// The blocks of the page that words say: `ID SERIAL LANGUAGE NUMBER TOTAL TEXT`.
    fn page(&self, words: &mut Words) -> Result<[[u8; 23]; 4], Fail> {
        let (id, serial) = (words.number16()?, words.hex16()?);
        let language = words.word();
        let (number, total) = (words.number16()?, words.number16()?);
        let paged = paginate(self.alloc, words.word(), language)?;
        let content = match paged.pages.get(0) {
            Some(content) => content.octets,
            None => return Err(Fail::new("no page")),
        };
        if number == 0 || number > total || total > 15 {
            return Err(Fail::new("the page's number"));
        }
        let serial = Serial::of(serial);
        let octets = page_bytes(id, serial, paged.dcs, number as u8, total as u8, &content);
        Ok(cut(&octets))
    }

    /// Appends a slot with a page.
    fn send(&mut self, words: &mut Words) -> Result<(), Fail> {
        let blocks = self.page(words)?;
        self.list.extend_from_slice(blocks.as_slice())?;
        Ok(())
    }

    /// Appends a block of a type that no page has.
    fn block(&mut self) -> Result<(), Fail> {
        let [block, _, _, _] = idle();
        self.list.push(block)?;
        Ok(())
    }

    /// Changes an octet: `BLOCK PLACE OCTET`, the last in hexadecimal.
    fn octet(&mut self, words: &mut Words) -> Result<(), Fail> {
        let (block, place) = (words.number16()?, words.number16()?);
        let value = (words.hex16()? & 0xFF) as u8;
        let block = self
            .list
            .get_mut(usize::from(block))
            .ok_or("no such block")?;
        *block.get_mut(usize::from(place)).ok_or("no such octet")? = value;
        Ok(())
    }

    /// The blocks of a slot.
    fn slot(&self, slot: u16) -> Result<[[u8; 23]; 4], Fail> {
        let first = 4 * usize::from(slot);
        let mut blocks = idle();
        for (place, block) in blocks.iter_mut().enumerate() {
            *block = *self.list.get(first + place).ok_or("no such slot")?;
        }
        Ok(blocks)
    }

    /// Puts blocks into a slot.
    fn put(&mut self, slot: u16, blocks: [[u8; 23]; 4]) {
        for (place, block) in blocks.iter().enumerate() {
            if let Some(old) = self.list.get_mut(4 * usize::from(slot) + place) {
                *old = *block;
            }
        }
    }

    /// Exchanges two slots.
    fn swap(&mut self, words: &mut Words) -> Result<(), Fail> {
        let (one, other) = (words.number16()?, words.number16()?);
        let (first, second) = (self.slot(one)?, self.slot(other)?);
        self.put(one, second);
        self.put(other, first);
        Ok(())
    }

    /// Makes a slot idle.
    fn silence(&mut self, words: &mut Words) -> Result<(), Fail> {
        let slot = words.number16()?;
        self.put(slot, idle());
        Ok(())
    }

    /// Changes the tape; false if the action isn't one that does.
    pub fn change(
        &mut self,
        action: &str,
        run: Option<&CellRecord>,
        words: &mut Words,
    ) -> Result<bool, Fail> {
        match action {
            "tape" => self.copy(run.ok_or("no run")?)?,
            "blank" => self.list.clear(),
            "idle" => self.idle(words.number16()?)?,
            "send" => self.send(words)?,
            "block" => self.block()?,
            "octet" => self.octet(words)?,
            "swap" => self.swap(words)?,
            "silence" => self.silence(words)?,
            _ => return Ok(false),
        }
        Ok(true)
    }
}
