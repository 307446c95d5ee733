//! Pages in the blocks that carry them (3GPP TS 44.012): four blocks in a row, of types 20, 21, 22 and 33 (hex), are a
//! page.

ghost use Rattle.std.specs.Prelude.{◌≡◌, ◌≢◌, ◌↔◌, ◌++◌, ◌∷◌, [], drop, map, IsTrue};
ghost use Rattle.std.specs.Option.{option_to_list};
ghost use Rattle.handset.specs.Reception.{page_in_front, page_octets, page_types, block_type};
ghost use Rattle.handset.specs.Keeping.{blocks_kept};
ghost use Rattle.handset.specs.KeepingSteps.{under_way_with, page_ended, IsPageAgain};

use cbs_page::{PageView, read_page};

/// The type of the first block of a page.
const FIRST: u8 = 0x20;

/// The type of the second.
const SECOND: u8 = 0x21;

/// The type of the third.
const THIRD: u8 = 0x22;

/// The type of the fourth and last.
const LAST: u8 = 0x33;

/// How many blocks of a page there are so far.
#[derive(Clone, Copy, PartialEq, Eq)]
pub enum Stage {
    /// None.
    Nothing,
    /// Its first block.
    First,
    /// Its first and second.
    Second,
    /// All but the last.
    Third,
}

/// The blocks of a page that isn't complete yet. Each has a place of its own, where it is put once: blocks that were
/// moved on with each next one would cost most of the time of reading.
#[derive(Clone, Copy)]
pub struct PartialPage {
    stage: Stage,
    first: [u8; 23],
    second: [u8; 23],
    third: [u8; 23],
}

impl PartialPage {
    /// No block.
    pub fn empty() -> PartialPage
        ensures { blocks_kept result ≡ [] }
    {
        PartialPage {
            stage: Stage::Nothing,
            first: [0; 23],
            second: [0; 23],
            third: [0; 23],
        }
    }

    /// Goes on with one more block.
    pub fn push(&mut self, block: &[u8; 23])
        ensures { blocks_kept self.new ≡ under_way_with (blocks_kept self.old) block.now }
    {
        match (block[0], self.stage) {
            (FIRST, _) => {
                self.first = *block;
                self.stage = Stage::First;
            }
            (SECOND, Stage::First) => {
                self.second = *block;
                self.stage = Stage::Second;
            }
            (THIRD, Stage::Second) => {
                self.third = *block;
                self.stage = Stage::Third;
            }
            _ => self.stage = Stage::Nothing,
        }
    }

    /// Whether no page is under way and a block begins none, as in idle slots. Such a block completes no page, and none
    /// is under way after it.
    pub fn passes_over(&self, block: &[u8; 23]) -> bool
        ensures { IsTrue result ↔ (blocks_kept self.now ≡ []) × (block_type block.now ≢ 0x20) }
    {
        match self.stage {
            Stage::Nothing => block[0] != FIRST,
            Stage::First => false,
            Stage::Second => false,
            Stage::Third => false,
        }
    }

    /// Whether no page is under way.
    pub fn is_empty(&self) -> bool
        ensures { IsTrue result → blocks_kept self.now ≡ [] }
    {
        self.stage == Stage::Nothing
    }

    /// The page that a block completes.
    pub fn complete_with(&self, block: &[u8; 23]) -> Option<PageView>
        ensures { option_to_list result ≡ page_ended (blocks_kept self.now) block.now }
    {
        match (block[0], self.stage) {
            (LAST, Stage::Third) => {
                let octets = octets_of(&self.first, &self.second, &self.third, block);
                Some(read_page(&octets))
            }
            _ => None,
        }
    }
}

/// Whether some blocks are the four of a page, by their types.
fn are_of_page(blocks: &[[u8; 23]]) -> bool
    ensures { IsTrue result → map block_type blocks.now ≡ page_types }
{
    match blocks {
        [first, second, third, last] => {
            first[0] == FIRST && second[0] == SECOND && third[0] == THIRD && last[0] == LAST
        }
        _ => false,
    }
}

/// Whether the four blocks at a place are a page, and the same as the four before it.
pub fn is_page_again(blocks: &[[u8; 23]], place: usize) -> bool
    ensures { IsTrue result → IsPageAgain blocks.now place }
{
    if place < 4 || blocks.len() < 4 || place > blocks.len() - 4 {
        return false;
    }
    let again = &blocks[place..place + 4];
    are_of_page(again) && &blocks[place - 4..place] == again
}

/// The page that stands at the front of some blocks, if their first four have the types of a page's. The blocks are of
/// type and 22 octets each (3GPP TS 44.012), and the page may be any, also one that can't be read.
pub fn page_in_front(blocks: &[[u8; 23]]) -> Option<PageView>
    ensures { option_to_list result ≡ page_in_front blocks.now }
{
    let [first, second, third, last, ..] = blocks else {
        return None;
    };
    if first[0] != FIRST || second[0] != SECOND || third[0] != THIRD || last[0] != LAST {
        return None;
    }
    Some(read_page(&octets_of(first, second, third, last)))
}

/// The octets that four blocks carry: all but the type of each.
fn octets_of(first: &[u8; 23], second: &[u8; 23], third: &[u8; 23], last: &[u8; 23]) -> [u8; 88]
    ensures { result ≡ page_octets (first.now ∷ second.now ∷ third.now ∷ last.now ∷ []) }
{
    let mut octets = [0; 88];
    octets[..44].copy_from_slice(&joined(first, second));
    octets[44..].copy_from_slice(&joined(third, last));
    octets
}

/// The octets that two blocks carry.
fn joined(block: &[u8; 23], next: &[u8; 23]) -> [u8; 44]
    ensures { result ≡ drop 1 block.now ++ drop 1 next.now }
{
    let mut octets = [0; 44];
    octets[..22].copy_from_slice(&block[1..]);
    octets[22..].copy_from_slice(&next[1..]);
    octets
}
