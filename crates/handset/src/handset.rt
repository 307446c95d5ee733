//! The handset: what it keeps of the blocks that it has read. A contract sees no more of that than whether it stands
//! for a list of blocks (`HasRead`).

ghost use Rattle.std.specs.Prelude.{◌≡◌, ◌≤◌, ◌<◌, ◌+◌, ◌++◌, ◌∷◌, [], ℕ, List, length, take, IfOk, IfSome, IsTrue};
ghost use Rattle.std.specs.Prelude.{OnErr, OnOk};
ghost use Rattle.std.specs.Option.{option_to_list};
ghost use Rattle.handset.specs.Keeping.{HasRead, kept_of, messages_shown};
ghost use Rattle.handset.specs.KeepingSteps.{TakesPage, message_ended_read};
ghost use Rattle.handset.specs.Reception.{name_of, page_in_front, shown_in};

use crate::blocks::{PartialPage, is_page_again, page_in_front};
use crate::messages::{Refused, Shown, is_counted, message_if_complete};
use crate::pages::Pages;
use cbs_page::PageView;
use std::alloc::Global;
use std::marker::Model;

/// A handset (3GPP TS 23.041, clause 9.4.1): it reads blocks, and shows each message once, at the block with which
/// its last missing page comes.
///
/// Fed the four blocks of a page 1 of 1 with the text `@`, `feed` returns `None` three times and then the message;
/// fed them again, it returns `None` four times. `shown` has the one message from then on.
#[derive(Drop)]
pub struct Handset {
    alloc: Global,
    partial: PartialPage,
    pages: Pages,
    shown: Vec<Shown>,
}

impl Model for Handset {
    ghost use Rattle.handset.specs.Keeping.{HandsetState, blocks_kept, messages_shown};

    ghost Value = { HandsetState };

    ghost view = { λ h.
        record { under_way = blocks_kept h.partial; pages = h.pages; shown = messages_shown h.shown.items } };
}

impl Handset {
    /// A handset that has read no block. It takes no memory.
    pub fn new(alloc: Global) -> Handset
        ensures { HasRead result [] }
    {
        Handset {
            alloc,
            partial: PartialPage::empty(),
            pages: Pages::new(alloc),
            shown: Vec::new(alloc),
        }
    }

    /// Reads a block of 23 octets, its type and 22 more, and returns a copy of the message that it makes complete, if
    /// it does.
    ///
    /// # Errors
    ///
    /// `Refused` if out of memory; the handset is as it was then.
    pub fn feed(&mut self, block: &[u8; 23]) -> Result<Option<Shown>, Refused>
        ensures read { OnOk result ((blocks : List (List ℕ)) → HasRead self.old blocks →
            HasRead self.new (blocks ++ block.now ∷ [])) }
        ensures answered { IfOk result (λ answer. (blocks : List (List ℕ)) → HasRead self.old blocks →
            shown_in (blocks ++ block.now ∷ []) ≡ shown_in blocks ++ messages_shown (option_to_list answer)) }
        ensures refused { OnErr result (self.new ≡ self.old) }
    {
        let answer = self.message_with(block)?;
        self.accept(block)?;
        Ok(answer)
    }

    /// The messages that were shown, in order.
    pub fn shown(&self) -> &[Shown]
        ensures { (blocks : List (List ℕ)) → HasRead self.now blocks → messages_shown result.now ≡ shown_in blocks }
    {
        &self.shown
    }

    /// The messages that were shown, in order, after which nothing more is read.
    pub fn into_shown(self) -> Vec<Shown>
        ensures { (blocks : List (List ℕ)) → HasRead self blocks → messages_shown result.items ≡ shown_in blocks }
    {
        let Handset {
            alloc: _,
            partial: _,
            pages,
            shown,
        } = self;
        drop(pages);
        shown
    }

    /// The message that a block would make complete. The only error is out of memory.
    fn message_with(&self, block: &[u8; 23]) -> Result<Option<Shown>, Refused>
        ensures { IfOk result (λ message. (blocks : List (List ℕ)) → HasRead self.now blocks →
            shown_in (blocks ++ block.now ∷ []) ≡ shown_in blocks ++ messages_shown (option_to_list message)) }
    {
        match self.partial.complete_with(block) {
            None => Ok(None),
            Some(page) => message_ended(self.alloc, &self.pages, &page),
        }
    }

    /// Reads a block as `feed` does, and returns no copy. The only error is out of memory, and then the
    /// handset is as it was.
    fn accept(&mut self, block: &[u8; 23]) -> Result<(), Refused>
        ensures read { OnOk result ((blocks : List (List ℕ)) → HasRead self.old blocks →
            HasRead self.new (blocks ++ block.now ∷ [])) }
        ensures refused { OnErr result (self.new ≡ self.old) }
    {
        if let Some(page) = self.partial.complete_with(block) {
            take(self.alloc, &mut self.pages, &mut self.shown, &page)?;
        }
        self.partial.push(block);
        Ok(())
    }

    /// Reads blocks, one after another. The only error is out of memory; some of them may then have been
    /// read.
    pub(crate) fn accept_all(&mut self, blocks: &[[u8; 23]]) -> Result<(), Refused>
        ensures { OnOk result ((before : List (List ℕ)) → HasRead self.old before →
            HasRead self.new (before ++ blocks.now)) }
    {
        let mut place = 0;
        while place < blocks.len() {
            // Most blocks are those of idle slots, and one look at each is enough; many pages are those before them.
            if self.passes_over(&blocks[place]) {
                place += 1;
            } else if self.repeats(blocks, place) {
                place += 4;
            } else {
                place += self.accept_next(blocks, place)?;
            }
        }
        Ok(())
    }

    /// Reads the block at a place, or the four of the page that stands there, and returns how many they are. Pages
    /// seldom lie otherwise, and four blocks that are at hand need not be put aside one by one. The only error is out
    /// of memory.
    fn accept_next(&mut self, blocks: &[[u8; 23]], place: usize) -> Result<usize, Refused>
        requires { place < length blocks.now }
        ensures within { IfOk result (λ count. (0 < count) × (place + count ≤ length blocks.now)) }
        ensures read { IfOk result (λ count. (before : List (List ℕ))
            → HasRead self.old (before ++ take place blocks.now)
            → HasRead self.new (before ++ take (place + count) blocks.now)) }
    {
        if let Some(page) = self.page_ahead(&blocks[place..]) {
            take(self.alloc, &mut self.pages, &mut self.shown, &page)?;
            return Ok(4);
        }
        self.accept(&blocks[place])?;
        Ok(1)
    }

    /// The page that stands at the front of some blocks, if none is under way.
    fn page_ahead(&self, blocks: &[[u8; 23]]) -> Option<PageView>
        ensures { IfSome result (λ page. (self.now.under_way ≡ []) × (page ∷ [] ≡ page_in_front blocks.now)) }
    {
        if self.partial.is_empty() {
            page_in_front(blocks)
        } else {
            None
        }
    }

    /// Whether the four blocks at a place are a page that was read right before it: reading it again changes nothing.
    fn repeats(&self, blocks: &[[u8; 23]], place: usize) -> bool
        ensures within { IsTrue result → place + 4 ≤ length blocks.now }
        ensures same { IsTrue result → (before : List (List ℕ)) → HasRead self.now (before ++ take place blocks.now) →
            HasRead self.now (before ++ take (place + 4) blocks.now) }
    {
        self.partial.is_empty() && is_page_again(blocks, place)
    }

    /// Whether reading this block would change nothing.
    fn passes_over(&self, block: &[u8; 23]) -> bool
        ensures { IsTrue result → (blocks : List (List ℕ)) → HasRead self.now blocks →
            HasRead self.now (blocks ++ block.now ∷ []) }
    {
        self.partial.passes_over(block)
    }
}

/// The message that a page that was read makes complete.
fn message_ended(alloc: Global, pages: &Pages, page: &PageView) -> Result<Option<Shown>, Refused>
    ensures { IfOk result (λ message.
        messages_shown (option_to_list message) ≡ message_ended_read (kept_of pages.now (name_of page.now)) page.now) }
{
    let kept = pages.of_message(page);
    if !is_counted(kept, page) {
        return Ok(None);
    }
    message_if_complete(alloc, kept, page)
}

/// Takes a page that was read: keeps it if it counts, and shows the message that it makes complete. All room is taken
/// before anything changes.
fn take(
    alloc: Global,
    pages: &mut Pages,
    shown: &mut Vec<Shown>,
    page: &PageView,
) -> Result<(), Refused>
    ensures pages { OnOk result (TakesPage pages.old pages.new page.now) }
    ensures shown { OnOk result (messages_shown shown.new.items
        ≡ messages_shown shown.old.items ++ message_ended_read (kept_of pages.old (name_of page.now)) page.now) }
    ensures pages_stay { OnErr result (pages.new ≡ pages.old) }
    ensures shown_stay { OnErr result (shown.new.items ≡ shown.old.items) }
{
    let kept = pages.of_message(page);
    if !is_counted(kept, page) {
        return Ok(());
    }
    let is_first = kept.is_empty();
    match message_if_complete(alloc, kept, page)? {
        None => pages.push(page, is_first),
        Some(message) => {
            shown.reserve(1)?;
            pages.push(page, is_first)?;
            shown.push_reserved(message);
            Ok(())
        }
    }
}
