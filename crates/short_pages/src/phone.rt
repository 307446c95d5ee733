//! What a tape shows, short pages and whole ones.

ghost use Rattle.std.specs.Prelude.{◌≡◌, ◌++◌, ℕ, List, IfOk, OnOk};
ghost use Rattle.handset.specs.Keeping.{HasRead, messages_shown};
ghost use Rattle.short_pages.specs.Slots.{shown_on_air};

use crate::slot::completed_slot;
use handset::{Handset, Refused, Shown};
use std::alloc::Global;

/// The messages that the slots of a tape show, each once, in the order in which their last missing pages come: its
/// blocks are four for each slot. A page of one to three blocks shows the characters that came whole, and counts as one
/// of four blocks does.
///
/// # Errors
///
/// `Refused` if out of memory.
pub fn show(alloc: Global, blocks: &[[u8; 23]]) -> Result<Vec<Shown>, Refused>
    ensures { IfOk result (λ shown. messages_shown shown.items ≡ shown_on_air blocks.now) }
{
    let (slots, rest) = blocks.as_chunks::<4>();
    let mut handset = Handset::new(alloc);
    for slot in slots {
        feed_all(&mut handset, &completed_slot(slot))?;
    }
    feed_all(&mut handset, rest)?;
    Ok(handset.into_shown())
}

/// Has a handset read blocks, one after another. The only error is out of memory.
fn feed_all(handset: &mut Handset, blocks: &[[u8; 23]]) -> Result<(), Refused>
    ensures { OnOk result ((before : List (List ℕ)) → HasRead handset.old before →
        HasRead handset.new (before ++ blocks.now)) }
{
    for block in blocks {
        handset.feed(block)?;
    }
    Ok(())
}
