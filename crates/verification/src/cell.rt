//! The differences of a cell.

ghost use Rattle.std.specs.Prelude.{◌≡◌, ◌++◌, ◌≤◌, AllPairs, IfOk, OnOk, map};
ghost use Rattle.std.specs.List.{flat_map};
ghost use Rattle.std.specs.List.Sorted.{IsPermutation, IsSortedByKey};
ghost use Rattle.verification.specs.ByName.{AreByName};
ghost use Rattle.verification.specs.Difference.{all_differences, AreDifferences, key_order, message_differences};
ghost use Rattle.verification.specs.Difference.{sort_key};
ghost use Rattle.verification.specs.Judged.{judged_in};
ghost use Rattle.verification.specs.Kept.{asked_kept};

use crate::again::push_again_differences;
use crate::asked::{Asked, asked_messages};
use crate::broadcasts::push_broadcast_differences;
use crate::difference::Difference;
use crate::judged::judged_pages;
use crate::not_ordered::push_not_ordered;
use crate::pages::push_page_differences;
use crate::sent::{SentPage, sent_pages, sort_by_name};
use bsc_table::CellRecord;
use std::alloc::{AllocError, Global};

/// Appends the differences of messages, by the pages that were sent, by name. The only error is out of memory.
fn push_messages(
    alloc: Global,
    found: &mut Vec<Difference>,
    slots: u16,
    messages: &[Asked],
    sent: &[SentPage],
) -> Result<(), AllocError>
    requires { AreByName sent.now }
    ensures { OnOk result (found.new.items ≡ found.old.items
        ++ flat_map (λ a. message_differences slots a (judged_in a sent.now)) (map asked_kept messages.now)) }
{
    for asked in messages {
        let pages = judged_pages(alloc, asked, sent)?;
        push_page_differences(found, asked, &pages)?;
        push_broadcast_differences(found, slots, asked, &pages)?;
        push_again_differences(found, slots, asked, &pages)?;
    }
    Ok(())
}

/// The differences of messages by all pages that were sent, in their order, and in no order any more after it: those of
/// the pages and the broadcasts, and of pages that weren't ordered.
///
/// # Errors
///
/// Out of memory.
pub fn differences_of(
    alloc: Global,
    slots: u16,
    messages: &[Asked],
    sent: &mut Vec<SentPage>,
) -> Result<Vec<Difference>, AllocError>
    requires { AllPairs (λ a b. a.slot ≤ b.slot) sent.old.items }
    ensures all { IfOk result (λ found. IsPermutation
        (all_differences slots (map asked_kept messages.now) sent.old.items) found.items) }
    ensures sorted { IfOk result (λ found. IsSortedByKey sort_key key_order found.items) }
{
    let mut found = Vec::new(alloc);
    push_not_ordered(alloc, &mut found, messages, sent)?;
    sort_by_name(sent)?;
    push_messages(alloc, &mut found, slots, messages, sent)?;
    found.sort_by_key(|difference| difference.key())?;
    Ok(found)
}

/// What isn't as it was asked, of a cell whose run has this record and whose channel sent these blocks: each difference
/// once, by slot, identifier, serial number and kind, the kinds in the order of [`crate::Kind`]. A block is its type
/// and 22 octets (3GPP TS 44.012), and four of them are a slot. The blocks may be any, also more or fewer than the
/// run's.
///
/// # Errors
///
/// Out of memory.
pub fn differences(
    alloc: Global,
    run: &CellRecord,
    blocks: &[[u8; 23]],
) -> Result<Vec<Difference>, AllocError>
    ensures { IfOk result (λ found. AreDifferences run.now blocks.now found.items) }
{
    let messages = asked_messages(alloc, run.log())?;
    let mut sent = sent_pages(alloc, blocks)?;
    differences_of(alloc, run.slots(), &messages, &mut sent)
}
