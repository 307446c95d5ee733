//! The pages of messages that a cell didn't accept.

ghost use Rattle.std.specs.Prelude.{◌≡◌, ◌++◌, [], map, IfOk, OnOk};
ghost use Rattle.verification.specs.Difference.{not_ordered_after};
ghost use Rattle.verification.specs.Kept.{asked_kept};
ghost use Rattle.verification.specs.Names.{AreNames};

use crate::asked::Asked;
use crate::difference::{Difference, Kind};
use crate::names::Names;
use crate::sent::SentPage;
use std::alloc::{AllocError, Global};

/// The identifiers and serial numbers of messages. The only error is out of memory.
fn names_of(alloc: Global, messages: &[Asked]) -> Result<Names, AllocError>
    ensures { IfOk result (AreNames (map asked_kept messages.now) []) }
{
    let mut names = Names::new(alloc);
    for asked in messages {
        names.add(asked.id, asked.serial)?;
    }
    Ok(names)
}

/// Appends a difference for each identifier and serial number that no message has, at the first of its pages.
///
/// # Errors
///
/// Out of memory.
pub fn push_not_ordered(
    alloc: Global,
    found: &mut Vec<Difference>,
    messages: &[Asked],
    sent: &[SentPage],
) -> Result<(), AllocError>
    ensures { OnOk result (found.new.items
        ≡ found.old.items ++ not_ordered_after (map asked_kept messages.now) [] sent.now) }
{
    let mut known = names_of(alloc, messages)?;
    for sent_page in sent {
        let SentPage { slot, page } = sent_page;
        if known.has(page) {
            continue;
        }
        found.push(Difference {
            slot: *slot,
            id: page.id,
            serial: page.serial,
            kind: Kind::NotOrdered,
        })?;
        known.add(page.id, page.serial.number())?;
    }
    Ok(())
}
