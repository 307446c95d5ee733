//! The broadcasts of a message that are due and aren't whole.

ghost use Rattle.std.specs.Prelude.{◌≡◌, ◌++◌, ◌+◌, ◌≤◌, ◌==◌, ◌&&◌, AllPairs, filter, OnOk};
ghost use Rattle.std.specs.List.{list_any};
ghost use Rattle.verification.specs.Difference.{broadcast_difference, broadcast_differences, due_slot};
ghost use Rattle.verification.specs.Difference.{is_by, is_in_time, is_owed, is_whole, release_slot};
ghost use Rattle.verification.specs.Kept.{asked_kept};

use crate::asked::Asked;
use crate::difference::{Difference, Kind};
use crate::judged::JudgedPage;
use std::alloc::AllocError;

impl<'a> Asked<'a> {
    /// The slot from which a broadcast may be sent.
    pub fn release(&self, broadcast: u16) -> u64
        ensures { result ≡ release_slot (asked_kept self.now) broadcast }
    {
        u64::from(self.start) + u64::from(broadcast) * u64::from(self.period)
    }

    /// The slot before which a broadcast is due.
    pub fn due(&self, broadcast: u16) -> u64
        ensures { result ≡ due_slot (asked_kept self.now) broadcast }
    {
        let period = u64::from(self.period);
        u64::from(self.start) + u64::from(broadcast) * period + period
    }

    /// Whether a slot comes no later than the stop.
    fn is_by_stop(&self, slot: u64) -> bool
        ensures { result ≡ is_by self.now.stop slot }
    {
        match self.stop {
            Some(stop) => slot <= u64::from(stop),
            None => true,
        }
    }

    /// Whether a broadcast was requested and is due by the stop and by the end of a run.
    pub(crate) fn is_owed(&self, slots: u16, broadcast: u16) -> bool
        ensures { result ≡ is_owed slots (asked_kept self.now) broadcast }
    {
        let due = self.due(broadcast);
        due <= u64::from(slots)
            && self.is_by_stop(due)
            && (self.broadcasts == 0 || broadcast < self.broadcasts)
    }

    /// Of pages whose slots never fall, those that were sent from the release of a broadcast up to its due slot.
    pub fn in_time<'p>(&self, pages: &'p [JudgedPage], broadcast: u16) -> &'p [JudgedPage]
        requires { AllPairs (λ a b. a.slot ≤ b.slot) pages.now }
        ensures { result.now ≡ filter (is_in_time (asked_kept self.now) broadcast) pages.now }
    {
        let (release, due) = (self.release(broadcast), self.due(broadcast));
        let first = pages.partition_point(|page| (page.slot as u64) < release);
        let later = &pages[first..];
        let count = later.partition_point(|page| (page.slot as u64) < due);
        &later[..count]
    }

    /// Whether each page of the message was sent for a broadcast, as it was asked.
    pub(crate) fn is_whole(&self, pages: &[JudgedPage], broadcast: u16) -> bool
        requires { AllPairs (λ a b. a.slot ≤ b.slot) pages.now }
        ensures { result ≡ is_whole (asked_kept self.now) pages.now broadcast }
    {
        let in_time = self.in_time(pages, broadcast);
        for place in 0..self.pages() {
            if !has_right_page(in_time, place + 1) {
                return false;
            }
        }
        true
    }
}

/// Whether the page of this number is among pages, as it was asked.
pub(crate) fn has_right_page(pages: &[JudgedPage], number: usize) -> bool
    ensures { result ≡ list_any (λ page. (page.number == number) && page.right) pages.now }
{
    for page in pages {
        if usize::from(page.number) == number && page.right {
            return true;
        }
    }
    false
}

/// Appends the differences of a message's broadcasts, in a run of this many slots.
///
/// # Errors
///
/// Out of memory.
pub fn push_broadcast_differences(
    found: &mut Vec<Difference>,
    slots: u16,
    asked: &Asked,
    pages: &[JudgedPage],
) -> Result<(), AllocError>
    requires { AllPairs (λ a b. a.slot ≤ b.slot) pages.now }
    ensures { OnOk result (found.new.items
        ≡ found.old.items ++ broadcast_differences slots (asked_kept asked.now) pages.now) }
{
    if asked.background {
        return Ok(());
    }
    for broadcast in 0..slots {
        // The broadcasts after one that isn't owed aren't either.
        if !asked.is_owed(slots, broadcast) {
            return Ok(());
        }
        if !asked.is_whole(pages, broadcast) {
            let due = asked.due(broadcast) as usize;
            found.push(asked.difference(Kind::NotWhole { broadcast }, due))?;
        }
    }
    Ok(())
}
