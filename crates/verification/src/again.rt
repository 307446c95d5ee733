//! Broadcasts of which a page comes again.

ghost use Rattle.std.specs.Prelude.{◌≡◌, ◌++◌, ◌≤◌, [], AllPairs, filter, nat_le, OnOk};
ghost use Rattle.verification.specs.AgainSteps.{is_from};
ghost use Rattle.verification.specs.Difference.{again_after, again_difference, again_differences, comes_again};
ghost use Rattle.verification.specs.Difference.{is_requested};
ghost use Rattle.verification.specs.Kept.{asked_kept};

use crate::asked::Asked;
use crate::broadcasts::has_right_page;
use crate::difference::{Difference, Kind};
use crate::judged::JudgedPage;
use std::alloc::AllocError;

impl<'a> Asked<'a> {
    /// Whether a broadcast was requested, and may claim its time.
    fn is_requested(&self, broadcast: u16) -> bool
        ensures { result ≡ is_requested (asked_kept self.now) broadcast }
    {
        !self.background && (self.broadcasts == 0 || broadcast < self.broadcasts)
    }

    /// Of pages whose slots never fall, those that were sent from the release of a broadcast on.
    fn from_release<'p>(&self, pages: &'p [JudgedPage], broadcast: u16) -> &'p [JudgedPage]
        requires { AllPairs (λ a b. a.slot ≤ b.slot) pages.now }
        ensures { result.now ≡ filter (is_from (asked_kept self.now) broadcast) pages.now }
    {
        let release = self.release(broadcast);
        let first = pages.partition_point(|page| (page.slot as u64) < release);
        &pages[first..]
    }

    /// Whether a page comes again after some.
    fn comes_again(&self, before: &[JudgedPage], page: &JudgedPage) -> bool
        ensures { result ≡ comes_again (asked_kept self.now).stop before.now page.now }
    {
        page.right
            && !self.is_stopped(page.slot)
            && has_right_page(before, usize::from(page.number))
    }

    /// The slot of the first of some pages that comes again.
    fn first_again(&self, pages: &[JudgedPage]) -> Option<usize>
        ensures { result ≡ again_after (asked_kept self.now).stop [] pages.now }
    {
        for place in 0..pages.len() {
            let page = &pages[place];
            if self.comes_again(&pages[..place], page) {
                return Some(page.slot);
            }
        }
        None
    }
}

/// Appends the difference of a broadcast, if a page comes again in its time. The only error is out of memory.
fn push_again(
    found: &mut Vec<Difference>,
    asked: &Asked,
    pages: &[JudgedPage],
    broadcast: u16,
) -> Result<(), AllocError>
    requires { AllPairs (λ a b. a.slot ≤ b.slot) pages.now }
    ensures { OnOk result (found.new.items
        ≡ found.old.items ++ again_difference (asked_kept asked.now) pages.now broadcast) }
{
    if !asked.is_requested(broadcast) {
        return Ok(());
    }
    if let Some(slot) = asked.first_again(asked.in_time(pages, broadcast)) {
        found.push(asked.difference(Kind::Again { broadcast }, slot))?;
    }
    Ok(())
}

/// Appends the differences of a message's broadcasts of which a page comes again, in a run of this many slots.
///
/// # Errors
///
/// Out of memory.
pub fn push_again_differences(
    found: &mut Vec<Difference>,
    slots: u16,
    asked: &Asked,
    pages: &[JudgedPage],
) -> Result<(), AllocError>
    requires { AllPairs (λ a b. a.slot ≤ b.slot) pages.now }
    ensures { OnOk result (found.new.items
        ≡ found.old.items ++ again_differences slots (asked_kept asked.now) pages.now) }
{
    for broadcast in 0..slots {
        // Pages that come before a broadcast come before those after it, too.
        if asked.from_release(pages, broadcast).is_empty() {
            return Ok(());
        }
        push_again(found, asked, pages, broadcast)?;
    }
    Ok(())
}
