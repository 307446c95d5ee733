//! What is told of broadcasts that aren't whole.

ghost use Rattle.std.specs.Prelude.{◌≡◌, ◌++◌, ◌≤◌, AllPairs, IfOk, codes, string_bytes};
ghost use Rattle.std.specs.Fmt.{decimal};
ghost use Rattle.std.specs.List.{flat_map};
ghost use Rattle.std.specs.Option.{option_to_list};
ghost use Rattle.verification.specs.Explained.{arrived_text, explained_broadcast, explained_broadcasts};
ghost use Rattle.verification.specs.Explained.{explained_loss, has_some, is_lost, next_kept, pages_arrived};
ghost use Rattle.verification.specs.Explained.{slots_text};
ghost use Rattle.verification.specs.Kept.{asked_kept};

use crate::asked::Asked;
use crate::broadcasts::has_right_page;
use crate::difference::Kind;
use crate::explained::Explanation;
use crate::judged::JudgedPage;
use crate::text::kind_text;
use std::alloc::{AllocError, Global};

impl<'a> Asked<'a> {
    /// Whether a page of the message was sent for a broadcast, as it was asked.
    fn has_some(&self, pages: &[JudgedPage], broadcast: u16) -> bool
        requires { AllPairs (λ a b. a.slot ≤ b.slot) pages.now }
        ensures { result ≡ has_some (asked_kept self.now) pages.now broadcast }
    {
        let in_time = self.in_time(pages, broadcast);
        for place in 0..self.pages() {
            if has_right_page(in_time, place + 1) {
                return true;
            }
        }
        false
    }

    /// Whether a broadcast is owed, isn't whole, and has none of its pages.
    fn is_lost(&self, slots: u16, pages: &[JudgedPage], broadcast: u16) -> bool
        requires { AllPairs (λ a b. a.slot ≤ b.slot) pages.now }
        ensures { result ≡ is_lost slots (asked_kept self.now) pages.now broadcast }
    {
        self.is_owed(slots, broadcast)
            && !self.is_whole(pages, broadcast)
            && !self.has_some(pages, broadcast)
    }

    /// The first broadcast from one on that isn't lost.
    fn next_kept(&self, slots: u16, pages: &[JudgedPage], broadcast: u16) -> u16
        requires { AllPairs (λ a b. a.slot ≤ b.slot) pages.now }
        ensures { result ≡ next_kept slots (asked_kept self.now) pages.now broadcast }
    {
        for later in broadcast..slots {
            if !self.is_lost(slots, pages, later) {
                return later;
            }
        }
        slots
    }

    /// The numbers of the pages that came right for a broadcast. The only error is out of memory.
    fn pages_arrived(
        &self,
        alloc: Global,
        pages: &[JudgedPage],
        broadcast: u16,
    ) -> Result<Vec<usize>, AllocError>
        requires { AllPairs (λ a b. a.slot ≤ b.slot) pages.now }
        ensures { IfOk result (λ numbers. numbers.items
            ≡ pages_arrived (asked_kept self.now) pages.now broadcast) }
    {
        let in_time = self.in_time(pages, broadcast);
        let mut numbers = Vec::new(alloc);
        for place in 0..self.pages() {
            if has_right_page(in_time, place + 1) {
                numbers.push(place + 1)?;
            }
        }
        Ok(numbers)
    }
}

/// Numbers, each after a space. The only error is out of memory.
fn numbers_text(alloc: Global, numbers: &[usize]) -> Result<String, AllocError>
    ensures { IfOk result (λ text. string_bytes text ≡ flat_map (λ n. codes " " ++ decimal n) numbers.now) }
{
    let mut text = String::new(alloc);
    for number in numbers {
        text.push_str(&format!(in alloc; " {number}")?)?;
    }
    Ok(text)
}

/// Which pages came, of how many. The only error is out of memory.
fn arrived_text(alloc: Global, numbers: &[usize], total: usize) -> Result<String, AllocError>
    ensures { IfOk result (λ text. string_bytes text ≡ arrived_text numbers.now total) }
{
    if numbers.is_empty() {
        return String::from_str(alloc, "nothing");
    }
    let came = numbers_text(alloc, numbers)?;
    format!(in alloc; "pages{came} of {total}")
}

/// The slots of a broadcast. The only error is out of memory.
pub(crate) fn slots_text(alloc: Global, asked: &Asked, broadcast: u16) -> Result<String, AllocError>
    ensures { IfOk result (λ text. string_bytes text ≡ slots_text (asked_kept asked.now) broadcast) }
{
    let release = asked.release(broadcast);
    let last = asked.due(broadcast).saturating_sub(1);
    format!(in alloc; "slots {release} to {last}")
}

/// What is told of a broadcast that isn't whole. The only error is out of memory.
fn explained_broadcast(
    alloc: Global,
    asked: &Asked,
    pages: &[JudgedPage],
    broadcast: u16,
) -> Result<Explanation, AllocError>
    requires { AllPairs (λ a b. a.slot ≤ b.slot) pages.now }
    ensures { IfOk result (λ told. told ≡ explained_broadcast (asked_kept asked.now) pages.now broadcast) }
{
    let numbers = asked.pages_arrived(alloc, pages, broadcast)?;
    Ok(Explanation {
        difference: kind_text(alloc, Kind::NotWhole { broadcast })?,
        expected: slots_text(alloc, asked, broadcast)?,
        got: arrived_text(alloc, &numbers, asked.pages())?,
    })
}

/// What is told of the broadcasts from one up to one that isn't lost. The only error is out of memory.
fn explained_loss(
    alloc: Global,
    asked: &Asked,
    pages: &[JudgedPage],
    broadcast: u16,
    next: u16,
) -> Result<Explanation, AllocError>
    requires { AllPairs (λ a b. a.slot ≤ b.slot) pages.now }
    ensures { IfOk result (λ told. told ≡ explained_loss (asked_kept asked.now) pages.now broadcast next) }
{
    if u32::from(broadcast) + 1 >= u32::from(next) {
        return explained_broadcast(alloc, asked, pages, broadcast);
    }
    let last = next - 1;
    let (first_slot, last_slot) = (asked.release(broadcast), asked.due(last).saturating_sub(1));
    Ok(Explanation {
        difference: format!(in alloc; "nothing sent from slot {first_slot} to {last_slot}")?,
        expected: format!(in alloc; "broadcasts {broadcast} to {last}")?,
        got: String::from_str(alloc, "nothing")?,
    })
}

/// What is told of a broadcast that isn't whole: nothing if it is told with those before it.
///
/// # Errors
///
/// Out of memory.
pub fn explained_broadcasts(
    alloc: Global,
    slots: u16,
    asked: &Asked,
    pages: &[JudgedPage],
    broadcast: u16,
) -> Result<Option<Explanation>, AllocError>
    requires { AllPairs (λ a b. a.slot ≤ b.slot) pages.now }
    ensures { IfOk result (λ told. option_to_list told
        ≡ explained_broadcasts slots (asked_kept asked.now) pages.now broadcast) }
{
    if !asked.is_lost(slots, pages, broadcast) {
        return Ok(Some(explained_broadcast(alloc, asked, pages, broadcast)?));
    }
    if broadcast > 0 && asked.is_lost(slots, pages, broadcast - 1) {
        return Ok(None);
    }
    let next = asked.next_kept(slots, pages, broadcast);
    Ok(Some(explained_loss(alloc, asked, pages, broadcast, next)?))
}
