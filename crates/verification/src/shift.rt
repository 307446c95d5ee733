//! Tapes on which all pages come the same number of slots early or late.

ghost use Rattle.std.specs.Prelude.{◌≡◌, ◌++◌, ◌<◌, ◌≤◌, ◌^◌, All, AllPairs, IfOk, OnOk, map};
ghost use Rattle.std.specs.List.{list_any};
ghost use Rattle.std.specs.Option.{option_copied, option_map};
ghost use Rattle.verification.specs.Came.{came_asked, AllHavePages};
ghost use Rattle.verification.specs.Kept.{asked_kept};
ghost use Rattle.verification.specs.Sent.{sent_in};
ghost use Rattle.verification.specs.Shift.{are_shifted, slot_of_first, has_period, has_slots, is_left, is_untimely};
ghost use Rattle.verification.specs.Shift.{smaller, shift_of_sent, unshifted, unshifted_page};
ghost use Rattle.verification.specs.ShiftSteps.{came_early, came_early_by, came_late, came_late_by, shift_of_came};

use crate::asked::Asked;
use crate::came::{Came, message_of};
use crate::cell::differences_of;
use crate::difference::{Difference, Kind};
use crate::sent::{SentPage, sent_pages};
use std::alloc::{AllocError, Global};

/// By how many slots all pages of a tape are off.
#[derive(Clone, Copy)]
pub enum Shift {
    /// They come this many slots early.
    Early(u32),
    /// They come this many slots late.
    Late(usize),
}

impl<'a> Came<'a> {
    /// The slot of the message's first page, if it has one.
    fn slot_of_first(&self) -> Option<usize>
        ensures { result ≡ slot_of_first self.now.pages.items }
    {
        match self.pages.first() {
            Some(page) => Some(page.slot),
            None => None,
        }
    }

    /// By how many slots its first page comes before its start.
    fn early_by(&self) -> u32
        ensures { result ≡ came_early_by self.now }
    {
        match self.slot_of_first() {
            Some(slot) => u64::from(self.asked.start).saturating_sub(slot as u64) as u32,
            None => 0,
        }
    }

    /// By how many slots its first page comes after its start, if it has one.
    fn late_by(&self) -> Option<usize>
        ensures { result ≡ came_late_by self.now }
    {
        match self.slot_of_first() {
            Some(slot) => Some(slot.saturating_sub(self.asked.start as usize)),
            None => None,
        }
    }
}

/// By how many slots, at most, the first page of one of these messages comes before its start.
fn slots_early(came: &[Came]) -> u32
    ensures { result ≡ came_early came.now }
{
    let mut most = 0;
    for message in came {
        most = message.early_by().max(most);
    }
    most
}

/// The smaller of two numbers, or the one that there is.
fn smaller(one: Option<usize>, other: Option<usize>) -> Option<usize>
    ensures { result ≡ smaller one other }
{
    match (one, other) {
        (Some(one), Some(other)) => Some(one.min(other)),
        (Some(one), None) => Some(one),
        (None, other) => other,
    }
}

/// By how many slots, at least, the first page of one of these messages comes after its start.
fn slots_late(came: &[Came]) -> Option<usize>
    ensures { result ≡ came_late came.now }
{
    let mut least = None;
    for message in came {
        least = smaller(least, message.late_by());
    }
    least
}

/// The least shift without which no page of these messages comes before its start.
fn likely_shift(came: &[Came]) -> Option<Shift>
    ensures { result ≡ shift_of_came came.now }
{
    let early = slots_early(came);
    if early > 0 {
        return Some(Shift::Early(early));
    }
    match slots_late(came) {
        Some(late) if late > 0 => Some(Shift::Late(late)),
        _ => None,
    }
}

impl Shift {
    /// Whether a tape with this shift has the slots of a run of this many from one up to another.
    fn has_slots(self, slots: u16, first: u64, end: u64) -> bool
        ensures { result ≡ has_slots slots self first end }
    {
        match self {
            Shift::Early(early) => u64::from(early) <= first,
            Shift::Late(late) => end <= u64::from(slots).saturating_sub(late as u64),
        }
    }

    /// Whether a tape with this shift has the whole period of a broadcast, if the message is known.
    fn has_period(self, slots: u16, message: Option<&Came>, broadcast: u16) -> bool
        ensures { result ≡ has_period slots self (option_map came_asked (option_copied message.entry)) broadcast }
    {
        match message {
            Some(message) => {
                let asked = &message.asked;
                self.has_slots(slots, asked.release(broadcast), asked.due(broadcast))
            }
            None => true,
        }
    }

    /// Whether a difference is another one than that the tape has no whole period of a broadcast, or that a page comes
    /// again.
    fn is_left(self, slots: u16, came: &[Came], difference: &Difference) -> bool
        ensures { result ≡ is_left slots (map came_asked came.now) self difference.now }
    {
        match difference.kind {
            Kind::NotWhole { broadcast } => {
                self.has_period(slots, message_of(came, difference), broadcast)
            }
            Kind::Again { .. } => false,
            _ => true,
        }
    }
}

/// Whether one of some differences of a tape without its shift is left.
fn any_is_left(slots: u16, came: &[Came], shift: Shift, found: &[Difference]) -> bool
    ensures { result ≡ list_any (is_left slots (map came_asked came.now) shift) found.now }
{
    for difference in found {
        if shift.is_left(slots, came, difference) {
            return true;
        }
    }
    false
}

/// Appends a page as it comes without a shift, unless that is before the run. The only error is out of memory.
fn push_unshifted(
    pages: &mut Vec<SentPage>,
    shift: Shift,
    sent: &SentPage,
) -> Result<(), AllocError>
    requires { sent.now.slot < 2 ^ 62 }
    ensures { OnOk result (pages.new.items ≡ pages.old.items ++ unshifted_page shift sent.now) }
{
    let slot = match shift {
        Shift::Early(slots) => sent.slot + slots as usize,
        Shift::Late(slots) if slots <= sent.slot => sent.slot - slots,
        Shift::Late(_) => return Ok(()),
    };
    pages.push(SentPage {
        slot,
        page: sent.page,
    })?;
    Ok(())
}

/// The pages of a tape as they come without its shift. The only error is out of memory.
fn unshifted(alloc: Global, sent: &[SentPage], shift: Shift) -> Result<Vec<SentPage>, AllocError>
    requires { All (λ s. s.slot < 2 ^ 62) sent.now }
    ensures { IfOk result (λ pages. pages.items ≡ unshifted shift sent.now) }
{
    let mut pages = Vec::new(alloc);
    for page in sent {
        push_unshifted(&mut pages, shift, page)?;
    }
    Ok(pages)
}

/// Whether no difference is left of a tape without its shift. The only error is out of memory.
fn are_shifted(
    alloc: Global,
    slots: u16,
    messages: &[Asked],
    came: &[Came],
    sent: &[SentPage],
    shift: Shift,
) -> Result<bool, AllocError>
    requires same { map came_asked came.now ≡ map asked_kept messages.now }
    requires rising { AllPairs (λ a b. a.slot ≤ b.slot) sent.now }
    requires few { All (λ s. s.slot < 2 ^ 62) sent.now }
    ensures { IfOk result (λ are. are ≡ are_shifted slots (map asked_kept messages.now) sent.now shift) }
{
    let mut pages = unshifted(alloc, sent, shift)?;
    let found = differences_of(alloc, slots, messages, &mut pages)?;
    Ok(!any_is_left(slots, came, shift, &found))
}

/// By how many slots all pages of a tape are early or late, if they are: of a cell that accepted these messages, which
/// have these pages.
///
/// # Errors
///
/// Out of memory.
pub fn shift_of(
    alloc: Global,
    slots: u16,
    messages: &[Asked],
    came: &[Came],
    blocks: &[[u8; 23]],
) -> Result<Option<Shift>, AllocError>
    requires same { map came_asked came.now ≡ map asked_kept messages.now }
    requires pages { AllHavePages (sent_in blocks.now) came.now }
    ensures { IfOk result (λ shift. shift ≡ shift_of_sent slots (map asked_kept messages.now) (sent_in blocks.now)) }
{
    let Some(shift) = likely_shift(came) else {
        return Ok(None);
    };
    let sent = sent_pages(alloc, blocks)?;
    if are_shifted(alloc, slots, messages, came, &sent, shift)? {
        return Ok(Some(shift));
    }
    Ok(None)
}

/// Whether one of some differences is that a page comes at another time than its message's.
pub fn any_is_untimely(found: &[Difference]) -> bool
    ensures { result ≡ list_any (λ d. is_untimely d.kind) found.now }
{
    for difference in found {
        if difference.kind.is_untimely() {
            return true;
        }
    }
    false
}

impl Kind {
    /// Whether it is that a page comes at another time than its message's.
    fn is_untimely(self) -> bool
        ensures { result ≡ is_untimely self }
    {
        match self {
            Kind::BeforeStart => true,
            Kind::AfterStop => true,
            Kind::AfterLast => true,
            Kind::Otherwise { .. } => false,
            Kind::NotWhole { .. } => false,
            Kind::NotOrdered | Kind::Again { .. } => false,
        }
    }
}
