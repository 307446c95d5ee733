//! Plans beside a walk over all messages at each slot: they answer the same.

use crate::of_scheduler::plans::{Numbers, add_item, air, done, stop};
use scheduler::{Item, Plan, Rank};
use std::alloc::{AllocError, Global};
use std::test::Fail;

/// A message, with what was aired of it.
#[derive(Clone, Copy)]
struct Scanned {
    item: Item,
    stop: Option<u16>,
    pages_aired: u8,
    completed: u16,
}

impl Scanned {
    /// How many slots it has stood at `slot`, where it has started.
    fn age(&self, slot: u16) -> Option<u32> {
        u32::from(slot).checked_sub(self.item.start)
    }

    /// The slot at which its broadcast is due, where it has a page to air at `slot`.
    fn due(&self, slot: u16) -> Option<u32> {
        let period = u32::from(self.item.period);
        let broadcast = self.age(slot)?.checked_div(period)?;
        let is_requested = self.item.broadcasts == 0 || broadcast < u32::from(self.item.broadcasts);
        if !is_requested || self.stop.is_some() || self.pages_aired >= self.item.pages {
            return None;
        }
        let periods = broadcast.saturating_add(1).saturating_mul(period);
        Some(self.item.start.saturating_add(periods))
    }

    /// Whether it is served before another, where both have a page to air.
    fn is_before(&self, due: u32, other: &Scanned, due_of_other: u32) -> bool {
        let (rank, rank_of_other) = (self.item.rank, other.item.rank);
        let is_background = rank == Rank::Background;
        if is_background != (rank_of_other == Rank::Background) {
            return !is_background;
        }
        if due != due_of_other {
            return due < due_of_other;
        }
        let is_high = rank == Rank::High;
        if is_high != (rank_of_other == Rank::High) {
            return is_high;
        }
        self.item.entry < other.item.entry
    }

    /// What is kept of it after `slot`, which aired a page of it or not.
    fn after(mut self, slot: u16, is_aired: bool) -> Scanned {
        if is_aired {
            self.pages_aired = self.pages_aired.saturating_add(1);
            if self.pages_aired == self.item.pages {
                self.completed = self.completed.saturating_add(1);
            }
        }
        let is_over = match self.age(slot.saturating_add(1)) {
            None => true,
            Some(age) => age.checked_rem(u32::from(self.item.period)) == Some(0),
        };
        if is_over {
            self.pages_aired = 0;
        }
        self
    }
}

/// What a slot airs, by a walk over all messages.
fn scan(scanned: &[Scanned], slot: u16) -> Option<(u16, u8)> {
    let mut first: Option<(Scanned, u32)> = None;
    for one in scanned {
        if let Some(due) = one.due(slot) {
            let is_first = match first {
                None => true,
                Some((before, due_before)) => one.is_before(due, &before, due_before),
            };
            if is_first {
                first = Some((*one, due));
            }
        }
    }
    let (one, _) = first?;
    Some((one.item.entry, one.pages_aired.saturating_add(1)))
}

/// Goes past a slot that aired this.
fn pass(scanned: &mut [Scanned], slot: u16, used: Option<(u16, u8)>) {
    for one in scanned.iter_mut() {
        let is_aired = match used {
            None => false,
            Some((entry, _)) => entry == one.item.entry,
        };
        *one = one.after(slot, is_aired);
    }
}

/// A message of some length, period and rank, that stands from a slot.
fn some_item(numbers: &mut Numbers, entry: u16, start: u32) -> Item {
    let rank = match numbers.below(4) {
        0 => Rank::High,
        1 => Rank::Normal,
        _ => Rank::Background,
    };
    let pages = match numbers.below(6) {
        0 => 1,
        1 => 2,
        2 => 3,
        3 => 4,
        4 => 5,
        _ => 6,
    };
    Item {
        entry,
        start,
        pages,
        period: numbers.below(40).saturating_add(1),
        broadcasts: numbers.below(6),
        rank,
    }
}

/// A plan and the messages that a walk looks at, of a run that is generated.
#[derive(Drop)]
struct Both {
    numbers: Numbers,
    plan: Plan,
    scanned: Vec<Scanned>,
    /// The number of the first message.
    first: u16,
    /// The numbers of messages rise by this.
    step: u16,
}

/// The number of the next message, where there is one.
fn next_entry(both: &Both) -> Option<u16> {
    let places = u16::try_from(both.scanned.len()).ok()?;
    places.checked_mul(both.step)?.checked_add(both.first)
}

/// Adds a message to both. Says whether it was added.
fn is_item_added(both: &mut Both, item: Item) -> Result<bool, AllocError> {
    let is_added = add_item(&mut both.plan, item).is_some();
    both.scanned.push(Scanned {
        item,
        stop: None,
        pages_aired: 0,
        completed: 0,
    })?;
    Ok(is_added)
}

/// Adds a message to both, that stands from the slot asked next, or from one that is up to `ahead` slots later. Says
/// whether it was added.
fn is_added(both: &mut Both, ahead: u16) -> Result<bool, AllocError> {
    let Some(entry) = next_entry(both) else {
        return Ok(true);
    };
    let later = both.numbers.below(ahead.saturating_add(1));
    let start = u32::from(both.plan.next_slot()).saturating_add(u32::from(later));
    let item = some_item(&mut both.numbers, entry, start);
    is_item_added(both, item)
}

/// Adds a message to both that ends soon, but for one of 64, which stands until it is stopped. Says whether it was
/// added.
fn is_short_added(both: &mut Both) -> Result<bool, AllocError> {
    let Some(entry) = next_entry(both) else {
        return Ok(true);
    };
    let start = u32::from(both.plan.next_slot());
    let mut item = some_item(&mut both.numbers, entry, start);
    item.period = both.numbers.below(6).saturating_add(1);
    item.broadcasts = if both.numbers.below(64) == 0 { 0 } else { 1 };
    is_item_added(both, item)
}

/// Adds background messages to both, of which most wait for long. Says whether they were added.
fn is_crowd_added(both: &mut Both, count: u16) -> Result<bool, AllocError> {
    let start = u32::from(both.plan.next_slot());
    for _ in 0..count {
        let Some(entry) = next_entry(both) else {
            return Ok(true);
        };
        let mut item = some_item(&mut both.numbers, entry, start);
        item.rank = Rank::Background;
        item.period = both.numbers.below(300).saturating_add(1);
        if !is_item_added(both, item)? {
            return Ok(false);
        }
    }
    Ok(true)
}

/// Stops the message at a place of both, if it stands. Says whether its completed number is that of the walk.
fn is_stopped(both: &mut Both, place: usize) -> bool {
    let slot = both.plan.next_slot();
    let Some(one) = both.scanned.get_mut(place) else {
        return true;
    };
    if one.stop.is_some() {
        return true;
    }
    one.stop = Some(slot);
    stop(&mut both.plan, one.item.entry) == Some(one.completed)
}

/// What happens before a slot: a message is added, stopped, or stopped and replaced by a later one, or nothing. Says
/// whether it was done.
fn is_changed(both: &mut Both) -> Result<bool, AllocError> {
    let place = usize::from(both.numbers.below(64));
    match both.numbers.below(6) {
        0 => is_added(both, 0),
        1 => is_added(both, 30),
        2 => Ok(is_stopped(both, place)),
        3 => Ok(is_stopped(both, place) && is_added(both, 12)?),
        _ => Ok(true),
    }
}

/// What happens before a slot of a log of short messages: one is added, and one of all is stopped, of which most
/// ended long before. Says whether it was done.
fn is_log_changed(both: &mut Both) -> Result<bool, AllocError> {
    let places = u16::try_from(both.scanned.len()).unwrap_or(0);
    let place = usize::from(both.numbers.below(places.saturating_add(1)));
    Ok(is_short_added(both)? && is_stopped(both, place))
}

/// Whether a slot airs what the walk says.
fn is_slot_scanned(both: &mut Both, slot: u16, is_log: bool) -> Result<bool, AllocError> {
    let is_changed = if is_log {
        is_log_changed(both)?
    } else {
        is_changed(both)?
    };
    let used = scan(&both.scanned, slot);
    let is_aired = air(&mut both.plan) == used;
    pass(both.scanned.as_mut_slice(), slot, used);
    Ok(is_changed && is_aired)
}

/// Whether the completed numbers are those of the walk.
fn are_completed(both: &Both) -> bool {
    for one in &both.scanned {
        if done(&both.plan, one.item.entry) != Some(one.completed) {
            return false;
        }
    }
    true
}

/// Whether a run of 200 slots airs, and completes, what the walk does.
fn is_scanned(mut both: Both, is_log: bool) -> Result<bool, AllocError> {
    for slot in 0..200 {
        if !is_slot_scanned(&mut both, slot, is_log)? {
            return Ok(false);
        }
    }
    Ok(are_completed(&both))
}

/// A run whose numbers begin and rise by these.
fn new_run(alloc: Global, seed: u64, first: u16, step: u16) -> Both {
    Both {
        numbers: Numbers { state: seed },
        plan: Plan::new(alloc),
        scanned: Vec::new(alloc),
        first,
        step,
    }
}

#[test]
fn answers_as_a_walk_does(rt: HostRuntime) -> Result<(), Fail> {
    for seed in 0..20 {
        let is_dense = is_scanned(new_run(rt.alloc(), seed, 0, 1), false)?;
        let is_sparse = is_scanned(new_run(rt.alloc(), seed + 20, 0, 2), false)?;
        assert!(rt; is_dense && is_sparse, "{seed}");
    }
    Ok(())
}

#[test]
fn answers_as_a_walk_does_of_short_messages(rt: HostRuntime) -> Result<(), Fail> {
    for seed in 0..10 {
        let is_dense = is_scanned(new_run(rt.alloc(), seed, 7, 1), true)?;
        let is_sparse = is_scanned(new_run(rt.alloc(), seed + 10, 7, 3), true)?;
        assert!(rt; is_dense && is_sparse, "{seed}");
    }
    Ok(())
}

#[test]
fn answers_as_a_walk_does_where_a_crowd_waits(rt: HostRuntime) -> Result<(), Fail> {
    for seed in 0..3 {
        let mut both = new_run(rt.alloc(), seed, 0, 1);
        let is_crowded = is_crowd_added(&mut both, 1200)?;
        let is_same = is_scanned(both, false)?;
        assert!(rt; is_crowded && is_same, "{seed}");
    }
    Ok(())
}
