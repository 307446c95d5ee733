//! Calls of a plan that are asked first, and generated histories against the rule said once more, over the whole air
//! list.

use scheduler::{Item, Plan, Rank};
use std::alloc::{AllocError, Global};
use std::test::Fail;

/// Adds a message. `None` is a message that may not be added now.
pub fn add_item(plan: &mut Plan, item: Item) -> Option<Item> {
    if u32::from(plan.next_slot()) > item.start || item.pages == 0 || item.period == 0 {
        return None;
    }
    if !plan.is_above_all(item.entry) {
        return None;
    }
    match plan.add(item) {
        Ok(()) => Some(item),
        Err(_) => None,
    }
}

/// What the slot that is asked next airs.
pub fn air(plan: &mut Plan) -> Option<(u16, u8)> {
    let slot = plan.next_slot();
    if slot == u16::MAX {
        return None;
    }
    plan.next(slot)
}

/// Stops a message at the slot that is asked next. `None` is a message that does not stand.
pub fn stop(plan: &mut Plan, entry: u16) -> Option<u16> {
    if !plan.is_standing(entry) {
        return None;
    }
    let slot = plan.next_slot();
    Some(plan.stop(entry, slot))
}

/// The completed number of a message that was added.
pub fn done(plan: &Plan, entry: u16) -> Option<u16> {
    if !plan.is_added(entry) {
        return None;
    }
    Some(plan.done(entry))
}

/// A message as a history knows it.
#[derive(Clone, Copy)]
struct Told {
    item: Item,
    stop: Option<u16>,
}

/// How many of the slots from `from` up to, and without, `to` air the entry.
fn pages_aired(air: &[Option<(u16, u8)>], entry: u16, from: u32, to: u32) -> u8 {
    let mut count: u8 = 0;
    let mut slot: u32 = 0;
    for used in air {
        let is_used = match used {
            None => false,
            Some((number, _)) => *number == entry,
        };
        if is_used && from <= slot && slot < to {
            count = count.saturating_add(1);
        }
        slot = slot.saturating_add(1);
    }
    count
}

/// The release of a broadcast, if it was requested.
fn release(told: &Told, broadcast: u16) -> Option<u32> {
    if told.item.broadcasts != 0 && broadcast >= told.item.broadcasts {
        return None;
    }
    let period = u32::from(told.item.period);
    Some(
        told.item
            .start
            .saturating_add(period.saturating_mul(u32::from(broadcast))),
    )
}

/// Whether a slot comes before the stop.
fn is_before_stop(told: &Told, slot: u32) -> bool {
    match told.stop {
        None => true,
        Some(stop) => slot < u32::from(stop),
    }
}

/// Whether it is background, due slot, whether it isn't high, entry, and how many pages were aired.
type Turn = (bool, u32, bool, u16, u8);

/// What a slot airs by the rule: each broadcast of each message is looked at.
fn chosen(told: &[Told], air: &[Option<(u16, u8)>], slot: u16) -> Option<(u16, u8)> {
    let now = u32::from(slot);
    let mut first: Option<Turn> = None;
    for one in told {
        for broadcast in 0..slot.saturating_add(1) {
            if let Some(released) = release(one, broadcast) {
                let due = released.saturating_add(u32::from(one.item.period));
                let pages = pages_aired(air, one.item.entry, released, now);
                let is_unfinished = pages < one.item.pages;
                if released <= now && now < due && is_before_stop(one, now) && is_unfinished {
                    let is_background = one.item.rank == Rank::Background;
                    let is_below_high = one.item.rank != Rank::High;
                    let turn = (is_background, due, is_below_high, one.item.entry, pages);
                    first = Some(lesser(first, turn));
                }
            }
        }
    }
    match first {
        None => None,
        Some((_, _, _, entry, pages)) => Some((entry, pages.saturating_add(1))),
    }
}

/// The lesser of two turns: others before background, then by due slot, high before the rest, entry.
fn lesser(first: Option<Turn>, turn: Turn) -> Turn {
    let Some(before) = first else {
        return turn;
    };
    let is_before = if before.0 != turn.0 {
        turn.0
    } else if before.1 != turn.1 {
        before.1 < turn.1
    } else if before.2 != turn.2 {
        turn.2
    } else {
        before.3 < turn.3
    };
    if is_before { before } else { turn }
}

/// How many broadcasts of a message are whole before a slot.
fn completed(told: &Told, air: &[Option<(u16, u8)>], slot: u16) -> u16 {
    let mut count: u16 = 0;
    for broadcast in 0..slot.saturating_add(1) {
        if let Some(released) = release(told, broadcast) {
            let due = released.saturating_add(u32::from(told.item.period));
            let pages = pages_aired(air, told.item.entry, released, due.min(u32::from(slot)));
            if is_before_stop(told, released) && pages >= told.item.pages {
                count = count.saturating_add(1);
            }
        }
    }
    count
}

/// A small generator of numbers below `bound`.
#[derive(Drop)]
pub struct Numbers {
    /// Where it stands.
    pub state: u64,
}

impl Numbers {
    /// The next number, below `bound`.
    pub fn below(&mut self, bound: u16) -> u16 {
        self.state = self
            .state
            .wrapping_mul(6_364_136_223_846_793_005)
            .wrapping_add(1_442_695_040_888_963_407);
        let high = (self.state >> 40) % 65_536;
        match u16::try_from(high) {
            Ok(number) => number.checked_rem(bound).unwrap_or(0),
            Err(_) => 0,
        }
    }
}

/// A run that is generated: the plan, and what it was told and aired so far.
#[derive(Drop)]
struct History {
    numbers: Numbers,
    plan: Plan,
    told: Vec<Told>,
    aired: Vec<Option<(u16, u8)>>,
}

/// A message of some length, period and rank, with this number, that stands from the slot asked next.
fn some_item(numbers: &mut Numbers, entry: u16, start: u32) -> Item {
    let pages = match numbers.below(6) {
        3 => 2,
        4 => 3,
        5 => 5,
        _ => 1,
    };
    let period = numbers.below(12).saturating_add(1);
    let broadcasts = numbers.below(5);
    let rank = match numbers.below(4) {
        0 => Rank::High,
        1 => Rank::Background,
        _ => Rank::Normal,
    };
    Item {
        entry,
        start,
        pages,
        period,
        broadcasts,
        rank,
    }
}

/// Adds a message now and then, and notes it. Says whether it was added.
fn is_some_added(history: &mut History) -> Result<bool, AllocError> {
    if history.numbers.below(5) != 0 || history.told.len() >= 16 {
        return Ok(true);
    }
    let entry = (history.told.len() as u16).saturating_mul(3);
    let start = u32::from(history.plan.next_slot());
    let item = some_item(&mut history.numbers, entry, start);
    let is_added = add_item(&mut history.plan, item).is_some();
    history.told.push(Told { item, stop: None })?;
    Ok(is_added)
}

/// Stops a message now and then, if it stands. Says whether its completed number is that of the rule.
fn is_some_stopped(history: &mut History) -> bool {
    if history.numbers.below(8) != 0 {
        return true;
    }
    let place = usize::from(history.numbers.below(16));
    let slot = history.plan.next_slot();
    let Some(one) = history.told.get_mut(place) else {
        return true;
    };
    if one.stop.is_some() {
        return true;
    }
    let completed = completed(one, &history.aired, slot);
    one.stop = Some(slot);
    stop(&mut history.plan, one.item.entry) == Some(completed)
}

/// Whether a slot airs what the rule says, after a message was added or stopped or not.
fn is_slot_ruled(history: &mut History, slot: u16) -> Result<bool, AllocError> {
    let is_changed = is_some_added(history)? && is_some_stopped(history);
    let used = chosen(&history.told, &history.aired, slot);
    let is_aired = air(&mut history.plan) == used;
    history.aired.push(used)?;
    Ok(is_changed && is_aired)
}

/// Whether the completed numbers are those of the rule.
fn are_completed(history: &History) -> bool {
    for one in &history.told {
        let completed = completed(one, &history.aired, 100);
        if done(&history.plan, one.item.entry) != Some(completed) {
            return false;
        }
    }
    true
}

/// Whether a history of 100 slots follows the rule.
fn is_ruled(alloc: Global, seed: u64) -> Result<bool, AllocError> {
    let mut history = History {
        numbers: Numbers { state: seed },
        plan: Plan::new(alloc),
        told: Vec::new(alloc),
        aired: Vec::new(alloc),
    };
    for slot in 0..100 {
        if !is_slot_ruled(&mut history, slot)? {
            return Ok(false);
        }
    }
    Ok(are_completed(&history))
}

#[test]
fn follows_the_rule(rt: HostRuntime) -> Result<(), Fail> {
    for seed in 0..60 {
        let is_ruled = is_ruled(rt.alloc(), seed)?;
        assert!(rt; is_ruled, "{seed}");
    }
    Ok(())
}
