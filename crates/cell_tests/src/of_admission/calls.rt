//! Calls of a budget where what they ask is tested first: `None` where it doesn't hold.

use admission::{Budget, NoRoom};

/// What a budget answers to a reservation. `None` where the entry is reserved already.
pub fn reserved(
    budget: &mut Budget,
    entry: u16,
    load: u64,
    until: Option<u32>,
) -> Option<Result<(), NoRoom>> {
    if budget.is_reserved(entry) {
        return None;
    }
    Some(budget.reserve(entry, load, until))
}

/// Whether a load fits behind an entry. `None` where that one isn't reserved, or waits itself.
pub fn fits_behind(
    budget: &Budget,
    load: u64,
    behind: u16,
    leaving: Option<u16>,
) -> Option<Result<(), NoRoom>> {
    if !budget.has_started(behind) {
        return None;
    }
    Some(budget.fits_behind(load, behind, leaving))
}

/// What a budget answers to a reservation behind an entry, with no end. `None` where the entry is reserved already, the
/// one before it doesn't hand over at `start`, or another waits behind that one.
pub fn reserved_behind(
    budget: &mut Budget,
    entry: u16,
    load: u64,
    behind: u16,
    start: u32,
) -> Option<Result<(), NoRoom>> {
    if budget.is_reserved(entry) {
        return None;
    }
    if !budget.hands_over_at(behind, start) || budget.is_awaited(behind) {
        return None;
    }
    Some(budget.reserve_behind(entry, load, behind, start, None))
}

/// Lets a reservation end, and says whether it could: there is one, and none waits behind it.
pub fn released(budget: &mut Budget, entry: u16, slot: u32) -> bool {
    if !budget.is_reserved(entry) || budget.is_awaited(entry) {
        return false;
    }
    budget.release_at(entry, slot);
    true
}
