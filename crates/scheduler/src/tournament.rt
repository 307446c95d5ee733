//! The messages of a plan in the order of their numbers, each with what is ahead of it and of the places below it: of
//! place p these are the places 8p + 1 to 8p + 8. So the first turn of all stands at place 0, and a change at one
//! place is carried to those above it alone. What begins or ends at a slot is done in two passes: the places at or
//! below which that is so are listed, from place 0 down, and then looked at again, from the last of the list up.

ghost use Rattle.std.specs.Prelude.{◌≡◌, ◌≢◌, ◌<◌, ◌≤◌, ℕ, ◌+◌, ◌*◌, length, All, AllPairs, Any, map, slice_set};
ghost use Rattle.std.specs.Prelude.{◌==◌, if◌then◌else◌, true, MatchBool};
ghost use Rattle.std.specs.Prelude.{Option, Some, None, slice_index_or};
ghost use Rattle.scheduler.specs.PlanSteps.{IsChoice, after_slot, scheduled_stopped};
ghost use Rattle.scheduler.specs.declared.tournament.Node.{Node};
ghost use Rattle.scheduler.specs.QueueSteps.{ahead_among, ahead_at, ahead_below, kept_in, seen_in};
ghost use Rattle.scheduler.specs.QueueSteps.{IsNode, IsTree, IsTreeWithout, HasTurn};
ghost use Rattle.scheduler.specs.QueueSteps.{IsTreeBut, KeepsNodesBut, own, own_at, IsRight, IsPlaceOf, IsFoundTurn};
ghost use Rattle.scheduler.specs.QueueSteps.{AreRising};
ghost use Rattle.scheduler.specs.QueueSteps.{AreKeptInOrder, AreListed, AreDue, renewed_node};

use crate::progress::Progress;
use crate::turn::First;

/// How many places are below one.
const BELOW: usize = 8;

/// How many places at the end are looked at first for a message.
const NEAR: usize = 16;

/// A message, with what is ahead of it and of the places below it.
#[derive(Clone, Copy)]
pub struct Node {
    /// The message.
    pub kept: Progress,
    /// What is ahead of it, and of the messages at the places below its own.
    pub ahead: First,
}

impl Node {
    /// Looks again at its message, if `slot` is a slot to do so, and puts right what is ahead of it and of the places
    /// below it, by what is ahead of those.
    fn refresh(&mut self, slot: u16, below: First)
        requires right { IsRight slot self.old.kept }
        requires turn { HasTurn self.old.kept }
        ensures value { self.new ≡ renewed_node slot below self.old }
        ensures turn { HasTurn self.new.kept }
    {
        // most places are looked at for those below them alone
        if self.kept.until <= u32::from(slot) {
            self.kept = self.kept.refreshed(slot);
        }
        self.ahead = self.kept.own().joined(below);
    }
}

/// What is kept as ahead of a place and those below it: nothing past the end.
pub(crate) fn ahead_at(nodes: &[Node], place: usize) -> First
    ensures { result ≡ ahead_at nodes.now place }
{
    if place < nodes.len() {
        nodes[place].ahead
    } else {
        First::nothing()
    }
}

/// What is ahead of a place and the next one.
fn ahead_of_two(nodes: &[Node], place: usize) -> First
    requires { place + 1 < length nodes.now }
    ensures { result ≡ ahead_among nodes.now place 2 }
{
    First::nothing()
        .joined(nodes[place].ahead)
        .joined(nodes[place + 1].ahead)
}

/// What is ahead of a place and the next three.
fn ahead_of_four(nodes: &[Node], place: usize) -> First
    requires { place + 3 < length nodes.now }
    ensures { result ≡ ahead_among nodes.now place 4 }
{
    ahead_of_two(nodes, place).joined(ahead_of_two(nodes, place + 2))
}

/// What is ahead of the places below one, where none of them is past the end. In halves, so that a processor need not
/// look at them one by one.
fn ahead_of_eight(nodes: &[Node], place: usize) -> First
    requires { place * 8 + 8 < length nodes.now }
    ensures { result ≡ ahead_below nodes.now place }
{
    let first = place * BELOW + 1;
    ahead_of_four(nodes, first).joined(ahead_of_four(nodes, first + 4))
}

/// What is ahead of the places below one.
fn ahead_below(nodes: &[Node], place: usize) -> First
    ensures { result ≡ ahead_below nodes.now place }
{
    let mut ahead = First::nothing();
    if place > nodes.len() / BELOW {
        return ahead;
    }
    if place * BELOW + BELOW < nodes.len() {
        return ahead_of_eight(nodes, place);
    }
    // the others of the eight are past the end
    let first = place * BELOW + 1;
    for below in 0..nodes.len().saturating_sub(first) {
        ahead = ahead.joined(nodes[first + below].ahead);
    }
    ahead
}

/// Puts right what is ahead of a place, and of those above it up to one of which it stays the same.
fn lift(nodes: &mut [Node], place: usize)
    requires within { place < length nodes.old }
    requires others { IsTreeBut nodes.old place }
    ensures kept { kept_in nodes.new ≡ kept_in nodes.old }
    ensures tree { IsTree nodes.new }
{
    let old = nodes[place];
    let ahead = old.kept.own().joined(ahead_below(nodes, place));
    if ahead.is(old.ahead) {
        return;
    }
    nodes[place].ahead = ahead;
    if place > 0 {
        lift(nodes, (place - 1) / BELOW);
    }
}

/// Puts what is missing ahead of a place, and of those above it, up to one of which nothing is: what is added needs no
/// look at the other places.
fn raise(nodes: &mut [Node], place: usize, more: First)
    requires within { place < length nodes.old }
    requires missing { IsTreeWithout nodes.old place more }
    ensures kept { kept_in nodes.new ≡ kept_in nodes.old }
    ensures tree { IsTree nodes.new }
{
    let old = nodes[place].ahead;
    let ahead = old.joined(more);
    if ahead.is(old) {
        return;
    }
    nodes[place].ahead = ahead;
    if place > 0 {
        raise(nodes, (place - 1) / BELOW, more);
    }
}

/// Keeps this of the message at a place, and puts right what is ahead of the place and of those above it. Where nothing
/// was ahead of the message, as of one that is added, what is ahead of it needs no look at the other places.
pub(crate) fn change(nodes: &mut [Node], place: usize, kept: Progress)
    requires within { place < length nodes.old }
    requires tree { IsTree nodes.old }
    ensures kept { kept_in nodes.new ≡ slice_set (kept_in nodes.old) place kept }
    ensures tree { IsTree nodes.new }
{
    let is_added = nodes[place].kept.has_no_more();
    nodes[place].kept = kept;
    if is_added {
        raise(nodes, place, kept.own());
    } else {
        lift(nodes, place);
    }
}

/// Makes the tree anew.
pub(crate) fn build(nodes: &mut [Node])
    ensures kept { kept_in nodes.new ≡ kept_in nodes.old }
    ensures tree { IsTree nodes.new }
{
    let mut left = nodes.len();
    while left > 0 {
        left -= 1;
        let own = nodes[left].kept.own();
        let below = ahead_below(nodes, left);
        nodes[left].ahead = own.joined(below);
    }
}

/// Looks again at the message of a place, if `slot` is a slot to do so, and puts right what is ahead of the place.
fn refresh(nodes: &mut [Node], place: usize, slot: u16)
    requires within { place < length nodes.old }
    requires right { All (IsRight slot) (kept_in nodes.old) }
    requires turns { All HasTurn (kept_in nodes.old) }
    ensures seen { seen_in slot nodes.new ≡ seen_in slot nodes.old }
    ensures right { All (IsRight slot) (kept_in nodes.new) }
    ensures turns { All HasTurn (kept_in nodes.new) }
    ensures others { (k : ℕ) → k ≢ place → ahead_at nodes.new k ≡ ahead_at nodes.old k }
    ensures awake { slot < (own_at nodes.new place).wake }
    ensures node { IsNode nodes.new place }
    ensures nodes { KeepsNodesBut nodes.old nodes.new place }
{
    let below = ahead_below(nodes, place);
    nodes[place].refresh(slot, below);
}

/// Lists a place behind those that are listed, if it is due, and says how many are then listed.
fn list_place(listed: &mut [usize], count: usize, place: usize, is_due: bool) -> usize
    requires { count < length listed.old }
    ensures written { listed.new ≡ slice_set listed.old count place }
    ensures counted { result ≡ count + (if is_due then 1 else 0) }
{
    // written in either case, which spares a branch that can't be foreseen
    listed[count] = place;
    if is_due { count + 1 } else { count }
}

/// Lists, behind the places that are listed, each place below this one at or below which a message is to be looked at
/// again by `slot`, where none of the places below this one is past the end.
fn list_eight(nodes: &[Node], listed: &mut [usize], count: usize, place: usize, slot: u16) -> usize
    requires room { length nodes.now ≤ length listed.old }
    requires within { place * 8 + 8 < length nodes.now }
    requires before { AreListed slot nodes.now listed.old count (place * 8 + 1) }
    ensures stays { (i : ℕ) → i < count → slice_index_or listed.new i 0 ≡ slice_index_or listed.old i 0 }
    ensures more { count ≤ result }
    ensures listed { AreListed slot nodes.now listed.new result (place * 8 + 9) }
{
    let first = place * BELOW + 1;
    let eight = &nodes[first..first + BELOW];
    let mut found = count;
    for below in 0..BELOW {
        let is_due = eight[below].ahead.wake <= u32::from(slot);
        found = list_place(listed, found, first + below, is_due);
    }
    found
}

/// Lists, behind the places that are listed, each place below this one at or below which a message is to be looked at
/// again by `slot`.
fn list_below(nodes: &[Node], listed: &mut [usize], count: usize, place: usize, slot: u16) -> usize
    requires room { length nodes.now ≤ length listed.old }
    requires before { AreListed slot nodes.now listed.old count (place * 8 + 1) }
    ensures stays { (i : ℕ) → i < count → slice_index_or listed.new i 0 ≡ slice_index_or listed.old i 0 }
    ensures more { count ≤ result }
    ensures listed { AreListed slot nodes.now listed.new result (place * 8 + 9) }
{
    let mut found = count;
    if place > nodes.len() / BELOW {
        return found;
    }
    if place * BELOW + BELOW < nodes.len() {
        return list_eight(nodes, listed, count, place, slot);
    }
    // the others of the eight are past the end
    let first = place * BELOW + 1;
    for below in 0..nodes.len().saturating_sub(first) {
        let child = first + below;
        let is_due = nodes[child].ahead.wake <= u32::from(slot);
        found = list_place(listed, found, child, is_due);
    }
    found
}

/// Lists, in rising order, the places at or below which a message is to be looked at again by `slot`, and says how many
/// these are.
fn list_due(nodes: &[Node], listed: &mut [usize], slot: u16) -> usize
    requires room { length nodes.now ≤ length listed.old }
    requires tree { IsTree nodes.now }
    ensures { AreDue slot nodes.now listed.new result }
{
    if ahead_at(nodes, 0).wake > u32::from(slot) {
        return 0;
    }
    listed[0] = 0;
    let mut count = 1;
    let mut looked = 0;
    while looked < count {
        let place = listed[looked];
        count = list_below(nodes, listed, count, place, slot);
        looked += 1;
    }
    count
}

/// Looks again at the messages of the places that are listed, each behind those below it: a broadcast that is due is
/// dropped, and the next one begins.
fn renew_listed(nodes: &mut [Node], listed: &[usize], count: usize, slot: u16)
    requires due { AreDue slot nodes.old listed.now count }
    requires room { count ≤ length listed.now }
    requires kept { AreKeptInOrder slot nodes.old }
    ensures seen { seen_in slot nodes.new ≡ seen_in slot nodes.old }
    ensures kept { AreKeptInOrder slot nodes.new }
    ensures awake { slot < (ahead_at nodes.new 0).wake }
{
    let mut left = count;
    while left > 0 {
        left -= 1;
        refresh(nodes, listed[left], slot);
    }
}

/// Looks again at each message for which `slot` is a slot to do so.
//
// Inlined, since most slots find nothing to look at again.
#[inline(always)]
pub(crate) fn renew_all(nodes: &mut [Node], listed: &mut [usize], slot: u16)
    requires room { length nodes.old ≤ length listed.old }
    requires kept { AreKeptInOrder slot nodes.old }
    ensures seen { seen_in slot nodes.new ≡ seen_in slot nodes.old }
    ensures kept { AreKeptInOrder slot nodes.new }
    ensures awake { slot < (ahead_at nodes.new 0).wake }
{
    let count = list_due(nodes, listed, slot);
    renew_listed(nodes, listed, count, slot);
}

/// A place up to which all messages have lesser numbers than `entry`: one near the end, if that can be seen there,
/// since most of those that are looked for were added of late; else the first.
fn near_end(nodes: &[Node], entry: u16) -> usize
    requires { AreRising nodes.now }
    ensures within { result ≤ length nodes.now }
    ensures before { (k : ℕ) (d : Node) → k < result
        → (slice_index_or nodes.now k d).kept.scheduled.item.entry < entry }
{
    let near = nodes.len().saturating_sub(NEAR);
    if near > 0 && nodes[near - 1].kept.scheduled.item.entry < entry {
        near
    } else {
        0
    }
}

/// The place of the message of `entry`, where there is one, by a search: those before it have lesser numbers.
fn place_by_search(nodes: &[Node], entry: u16) -> usize
    requires { AreRising nodes.now }
    ensures { IsPlaceOf entry nodes.now result }
{
    let mut low = near_end(nodes, entry);
    let mut high = nodes.len();
    while low < high {
        let middle = low + (high - low) / 2;
        if nodes[middle].kept.scheduled.item.entry < entry {
            low = middle + 1;
        } else {
            high = middle;
        }
    }
    low
}

/// Whether a message of `entry` stands at a place.
fn stands_at(nodes: &[Node], place: usize, entry: u16) -> bool
    ensures { result ≡ true → (place < length nodes.now)
        × ((d : Node) → (slice_index_or nodes.now place d).kept.scheduled.item.entry ≡ entry) }
{
    place < nodes.len() && nodes[place].kept.scheduled.item.entry == entry
}

/// The place at which the message of `entry` stands if all numbers from its own to the last message's were given to
/// messages: most of those that are looked for were added of late.
fn likely_place(nodes: &[Node], entry: u16) -> usize {
    match nodes.last() {
        None => 0,
        Some(last) => {
            let later = last.kept.scheduled.item.entry.saturating_sub(entry);
            (nodes.len() - 1).saturating_sub(usize::from(later))
        }
    }
}

/// The place of the message of `entry`, where there is one: those before it have lesser numbers. The likely place is
/// looked at first.
pub(crate) fn place_of(nodes: &[Node], entry: u16) -> usize
    requires { AreRising nodes.now }
    ensures { IsPlaceOf entry nodes.now result }
{
    let likely = likely_place(nodes, entry);
    if stands_at(nodes, likely, entry) {
        likely
    } else {
        place_by_search(nodes, entry)
    }
}

/// The place of the message of `entry`, if there is one.
pub(crate) fn find(nodes: &[Node], entry: u16) -> Option<usize>
    requires { AreRising nodes.now }
    ensures { IsFoundTurn entry nodes.now result }
{
    let place = place_of(nodes, entry);
    if place < nodes.len() && nodes[place].kept.scheduled.item.entry == entry {
        Some(place)
    } else {
        None
    }
}

/// How many broadcasts of the message of `entry` are kept as completed.
pub(crate) fn completed_of(nodes: &[Node], entry: u16) -> u16
    requires { AreRising nodes.now }
    ensures { (slot : ℕ) → All (λ t. t.item.entry ≡ entry → result ≡ t.completed) (seen_in slot nodes.now) }
{
    match find(nodes, entry) {
        None => 0,
        Some(place) => nodes[place].kept.scheduled.completed,
    }
}

/// Whether all numbers of what is kept are below `entry`.
pub(crate) fn are_below(nodes: &[Node], entry: u16) -> bool
    requires { AreRising nodes.now }
    ensures { (slot : ℕ) → MatchBool result (All (λ t. t.item.entry < entry) (seen_in slot nodes.now))
        (Any (λ t. entry ≤ t.item.entry) (seen_in slot nodes.now)) }
{
    place_of(nodes, entry) == nodes.len()
}

/// Whether a message of `entry` is kept.
pub(crate) fn has_entry(nodes: &[Node], entry: u16) -> bool
    requires { AreRising nodes.now }
    ensures { (slot : ℕ) → MatchBool result (Any (λ t. t.item.entry ≡ entry) (seen_in slot nodes.now))
        (All (λ t. t.item.entry ≢ entry) (seen_in slot nodes.now)) }
{
    match find(nodes, entry) {
        None => false,
        Some(_) => true,
    }
}

/// Whether a message of `entry` is kept that was not stopped.
pub(crate) fn has_standing(nodes: &[Node], entry: u16) -> bool
    requires { AreRising nodes.now }
    ensures { (slot : ℕ) → MatchBool result
        (Any (λ t. (t.item.entry ≡ entry) × (t.stop ≡ None)) (seen_in slot nodes.now))
        (All (λ t. t.item.entry ≡ entry → t.stop ≢ None) (seen_in slot nodes.now)) }
{
    match find(nodes, entry) {
        None => false,
        Some(place) => match nodes[place].kept.scheduled.stop {
            None => true,
            Some(_) => false,
        },
    }
}
