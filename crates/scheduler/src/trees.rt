//! The messages of a plan that have not ended for ever, in a few trees one behind the other, the later the larger. A
//! slot asks a tree only if none of those before it has a turn that comes before all that the tree can have. In a tree
//! that isn't asked nothing is looked at again: what passes there unaired costs nothing until the tree is asked.

ghost use Rattle.std.specs.Prelude.{◌≡◌, ◌<◌, ◌≤◌, ℕ, ◌+◌, length, All, AllPairs, map, slice_set, ◌==◌, true};
ghost use Rattle.scheduler.specs.declared.tournament.Node.{Node};
ghost use Rattle.scheduler.specs.PlanSteps.{IsChoice, after_slot, scheduled_stopped};
ghost use Rattle.scheduler.specs.QueueSteps.{kept_in, seen_in, tree_size, ready_turn, IsForest, AreInTrees};
ghost use Rattle.scheduler.specs.QueueSteps.{IsLeastTurn, AreBehind, AreRising, IsRight, HasTurn, own, own_at};

use crate::plan::Rank;
use crate::progress::Progress;
use crate::tournament::{Node, ahead_at, build, change, find, place_of, renew_all};
use crate::turn::{entry_of, turn_number};

/// How many trees are before the last one.
pub(crate) const BEFORE_LAST: usize = 2;

/// How many messages at the most stand in a tree that so many trees come after.
fn tree_size(later: usize) -> usize
    ensures { result ≡ tree_size later }
{
    if later == 1 { 1024 } else { 73 }
}

/// Makes the trees anew.
pub(crate) fn build_trees(nodes: &mut [Node], later: usize)
    ensures kept { kept_in nodes.new ≡ kept_in nodes.old }
    ensures trees { IsForest later nodes.new }
{
    if later == 0 {
        build(nodes);
        return;
    }
    let (near, far) = nodes.split_at_mut(tree_size(later).min(nodes.len()));
    build(near);
    build_trees(far, later - 1);
}

/// Keeps this of the message at a place, and puts right its tree.
pub(crate) fn change_in(nodes: &mut [Node], place: usize, kept: Progress, later: usize)
    requires within { place < length nodes.old }
    requires trees { IsForest later nodes.old }
    ensures kept { kept_in nodes.new ≡ slice_set (kept_in nodes.old) place kept }
    ensures trees { IsForest later nodes.new }
{
    if later == 0 {
        change(nodes, place, kept);
        return;
    }
    let (near, far) = nodes.split_at_mut(tree_size(later).min(nodes.len()));
    let size = near.len();
    if place < size {
        change(near, place, kept);
    } else {
        change_in(far, place - size, kept, later - 1);
    }
}

/// Keeps this of the message at a place once a page of it was aired: if one is left of its broadcast, its turn stays,
/// and so does what is ahead of each place.
fn keep_aired(nodes: &mut [Node], place: usize, kept: Progress)
    requires within { place < length nodes.old }
    requires trees { IsForest 2 nodes.old }
    requires turn { kept.is_open ≡ true → own_at nodes.old place ≡ own kept }
    ensures kept { kept_in nodes.new ≡ slice_set (kept_in nodes.old) place kept }
    ensures trees { IsForest 2 nodes.new }
{
    if kept.is_open {
        nodes[place].kept = kept;
    } else {
        change_in(nodes, place, kept, BEFORE_LAST);
    }
}

/// Whether it shows at once that none of the messages has a turn before this one at `slot`: what is pending then is due
/// at the next slot or later, no message is of a rank before `foremost`, and none has a lesser number than the first.
fn comes_first(turn: u64, nodes: &[Node], slot: u16, foremost: Rank) -> bool
    requires within { slot < 65535 }
    requires right { All (IsRight slot) (kept_in nodes.now) }
    requires turns { All HasTurn (kept_in nodes.now) }
    requires rising { AreRising nodes.now }
    requires ranks { AreBehind foremost (seen_in slot nodes.now) }
    ensures { result ≡ true → All (λ t. turn ≤ ready_turn slot t) (seen_in slot nodes.now) }
{
    if nodes.is_empty() {
        return true;
    }
    let entry = nodes[0].kept.scheduled.item.entry;
    turn <= turn_number(
        foremost.layer(),
        u32::from(slot) + 1,
        foremost.class(),
        entry,
    )
}

/// The first turn that a message has at `slot`. Trees that have none before it aren't asked.
fn first_turn(
    nodes: &mut [Node],
    listed: &mut [usize],
    slot: u16,
    foremost: Rank,
    later: usize,
) -> u64
    requires within { slot < 65535 }
    requires room { length nodes.old ≤ length listed.old }
    requires kept { AreInTrees slot later nodes.old }
    requires rising { AreRising nodes.old }
    requires ranks { AreBehind foremost (seen_in slot nodes.old) }
    ensures seen { seen_in slot nodes.new ≡ seen_in slot nodes.old }
    ensures kept { AreInTrees slot later nodes.new }
    ensures least { IsLeastTurn slot nodes.new result }
{
    if later == 0 {
        renew_all(nodes, listed, slot);
        return ahead_at(nodes, 0).first;
    }
    let (near, far) = nodes.split_at_mut(tree_size(later).min(nodes.len()));
    renew_all(near, listed, slot);
    let first = ahead_at(near, 0).first;
    if comes_first(first, far, slot, foremost) {
        return first;
    }
    first.min(first_turn(far, listed, slot, foremost, later - 1))
}

/// What `slot` airs, the next page of the message that has the first turn, and what is kept after the slot.
fn air(nodes: &mut [Node], slot: u16, turn: u64) -> Option<(u16, u8)>
    requires within { slot < 65535 }
    requires kept { AreInTrees slot 2 nodes.old }
    requires rising { AreRising nodes.old }
    requires least { IsLeastTurn slot nodes.old turn }
    ensures chosen { IsChoice (seen_in slot nodes.old) slot result }
    ensures seen { seen_in (slot + 1) nodes.new ≡ map (after_slot slot result) (seen_in slot nodes.old) }
    ensures kept { AreInTrees (slot + 1) 2 nodes.new }
{
    let entry = entry_of(turn)?;
    let place = place_of(nodes, entry);
    let kept = nodes[place].kept;
    keep_aired(nodes, place, kept.aired());
    Some((entry, kept.scheduled.next_page()))
}

/// What `slot` airs, and what is kept after it. `listed` has room for a list of all places, and no message is of a rank
/// before `foremost`.
pub(crate) fn play(
    nodes: &mut [Node],
    listed: &mut [usize],
    slot: u16,
    foremost: Rank,
) -> Option<(u16, u8)>
    requires within { slot < 65535 }
    requires room { length nodes.old ≤ length listed.old }
    requires kept { AreInTrees slot 2 nodes.old }
    requires rising { AllPairs (λ a b. a.item.entry < b.item.entry) (seen_in slot nodes.old) }
    requires ranks { AreBehind foremost (seen_in slot nodes.old) }
    ensures chosen { IsChoice (seen_in slot nodes.old) slot result }
    ensures seen { seen_in (slot + 1) nodes.new ≡ map (after_slot slot result) (seen_in slot nodes.old) }
    ensures kept { AreInTrees (slot + 1) 2 nodes.new }
{
    let turn = first_turn(nodes, listed, slot, foremost, BEFORE_LAST);
    air(nodes, slot, turn)
}

/// Stops the message of `entry` before `slot`.
pub(crate) fn stop_at(nodes: &mut [Node], entry: u16, slot: u16)
    requires kept { AreInTrees slot 2 nodes.old }
    requires rising { AreRising nodes.old }
    ensures seen { seen_in slot nodes.new ≡ map (λ t. scheduled_stopped (t.item.entry == entry) slot t)
        (seen_in slot nodes.old) }
    ensures kept { AreInTrees slot 2 nodes.new }
{
    match find(nodes, entry) {
        None => {}
        Some(place) => {
            let kept = nodes[place].kept.stopped(slot);
            change_in(nodes, place, kept, BEFORE_LAST);
        }
    }
}
