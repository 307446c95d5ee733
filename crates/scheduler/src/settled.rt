//! The messages of a plan, of which those at the front have ended for ever: they are kept for their counts alone. The
//! trees of what is ahead hold the later ones, so that a slot need not walk past what can't be aired any more.

ghost use Rattle.std.specs.Prelude.{◌≡◌, ◌<◌, ◌≤◌, ℕ, ◌+◌, length, All, AllPairs, map, take, drop};
ghost use Rattle.std.specs.Prelude.{◌==◌, slice_index_or, MatchBool, OnOk, OnErr, None, ◌++◌, ◌∷◌, []};
ghost use Rattle.scheduler.specs.PlanSteps.{IsChoice, after_slot, scheduled_stopped};
ghost use Rattle.scheduler.specs.declared.tournament.Node.{Node};
ghost use Rattle.scheduler.specs.QueueSteps.{kept_in, seen_in, kept_new, HasTurn, IsForest, AreRising, AreBehind};
ghost use Rattle.scheduler.specs.QueueSteps.{AreSettled, HasEnded, HasNoMore, HasReached, IsFoundTurn};

use crate::plan::{Item, Rank, Refused};
use crate::progress::Progress;
use crate::tournament::{Node, find};
use crate::trees::{BEFORE_LAST, build_trees, change_in, play, stop_at};
use crate::turn::First;

/// How many messages the trees hold at the least before some are taken out of it.
const FEW: usize = 4;

/// How many messages at the front have ended.
fn ended_in_front(nodes: &[Node]) -> usize
    ensures within { result ≤ length nodes.now }
    ensures ended { (k : ℕ) (d : Node) → k < result → HasNoMore (slice_index_or nodes.now k d).kept }
{
    let mut count = 0;
    while count < nodes.len() && nodes[count].kept.has_no_more() {
        count += 1;
    }
    count
}

/// Takes the messages that have ended out of the trees, as far as they are in front of all others, and says how many
/// are then before these.
fn settle(nodes: &mut [Node], past: usize) -> usize
    requires within { past ≤ length nodes.old }
    ensures within { result ≤ length nodes.new }
    ensures kept { kept_in nodes.new ≡ kept_in nodes.old }
    ensures settled { (slot : ℕ) → AreSettled slot past nodes.old → AreSettled slot result nodes.new }
{
    let (_, later) = nodes.split_at_mut(past);
    let count = ended_in_front(later);
    let (_, left) = later.split_at_mut(count);
    build_trees(left, BEFORE_LAST);
    past + count
}

/// Takes the messages that have ended out of the trees where these hold twice as many as they were `made` with: so
/// often that they stay small, and so seldom that a message costs the same in a long log as in a short one. Says how
/// many are then before them, and with how many they were made.
pub(crate) fn settle_if_grown(nodes: &mut [Node], past: usize, made: usize) -> (usize, usize)
    requires within { past ≤ length nodes.old }
    ensures kept { kept_in nodes.new ≡ kept_in nodes.old }
    ensures settled { (slot : ℕ) → AreSettled slot past nodes.old → AreSettled slot result.0 nodes.new }
{
    if (nodes.len() - past) / 2 < made.max(FEW) {
        return (past, made);
    }
    let now = settle(nodes, past);
    (now, nodes.len() - now)
}

/// What `slot` airs, and what is kept after it. `listed` has room for a list of all places, and no message is of a rank
/// before `foremost`.
pub(crate) fn play_later(
    nodes: &mut [Node],
    past: usize,
    listed: &mut [usize],
    slot: u16,
    foremost: Rank,
) -> Option<(u16, u8)>
    requires within { slot < 65535 }
    requires room { length nodes.old ≤ length listed.old }
    requires kept { AreSettled slot past nodes.old }
    requires rising { AllPairs (λ a b. a.item.entry < b.item.entry) (seen_in slot nodes.old) }
    requires ranks { AreBehind foremost (seen_in slot nodes.old) }
    ensures chosen { IsChoice (seen_in slot nodes.old) slot result }
    ensures seen { seen_in (slot + 1) nodes.new ≡ map (after_slot slot result) (seen_in slot nodes.old) }
    ensures kept { AreSettled (slot + 1) past nodes.new }
{
    let (_, later) = nodes.split_at_mut(past);
    play(later, listed, slot, foremost)
}

/// Adds a message behind the others. After `Err` there is no room for it, and the places are as they were.
pub(crate) fn push(nodes: &mut Vec<Node>, past: usize, item: Item) -> Result<(), Refused>
    requires within { past ≤ length nodes.old.items }
    requires trees { IsForest 2 (drop past nodes.old.items) }
    ensures kept { OnOk result (kept_in nodes.new.items ≡ kept_in nodes.old.items ++ kept_new item ∷ []) }
    ensures ended { take past nodes.new.items ≡ take past nodes.old.items }
    ensures trees { IsForest 2 (drop past nodes.new.items) }
    ensures refused { OnErr result (nodes.new.items ≡ nodes.old.items) }
    ensures turn { HasTurn (kept_new item) }
{
    let place = nodes.len();
    let kept = Progress::idle(item);
    let ahead = First::nothing();
    match nodes.push(Node { kept, ahead }) {
        Ok(()) => {
            let (_, later) = nodes.as_mut_slice().split_at_mut(past);
            change_in(later, place - past, Progress::new(item), BEFORE_LAST);
            Ok(())
        }
        Err(_) => Err(Refused),
    }
}

/// Whether a message has `entry` or a greater number, which is that of the last one.
fn is_reached(nodes: &[Node], entry: u16) -> bool
    requires { AreRising nodes.now }
    ensures { MatchBool result (HasReached entry nodes.now) (IsFoundTurn entry nodes.now None) }
{
    let count = nodes.len();
    count > 0 && nodes[count - 1].kept.scheduled.item.entry >= entry
}

/// Stops the message of `entry` before `slot`, where it has ended.
fn stop_ended(nodes: &mut [Node], entry: u16, slot: u16)
    requires ended { All (HasEnded slot) (kept_in nodes.old) }
    requires rising { AreRising nodes.old }
    ensures seen { seen_in slot nodes.new ≡ map (λ t. scheduled_stopped (t.item.entry == entry) slot t)
        (seen_in slot nodes.old) }
    ensures ended { All (HasEnded slot) (kept_in nodes.new) }
{
    match find(nodes, entry) {
        None => {}
        Some(place) => {
            let kept = nodes[place].kept.stopped(slot);
            nodes[place].kept = kept;
        }
    }
}

/// Stops the message of `entry` before `slot`.
pub(crate) fn stop(nodes: &mut [Node], past: usize, entry: u16, slot: u16)
    requires kept { AreSettled slot past nodes.old }
    requires rising { AreRising nodes.old }
    ensures seen { seen_in slot nodes.new ≡ map (λ t. scheduled_stopped (t.item.entry == entry) slot t)
        (seen_in slot nodes.old) }
    ensures kept { AreSettled slot past nodes.new }
{
    let (ended, later) = nodes.split_at_mut(past);
    if is_reached(ended, entry) {
        stop_ended(ended, entry, slot);
    } else {
        stop_at(later, entry, slot);
    }
}
