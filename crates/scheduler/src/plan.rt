//! The plan of a cell.

ghost use Rattle.std.specs.Prelude.{◌≡◌, ◌≢◌, ◌+◌, ◌<◌, ◌≤◌, MatchBool, [], ◌∷◌, ◌++◌, length};
ghost use Rattle.std.specs.Prelude.{Some, All, Any, OnOk, OnErr};
ghost use Rattle.std.specs.Option.{ForSome};
ghost use Rattle.scheduler.specs.Message.{stopped_at};
ghost use Rattle.scheduler.specs.Air.{layer_of, class_of, IsChosen};
ghost use Rattle.scheduler.specs.Follows.{Follows, ForHistories, HasCompleted, IsStanding, HasStop, next_slot};
ghost use Rattle.scheduler.specs.Follows.{messages_of, message_of, message_from};
ghost use Rattle.scheduler.specs.QueueSteps.{IsNotBehind};

use crate::settled::{play_later, push, settle_if_grown, stop};
use crate::tournament::{Node, are_below, completed_of, has_entry, has_standing};
use std::alloc::Global;
use std::marker::Model;

/// Out of memory.
pub use std::alloc::AllocError as Refused;

/// Before which others the pages of a message are aired.
#[derive(Clone, Copy, Debug, PartialEq, Eq)]
pub enum Rank {
    /// Of two broadcasts that are due at the same slot, before a normal one.
    High,
    /// Before all background broadcasts.
    Normal,
    /// Only in slots in which no high and no normal broadcast is pending.
    Background,
}

impl Rank {
    /// 1 for background, which comes after all others, and 0 for those.
    pub(crate) fn layer(self) -> u8
        ensures { result ≡ layer_of self }
    {
        match self {
            Rank::High | Rank::Normal => 0,
            Rank::Background => 1,
        }
    }

    /// Within a layer: 0 for high, which comes before normal.
    pub(crate) fn class(self) -> u8
        ensures { result ≡ class_of self }
    {
        match self {
            Rank::High => 0,
            Rank::Normal | Rank::Background => 1,
        }
    }

    /// Of two ranks the one that comes first.
    pub(crate) fn foremost(self, other: Rank) -> Rank
        ensures of_first { IsNotBehind result self }
        ensures of_other { IsNotBehind result other }
    {
        match (self, other) {
            (Rank::High, _) | (_, Rank::High) => Rank::High,
            (Rank::Normal, _) | (_, Rank::Normal) => Rank::Normal,
            (Rank::Background, Rank::Background) => Rank::Background,
        }
    }
}

/// A message that is added to a plan, and is broadcast from its start on: broadcast j, counted from 0, is released at
/// `start + j * period`, and due at the release of the next one.
#[derive(Clone, Copy, Debug, PartialEq, Eq)]
pub struct Item {
    /// Its number in the log.
    pub entry: u16,
    /// The slot from which it stands.
    pub start: u32,
    /// How many pages it has, from 1.
    pub pages: u8,
    /// How many slots lie between one broadcast's release and the next one's, from 1.
    pub period: u16,
    /// How many broadcasts are requested. With 0 it stands until it is stopped.
    pub broadcasts: u16,
    /// Before which others its pages are aired.
    pub rank: Rank,
}

/// The schedule of a cell: it is told of the messages, and asked for each slot in order.
///
/// With one message of one page and a period of 2 slots, added at slot 0 as entry 0, `next(0)` is `Some((0, 1))`,
/// `next(1)` is `None` and `done(0)` is 1.
///
/// `Follows plan messages air` says, in a contract, that a plan stands for these messages and their air list so far.
/// What is not completed at its due slot is dropped, also where more is asked of the cell than it has slots for.
#[derive(Drop)]
pub struct Plan {
    slot: u16,
    /// How many messages at the front have ended for ever.
    past: usize,
    /// How many others there were when these were last counted.
    made: usize,
    /// A rank that none of the messages is before.
    foremost: Rank,
    nodes: Vec<Node>,
    /// Room for a list of places, which `next` makes anew.
    listed: Vec<usize>,
}

impl Model for Plan {
    ghost use Rattle.scheduler.specs.Follows.{PlanState};
    ghost use Rattle.scheduler.specs.QueueSteps.{HasQueueRoom, seen_in};

    ghost Value = { PlanState };

    ghost view = { λ p. record { slot = p.slot; scheduled = seen_in p.slot p.nodes.items } };

    ghost invariant = { λ p. HasQueueRoom p.slot p.past p.foremost p.nodes.items p.listed.items };
}

impl Plan {
    /// A plan with no message, for which slot 0 is asked next.
    pub fn new(alloc: Global) -> Self
        ensures follows { Follows result [] [] }
        ensures messages { messages_of result ≡ [] }
        ensures asked { next_slot result ≡ 0 }
    {
        Plan {
            slot: 0,
            past: 0,
            made: 0,
            foremost: Rank::Background,
            nodes: Vec::new(alloc),
            listed: Vec::new(alloc),
        }
    }

    /// Adds a message, that stands from the slot that is asked next, or from a later one. Its number is above those
    /// of the messages added before, and it has a page or more and a period of 1 slot or more.
    ///
    /// # Errors
    ///
    /// `Refused` if out of memory; the plan is unchanged then.
    pub fn add(&mut self, item: Item) -> Result<(), Refused>
        requires rising { All (λ m. m.entry < item.entry) (messages_of self.old) }
        requires from_next { next_slot self.old ≤ item.start }
        requires some_pages { 0 < item.pages }
        requires some_period { 0 < item.period }
        ensures follows { OnOk result (ForHistories self.old (λ messages air.
            Follows self.new (messages ++ message_from item ∷ []) air)) }
        ensures messages { OnOk result (messages_of self.new ≡ messages_of self.old ++ message_from item ∷ []) }
        ensures asked { next_slot self.new ≡ next_slot self.old }
        ensures refused { OnErr result (self.new ≡ self.old) }
    {
        if self.listed.push(0).is_err() {
            return Err(Refused);
        }
        let (past, made) = settle_if_grown(self.nodes.as_mut_slice(), self.past, self.made);
        self.past = past;
        self.made = made;
        self.foremost = self.foremost.foremost(item.rank);
        push(&mut self.nodes, past, item)
    }

    /// What `slot` airs: an entry and its page, counted from 1, or nothing. Each slot is asked once, from 0, in order,
    /// and there are at most 65,535.
    pub fn next(&mut self, slot: u16) -> Option<(u16, u8)>
        requires at_next { slot ≡ next_slot self.old }
        requires within { slot < 65535 }
        ensures chosen { ForHistories self.old (λ messages air. IsChosen messages air slot result) }
        ensures follows { ForHistories self.old (λ messages air. Follows self.new messages (air ++ result ∷ [])) }
        ensures messages { messages_of self.new ≡ messages_of self.old }
        ensures asked { next_slot self.new ≡ slot + 1 }
    {
        let used = play_later(
            self.nodes.as_mut_slice(),
            self.past,
            self.listed.as_mut_slice(),
            slot,
            self.foremost,
        );
        self.slot = slot + 1;
        used
    }

    /// Stops the message of `entry` before `slot`, which is asked next, and reports how many of its broadcasts were
    /// completed. It was added, and not stopped before.
    pub fn stop(&mut self, entry: u16, slot: u16) -> u16
        requires standing { Any (IsStanding entry) (messages_of self.old) }
        requires at_next { slot ≡ next_slot self.old }
        ensures completed { ForHistories self.old (λ messages air.
            All (HasCompleted entry result air slot) messages) }
        ensures follows { ForHistories self.old (λ messages air.
            Follows self.new (stopped_at entry slot messages) air) }
        ensures messages { messages_of self.new ≡ stopped_at entry slot (messages_of self.old) }
        ensures asked { next_slot self.new ≡ slot }
    {
        let completed = completed_of(self.nodes.as_slice(), entry);
        stop(self.nodes.as_mut_slice(), self.past, entry, slot);
        completed
    }

    /// How many broadcasts of the message of `entry` were completed in the slots that were asked. It was added.
    pub fn done(&self, entry: u16) -> u16
        requires { Any (λ m. m.entry ≡ entry) (messages_of self.now) }
        ensures { ForHistories self.now (λ messages air.
            All (HasCompleted entry result air (length air)) messages) }
    {
        completed_of(self.nodes.as_slice(), entry)
    }

    /// The slot that is asked next, from 0 to 65,535.
    pub fn next_slot(&self) -> u16
        ensures { result ≡ next_slot self.now }
    {
        self.slot
    }

    /// Whether the number is above those of the messages that were added, as `add` asks.
    pub fn is_above_all(&self, entry: u16) -> bool
        ensures { MatchBool result
            (All (λ m. m.entry < entry) (messages_of self.now))
            (Any (λ m. entry ≤ m.entry) (messages_of self.now)) }
    {
        are_below(self.nodes.as_slice(), entry)
    }

    /// Whether the message of `entry` was added, as `done` asks.
    pub fn is_added(&self, entry: u16) -> bool
        ensures { MatchBool result
            (Any (λ m. m.entry ≡ entry) (messages_of self.now))
            (All (λ m. m.entry ≢ entry) (messages_of self.now)) }
    {
        has_entry(self.nodes.as_slice(), entry)
    }

    /// Whether the message of `entry` was added, and not stopped, as `stop` asks.
    pub fn is_standing(&self, entry: u16) -> bool
        ensures { MatchBool result
            (Any (IsStanding entry) (messages_of self.now))
            (All (HasStop entry) (messages_of self.now)) }
    {
        has_standing(self.nodes.as_slice(), entry)
    }
}
