//! What a plan keeps of one message.

ghost use Rattle.std.specs.Prelude.{◌≡◌, ℕ, ◌+◌, ◌<◌, ◌≤◌, Some, None};
ghost use Rattle.scheduler.specs.Message.{broadcast_at, due};
ghost use Rattle.scheduler.specs.Follows.{message_of};
ghost use Rattle.scheduler.specs.PlanSteps.{IsFit, is_ready};

use crate::plan::Item;

/// A message, with what was aired of it.
#[derive(Clone, Copy)]
pub struct Scheduled {
    /// The message as it was added.
    pub item: Item,
    /// The slot before which it was stopped.
    pub stop: Option<u16>,
    /// How many pages of the broadcast that is under way were aired.
    pub pages_aired: u8,
    /// How many broadcasts were completed.
    pub completed: u16,
}

impl Scheduled {
    /// What is kept of a message that was just added.
    pub fn new(item: Item) -> Self
        ensures { result ≡ record { item = item; stop = None; pages_aired = 0; completed = 0 } }
    {
        Scheduled {
            item,
            stop: None,
            pages_aired: 0,
            completed: 0,
        }
    }

    /// The page after those that were aired, counted from 1.
    pub fn next_page(self) -> u8
        requires { self.pages_aired < self.item.pages }
        ensures { result ≡ self.pages_aired + 1 }
    {
        self.pages_aired + 1
    }

    /// Whether the broadcast in whose time `slot` lies is pending, where no page of it was aired: it is requested, and
    /// the message was not stopped by then.
    pub fn begins_by(self, slot: u16) -> bool
        requires fit { IsFit self slot }
        requires started { self.item.start ≤ slot }
        requires stopped { (stop : ℕ) → self.stop ≡ Some stop → stop ≤ slot }
        ensures { result ≡ is_ready (record self { pages_aired = 0 }) slot }
    {
        let Item {
            start,
            period,
            broadcasts,
            ..
        } = self.item;
        let is_requested = broadcasts == 0
            || u32::from(slot) < start + u32::from(broadcasts) * u32::from(period);
        self.stop.is_none() && is_requested
    }

    /// The slot at which the broadcast is due in whose time `slot` lies.
    pub fn due_after(self, slot: u16) -> u32
        requires started { self.item.start ≤ slot }
        requires some_period { 0 < self.item.period }
        ensures { result ≡ due (message_of self) (broadcast_at (message_of self) slot) }
    {
        let period = u32::from(self.item.period);
        let slot = u32::from(slot);
        slot + (period - (slot - self.item.start) % period)
    }
}
