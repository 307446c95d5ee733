//! What a plan keeps of one message between the slots at which something begins or ends for it.

ghost use Rattle.std.specs.Prelude.{◌≡◌, ◌<◌, true};
ghost use Rattle.scheduler.specs.QueueSteps.{HasTurn, HasNoMore, IsRight, refreshed, aired, stopped, own};
ghost use Rattle.scheduler.specs.QueueSteps.{kept_idle, kept_new};

use crate::plan::Item;
use crate::scheduled::Scheduled;
use crate::turn::{First, turn_number};

/// A message, with what is true of it up to a slot.
#[derive(Clone, Copy)]
pub struct Progress {
    /// The message, with what was aired of it: the pages are those of the broadcast that is due at `until`.
    pub scheduled: Scheduled,
    /// The slot at which it is to be looked at again: the next release, or none (4,294,967,295).
    pub until: u32,
    /// Whether it has a pending broadcast up to then.
    pub is_open: bool,
}

impl Progress {
    /// What is kept of a message that was just added: it is looked at when its first broadcast is released.
    pub fn new(item: Item) -> Self
        ensures { result ≡ kept_new item }
    {
        Progress {
            scheduled: Scheduled::new(item),
            until: item.start,
            is_open: false,
        }
    }

    /// What is kept of a message that is to be added: nothing is ahead of it, until it is replaced by `new`.
    pub fn idle(item: Item) -> Self
        ensures { result ≡ kept_idle item }
    {
        Progress {
            scheduled: Scheduled::new(item),
            until: u32::MAX,
            is_open: false,
        }
    }

    /// What is kept of it at `slot`: where it was to be looked at again by then, what is under way there. The
    /// broadcasts that passed since it was looked at last need no look of their own.
    pub fn refreshed(self, slot: u16) -> Progress
        requires { IsRight slot self }
        ensures value { result ≡ refreshed slot self }
        ensures turn { HasTurn result }
    {
        if u32::from(slot) < self.until {
            return self;
        }
        let is_open = self.scheduled.begins_by(slot);
        let until = if is_open {
            self.scheduled.due_after(slot)
        } else {
            u32::MAX
        };
        Progress {
            scheduled: Scheduled {
                pages_aired: 0,
                ..self.scheduled
            },
            until,
            is_open,
        }
    }

    /// What is kept of it once its next page was aired.
    pub fn aired(self) -> Progress
        requires some_left { self.scheduled.pages_aired < self.scheduled.item.pages }
        requires few { self.scheduled.completed < 65535 }
        ensures { result ≡ aired self }
    {
        let pages_aired = self.scheduled.pages_aired + 1;
        let is_completed = pages_aired == self.scheduled.item.pages;
        Progress {
            scheduled: Scheduled {
                pages_aired,
                completed: self.scheduled.completed + u16::from(is_completed),
                ..self.scheduled
            },
            is_open: pages_aired < self.scheduled.item.pages,
            ..self
        }
    }

    /// What is kept of it once it was stopped before `slot`.
    pub fn stopped(self, slot: u16) -> Progress
        ensures { result ≡ stopped slot self }
    {
        Progress {
            scheduled: Scheduled {
                stop: Some(slot),
                ..self.scheduled
            },
            is_open: false,
            ..self
        }
    }

    /// Whether it has no pending broadcast, and is never to be looked at again.
    pub fn has_no_more(self) -> bool
        ensures { result ≡ true → HasNoMore self }
    {
        self.until == u32::MAX && !self.is_open
    }

    /// What is ahead of it alone.
    pub fn own(self) -> First
        ensures { result ≡ own self }
    {
        if !self.is_open {
            return First {
                wake: self.until,
                ..First::nothing()
            };
        }
        let item = self.scheduled.item;
        First {
            first: turn_number(item.rank.layer(), self.until, item.rank.class(), item.entry),
            wake: self.until,
        }
    }
}
