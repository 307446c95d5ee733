//! What a cell's log holds: commands, each with its answer and the slot at which it was given.

use crate::command::Command;

/// How a message stands.
#[derive(Clone, Copy, Debug, PartialEq, Eq)]
pub enum State {
    /// It is broadcast.
    Standing,
    /// It was killed or replaced.
    Stopped {
        /// The slot before which it was: that slot doesn't air it.
        slot: u16,
    },
    /// The periods of its requested broadcasts are over.
    RanOut,
}

/// The answer to a command.
#[derive(Clone, Copy, Debug, PartialEq, Eq)]
pub enum Answer {
    /// The message stands from this slot on.
    Started {
        /// The slot.
        slot: u16,
    },
    /// So it does, and the message that it replaces stands no more.
    Replaced {
        /// The slot from which it stands: that of the answer, or a later one, where it takes over.
        slot: u32,
        /// How many broadcasts of the replaced message were completed.
        completed: u16,
    },
    /// The message stands no more.
    Stopped {
        /// How many of its broadcasts were completed.
        completed: u16,
    },
    /// The answer to a status.
    Told {
        /// How many of its broadcasts are completed.
        completed: u16,
        /// How it stands.
        state: State,
    },
    /// The answer to a status of a message that was never accepted here.
    Unknown,
    /// The command is refused with this cause (3GPP TS 48.049, 8.2, Cause).
    Cause(u8),
    /// Out of memory: the cell is as it was.
    Refused,
}

/// A command that was answered.
#[derive(Debug, PartialEq, Eq, Drop)]
pub struct Entry {
    /// The command.
    pub command: Command,
    /// The slot that was to be aired next when it was answered.
    pub slot: u16,
    /// The answer.
    pub answer: Answer,
}

/// What a slot airs: a page of the message of an entry.
#[derive(Clone, Copy, Debug, PartialEq, Eq)]
pub struct Aired {
    /// The entry's place in the log.
    pub entry: u16,
    /// The page, from 1.
    pub page: u8,
}

/// Slots from one up to, and without, another.
#[derive(Clone, Copy, Debug, PartialEq, Eq)]
pub struct SlotRange {
    /// The first slot.
    pub from: u16,
    /// The slot after the last one.
    pub to: u16,
}
