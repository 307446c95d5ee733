//! Commands: what a cell is asked to do. A copy of a command is equal to it.

ghost use Rattle.std.specs.Prelude.{◌≡◌, IfOk, IfErr};
ghost use Rattle.bsc_table.specs.Orders.{IsWrite};
ghost use Rattle.bsc_table.specs.Record.{rank_of, is_background_category};

use cbs_page::{Dcs, Serial};
use cbsp_wire::Contents;
use scheduler::Rank;
use std::alloc::Global;

/// Out of memory: what was asked is undone.
pub use std::alloc::AllocError as Refused;

/// The category of a message (3GPP TS 48.049, 8.2, Category). Of two broadcasts that are due at the same slot, the one
/// of the high category is aired before the normal one. What background does is an own rule.
#[derive(Clone, Copy, Debug, PartialEq, Eq)]
pub enum Category {
    /// High priority.
    High,
    /// Normal.
    Normal,
    /// Background: aired only in slots that nothing else needs.
    Background,
}

impl Category {
    /// The rank of its messages in the schedule.
    pub(crate) fn rank(self) -> Rank
        ensures { result ≡ rank_of self }
    {
        match self {
            Category::High => Rank::High,
            Category::Normal => Rank::Normal,
            Category::Background => Rank::Background,
        }
    }

    /// Whether its messages reserve nothing, and are aired only where nothing else is pending.
    pub(crate) fn is_background(self) -> bool
        ensures { result ≡ is_background_category self }
    {
        match self {
            Category::High | Category::Normal => false,
            Category::Background => true,
        }
    }
}

/// What a cell is asked to do.
//
// The fields of a write stand in an order that leaves no gaps: a log and the notes keep a command for each order.
#[derive(Debug, PartialEq, Eq, Drop)]
pub enum Command {
    /// Broadcast this message, in place of an older one if one is named (3GPP TS 48.049, 8.1, WRITE-REPLACE).
    Write {
        /// The message identifier.
        id: u16,
        /// The serial number of the message.
        serial: Serial,
        /// The serial number of the message, of the same identifier, that it replaces.
        replaces: Option<Serial>,
        /// The category.
        category: Category,
        /// The data coding of the pages.
        dcs: Dcs,
        /// The repetition period in slots, from 1.
        period: u16,
        /// The broadcasts requested; 0 asks for broadcasts until a stop.
        broadcasts: u16,
        /// The pages' contents, in page order.
        contents: Contents,
    },
    /// Stop a message (3GPP TS 48.049, 8.1, KILL).
    Kill {
        /// The message identifier.
        id: u16,
        /// The serial number.
        serial: Serial,
    },
    /// Tell how often a message was broadcast, and whether it still is. Own: no message of 3GPP TS 48.049 here asks it.
    Status {
        /// The message identifier.
        id: u16,
        /// The serial number.
        serial: Serial,
    },
}

impl Command {
    /// An equal command.
    ///
    /// # Errors
    ///
    /// `Refused` if out of memory, which a write alone takes.
    pub fn copy(&self, alloc: Global) -> Result<Command, Refused>
        ensures copied { IfOk result (λ command. command ≡ self.now) }
        ensures refused { IfErr result (λ refused. IsWrite self.now) }
    {
        match self {
            Command::Write {
                id,
                serial,
                replaces,
                category,
                period,
                broadcasts,
                dcs,
                contents,
            } => Ok(Command::Write {
                id: *id,
                serial: *serial,
                replaces: *replaces,
                category: *category,
                period: *period,
                broadcasts: *broadcasts,
                dcs: *dcs,
                contents: contents.copy(alloc)?,
            }),
            Command::Kill { id, serial } => Ok(Command::Kill {
                id: *id,
                serial: *serial,
            }),
            Command::Status { id, serial } => Ok(Command::Status {
                id: *id,
                serial: *serial,
            }),
        }
    }
}
