//! What the messages of the link say.

use cbs_page::{Dcs, Serial};
use cbsp_wire::Contents;
use std::marker::Model;

/// A network: the three octets of its country and network code, as they were sent (3GPP TS 24.008, 10.5.1.3).
#[derive(Clone, Copy, Debug, PartialEq, Eq)]
pub struct Plmn(pub u8, pub u8, pub u8);

/// What a list names: a cell, several, or none (3GPP TS 48.049, 8.2.6, Cell Identification Discriminator).
#[derive(Clone, Copy, Debug, PartialEq, Eq)]
pub enum LinkCell {
    /// Discriminator 0: the cell, by its network, location area code and cell identity.
    Global {
        /// The network.
        plmn: Plmn,
        /// The location area code.
        lac: u16,
        /// The cell identity.
        ci: u16,
    },
    /// Discriminator 1: the cell, by its location area code and cell identity.
    LacCi {
        /// The location area code.
        lac: u16,
        /// The cell identity.
        ci: u16,
    },
    /// Discriminator 2: the cell, by its cell identity.
    Ci {
        /// The cell identity.
        ci: u16,
    },
    /// Discriminator 3: no cell.
    Nothing,
    /// Discriminator 4: the cells of a location area of a network.
    Area {
        /// The network.
        plmn: Plmn,
        /// The location area code.
        lac: u16,
    },
    /// Discriminator 5: the cells of a location area.
    Lac {
        /// The location area code.
        lac: u16,
    },
    /// Discriminator 6: all cells of the controller.
    All,
}

/// How many broadcasts of a message a cell completed (3GPP TS 48.049, 8.2.10).
#[derive(Clone, Copy, Debug, PartialEq, Eq)]
pub struct LinkCount {
    /// The cell.
    pub cell: LinkCell,
    /// The number of broadcasts, 0 to 65,535.
    pub number: u16,
    /// What the number is worth: 0 valid, 1 overflow, 2 unknown; any octet is read and written.
    pub info: u8,
}

/// A cell that refused, and why (3GPP TS 48.049, 8.2.11).
#[derive(Clone, Copy, Debug, PartialEq, Eq)]
pub struct LinkFailure {
    /// The cell.
    pub cell: LinkCell,
    /// The cause (3GPP TS 48.049, 8.2.13); any octet is read and written.
    pub cause: u8,
}

/// A list of cells: `LinkCells { list }` of a `Vec`. In clauses it is the list itself.
#[derive(Debug, Drop)]
pub struct LinkCells {
    /// The cells, in the list's order.
    pub list: Vec<LinkCell>,
}

impl Model for LinkCells {
    ghost use Rattle.std.specs.Prelude.{List};
    ghost use Rattle.cbsp_link.specs.declared.message.LinkCell.{LinkCell};

    ghost Value = { List LinkCell };

    ghost view = { λ cells. cells.list.items };
}

/// A list of completed broadcasts: `LinkCounts { list }` of a `Vec`. In clauses it is the list itself.
#[derive(Debug, Drop)]
pub struct LinkCounts {
    /// The cells with their numbers, in the list's order.
    pub list: Vec<LinkCount>,
}

impl Model for LinkCounts {
    ghost use Rattle.std.specs.Prelude.{List};
    ghost use Rattle.cbsp_link.specs.declared.message.LinkCount.{LinkCount};

    ghost Value = { List LinkCount };

    ghost view = { λ counts. counts.list.items };
}

/// A list of failures: `LinkFailures { list }` of a `Vec`. In clauses it is the list itself.
#[derive(Debug, Drop)]
pub struct LinkFailures {
    /// The cells with their causes, in the list's order.
    pub list: Vec<LinkFailure>,
}

impl Model for LinkFailures {
    ghost use Rattle.std.specs.Prelude.{List};
    ghost use Rattle.cbsp_link.specs.declared.message.LinkFailure.{LinkFailure};

    ghost Value = { List LinkFailure };

    ghost view = { λ failures. failures.list.items };
}

/// The order that a reply answers.
#[derive(Clone, Copy, Debug, PartialEq, Eq)]
pub enum Answered {
    /// An order to broadcast.
    Write {
        /// The serial number of the new message.
        new_serial: Serial,
        /// The serial number of the message that it replaces.
        old_serial: Option<Serial>,
    },
    /// An order to stop.
    Kill {
        /// The serial number of the message to stop.
        old_serial: Serial,
    },
}

/// A message (3GPP TS 48.049, 8.1.3). Where an element is optional, `None` or an empty list says that it is left out.
#[derive(Debug, Drop)]
pub enum LinkMessage {
    /// Broadcast this on the cell broadcast channel, in place of an older message if one is named (WRITE-REPLACE with a
    /// channel indicator).
    Write {
        /// The message identifier.
        id: u16,
        /// The serial number of the new message.
        new_serial: Serial,
        /// The serial number of the message that it replaces.
        old_serial: Option<Serial>,
        /// The cells to broadcast in.
        cells: LinkCells,
        /// 0 basic channel, 1 extended channel; any octet is read.
        channel: u8,
        /// 0 high, 1 background, 2 normal; any octet is read.
        category: Option<u8>,
        /// The repetition period in slots of 1.883 s, 0 to 4,095.
        period: u16,
        /// How many broadcasts are requested, 0 to 65,535; 0 asks for broadcasts until a stop.
        broadcasts: u16,
        /// The data coding of the pages, whether or not this project knows its alphabet.
        dcs: Dcs,
        /// The pages' contents, 1 to 15. Any number of used octets is read, 0 to 82 are written.
        contents: Contents,
    },
    /// An emergency message (WRITE-REPLACE without a channel indicator), which goes over the paging channel. What it
    /// says besides isn't read.
    Emergency {
        /// The message identifier.
        id: u16,
        /// The serial number of the new message.
        new_serial: Serial,
        /// The serial number of the message that it replaces.
        old_serial: Option<Serial>,
        /// The cells to send it in.
        cells: LinkCells,
    },
    /// Stop a message (KILL).
    Kill {
        /// The message identifier.
        id: u16,
        /// The serial number of the message to stop.
        old_serial: Serial,
        /// The cells to stop it in.
        cells: LinkCells,
        /// 0 basic channel, 1 extended channel; any octet is read.
        channel: Option<u8>,
    },
    /// Every cell took the order (WRITE-REPLACE COMPLETE, KILL COMPLETE).
    Done {
        /// The message identifier.
        id: u16,
        /// The order.
        order: Answered,
        /// How often the replaced or stopped message was broadcast.
        completed: LinkCounts,
        /// The cells that took the order.
        cells: LinkCells,
        /// 0 basic channel, 1 extended channel; any octet is read.
        channel: Option<u8>,
    },
    /// Some cell refused the order (WRITE-REPLACE FAILURE, KILL FAILURE).
    Failed {
        /// The message identifier.
        id: u16,
        /// The order.
        order: Answered,
        /// The cells that refused.
        failures: LinkFailures,
        /// How often the replaced or stopped message was broadcast.
        completed: LinkCounts,
        /// The cells that took the order.
        cells: LinkCells,
        /// 0 basic channel, 1 extended channel; any octet is read.
        channel: Option<u8>,
    },
    /// Stop all messages (RESET).
    Reset {
        /// The cells in which they end.
        cells: LinkCells,
    },
    /// All messages have ended (RESET COMPLETE).
    ResetDone {
        /// The cells in which they have.
        cells: LinkCells,
    },
    /// Messages go on somewhere (RESET FAILURE).
    ResetFailed {
        /// The cells that refused.
        failures: LinkFailures,
        /// The cells in which they have ended.
        cells: LinkCells,
    },
    /// Cells broadcast again, after they didn't (RESTART).
    Restart {
        /// The cells.
        cells: LinkCells,
        /// Of which messages: 0 those of the cell broadcast channel, 1 emergency messages; any octet is read.
        broadcast_type: u8,
        /// 0 the messages are still there, 1 they are lost; any octet is read.
        recovery: u8,
    },
    /// Cells broadcast no more (FAILURE).
    Failure {
        /// The cells, each with the cause.
        failures: LinkFailures,
        /// Of which messages: 0 those of the cell broadcast channel, 1 emergency messages; any octet is read.
        broadcast_type: u8,
    },
    /// A message of another type, which isn't looked into.
    Other {
        /// The first octet.
        message_type: u8,
    },
}
