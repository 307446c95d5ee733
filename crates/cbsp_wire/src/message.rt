//! What the six messages say.

ghost use Rattle.std.specs.Prelude.{◌≡◌, IfOk};
ghost use Rattle.std.specs.Cmp.{partial_equiv_from_equiv};
ghost use Rattle.cbsp_wire.specs.Same.{same_content, same_contents, same_contents_equiv};

use cbs_page::{Content, Dcs, Serial};
use std::alloc::{AllocError, Global};
use std::marker::Model;
use std::sync::ArcSlice;

pub(crate) mod iei;
pub(crate) mod message_type;

/// A cell, by its location area code and its cell identity: `Cell { lac: 1, ci: 1 }`.
#[derive(Clone, Copy, Debug, PartialEq, Eq)]
pub struct Cell {
    /// The location area code.
    pub lac: u16,
    /// The cell identity.
    pub ci: u16,
}

/// How many broadcasts of a message a cell completed (3GPP TS 48.049, 8.2, Number of Broadcasts Completed List).
#[derive(Clone, Copy, Debug, PartialEq, Eq)]
pub struct Count {
    /// The cell.
    pub cell: Cell,
    /// The number of broadcasts, 0 to 65,535.
    pub number: u16,
    /// What the number is worth: 0 says that it is valid; any octet is read and written.
    pub info: u8,
}

/// A cell that refused, and why (3GPP TS 48.049, 8.2, Failure List).
#[derive(Clone, Copy, Debug, PartialEq, Eq)]
pub struct Failure {
    /// The cell.
    pub cell: Cell,
    /// The cause (3GPP TS 48.049, 8.2, Cause).
    pub cause: u8,
}

/// A list of cells: `Cells { list }` of a `Vec`. In clauses it is the list itself. A message names 1 to 64 cells, none
/// twice.
#[derive(Debug, Drop)]
pub struct Cells {
    /// The cells, in the list's order.
    pub list: Vec<Cell>,
}

impl Model for Cells {
    ghost use Rattle.std.specs.Prelude.{List};
    ghost use Rattle.cbsp_wire.specs.declared.message.Cell.{Cell};

    ghost Value = { List Cell };

    ghost view = { λ cells. cells.list.items };
}

/// A list of completed broadcasts: `Counts { list }` of a `Vec`. In clauses it is the list itself. It names at most 64
/// cells, none twice.
#[derive(Debug, Drop)]
pub struct Counts {
    /// The cells with their numbers, in the list's order.
    pub list: Vec<Count>,
}

impl Model for Counts {
    ghost use Rattle.std.specs.Prelude.{List};
    ghost use Rattle.cbsp_wire.specs.declared.message.Count.{Count};

    ghost Value = { List Count };

    ghost view = { λ counts. counts.list.items };
}

/// A list of failures: `Failures { list }` of a `Vec`. In clauses it is the list itself. It names at most 64 cells,
/// none twice.
#[derive(Debug, Drop)]
pub struct Failures {
    /// The cells with their causes, in the list's order.
    pub list: Vec<Failure>,
}

impl Model for Failures {
    ghost use Rattle.std.specs.Prelude.{List};
    ghost use Rattle.cbsp_wire.specs.declared.message.Failure.{Failure};

    ghost Value = { List Failure };

    ghost view = { λ failures. failures.list.items };
}

/// The contents of a message's pages, one for each page, in page order. They never change, and those who keep them
/// share one list of them. In clauses it is the list.
#[derive(Debug, Drop)]
pub struct Contents {
    list: ArcSlice<Content>,
}

impl Model for Contents {
    ghost use Rattle.std.specs.Prelude.{List};
    ghost use Rattle.cbs_page.specs.declared.content.Content.{Content};

    ghost Value = { List Content };

    ghost use Rattle.std.specs.Arc.{arc_slice_items};

    ghost view = { λ contents. arc_slice_items contents.list };
}

impl Contents {
    /// The contents of a list, which stays where it is.
    ///
    /// # Errors
    ///
    /// `AllocError` if out of memory, of which the count of the owners takes some.
    pub fn new(list: Vec<Content>) -> Result<Contents, AllocError>
        ensures { IfOk result (λ contents. contents ≡ list.items) }
    {
        Ok(Contents {
            list: ArcSlice::from_vec(list)?,
        })
    }

    /// The contents, in page order.
    pub fn as_slice(&self) -> &[Content]
        ensures { result.now ≡ self.now }
    {
        self.list.as_slice()
    }

    /// Equal contents: those of the same list, for which no memory is taken, or of a list of their own if that one has
    /// as many owners as can be counted.
    ///
    /// # Errors
    ///
    /// `AllocError` if out of memory.
    pub fn copy(&self, alloc: Global) -> Result<Contents, AllocError>
        ensures { IfOk result (λ contents. contents ≡ self.now) }
    {
        match self.list.clone() {
            Ok(list) => Ok(Contents { list }),
            Err(_) => Contents::new(Vec::from_slice(alloc, self.as_slice())?),
        }
    }
}

/// Whether two contents are the same. Their octets are compared as slices, which looks at many of them at a time.
fn is_same(one: &Content, other: &Content) -> bool
    ensures { result ≡ same_content one.now other.now }
{
    one.used == other.used && one.octets.as_slice() == other.octets.as_slice()
}

/// Whether contents are the same, in the same order.
fn are_same(one: &[Content], other: &[Content]) -> bool
    ensures { result ≡ same_contents one.now other.now }
{
    let mut left = one;
    let mut other_left = other;
    'contents: while let [content, rest @ ..] = left {
        let [other_content, other_rest @ ..] = other_left else {
            return false;
        };
        if !is_same(content, other_content) {
            return false;
        }
        left = rest;
        other_left = other_rest;
    }
    other_left.is_empty()
}

impl PartialEq for Contents {
    ghost eq = { same_contents };

    ghost laws = { partial_equiv_from_equiv same_contents_equiv };

    fn eq(&self, other: &Contents) -> bool {
        are_same(self.as_slice(), other.as_slice())
    }
}

impl Eq for Contents {
    ghost laws = { same_contents_equiv };
}

/// A message (3GPP TS 48.049, 8.1). Where an element is optional, `None` or an empty list says that it is left out.
///
/// `Message::Kill { id: 4370, old_serial: Serial::of(0x0010), cells, channel: None }`, where `cells` names the cell
/// 1-1, is written as `04 00 00 0E 0E 11 12 02 00 10 04 00 05 01 00 01 00 01`.
#[derive(Debug, Drop)]
pub enum Message {
    /// Broadcast this, in place of an older message if one is named (WRITE-REPLACE).
    Write {
        /// The message identifier.
        id: u16,
        /// The serial number of the new message.
        new_serial: Serial,
        /// The serial number of the message that it replaces.
        old_serial: Option<Serial>,
        /// The cells to broadcast in.
        cells: Cells,
        /// 0 basic channel, 1 extended channel.
        channel: Option<u8>,
        /// 0 high, 1 background, 2 normal.
        category: Option<u8>,
        /// The repetition period in slots, 1 to 1,024.
        period: u16,
        /// How many broadcasts are requested, 0 to 65,535; 0 asks for broadcasts until a stop.
        broadcasts: u16,
        /// The data coding of the pages.
        dcs: Dcs,
        /// The pages' contents, 1 to 15.
        contents: Contents,
    },
    /// Every cell took the order (WRITE-REPLACE COMPLETE).
    WriteDone {
        /// The message identifier.
        id: u16,
        /// The serial number of the new message.
        new_serial: Serial,
        /// The serial number of the replaced message.
        old_serial: Option<Serial>,
        /// How often the replaced message was broadcast.
        completed: Counts,
        /// The cells that took the order.
        cells: Cells,
        /// 0 basic channel, 1 extended channel.
        channel: Option<u8>,
    },
    /// Some cell refused the order (WRITE-REPLACE FAILURE).
    WriteFailed {
        /// The message identifier.
        id: u16,
        /// The serial number of the new message.
        new_serial: Serial,
        /// The serial number of the message to replace.
        old_serial: Option<Serial>,
        /// The cells that refused.
        failures: Failures,
        /// How often the replaced message was broadcast.
        completed: Counts,
        /// The cells that took the order.
        cells: Cells,
        /// 0 basic channel, 1 extended channel.
        channel: Option<u8>,
    },
    /// Stop a message (KILL).
    Kill {
        /// The message identifier.
        id: u16,
        /// The serial number of the message to stop.
        old_serial: Serial,
        /// The cells to stop it in.
        cells: Cells,
        /// 0 basic channel, 1 extended channel.
        channel: Option<u8>,
    },
    /// Every cell stopped it (KILL COMPLETE).
    KillDone {
        /// The message identifier.
        id: u16,
        /// The serial number of the stopped message.
        old_serial: Serial,
        /// How often it was broadcast.
        completed: Counts,
        /// The cells that stopped it.
        cells: Cells,
        /// 0 basic channel, 1 extended channel.
        channel: Option<u8>,
    },
    /// Some cell refused to stop it (KILL FAILURE).
    KillFailed {
        /// The message identifier.
        id: u16,
        /// The serial number of the message to stop.
        old_serial: Serial,
        /// The cells that refused.
        failures: Failures,
        /// How often it was broadcast.
        completed: Counts,
        /// The cells that stopped it.
        cells: Cells,
        /// 0 basic channel, 1 extended channel.
        channel: Option<u8>,
    },
}
