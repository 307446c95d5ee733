//! The rows of an orders file.

use cbs_page::{Dcs, Serial};
use cbsp_wire::Contents;

/// What a cell answered.
#[derive(Clone, Copy, Debug, PartialEq, Eq)]
pub struct CellAnswer {
    /// Why it refused (3GPP TS 48.049, 8.2.13; any octet); `None` if it took the order.
    pub cause: Option<u8>,
    /// How many broadcasts of the replaced or stopped message the answer says of the cell, if it says a valid number.
    pub done: Option<u16>,
}

/// What a cell was asked, and its answer, or that it lost its messages.
#[derive(Debug, Drop)]
pub enum CellOrder {
    /// Broadcast this, in place of an older message if one is named.
    Write {
        /// The message identifier.
        id: u16,
        /// The serial number of the new message.
        new_serial: Serial,
        /// The serial number of the message that it replaces.
        old_serial: Option<Serial>,
        /// 0 high, 1 background, 2 normal; any octet. Where the order has none it is 2.
        category: u8,
        /// The repetition period in slots of 1.883 s, 0 to 4,095.
        period: u16,
        /// How many broadcasts are requested, 0 to 65,535; 0 asks for broadcasts until a stop.
        broadcasts: u16,
        /// The data coding of the pages.
        dcs: Dcs,
        /// The pages' contents, 1 to 15.
        contents: Contents,
        /// The answer, if one came.
        answer: Option<CellAnswer>,
    },
    /// Stop a message.
    Kill {
        /// The message identifier.
        id: u16,
        /// The serial number of the message to stop.
        old_serial: Serial,
        /// The answer, if one came.
        answer: Option<CellAnswer>,
    },
    /// The cell lost its messages.
    Clear,
}

/// A row of an orders file.
#[derive(Debug, Drop)]
pub struct OrderRow {
    /// The slot of the answer, or of the order if none came.
    pub at: u64,
    /// When the answer came, or the order, in nanoseconds from 1970-01-01T00:00:00Z on. The text of a row has neither
    /// this nor the packet.
    pub time: u64,
    /// The number of the packet that ends the answer, or the order.
    pub packet: u64,
    /// What was asked and answered.
    pub order: CellOrder,
}
