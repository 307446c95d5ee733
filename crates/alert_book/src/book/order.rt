//! What the rows of a book order.

use cbsp_wire::Cells;
use std::marker::Model;

/// A text of a row. In clauses it is its octets, UTF-8.
#[derive(Debug, Drop)]
pub struct Text {
    /// The text.
    pub text: String,
}

impl Model for Text {
    ghost use Rattle.std.specs.Prelude.{ℕ, List, string_bytes};

    ghost Value = { List ℕ };

    ghost view = { λ t. string_bytes t.text };
}

/// What the messages of an alert are known by, but for their update number.
#[derive(Clone, Copy, Debug, PartialEq, Eq)]
pub struct Alert {
    /// The message identifier.
    pub id: u16,
    /// The geographical scope, 0 to 3.
    pub scope: u8,
    /// The message code, 0 to 1,023.
    pub code: u16,
}

/// What a row has cells send.
#[derive(Debug, Drop)]
pub struct Sending {
    /// The word of the text's language.
    pub language: Text,
    /// 0 high, 1 background, 2 normal.
    pub category: u8,
    /// The repetition period in slots, 1 to 1,024.
    pub period: u16,
    /// How many broadcasts are requested; 0 asks for broadcasts until a stop.
    pub broadcasts: u16,
    /// The cells, at least one, none twice.
    pub cells: Cells,
    /// The text.
    pub text: Text,
}

/// What a row does with an alert.
#[derive(Debug, Drop)]
pub enum Action {
    /// Its first version.
    Write(Sending),
    /// A later version.
    Update {
        /// Which: the first update of a name is 1, the last 15.
        update: u8,
        /// What is sent in place of the version before.
        sending: Sending,
    },
    /// It is stopped in these cells.
    Stop(Cells),
}

/// An order: a row of a book that isn't of the verb `cell`.
#[derive(Debug, Drop)]
pub struct Order {
    /// The row, from 1.
    pub row: u32,
    /// The slot at which it is given.
    pub at: u16,
    /// The alert's name.
    pub name: Text,
    /// The name's number: how many names were written before it.
    pub number: u16,
    /// What the alert's messages are known by.
    pub alert: Alert,
    /// What is done.
    pub action: Action,
}
