//! A difference between what a cell was ordered and answered, and what its channel sends.

ghost use Rattle.std.specs.Prelude.{◌≡◌};
ghost use Rattle.order_verdict.specs.Verdict.{of_air, order_key, order_number, order_place};

use cbs_page::Serial;
use verification::{Difference, Kind};

/// What isn't as it was ordered or answered.
#[derive(Clone, Copy, Debug, PartialEq, Eq)]
pub enum OrderKind {
    /// A page or a broadcast isn't as the order asks: it comes as another, too early, too late, again, not at all, or
    /// without an order.
    Air(Kind),
    /// More whole broadcasts come than were requested.
    MoreThanOrdered,
    /// The answer that ended the message says another number of broadcasts than came.
    Answer {
        /// How many it says.
        told: u16,
        /// How many whole broadcasts came.
        air: usize,
    },
    /// The order has no answer.
    NoAnswer,
}

/// A difference, at the slot at which it shows.
#[derive(Clone, Copy, Debug, PartialEq, Eq)]
pub struct OrderDifference {
    /// The slot: that of the first such page, that in which a broadcast is due, or that of the order or its answer.
    pub slot: usize,
    /// The message identifier.
    pub id: u16,
    /// The serial number.
    pub serial: Serial,
    /// What isn't as it was ordered or answered.
    pub kind: OrderKind,
}

impl OrderKind {
    /// Its place among the kinds, and the number of its page, broadcast or answer.
    fn place(self) -> (u8, u16)
        ensures { result ≡ (order_place self, order_number self) }
    {
        match self {
            OrderKind::Air(kind) => kind.place(),
            OrderKind::MoreThanOrdered => (7, 0),
            OrderKind::Answer { told, .. } => (8, told),
            OrderKind::NoAnswer => (9, 0),
        }
    }
}

impl OrderDifference {
    /// A difference of pages or broadcasts.
    pub(crate) fn of_air(difference: &Difference) -> OrderDifference
        ensures { result ≡ of_air difference.now }
    {
        OrderDifference {
            slot: difference.slot,
            id: difference.id,
            serial: difference.serial,
            kind: OrderKind::Air(difference.kind),
        }
    }

    /// What it is sorted by.
    pub(crate) fn key(&self) -> (usize, u16, u16, u8, u16)
        ensures { result ≡ order_key self.now }
    {
        let (place, number) = self.kind.place();
        (self.slot, self.id, self.serial.number(), place, number)
    }
}
