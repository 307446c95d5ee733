//! A difference between what a cell was asked to broadcast and what its tape sends.

ghost use Rattle.std.specs.Prelude.{◌≡◌};
ghost use Rattle.verification.specs.Difference.{sort_key, kind_number, kind_place};

use cbs_page::Serial;

/// What isn't as it was asked. The slots that messages have to keep are those of their starts, stops and broadcasts in
/// the cell's record.
#[derive(Clone, Copy, Debug, PartialEq, Eq)]
pub enum Kind {
    /// A page of this number has another text, total or data coding than the message's, or can't be shown.
    Otherwise {
        /// The page's number, 1 to 15.
        page: u8,
    },
    /// A page of the message is sent before the message starts.
    BeforeStart,
    /// A page of the message is sent after its stop.
    AfterStop,
    /// A page of the message is sent after the periods of its requested broadcasts.
    AfterLast,
    /// By the slot in which this broadcast is due, not each page of the message was sent as it was asked.
    NotWhole {
        /// The broadcast, from 0.
        broadcast: u16,
    },
    /// A page is sent whose identifier and serial number are those of no message that the cell accepted.
    NotOrdered,
    /// A page of the message is sent twice, as it was asked, in the time of this broadcast.
    Again {
        /// The broadcast, from 0.
        broadcast: u16,
    },
}

/// A difference, at the slot at which it shows.
#[derive(Clone, Copy, Debug, PartialEq, Eq)]
pub struct Difference {
    /// The slot: that of the first such page, or that in which the broadcast is due.
    pub slot: usize,
    /// The message identifier.
    pub id: u16,
    /// The serial number.
    pub serial: Serial,
    /// What isn't as it was asked.
    pub kind: Kind,
}

impl Kind {
    /// Its place among the kinds, and the number of its page or broadcast.
    pub fn place(self) -> (u8, u16)
        ensures { result ≡ (kind_place self, kind_number self) }
    {
        match self {
            Kind::Otherwise { page } => (0, u16::from(page)),
            Kind::BeforeStart => (1, 0),
            Kind::AfterStop => (2, 0),
            Kind::AfterLast => (3, 0),
            Kind::NotWhole { broadcast } => (4, broadcast),
            Kind::NotOrdered => (5, 0),
            Kind::Again { broadcast } => (6, broadcast),
        }
    }
}

impl Difference {
    /// What it is sorted by.
    pub(crate) fn key(&self) -> (usize, u16, u16, u8, u16)
        ensures { result ≡ sort_key self.now }
    {
        let (place, number) = self.kind.place();
        (self.slot, self.id, self.serial.number(), place, number)
    }
}
