//! Serial numbers: which warning a page is of, and which version of it (3GPP TS 23.041, clause 9.4.1.2.1).

ghost use Rattle.std.specs.Prelude.{◌≡◌, ℕ, ◌+◌, ◌*◌, ◌/◌, ◌%◌, ◌<◌, SomeIff};
ghost use Rattle.cbs_page.specs.Serial.{serial_number, AreSerialFields};

use std::marker::Model;

/// A serial number of 16 bits: the geographical scope, the message code and the update number.
///
/// `Serial::new(0, 1, 0)` is the serial number 0010, `Serial::new(3, 1023, 15)` is FFFF.
#[derive(Clone, Copy, Debug, PartialEq, Eq)]
pub struct Serial {
    number: u16,
}

impl Model for Serial {
    ghost Value = { ℕ };

    ghost view = { λ s. s.number };

    ghost inverse = { λ n. record { number = n } };
}

impl Serial {
    /// The serial number of a scope (0 cell wide and immediate, 1 PLMN wide, 2 location or service area wide, 3 cell
    /// wide and normal), a message code (0 to 1,023) and an update number (0 to 15). None if one is out of its
    /// range.
    pub fn new(scope: u8, code: u16, update: u8) -> Option<Serial>
        ensures { SomeIff result (AreSerialFields scope code update) (serial_number scope code update) }
    {
        if scope < 4 && code < 1024 && update < 16 {
            Some(Serial {
                number: u16::from(scope) * 0x4000 + code * 0x10 + u16::from(update),
            })
        } else {
            None
        }
    }

    /// The serial number of these 16 bits.
    pub fn of(number: u16) -> Serial
        ensures { result ≡ number }
    {
        Serial { number }
    }

    /// All 16 bits, 0 to 65,535.
    pub fn number(self) -> u16
        ensures { result ≡ self }
    {
        let Serial { number } = self;
        number
    }

    /// The geographical scope, bits 15 and 14: 0 to 3.
    pub fn scope(self) -> u8
        ensures { result ≡ self / 16384 }
    {
        (self.number >> 14) as u8
    }

    /// The message code, bits 13 to 4: 0 to 1,023.
    pub fn code(self) -> u16
        ensures { result ≡ self / 16 % 1024 }
    {
        self.number >> 4 & 0x3FF
    }

    /// The update number, bits 3 to 0: 0 to 15.
    pub fn update(self) -> u8
        ensures { result ≡ self % 16 }
    {
        (self.number & 0xF) as u8
    }
}
