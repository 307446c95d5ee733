//! The six types of message, and which elements each of them has.

ghost use Rattle.std.specs.Prelude.{◌≡◌, ℕ};
ghost use Rattle.cbsp_wire.specs.Table.{type_from_octet, octet_of_type, presence_of};

/// The type of a message (3GPP TS 48.049, 8.1).
#[derive(Clone, Copy, Debug, PartialEq, Eq)]
pub enum MessageType {
    /// WRITE-REPLACE.
    Write,
    /// WRITE-REPLACE COMPLETE.
    WriteDone,
    /// WRITE-REPLACE FAILURE.
    WriteFailed,
    /// KILL.
    Kill,
    /// KILL COMPLETE.
    KillDone,
    /// KILL FAILURE.
    KillFailed,
}

/// Whether a type of message has an element.
#[derive(Clone, Copy, Debug, PartialEq, Eq)]
pub enum Presence {
    /// The message isn't whole without it.
    Mandatory,
    /// It may be left out.
    Optional,
    /// It is not of this message.
    Absent,
}

impl MessageType {
    /// The type that the first octet of a message says.
    pub(crate) fn from_octet(octet: u8) -> Option<MessageType>
        ensures { result ≡ type_from_octet octet }
    {
        match octet {
            1 => Some(MessageType::Write),
            2 => Some(MessageType::WriteDone),
            3 => Some(MessageType::WriteFailed),
            4 => Some(MessageType::Kill),
            5 => Some(MessageType::KillDone),
            6 => Some(MessageType::KillFailed),
            _ => None,
        }
    }

    /// The first octet of a message of this type.
    pub(crate) fn to_octet(self) -> u8
        ensures { result ≡ octet_of_type self }
    {
        match self {
            MessageType::Write => 1,
            MessageType::WriteDone => 2,
            MessageType::WriteFailed => 3,
            MessageType::Kill => 4,
            MessageType::KillDone => 5,
            MessageType::KillFailed => 6,
        }
    }
}
