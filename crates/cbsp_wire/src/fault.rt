//! Why octets were not read, or a message not written.

use thiserror::Error;

/// A refusal. The order in which `read` looks for them is the order of `first_fault` in specs/.
#[derive(Clone, Copy, Debug, PartialEq, Eq, Error)]
pub enum WireFault {
    /// The octets end before the message or one of its elements does.
    #[error("the message is cut off")]
    Truncated,
    /// Octets stand after the message.
    #[error("octets stand after the message")]
    TrailingBytes,
    /// A cause of 3GPP TS 48.049, 8.2: 00 parameter not recognised, 01 parameter value invalid, 04 unrecognised
    /// message, 05 missing mandatory element.
    #[error("refused with cause {0}")]
    Cause(u8),
    /// Memory ran out.
    #[error("out of memory")]
    Refused,
}
