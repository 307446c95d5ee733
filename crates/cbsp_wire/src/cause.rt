//! The causes for which a message, or an order in a cell, is refused (3GPP TS 48.049, 8.2, Cause).

/// Parameter not recognised (TS 48.049, 8.2, Cause): an element isn't of the message.
pub const PARAMETER_NOT_RECOGNISED: u8 = 0x00;

/// Parameter value invalid (TS 48.049, 8.2, Cause).
pub const PARAMETER_VALUE_INVALID: u8 = 0x01;

/// Message reference not identified (TS 48.049, 8.2, Cause): the cell broadcasts no such message.
pub const MESSAGE_REFERENCE_NOT_IDENTIFIED: u8 = 0x02;

/// Cell identity not valid (TS 48.049, 8.2, Cause).
pub const CELL_IDENTITY_NOT_VALID: u8 = 0x03;

/// Unrecognised message (TS 48.049, 8.2, Cause): no type has this octet.
pub const UNRECOGNISED_MESSAGE: u8 = 0x04;

/// Missing mandatory element (TS 48.049, 8.2, Cause).
pub const MISSING_MANDATORY_ELEMENT: u8 = 0x05;

/// BSC capacity exceeded (TS 48.049, 8.2, Cause).
pub const BSC_CAPACITY_EXCEEDED: u8 = 0x06;

/// Cell memory exceeded (TS 48.049, 8.2, Cause).
pub const CELL_MEMORY_EXCEEDED: u8 = 0x07;

/// BSC memory exceeded (TS 48.049, 8.2, Cause).
pub const BSC_MEMORY_EXCEEDED: u8 = 0x08;

/// Cell broadcast not operational (TS 48.049, 8.2, Cause).
pub const CELL_BROADCAST_NOT_OPERATIONAL: u8 = 0x0A;

/// Extended channel not supported (TS 48.049, 8.2, Cause).
pub const EXTENDED_CHANNEL_NOT_SUPPORTED: u8 = 0x0C;

/// Message reference already used (TS 48.049, 8.2, Cause): the cell accepted a message of this identifier and serial
/// number before.
pub const MESSAGE_REFERENCE_ALREADY_USED: u8 = 0x0D;
