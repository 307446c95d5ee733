//! The elements' identifiers (3GPP TS 48.049, 8.2, Information Element Identifier), each with the element that it
//! names.

/// Message Content (TS 48.049, 8.2): one page.
pub(crate) const MESSAGE_CONTENT: u8 = 0x01;

/// Old Serial Number (TS 48.049, 8.2).
pub(crate) const OLD_SERIAL_NUMBER: u8 = 0x02;

/// New Serial Number (TS 48.049, 8.2).
pub(crate) const NEW_SERIAL_NUMBER: u8 = 0x03;

/// Cell List (TS 48.049, 8.2).
pub(crate) const CELL_LIST: u8 = 0x04;

/// Category (TS 48.049, 8.2).
pub(crate) const CATEGORY: u8 = 0x05;

/// Repetition Period (TS 48.049, 8.2).
pub(crate) const REPETITION_PERIOD: u8 = 0x06;

/// Number of Broadcasts Requested (TS 48.049, 8.2).
pub(crate) const BROADCASTS_REQUESTED: u8 = 0x07;

/// Number of Broadcasts Completed List (TS 48.049, 8.2).
pub(crate) const BROADCASTS_COMPLETED: u8 = 0x08;

/// Failure List (TS 48.049, 8.2).
pub(crate) const FAILURE_LIST: u8 = 0x09;

/// Data Coding Scheme (TS 48.049, 8.2).
pub(crate) const DATA_CODING: u8 = 0x0C;

/// Message Identifier (TS 48.049, 8.2).
pub(crate) const MESSAGE_IDENTIFIER: u8 = 0x0E;

/// Channel Indicator (TS 48.049, 8.2).
pub(crate) const CHANNEL_INDICATOR: u8 = 0x12;

/// Number of Pages (TS 48.049, 8.2).
pub(crate) const NUMBER_OF_PAGES: u8 = 0x13;
