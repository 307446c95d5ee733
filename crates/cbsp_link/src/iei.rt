//! The identifiers of elements (3GPP TS 48.049, 8.2.1), each with the element that it names and its clause.

/// Message Content (8.2.3): one page.
pub(crate) const MESSAGE_CONTENT: u8 = 0x01;

/// Old Serial Number (8.2.4).
pub(crate) const OLD_SERIAL_NUMBER: u8 = 0x02;

/// New Serial Number (8.2.5).
pub(crate) const NEW_SERIAL_NUMBER: u8 = 0x03;

/// Cell List (8.2.6).
pub(crate) const CELL_LIST: u8 = 0x04;

/// Category (8.2.7).
pub(crate) const CATEGORY: u8 = 0x05;

/// Repetition Period (8.2.8).
pub(crate) const REPETITION_PERIOD: u8 = 0x06;

/// Number of Broadcasts Requested (8.2.9).
pub(crate) const BROADCASTS_REQUESTED: u8 = 0x07;

/// Number of Broadcasts Completed List (8.2.10).
pub(crate) const BROADCASTS_COMPLETED: u8 = 0x08;

/// Failure List (8.2.11).
pub(crate) const FAILURE_LIST: u8 = 0x09;

/// Data Coding Scheme (8.2.14).
pub(crate) const DATA_CODING: u8 = 0x0C;

/// Recovery Indication (8.2.15).
pub(crate) const RECOVERY_INDICATION: u8 = 0x0D;

/// Message Identifier (8.2.16).
pub(crate) const MESSAGE_IDENTIFIER: u8 = 0x0E;

/// Channel Indicator (8.2.20).
pub(crate) const CHANNEL_INDICATOR: u8 = 0x12;

/// Number of Pages (8.2.21).
pub(crate) const NUMBER_OF_PAGES: u8 = 0x13;

/// Broadcast Message Type (8.2.24).
pub(crate) const BROADCAST_MESSAGE_TYPE: u8 = 0x16;
