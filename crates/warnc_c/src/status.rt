//! The numbers that calls answer.

/// What was asked for is there.
pub const OK: u32 = 0;

/// No language has that word.
pub const LANGUAGE: u32 = 1;

/// There is no text.
pub const EMPTY: u32 = 2;

/// A character can't be sent.
pub const CHARACTER: u32 = 3;

/// The text takes more than 15 pages.
pub const PAGES: u32 = 4;

/// Out of memory.
pub const MEMORY: u32 = 5;

/// The text isn't UTF-8.
pub const UTF8: u32 = 6;

/// The number of a page isn't from 1 to the total, or the total is over 15.
pub const NUMBER: u32 = 7;

/// The page isn't one that is shown: its data coding has no alphabet, or its number is over the total.
pub const UNREADABLE: u32 = 8;

/// The room is too small. How many octets it has to have was told.
pub const ROOM: u32 = 9;

/// The octets end inside a tape.
pub const SHORT: u32 = 10;

/// There are more than 64 tapes, or one says that it has more than 65,535 slots.
pub const LONG: u32 = 11;

/// GSM 7-bit has each character of the text.
pub const GSM: u32 = 12;

/// The octets are no book: a row or its text has a fault, or there are more than 16 MiB of them.
pub const BOOK: u32 = 13;

/// The run ended early, though there was memory. No call answers it.
pub const ENDED: u32 = 14;

/// There are no slots to run.
pub const SLOTS: u32 = 15;

/// The tapes differ from what the book's cells were asked. The table that says how is put.
pub const DIFFERENCES: u32 = 16;
