//! How tests read books.

use alert_book::{Book, BookFault, read_book};
use device_ends::Source;
use device_ends::memory::MemoryReader;
use std::test::Fail;
use std::thread::Threads;

/// What comes of reading octets as a book.
#[derive(Clone, Copy)]
pub struct Outcome {
    /// How many cells the book declares; 0 if the octets are no book.
    pub cells: usize,
    /// Why they are none; None if they are one.
    pub fault: Option<BookFault>,
    /// Whether the source has failed.
    pub failed: bool,
    /// How many octets are not read.
    pub left: usize,
}

/// Reads octets, of which a read gives so many at most, and one at least, by a reader that fails after so many calls.
pub fn outcome_of<T: AllocGlobal + Threads + Sync>(
    rt: &T,
    octets: &[u8],
    most: usize,
    calls: Option<usize>,
) -> Outcome {
    let mut reader = MemoryReader::new(octets, most.max(1), calls);
    let mut source = Source::new(&mut reader);
    let (cells, fault) = match read_book(rt, &mut source) {
        Ok(book) => {
            let cells = book.cells().len();
            drop(book);
            (cells, None)
        }
        Err(fault) => (0, Some(fault)),
    };
    let failed = source.failed();
    Outcome {
        cells,
        fault,
        failed,
        left: reader.rest().len(),
    }
}

/// The book of these octets, of which a read gives so many at most, and one at least.
pub fn book_of<T: AllocGlobal + Threads + Sync>(
    rt: &T,
    octets: &[u8],
    most: usize,
) -> Result<Book, Fail> {
    let mut reader = MemoryReader::new(octets, most.max(1), None);
    match read_book(rt, &mut Source::new(&mut reader)) {
        Ok(book) => Ok(book),
        Err(fault) => Err(Fail::new(fault)),
    }
}

/// Puts the octets that a table writes behind others: `|` is a line feed, `%` and two hexadecimal digits are an octet,
/// and all else stands for itself.
pub fn add_rows(octets: &mut Vec<u8>, text: &str) -> Result<(), Fail> {
    for (place, part) in text.split('%').enumerate() {
        let mut plain = part;
        if place > 0 {
            let (digits, rest) = part
                .split_at_checked(2)
                .ok_or("two digits follow a percent sign")?;
            octets.push(u8::from_str_radix(digits, 16)?)?;
            plain = rest;
        }
        for octet in plain.bytes() {
            octets.push(if octet == b'|' { b'\n' } else { octet })?;
        }
    }
    Ok(())
}
