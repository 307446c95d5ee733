//! Books with so many texts that several threads pack them.

use crate::reading::book_of;
use alert_book::{Book, Session};
use std::alloc::{AllocError, Global};
use std::test::Fail;
use std::thread::Threads;
use test_support::Words;

/// The row after the last. The first declares a cell, and each other writes an alert.
pub const END: u16 = 302;

/// The row of a name that stands in place of others; an empty one if there is none.
fn row_named(name: &str) -> &'static str {
    match name {
        "bad" => "write,0,bad,4370,0,1,en,2,2,0,*,A\tB",
        "worse" => "write,0,worse,4370,0,1,xx,2,2,0,*,One",
        "short" => "cell,1",
        _ => "",
    }
}

/// The row that words such as `40 bad 270 worse` put at this place; an empty one if they put none there.
fn row_at(words: &str, place: u16) -> &'static str {
    let mut words = Words::of(words);
    for _ in 0..3 {
        let (number, name) = (words.word(), words.word());
        if number.parse::<u16>() == Ok(place) {
            return row_named(name);
        }
    }
    ""
}

/// Adds the row of this number: an alert with a text of its own, of one to six pages.
fn push_row(book: &mut String, row: u16) -> Result<(), AllocError> {
    let (language, text) = if row % 3 == 0 {
        (
            "ru",
            " Внимание! Опасность наводнения: уходите от реки на возвышенность.",
        )
    } else {
        (
            "en",
            " Flood warning for the lower town: leave the river bank.",
        )
    };
    write!(book, "write,0,a{row},4370,0,{row},{language},2,2,0,*,{row}")?;
    for _ in 0..row % 7 {
        book.push_str(text)?;
    }
    Ok(())
}

/// A book of a cell and of the rows from one number to another, where words put some in place of those of the same
/// number.
pub fn long_book(alloc: Global, from: u16, to: u16, others: &str) -> Result<String, AllocError> {
    let mut book = String::from_str(alloc, "cell,1,1\n")?;
    for row in from..to {
        let other = row_at(others, row);
        if other.is_empty() {
            push_row(&mut book, row)?;
        } else {
            book.push_str(other)?;
        }
        book.push('\n')?;
    }
    Ok(book)
}

/// The octets of a session's next message, whose slot has to be 0; none after the last.
fn next_octets(alloc: Global, session: &mut Session<'_>) -> Result<Vec<u8>, Fail> {
    match session.next(None)? {
        Some((0, octets)) => Ok(octets),
        Some(_) => Err(Fail::new("a message at another slot")),
        None => Ok(Vec::new(alloc)),
    }
}

/// The octets of the first message of a session of a book.
fn first_of(alloc: Global, book: &Book) -> Result<Vec<u8>, Fail> {
    let mut session = Session::new(alloc, book, 0, 1)?;
    let octets = next_octets(alloc, &mut session);
    drop(session);
    octets
}

/// The octets of the message that the row of this number has alone.
fn octets_alone<T: AllocGlobal + Threads + Sync>(rt: &T, row: u16) -> Result<Vec<u8>, Fail> {
    let text = long_book(rt.alloc(), row, row.saturating_add(1), "")?;
    let book = book_of(rt, text.as_bytes(), 64)?;
    let octets = first_of(rt.alloc(), &book);
    drop(book);
    octets
}

/// Whether a session's next message is the one that the row of this number has alone.
fn is_given<T: AllocGlobal + Threads + Sync>(
    rt: &T,
    session: &mut Session<'_>,
    row: u16,
) -> Result<bool, Fail> {
    let alone = octets_alone(rt, row)?;
    let given = next_octets(rt.alloc(), session)?;
    Ok(!alone.is_empty() && given == alone && session.row() == u32::from(row))
}

/// The first row of the long book whose message a session doesn't give; `END` if it gives all, and nothing else.
fn first_not_given<T: AllocGlobal + Threads + Sync>(
    rt: &T,
    session: &mut Session<'_>,
) -> Result<u16, Fail> {
    for row in 2..END {
        if !is_given(rt, session, row)? {
            return Ok(row);
        }
    }
    let after = next_octets(rt.alloc(), session)?;
    Ok(if after.is_empty() { END } else { 0 })
}

/// The same of the session of the long book.
fn first_not_sent<T: AllocGlobal + Threads + Sync>(rt: &T, book: &Book) -> Result<u16, Fail> {
    let mut session = Session::new(rt.alloc(), book, 0, 1)?;
    let row = first_not_given(rt, &mut session);
    drop(session);
    row
}

#[test]
fn many_texts_are_packed_as_each_alone(rt: HostRuntime) -> Result<(), Fail> {
    let text = long_book(rt.alloc(), 2, END, "")?;
    let book = book_of(&rt, text.as_bytes(), 64)?;
    let row = first_not_sent(&rt, &book);
    drop(book);
    assert!(rt; row? == END);
    Ok(())
}
