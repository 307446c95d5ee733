//! Octets in lines: words of hexadecimal digits, of which `10*8d46` stands for `8d46` ten times.

use crate::of_cbsp_wire::rows::reading;
use std::alloc::{AllocError, Global};
use std::test::Fail;
use test_support::{Words, octets_of};

/// Appends what a word stands for.
fn put_word(digits: &mut String, word: &str) -> Result<(), Fail> {
    let (times, repeated) = word.split_once('*').unwrap_or(("1", word));
    for _ in 0..times.parse::<u16>()? {
        digits.push_str(repeated)?;
    }
    Ok(())
}

/// The octets of all the words that are left.
pub fn octets_in(alloc: Global, words: &mut Words<'_>) -> Result<Vec<u8>, Fail> {
    let mut digits = String::new(alloc);
    for _ in 0..1000_u16 {
        let word = words.word();
        if word.is_empty() {
            break;
        }
        put_word(&mut digits, word)?;
    }
    octets_of(alloc, &digits)
}

/// `octet PLACE FIRST LAST OCTETS`: why the octets are refused with each octet from the first to the last at this
/// place.
pub fn set_octet(alloc: Global, words: &mut Words<'_>) -> Result<String, Fail> {
    let place = usize::from(words.number16()?);
    let (first, last) = (words.hex16()?, words.hex16()?);
    let mut octets = octets_in(alloc, words)?;
    let mut said = String::new(alloc);
    for value in first..=last {
        if let Some(octet) = octets.get_mut(place) {
            *octet = (value % 256) as u8;
        }
        put_new(&mut said, reading(alloc, &octets))?;
    }
    Ok(said)
}

/// Appends a text to those before, unless it is all that was said so far.
fn put_new(said: &mut String, text: &str) -> Result<(), AllocError> {
    if said.as_str() == text {
        return Ok(());
    }
    if !said.is_empty() {
        said.push_str(", ")?;
    }
    said.push_str(text)
}
