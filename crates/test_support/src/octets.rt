//! Octets as hexadecimal digits, both ways. The crate `hex` says much in its contracts, and the first use of that costs
//! a crate of tests as much to prove as twenty of its functions.

use std::alloc::{AllocError, Global};
use std::test::Fail;

/// The octets that hexadecimal digits name, two digits each.
pub fn octets_of(alloc: Global, digits: &str) -> Result<Vec<u8>, Fail> {
    let digits = digits.as_bytes();
    let mut octets = Vec::with_capacity(alloc, digits.len() / 2)?;
    for pair in digits.chunks(2) {
        octets.push(octet_of(pair)?)?;
    }
    Ok(octets)
}

/// The octet that two digits name.
fn octet_of(pair: &[u8]) -> Result<u8, Fail> {
    if pair.len() < 2 {
        return Err(Fail::new("a digit without another"));
    }
    Ok(value_of(pair[0])?.wrapping_mul(16) | value_of(pair[1])?)
}

/// The value of a digit.
fn value_of(digit: u8) -> Result<u8, Fail> {
    match digit {
        b'0'..=b'9' => Ok(digit - b'0'),
        b'a'..=b'f' => Ok(digit - b'a' + 10),
        b'A'..=b'F' => Ok(digit - b'A' + 10),
        _ => Err(Fail::new("no hexadecimal digit")),
    }
}

/// The digits that name octets, in lower case.
pub fn digits_of(alloc: Global, octets: &[u8]) -> Result<String, AllocError> {
    let mut digits = String::new(alloc);
    for octet in octets {
        digits.push(digit_of(*octet / 16))?;
        digits.push(digit_of(*octet % 16))?;
    }
    Ok(digits)
}

/// The digit of a value below 16.
fn digit_of(value: u8) -> char {
    match value {
        0..=9 => (b'0' + value) as char,
        10..=15 => (b'a' + (value - 10)) as char,
        _ => '?',
    }
}
