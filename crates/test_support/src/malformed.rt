//! Tables of malformed inputs, as `tools/malformed.py` prints them: octets, and for each of their places a digest of
//! the answers to them where the octet there is another. A test answers the inputs behind each line.

use crate::octets::octets_of;
use std::alloc::{AllocError, Global};
use std::test::Fail;

/// A table as far as it was read.
#[derive(Drop)]
pub struct Malformed<'a> {
    name: &'a str,
    octets: Vec<u8>,
    /// How many digests were compared.
    pub digests: u16,
    /// How many of them differ.
    pub differing: u16,
    /// The input and the line of the first that differs.
    pub first: (&'a str, &'a str),
}

impl<'a> Malformed<'a> {
    /// A table of which nothing was read.
    pub fn new(alloc: Global) -> Malformed<'a> {
        Malformed {
            name: "",
            octets: Vec::new(alloc),
            digests: 0,
            differing: 0,
            first: ("", ""),
        }
    }

    /// Reads a line. Gives the malformed inputs of whose answers it has the digest, and none if it has no digest.
    pub fn inputs(&mut self, alloc: Global, line: &'a str) -> Result<Vec<Vec<u8>>, Fail> {
        let (word, rest) = line.split_once(' ').unwrap_or((line, ""));
        match word {
            "" => {}
            "input" => {
                self.name = rest;
                self.octets.clear();
            }
            "and" => self.octets.extend_from_slice(&octets_of(alloc, rest)?)?,
            "cuts" => return Ok(fronts_of(alloc, &self.octets)?),
            place => return changes_of(alloc, &self.octets, place.parse::<usize>()?),
        }
        Ok(Vec::new(alloc))
    }

    /// Compares the digest of a line with that of the answers, each of which a line feed ends. Without answers there is
    /// nothing to compare.
    pub fn compare(&mut self, line: &'a str, answers: &[u8]) -> Result<(), Fail> {
        let Some(answers) = answers.strip_suffix(b"\n") else {
            return Ok(());
        };
        let (_, wanted) = line.split_once(' ').unwrap_or((line, ""));
        self.digests = self.digests.saturating_add(1);
        if digest_of(answers) != u64::from_str_radix(wanted, 16)? {
            if self.differing == 0 {
                self.first = (self.name, line);
            }
            self.differing = self.differing.saturating_add(1);
        }
        Ok(())
    }
}

/// FNV-1a of 64 bits.
fn digest_of(octets: &[u8]) -> u64 {
    let mut value = 0xCBF2_9CE4_8422_2325_u64;
    for octet in octets {
        value = (value ^ u64::from(*octet)).wrapping_mul(0x100_0000_01B3);
    }
    value
}

/// Each front of an input, the empty one first and the whole input last.
fn fronts_of(alloc: Global, octets: &[u8]) -> Result<Vec<Vec<u8>>, AllocError> {
    let mut fronts = Vec::new(alloc);
    for length in 0..octets.len() {
        fronts.push(Vec::from_slice(alloc, &octets[..length])?)?;
    }
    fronts.push(Vec::from_slice(alloc, octets)?)?;
    Ok(fronts)
}

/// An input with each other value of the octet at a place.
fn changes_of(alloc: Global, octets: &[u8], place: usize) -> Result<Vec<Vec<u8>>, Fail> {
    let kept = *octets.get(place).ok_or("the input has no such place")?;
    let mut changes = Vec::new(alloc);
    for value in 0..=255_u8 {
        if value != kept {
            let mut changed = Vec::from_slice(alloc, octets)?;
            if let Some(octet) = changed.get_mut(place) {
                *octet = value;
            }
            changes.push(changed)?;
        }
    }
    Ok(changes)
}
