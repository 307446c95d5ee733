//! Octets that lines put together, and octets that a run wrote.

ghost use Rattle.std.specs.Prelude.{◌≡◌, ◌++◌, [], drop, false, if◌then◌else◌, OnOk};
ghost use Rattle.device_ends.specs.MemoryWriter.{octets_taken};

use crate::bench::Pace;
use device_ends::memory::MemoryWriter;
use std::alloc::Global;
use std::test::Fail;
use test_support::octets_of;

/// Octets that lines put together for a run. The first line after the run begins anew.
#[derive(Drop)]
pub struct Sheet {
    pub(crate) octets: Vec<u8>,
    pub(crate) is_used: bool,
}

impl Sheet {
    /// No octets.
    pub(crate) fn new(alloc: Global) -> Sheet
        ensures none { result.octets.items ≡ [] }
        ensures unused { result.is_used ≡ false }
    {
        Sheet {
            octets: Vec::new(alloc),
            is_used: false,
        }
    }

    /// Puts octets at the end.
    pub fn add(&mut self, octets: &[u8]) -> Result<(), Fail>
        ensures { OnOk result (self.new.octets.items
            ≡ (if self.old.is_used then [] else self.old.octets.items) ++ octets.now) }
    {
        if self.is_used {
            self.octets.clear();
            self.is_used = false;
        }
        self.octets.extend_from_slice(octets)?;
        Ok(())
    }

    /// Puts a line at the end.
    pub(crate) fn add_line(&mut self, line: &str) -> Result<(), Fail> {
        self.add(line.as_bytes())?;
        self.add(b"\n")
    }

    /// Puts octets at the end that words of hexadecimal digits name.
    pub(crate) fn add_hex(&mut self, alloc: Global, words: &str) -> Result<(), Fail> {
        for word in words.split_whitespace() {
            self.add(&octets_of(alloc, word)?)?;
        }
        Ok(())
    }

    /// Has the octets so many times, one after the other.
    pub(crate) fn repeat(&mut self, alloc: Global, count: u64) -> Result<(), Fail> {
        let once = Vec::from_slice(alloc, &self.octets)?;
        for _ in 1..count {
            self.octets.extend_from_slice(&once)?;
        }
        Ok(())
    }
}

/// What a run wrote, and how much of it was looked at.
#[derive(Drop)]
pub struct Written {
    pub(crate) writer: MemoryWriter,
    looked: usize,
}

impl Written {
    /// Nothing yet, by a writer of this pace.
    pub(crate) fn new(alloc: Global, pace: Pace) -> Written {
        Written {
            writer: MemoryWriter::new(alloc, pace.octets, pace.calls),
            looked: 0,
        }
    }

    /// What wasn't looked at.
    pub fn left(&self) -> &[u8]
        ensures { result.now ≡ drop self.now.looked (octets_taken self.now.writer) }
    {
        let taken = self.writer.contents();
        &taken[self.looked.min(taken.len())..]
    }

    /// All that wasn't looked at.
    pub(crate) fn rest(&mut self, alloc: Global) -> Result<String, Fail> {
        let rest = String::from_utf8_lossy(alloc, self.left())?;
        self.looked = self.writer.contents().len();
        Ok(rest)
    }

    /// Gives a sheet all that wasn't looked at.
    pub(crate) fn give_to(&mut self, sheet: &mut Sheet) -> Result<(), Fail> {
        sheet.add(self.left())?;
        self.looked = self.writer.contents().len();
        Ok(())
    }

    /// The next line, which a line feed has to end.
    pub(crate) fn line(&mut self, alloc: Global) -> Result<String, Fail> {
        let left = self.left();
        let Some(length) = left.iter().position(|octet| *octet == b'\n') else {
            return Ok(String::from_str(alloc, "no line")?);
        };
        let line = String::from_utf8_lossy(alloc, &left[..length])?;
        self.looked = self.looked.saturating_add(length).saturating_add(1);
        Ok(line)
    }

    /// Whether a line has a text. The lines up to it, or all where none has it, were looked at then.
    pub(crate) fn passes(&mut self, alloc: Global, text: &str) -> Result<bool, Fail> {
        for _ in 0..self.left().len() {
            if self.left().is_empty() {
                return Ok(false);
            }
            if self.line(alloc)?.contains(text) {
                return Ok(true);
            }
        }
        Ok(false)
    }

    /// How much it is of worked octets.
    pub(crate) fn part_of(&mut self, alloc: Global, worked: &[u8]) -> Result<String, Fail> {
        self.looked = self.writer.contents().len();
        part_of(alloc, self.writer.contents(), worked)
    }
}

/// How much octets are of worked ones: `worked` if they are the same, `N of M` if they are the first N of M.
pub(crate) fn part_of(alloc: Global, octets: &[u8], worked: &[u8]) -> Result<String, Fail> {
    if octets == worked {
        return Ok(String::from_str(alloc, "worked")?);
    }
    if worked.starts_with(octets) {
        return Ok(format!(in alloc; "{} of {}", octets.len(), worked.len())?);
    }
    Ok(String::from_utf8_lossy(alloc, octets)?)
}
