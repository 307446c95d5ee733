//! The words of a row.

use std::str::SplitWhitespace;
use std::test::Fail;

/// The words of a line, one after the other.
#[derive(Drop)]
pub struct Words<'a> {
    left: SplitWhitespace<'a>,
}

impl<'a> Words<'a> {
    /// The words of a text, which white space parts.
    pub fn of(text: &'a str) -> Words<'a> {
        Words {
            left: text.split_whitespace(),
        }
    }

    /// The next word; an empty one after the last.
    pub fn word(&mut self) -> &'a str {
        self.left.next().unwrap_or("")
    }

    /// The next word, a decimal number.
    pub fn number(&mut self) -> Result<u64, Fail> {
        Ok(self.word().parse::<u64>()?)
    }

    /// The next word, a decimal number below 65,536.
    pub fn number16(&mut self) -> Result<u16, Fail> {
        Ok(self.word().parse::<u16>()?)
    }

    /// The next word, a number of hexadecimal digits below 65,536.
    pub fn hex16(&mut self) -> Result<u16, Fail> {
        Ok(u16::from_str_radix(self.word(), 16)?)
    }
}
