//! What comes of rows that are carried out again and again, with more memory each time.

use crate::rows::Row;
use std::alloc::{AllocError, Global};
use std::fmt::Write;

/// The outcomes of a row's attempts, in their order, those that are the same counted; and the rows that came to other
/// outcomes than they want.
#[derive(Drop)]
pub struct Outcomes {
    text: String,
    last: String,
    times: u16,
    differing: String,
}

impl Outcomes {
    /// No outcomes.
    pub fn new(alloc: Global) -> Outcomes {
        Outcomes {
            text: String::new(alloc),
            last: String::new(alloc),
            times: 0,
            differing: String::new(alloc),
        }
    }

    /// Puts how often the last outcome came.
    fn put_last(&mut self) -> Result<(), AllocError> {
        let Outcomes {
            text,
            last,
            times,
            ..
        } = self;
        if *times > 0 {
            write!(text, "{times} times {last} | ")?;
        }
        *times = 0;
        last.clear();
        Ok(())
    }

    /// Puts the outcome of an attempt that was refused memory.
    pub fn put_refused(&mut self, found: &str) -> Result<(), AllocError> {
        if self.times == 0 || self.last.as_str() != found {
            self.put_last()?;
            self.last.push_str(found)?;
        }
        self.times = self.times.saturating_add(1);
        Ok(())
    }

    /// Ends a row with the outcome of the attempt that wasn't refused. It wants that one alone if none was refused, and
    /// else all of them, as `3 times Refused | 2 cells`.
    pub fn end_row(&mut self, row: Row, found: &str) -> Result<(), AllocError> {
        self.put_last()?;
        self.text.push_str(found)?;
        let Outcomes {
            text,
            differing,
            ..
        } = self;
        if text.trim() != row.wanted {
            writeln!(differing, "{} -> {}", row.action, text.trim())?;
        }
        text.clear();
        Ok(())
    }

    /// The rows that came to other outcomes than they want, as they should be for these.
    pub fn differing(&self) -> &str {
        self.differing.as_str()
    }
}
