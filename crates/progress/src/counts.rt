//! How far a run has come, as text.

ghost use Rattle.std.specs.Prelude.{Some};

use std::fmt;

/// How far a run has come.
#[derive(Clone, Copy, Debug, PartialEq, Eq)]
pub struct Counts {
    /// Octets that were read.
    pub read: u64,
    /// Cells of which all is done but the writing, or of which the tape is written.
    pub cells: u64,
    /// Octets that were written.
    pub written: u64,
    /// Whole seconds since it began.
    pub seconds: u64,
}

// By hand, as the next: a derived text has no contract.
impl fmt::Display for Counts {
    ghost use Rattle.progress.specs.Counts.{counts_text};

    ghost output = { λ counts. Some (counts_text counts.read counts.cells counts.written counts.seconds) };

    fn fmt<W: fmt::Write>(&self, f: &mut fmt::Formatter<W>) -> fmt::Result {
        let read = Megaoctets(self.read);
        let cells = self.cells;
        let written = Megaoctets(self.written);
        let seconds = self.seconds;
        write!(
            f,
            "warnc: {read} MB read, {cells} cells done, {written} MB written, {seconds} s"
        )
    }
}

/// Octets, shown in units of 1,000,000 with one decimal place, rounded down.
#[derive(Clone, Copy)]
struct Megaoctets(u64);

impl fmt::Display for Megaoctets {
    ghost use Rattle.progress.specs.Counts.{megaoctets_text};

    ghost output = { λ octets. Some (megaoctets_text octets.0) };

    fn fmt<W: fmt::Write>(&self, f: &mut fmt::Formatter<W>) -> fmt::Result {
        let whole = self.0 / 1_000_000;
        let tenths = self.0 / 100_000 % 10;
        write!(f, "{whole}.{tenths}")
    }
}
