//! Why a plan gives no book.

ghost use Rattle.std.specs.Prelude.{◌≡◌};
ghost use Rattle.plan.specs.declared.fault.PlanFault.TheVariants.{Refused};

use crate::rows::field::kind_at;
use crate::says::{name_of, says_of_row};
use alert_book::{Column, Verb, Verdict};
use cbs_page::TextFault;
use std::alloc::AllocError;
use std::fmt;
use thiserror::Error;

/// The fault of a row of a plan.
#[derive(Clone, Copy, Debug, PartialEq, Eq)]
pub struct PlanRowFault {
    /// The row of the plan, from 1 as CSV gives them: empty lines aren't counted, and empty rows and comments are.
    pub row: usize,
    /// The verb of the row, if it has one.
    pub verb: Option<Verb>,
    /// What is wrong with the row of the book that it comes to.
    pub verdict: Verdict,
}

// By hand: a fault of a column names it, and says what is wanted there.
impl fmt::Display for PlanRowFault {
    fn fmt<W: fmt::Write>(&self, f: &mut fmt::Formatter<W>) -> fmt::Result {
        let row = self.row;
        match self.verdict {
            Verdict::Right => write!(f, "row {row}"),
            Verdict::Wrong(found) => {
                let kind = kind_at(self.verb, found.column.saturating_sub(1));
                let says = says_of_row(self.verb, kind, found);
                match (found.column, kind) {
                    (2.., Some(kind)) => write!(f, "row {row}, {}: {says}", name_of(kind)),
                    _ => write!(f, "row {row}: {says}"),
                }
            }
            Verdict::Unsendable(TextFault::BadLanguage) => {
                write!(
                    f,
                    "row {row}, {}: unknown language",
                    name_of(Column::Language)
                )
            }
            Verdict::Unsendable(why) => write!(f, "row {row}, {}: {why}", name_of(Column::Text)),
        }
    }
}

/// Why `plan` writes no book. If several of the first three apply, it is the first of them.
#[derive(Clone, Copy, Debug, PartialEq, Eq, Error)]
pub enum PlanFault {
    /// The reader failed.
    #[error("read failed")]
    ReadFailed,
    /// The plan, or the book that it comes to, has more than 16,777,216 octets.
    #[error("plan is too long")]
    TooLong,
    /// A row comes to none of a book: the first such row.
    #[error("{0}")]
    Row(PlanRowFault),
    /// Out of memory.
    #[error("out of memory")]
    Refused,
    /// The writer failed. Some of the book may be out.
    #[error("write failed")]
    WriteFailed,
}

impl From<AllocError> for PlanFault {
    ghost from_gives = { λ _ fault. fault ≡ Refused };

    fn from(_refused: AllocError) -> PlanFault {
        PlanFault::Refused
    }
}
