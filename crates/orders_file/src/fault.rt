//! Why an orders file is refused.

ghost use Rattle.std.specs.Prelude.{◌≡◌};
ghost use Rattle.orders_file.specs.File.{fault_at};
ghost use Rattle.orders_file.specs.declared.fault.OrdersFileFaultKind.TheVariants.{Refused};

use std::alloc::{AllocError, AllocFailed};
use std::{error, fmt};
use thiserror::Error;

/// Why a row is refused. Fields are judged from left to right, the number of columns after the verb.
#[derive(Clone, Copy, Debug, PartialEq, Eq, Error)]
pub enum OrdersFileFaultKind {
    /// The first column is none of `write`, `kill` and `clear`.
    #[error("verb")]
    Verb,
    /// The row has a wrong number of columns.
    #[error("columns")]
    Columns,
    /// AT, ID, CATEGORY, PERIOD, BROADCASTS or DONE isn't one to ten digits, or is out of its range.
    #[error("number")]
    Number,
    /// SERIAL or OLD isn't four hexadecimal digits, or CODING isn't two.
    #[error("hexadecimal digits")]
    Digits,
    /// ANSWER is neither `ok` nor two hexadecimal digits nor empty, or it is empty and DONE isn't.
    #[error("answer")]
    Answer,
    /// A page isn't a number up to 82, a hyphen, and 164 hexadecimal digits.
    #[error("page")]
    Page,
    /// More than 65,536 rows, or 16,777,216 octets.
    #[error("too many rows")]
    TooManyRows,
    /// Out of memory.
    #[error("out of memory")]
    Refused,
}

impl From<AllocError> for OrdersFileFaultKind {
    ghost from_gives = { λ _ kind. kind ≡ Refused };

    fn from(_refused: AllocError) -> OrdersFileFaultKind {
        OrdersFileFaultKind::Refused
    }
}

impl<T: Drop> From<AllocFailed<T>> for OrdersFileFaultKind {
    ghost from_gives = { λ _ kind. kind ≡ Refused };

    fn from(_refused: AllocFailed<T>) -> OrdersFileFaultKind {
        OrdersFileFaultKind::Refused
    }
}

/// Why an orders file is refused, and its row, from 1. The row is 0 if it is out of memory, or the file has too many
/// octets.
#[derive(Clone, Copy, Debug, PartialEq, Eq)]
pub struct OrdersFileFault {
    /// The row, from 1 as CSV gives them.
    pub row: u32,
    /// What is wrong with it.
    pub kind: OrdersFileFaultKind,
}

// By hand: refused memory is of no row.
impl fmt::Display for OrdersFileFault {
    fn fmt<W: fmt::Write>(&self, f: &mut fmt::Formatter<W>) -> fmt::Result {
        match self.kind {
            OrdersFileFaultKind::Refused => write!(f, "{}", self.kind),
            _ => write!(f, "row {}: {}", self.row, self.kind),
        }
    }
}

impl error::Error for OrdersFileFault {}

/// A fault of no one row.
pub(crate) fn fault_of_file(kind: OrdersFileFaultKind) -> OrdersFileFault
    ensures { result ≡ fault_at 0 kind }
{
    OrdersFileFault { row: 0, kind }
}
