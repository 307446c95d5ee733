//! What a failed end returns.

ghost use Rattle.std.specs.Prelude.{Some, codes};

use std::error::Error;
use std::fmt;

/// A device failed, now or earlier.
#[derive(Clone, Copy, Debug, PartialEq, Eq)]
pub struct Failed;

// By hand: a derived text has no contract.
impl fmt::Display for Failed {
    ghost output = { λ _. Some (codes "device failed") };

    fn fmt<W: fmt::Write>(&self, f: &mut fmt::Formatter<W>) -> fmt::Result {
        write!(f, "device failed")
    }
}

impl Error for Failed {}
