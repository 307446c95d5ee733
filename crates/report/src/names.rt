//! The identifiers and serial numbers of the messages that a handset shows.

ghost use Rattle.std.specs.Prelude.{◌≡◌, IfOk, ℕ};
ghost use Rattle.handset.specs.Keeping.{messages_shown};
ghost use Rattle.report.specs.Rows.{is_shown};
ghost use Rattle.report.specs.RowSteps.{has_name};

use cbs_page::Serial;
use handset::Shown;
use std::alloc::{AllocError, Global};
use std::collections::HashSet;
use std::marker::Model;

/// The pairs of the messages that are shown. In clauses these are the keys of its set.
#[derive(Drop)]
pub struct ShownIds {
    pairs: HashSet<(u16, u16)>,
}

impl Model for ShownIds {
    ghost use Rattle.std.specs.Prelude.{List};
    ghost use Rattle.report.specs.RowSteps.{Pair};

    ghost Value = { List Pair };

    ghost view = { λ names. names.pairs.keys };
}

impl ShownIds {
    /// The pairs of these messages.
    ///
    /// # Errors
    ///
    /// Out of memory.
    pub fn of(alloc: Global, shown: &[Shown]) -> Result<ShownIds, AllocError>
        ensures { IfOk result (λ names. (id serial : ℕ)
            → has_name names id serial ≡ is_shown (messages_shown shown.now) id serial) }
    {
        let mut pairs = HashSet::with_capacity(alloc, shown.len())?;
        for message in shown {
            pairs.insert((message.id, message.serial.number()))?;
        }
        Ok(ShownIds { pairs })
    }

    /// Whether a message of this pair is shown.
    pub fn has(&self, id: u16, serial: Serial) -> bool
        ensures { result ≡ has_name self.now id serial }
    {
        self.pairs.contains(&(id, serial.number()))
    }
}
