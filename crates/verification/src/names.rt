//! Identifiers and serial numbers, each pair once.

ghost use Rattle.std.specs.Prelude.{◌≡◌, [], OnOk};
ghost use Rattle.verification.specs.Names.{names_page, AddsName};

use cbs_page::PageView;
use std::alloc::{AllocError, Global};
use std::collections::HashSet;
use std::marker::Model;

/// Pairs of an identifier and a serial number. In clauses these are the keys of its set.
#[derive(Drop)]
pub struct Names {
    pairs: HashSet<(u16, u16)>,
}

impl Model for Names {
    ghost use Rattle.std.specs.Prelude.{List};
    ghost use Rattle.verification.specs.Names.{Pair};

    ghost Value = { List Pair };

    ghost view = { λ names. names.pairs.keys };
}

impl Names {
    /// No pair. It takes no memory.
    pub fn new(alloc: Global) -> Names
        ensures { result ≡ [] }
    {
        Names {
            pairs: HashSet::new(alloc),
        }
    }

    /// Whether the pair of a page is among them.
    pub fn has(&self, page: &PageView) -> bool
        ensures { result ≡ names_page self.now page.now }
    {
        self.pairs.contains(&(page.id, page.serial.number()))
    }

    /// Adds a pair.
    ///
    /// # Errors
    ///
    /// Out of memory.
    pub fn add(&mut self, id: u16, serial: u16) -> Result<(), AllocError>
        ensures { OnOk result (AddsName self.old self.new (id, serial)) }
    {
        self.pairs.insert((id, serial))?;
        Ok(())
    }
}
