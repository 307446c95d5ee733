//! The versions of alerts that a session believes live, by alert and cell.

ghost use Rattle.std.specs.Prelude.{◌≡◌, ◌<◌, true, OnOk, ℕ, None, length};
ghost use Rattle.cbsp_wire.specs.declared.message.Cell.{Cell};
ghost use Rattle.alert_book.specs.Session.{version_after_reply};
ghost use Rattle.alert_book.specs.VersionSteps.{has_place, kept_version, HasSameLists, KeepsVersions, SetsVersion};

use crate::session::alert_versions::AlertVersions;
use crate::session::request::{Refused, Request};
use cbsp_wire::Cell;
use reply_outcome::Outcome;
use std::alloc::Global;
use std::marker::Model;

/// The versions that are believed live, of each alert in each cell that a message was sent to. In clauses these are
/// the lists of the alerts, in the order of their numbers.
#[derive(Drop)]
pub struct Versions {
    alloc: Global,
    by_alert: Vec<AlertVersions>,
}

impl Model for Versions {
    ghost use Rattle.std.specs.Prelude.{List};
    ghost use Rattle.alert_book.specs.declared.session.request.CellVersion.{CellVersion};

    ghost Value = { List (List CellVersion) };

    ghost view = { λ v. v.by_alert.items };
}

impl Versions {
    /// None. It takes no memory.
    pub fn new(alloc: Global) -> Versions
        ensures { (number : ℕ) (cell : Cell) → kept_version result number cell ≡ None }
    {
        Versions {
            alloc,
            by_alert: Vec::new(alloc),
        }
    }

    /// The version of an alert that is believed live in a cell, if one is. The cell is looked for at this place first.
    pub fn version(&self, number: u16, cell: Cell, place: usize) -> Option<u8>
        ensures { result ≡ kept_version self.now number cell }
    {
        match self.by_alert.get(usize::from(number)) {
            Some(versions) => versions.version(cell, place),
            None => None,
        }
    }

    /// Makes a list for an alert, and for those of lesser numbers. Nothing else changes.
    fn make_list(&mut self, number: u16) -> Result<(), Refused>
        ensures same { HasSameLists self.old self.new }
        ensures made { OnOk result (number < length self.new) }
    {
        while self.by_alert.len() <= usize::from(number) {
            self.by_alert.push(AlertVersions::new(self.alloc))?;
        }
        Ok(())
    }

    /// Makes a place for the version of an alert in a cell. Nothing else changes. The cell is looked for at this place
    /// first.
    ///
    /// # Errors
    ///
    /// `Refused` if out of memory; nothing changes then.
    pub fn make_place(&mut self, number: u16, cell: Cell, place: usize) -> Result<(), Refused>
        ensures keeps { KeepsVersions self.old self.new }
        ensures made { OnOk result (has_place self.new number cell ≡ true) }
    {
        self.make_list(number)?;
        self.by_alert[usize::from(number)].make_place(cell, place)
    }

    /// Sets what the reply to a request says of a cell that it asked, for which there is a place: the version that is
    /// believed live there. The cell is looked for at this place first.
    pub fn set_said(&mut self, request: &Request, outcome: &Outcome, cell: Cell, place: usize)
        requires { has_place self.old request.now.number cell ≡ true }
        ensures { SetsVersion self.old self.new request.now.number cell
            (version_after_reply request.now outcome.now cell (kept_version self.old request.now.number cell)) }
    {
        let number = usize::from(request.number);
        if number < self.by_alert.len() {
            self.by_alert[number].set_said(request, outcome, cell, place);
        }
    }
}
