//! The versions of one alert that a session believes live, by cell.

ghost use Rattle.std.specs.Prelude.{◌≡◌, [], false, true, if◌then◌else◌, IfNone, IfSome, OnOk};
ghost use Rattle.cbsp_wire.specs.declared.message.Cell.{Cell};
ghost use Rattle.cbsp_wire.specs.Range.{is_cell};
ghost use Rattle.alert_book.specs.Session.{version_after_reply};
ghost use Rattle.std.specs.List.{position};
ghost use Rattle.alert_book.specs.VersionSteps.{AreApart, IsPlaceOf, has_cell, is_of_cell, version_in_list};

use crate::session::request::{CellVersion, Refused, Request};
use cbsp_wire::Cell;
use reply_outcome::{Outcome, version_by_reply};
use std::alloc::Global;
use std::marker::Model;

/// The versions of one alert that are believed live, of each cell that a message was sent to. They stand in the order
/// in which messages first named the cells, which others mostly have too: so a cell is found by a look at its place.
/// In clauses it is the list of them, in which no cell stands twice.
#[derive(Drop)]
pub struct AlertVersions {
    list: Vec<CellVersion>,
}

impl Model for AlertVersions {
    ghost use Rattle.std.specs.Prelude.{List};
    ghost use Rattle.alert_book.specs.declared.session.request.CellVersion.{CellVersion};
    ghost use Rattle.alert_book.specs.VersionSteps.{AreApart};

    ghost Value = { List CellVersion };

    ghost view = { λ v. v.list.items };

    ghost invariant = { λ v. AreApart v.list.items };
}

impl AlertVersions {
    /// None. It takes no memory.
    pub fn new(alloc: Global) -> AlertVersions
        ensures { result ≡ [] }
    {
        AlertVersions {
            list: Vec::new(alloc),
        }
    }

    /// The version that is believed live in a cell, if one is. The cell is looked for at this place first.
    pub fn version(&self, cell: Cell, place: usize) -> Option<u8>
        ensures { result ≡ version_in_list self.now cell }
    {
        match place_of(&self.list, cell, place) {
            Some(found) => self.list[found].version,
            None => None,
        }
    }

    /// Makes a place for the version in a cell. Nothing else changes. The cell is looked for at this place first.
    ///
    /// # Errors
    ///
    /// `Refused` if out of memory; nothing changes then.
    pub fn make_place(&mut self, cell: Cell, place: usize) -> Result<(), Refused>
        ensures kept { (c : Cell) → version_in_list self.new c ≡ version_in_list self.old c }
        ensures places { (c : Cell) → has_cell self.old c ≡ true → has_cell self.new c ≡ true }
        ensures made { OnOk result (has_cell self.new cell ≡ true) }
    {
        if place_of(&self.list, cell, place).is_some() {
            return Ok(());
        }
        self.list.push(CellVersion {
            cell,
            version: None,
        })?;
        Ok(())
    }

    /// Sets what the reply to a request says of a cell that it asked, for which there is a place. The cell is looked
    /// for at this place first, here and in what the reply says.
    pub fn set_said(&mut self, request: &Request, outcome: &Outcome, cell: Cell, place: usize)
        requires { has_cell self.old cell ≡ true }
        ensures kept { (c : Cell) → version_in_list self.new c ≡ (if is_cell cell c
            then version_after_reply request.now outcome.now cell (version_in_list self.old cell)
            else version_in_list self.old c) }
        ensures places { (c : Cell) → has_cell self.new c ≡ has_cell self.old c }
    {
        if let Some(found) = place_of(&self.list, cell, place) {
            let before = self.list[found].version;
            let version = version_by_reply(request.version, outcome, cell, place, before);
            self.list[found] = CellVersion { cell, version };
        }
    }
}

/// Whether the version at a place is that of a cell.
fn is_at(list: &[CellVersion], cell: Cell, place: usize) -> bool
    requires { AreApart list.now }
    ensures { result ≡ true → IsPlaceOf list.now cell place }
{
    match list.get(place) {
        Some(one) => cell == one.cell,
        None => false,
    }
}

/// The place of the version of a cell, if there is one, by a look at all.
fn place_by_search(list: &[CellVersion], cell: Cell) -> Option<usize>
    ensures { result ≡ position (is_of_cell cell) list.now }
{
    list.iter().position(|one| cell == one.cell)
}

/// The place of the version of a cell, if there is one. The cell is looked for at this place first.
#[tactic(auto, using(crate::proofs::VersionLaws::found_by, crate::proofs::VersionLaws::none_by))]
fn place_of(list: &[CellVersion], cell: Cell, place: usize) -> Option<usize>
    requires { AreApart list.now }
    ensures found { IfSome result (IsPlaceOf list.now cell) }
    ensures none { IfNone result (has_cell list.now cell ≡ false) }
{
    if is_at(list, cell, place) {
        Some(place)
    } else {
        place_by_search(list, cell)
    }
}
