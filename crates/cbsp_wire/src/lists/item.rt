//! The items of lists (3GPP TS 48.049, 8.2, in this project's own layouts): each names a cell, with what the list says
//! of it.

ghost use Rattle.std.specs.Prelude.{◌≡◌, ◌+◌, ◌≤◌, ◌<◌, ◌++◌, ◌∷◌, [], ℕ, List, length, refl, IfOk, IfSome};
ghost use Rattle.std.specs.Prelude.{MatchOption, vec_capacity};
ghost use Rattle.std.specs.List.{flat_map};
ghost use Rattle.std.proofs.Common.{rules};
ghost use Rattle.cbsp_wire.specs.declared.lists.item.Discriminator.{Discriminator};
ghost use Rattle.cbsp_wire.specs.declared.message.Cell.{Cell};
ghost use Rattle.cbsp_wire.specs.declared.lists.item.Discriminator.TheVariants as discriminators;
ghost use Rattle.cbsp_wire.specs.WritingSteps.{HasRoomIn};
ghost use Rattle.cbsp_wire.specs.Value.{cells_in, counts_in, failures_in};
ghost use Rattle.cbsp_wire.specs.Written.{cell_octets, count_octets, failure_octets};

use crate::lists::cell_of;
use crate::message::{Cell, Count, Failure};
use crate::writing::{octets_of_number, put};
use std::alloc::{AllocError, Global};

/// How often a list has its discriminator, 1, which says that a cell is named by LAC and CI.
#[derive(Clone, Copy, Debug, PartialEq, Eq)]
pub(crate) enum Discriminator {
    /// Once, before all items.
    Once,
    /// In each item, as its first octet.
    Each,
}

/// An item of a list: a cell of 4 octets (LAC and CI, two each), a completed broadcast of 7 (the cell, the number in
/// two, the information), a failure of 6 (its discriminator, the cell, the cause); the high octets come first.
pub(crate) trait ListItem: Copy {
    /// The octets of an item.
    ghost octets_of: { Self → List ℕ };

    /// The items that octets are.
    ghost items_in: { List ℕ → List Self };

    /// The cell that an item names.
    ghost cell_of: { Self → Cell };

    ghost DISCRIMINATOR: { Discriminator };

    /// Whether the items of a list share one discriminator.
    const DISCRIMINATOR: Discriminator;

    ghost SIZE: { ℕ };

    /// How many octets an item has, 4 to 7.
    const SIZE: u16;

    /// The cell that the item names.
    fn cell(&self) -> Cell
        ensures { result ≡ cell_of self.now };

    /// Appends the octets of the item.
    fn put_in(&self, out: &mut Vec<u8>)
        requires { HasRoomIn out.old (octets_of self.now) }
        ensures appended { out.new.items ≡ out.old.items ++ octets_of self.now }
        ensures room { vec_capacity out.new ≡ vec_capacity out.old };

    /// The first item that octets are, and the octets after it.
    fn first_of(octets: &[u8]) -> Option<(Self, &[u8])>
        ensures first { MatchOption result (items_in octets.now ≡ [])
            (λ x. items_in octets.now ≡ x.0 ∷ items_in x.1.now) }
        ensures shorter { IfSome result (λ x. length x.1.now < length octets.now) };

    // Each item has as many octets, and few enough for the length of 64 of them to fit two octets.
    ghost sized: { (x : Self) → length (octets_of x) ≡ SIZE };

    ghost some: { 0 < SIZE };

    ghost small: { SIZE ≤ 7 };
}

impl ListItem for Cell {
    ghost octets_of = { cell_octets };

    ghost items_in = { cells_in };

    ghost cell_of = { λ c. c };

    ghost DISCRIMINATOR = { discriminators.Once };

    const DISCRIMINATOR: Discriminator = Discriminator::Once;

    ghost SIZE = { 4 };

    const SIZE: u16 = 4;

    fn cell(&self) -> Cell {
        *self
    }

    fn put_in(&self, out: &mut Vec<u8>) {
        let [a, b] = octets_of_number(self.lac);
        let [c, d] = octets_of_number(self.ci);
        put(out, &[a, b, c, d]);
    }

    fn first_of(octets: &[u8]) -> Option<(Cell, &[u8])> {
        match octets {
            [a, b, c, d, rest @ ..] => Some((cell_of(*a, *b, *c, *d), rest)),
            _ => None,
        }
    }

    ghost sized = { λ x. refl };

    ghost some = { Prim.search rules };

    ghost small = { Prim.search rules };
}

impl ListItem for Count {
    ghost octets_of = { count_octets };

    ghost items_in = { counts_in };

    ghost cell_of = { λ c. c.cell };

    ghost DISCRIMINATOR = { discriminators.Once };

    const DISCRIMINATOR: Discriminator = Discriminator::Once;

    ghost SIZE = { 7 };

    const SIZE: u16 = 7;

    fn cell(&self) -> Cell {
        self.cell
    }

    fn put_in(&self, out: &mut Vec<u8>) {
        self.cell.put_in(out);
        let [high, low] = octets_of_number(self.number);
        put(out, &[high, low, self.info]);
    }

    fn first_of(octets: &[u8]) -> Option<(Count, &[u8])> {
        match octets {
            [a, b, c, d, high, low, info, rest @ ..] => {
                let count = Count {
                    cell: cell_of(*a, *b, *c, *d),
                    number: u16::from(*high) * 256 + u16::from(*low),
                    info: *info,
                };
                Some((count, rest))
            }
            _ => None,
        }
    }

    ghost sized = { λ x. refl };

    ghost some = { Prim.search rules };

    ghost small = { Prim.search rules };
}

impl ListItem for Failure {
    ghost octets_of = { failure_octets };

    ghost items_in = { failures_in };

    ghost cell_of = { λ f. f.cell };

    ghost DISCRIMINATOR = { discriminators.Each };

    const DISCRIMINATOR: Discriminator = Discriminator::Each;

    ghost SIZE = { 6 };

    const SIZE: u16 = 6;

    fn cell(&self) -> Cell {
        self.cell
    }

    fn put_in(&self, out: &mut Vec<u8>) {
        put(out, &[1]);
        self.cell.put_in(out);
        put(out, &[self.cause]);
    }

    fn first_of(octets: &[u8]) -> Option<(Failure, &[u8])> {
        match octets {
            [_, a, b, c, d, cause, rest @ ..] => {
                let failure = Failure {
                    cell: cell_of(*a, *b, *c, *d),
                    cause: *cause,
                };
                Some((failure, rest))
            }
            _ => None,
        }
    }

    ghost sized = { λ x. refl };

    ghost some = { Prim.search rules };

    ghost small = { Prim.search rules };
}

/// Appends the octets of items.
pub(crate) fn put_items<T: ListItem>(out: &mut Vec<u8>, items: &[T])
    requires { HasRoomIn out.old (flat_map T.octets_of items.now) }
    ensures appended { out.new.items ≡ out.old.items ++ flat_map T.octets_of items.now }
    ensures room { vec_capacity out.new ≡ vec_capacity out.old }
{
    for item in items {
        item.put_in(out);
    }
}

/// The items that octets are.
pub(crate) fn read_items<T: ListItem>(alloc: Global, octets: &[u8]) -> Result<Vec<T>, AllocError>
    ensures { IfOk result (λ items. items.items ≡ T.items_in octets.now) }
{
    let mut items = Vec::with_capacity(alloc, octets.len() / usize::from(T::SIZE))?;
    let mut left = octets;
    'items: while let Some((item, rest)) = T::first_of(left) {
        items.push(item)?;
        left = rest;
    }
    Ok(items)
}
