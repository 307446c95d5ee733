//! A way through a list, cell by cell, whether its items or their octets are there.

ghost use Rattle.std.specs.Prelude.{◌≡◌, ◌∷◌, [], List, MatchOption, map};
ghost use Rattle.cbsp_wire.specs.declared.message.Cell.{Cell};

use crate::lists::item::ListItem;
use crate::message::Cell;
use std::marker::PhantomData;

/// The rest of a list that is gone through.
pub(crate) trait Cursor: Copy {
    /// The cells that the rest names.
    ghost cells: { Self → List Cell };

    /// The first cell that the rest names, and what is after it.
    fn first(&self) -> Option<(Cell, Self)>
        ensures { MatchOption result (cells self.now ≡ []) (λ x. cells self.now ≡ x.0 ∷ cells x.1) };
}

/// Items.
#[derive(Clone, Copy)]
pub(crate) struct Items<'a, T> {
    left: &'a [T],
}

impl<'a, T> Items<'a, T> {
    /// These items.
    pub(crate) fn new(left: &'a [T]) -> Items<'a, T>
        ensures { result.left.now ≡ left.now }
    {
        Items { left }
    }
}

impl<'a, T: ListItem> Cursor for Items<'a, T> {
    ghost cells = { λ items. map T.cell_of items.left.now };

    fn first(&self) -> Option<(Cell, Self)> {
        match self.left {
            [item, left @ ..] => Some((item.cell(), Items::new(left))),
            [] => None,
        }
    }
}

/// The octets of items.
#[derive(Clone, Copy)]
pub(crate) struct Octets<'a, T> {
    left: &'a [u8],
    items: PhantomData<T>,
}

impl<'a, T: ListItem> Octets<'a, T> {
    /// The items that these octets are.
    pub(crate) fn new(left: &'a [u8]) -> Octets<'a, T>
        ensures { result.left.now ≡ left.now }
    {
        Octets {
            left,
            items: PhantomData,
        }
    }
}

impl<'a, T: ListItem> Cursor for Octets<'a, T> {
    ghost cells = { λ octets. map T.cell_of (T.items_in octets.left.now) };

    fn first(&self) -> Option<(Cell, Self)> {
        match T::first_of(self.left) {
            Some((item, left)) => Some((item.cell(), Octets::new(left))),
            None => None,
        }
    }
}
