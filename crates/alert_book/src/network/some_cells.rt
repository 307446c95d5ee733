//! The book of some of a book's cells.

ghost use Rattle.std.specs.Prelude.{◌≡◌, ◌++◌, ◌∷◌, [], List, Option, IfOk, OnOk, filter, length, map};
ghost use Rattle.std.specs.List.{AllZip};
ghost use Rattle.alert_book.specs.Laws.{HaveSamePages};
ghost use Rattle.alert_book.specs.Network.{cells_of_action};
ghost use Rattle.alert_book.specs.Restricted.{in_part, kept_orders, restricted, IsCopyOf};
ghost use Rattle.alert_book.specs.Session.{orders_with};

use crate::book::Book;
use crate::book::cells::list_of;
use crate::book::order::{Action, Order};
use crate::network::all_groups::{copy_pages, order_to};
use cbs_page::Paged;
use cbsp_wire::Cell;
use cbsp_wire::cells::contains;
use std::alloc::{AllocError, Global};

/// Of cells those that are among these.
fn cells_among(alloc: Global, these: &[Cell], cells: &[Cell]) -> Result<Vec<Cell>, AllocError>
    ensures { IfOk result (λ kept. kept.items ≡ filter (in_part these.now) cells.now) }
{
    let mut kept = Vec::new(alloc);
    for cell in cells {
        if contains(these, *cell) {
            kept.push(*cell)?;
        }
    }
    Ok(kept)
}

/// The cells that an order is for.
fn cells_of(action: &Action) -> &[Cell]
    ensures { result.now ≡ cells_of_action action.now }
{
    match action {
        Action::Write(sending) | Action::Update { sending, .. } => list_of(&sending.cells),
        Action::Stop(cells) => list_of(cells),
    }
}

/// Orders that are for some of these cells, each for those alone, and the pages of each.
#[derive(Drop)]
struct KeptOrders {
    orders: Vec<Order>,
    pages: Vec<Option<Paged>>,
}

impl KeptOrders {
    /// Adds an order, if it is for some of these cells.
    fn add(
        &mut self,
        alloc: Global,
        these: &[Cell],
        order: &Order,
        paged: &Option<Paged>,
    ) -> Result<(), AllocError>
        ensures orders { OnOk result (self.new.orders.items ≡ self.old.orders.items
            ++ map (λ o. o.0) (kept_orders (in_part these.now) ((order.now, paged.now) ∷ []))) }
        ensures pages { OnOk result ((pages : List (Option Paged)) → AllZip HaveSamePages pages self.old.pages.items
            → AllZip HaveSamePages
            (pages ++ map (λ o. o.1) (kept_orders (in_part these.now) ((order.now, paged.now) ∷ [])))
            self.new.pages.items) }
    {
        let cells = cells_among(alloc, these, cells_of(&order.action))?;
        if cells.is_empty() {
            return Ok(());
        }
        let own = order_to(alloc, order, &cells)?;
        let copy = copy_pages(alloc, paged)?;
        self.orders.push(own)?;
        self.pages.push(copy)?;
        Ok(())
    }
}

/// Of orders those that are for some of these cells, each for those alone, and the pages of each.
fn orders_among(
    alloc: Global,
    these: &[Cell],
    orders: &[Order],
    pages: &[Option<Paged>],
) -> Result<KeptOrders, AllocError>
    requires { length pages.now ≡ length orders.now }
    ensures orders { IfOk result (λ kept. kept.orders.items
        ≡ map (λ o. o.0) (kept_orders (in_part these.now) (orders_with orders.now pages.now))) }
    ensures pages { IfOk result (λ kept. AllZip HaveSamePages
        (map (λ o. o.1) (kept_orders (in_part these.now) (orders_with orders.now pages.now))) kept.pages.items) }
{
    let mut kept = KeptOrders {
        orders: Vec::new(alloc),
        pages: Vec::new(alloc),
    };
    for place in 0..orders.len() {
        kept.add(alloc, these, &orders[place], &pages[place])?;
    }
    Ok(kept)
}

impl Book {
    /// The book of some of its cells: of each row those of its cells that are among these, with its number, its alert's
    /// and its update's; without the rows that are for none.
    ///
    /// # Errors
    ///
    /// Out of memory.
    pub fn part(&self, alloc: Global, these: &[Cell]) -> Result<Book, AllocError>
        ensures { IfOk result (IsCopyOf (restricted (in_part these.now) self.now)) }
    {
        let cells = cells_among(alloc, these, &self.cells)?;
        let KeptOrders { orders, pages } = orders_among(alloc, these, &self.orders, &self.pages)?;
        Ok(Book {
            cells,
            orders,
            pages,
        })
    }
}
