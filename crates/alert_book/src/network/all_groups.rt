//! A network book that is read once for all its groups.

ghost use Rattle.std.specs.Prelude.{◌≡◌, ◌≢◌, ◌⊎◌, ◌++◌, ◌∷◌, [], ℕ, List, ◌<◌, ◌≤◌, Ok, Err, filter, length, IfErr};
ghost use Rattle.std.specs.Prelude.{IfOk, OnOk, Option};
ghost use Rattle.csv.specs.Records.{fields_of};
ghost use Rattle.alert_book.specs.declared.book.order.Sending.{Sending};
ghost use Rattle.alert_book.specs.AllGroupsSteps.{all_row, AreRowsOfAll, AreRightlyKept, IsAllMore};
ghost use Rattle.alert_book.specs.Book.{refused, sending_of, unread, ArePagesOf, HavePages, IsRowFaultBy};
ghost use Rattle.alert_book.specs.Laws.{HaveSamePages};
ghost use Rattle.alert_book.specs.Network.{action_to, cells_of_action, cells_of_group, groups_of, has_cells};
ghost use Rattle.alert_book.specs.Network.{named_of, order_to, orders_in, row_in_group, sending_to, IsGroupBook};
ghost use Rattle.alert_book.specs.Network.{IsNoNetworkBook, MeansNetwork};
ghost use Rattle.alert_book.specs.SendableSteps.{IsSendable};

use crate::book::fields::copy_of;
use crate::book::names::Names;
use crate::book::order::{Action, Order, Sending};
use crate::book::packing::all_pages;
use crate::book::row::Row;
use crate::book::{Book, fault_of_row};
use crate::fault::{BookFault, BookFaultKind, RowFault, fault_of_book};
use crate::network::all_cells::NetworkCells;
use crate::network::group_cells::GROUP_SIZE;
use crate::network::shares::Named;
use crate::network::{MAX_NETWORK, groups_of, network_row};
use cbs_page::Paged;
use cbsp_wire::{Cell, Cells};
use csv::{ByteRecord, ReaderBuilder};
use std::alloc::{AllocError, AllocGlobal, Global};
use std::marker::Model;
use std::thread::Threads;

/// The rows of a network book, as far as they are read: their cells, and their orders without cells, with what each
/// names.
#[derive(Debug, Drop)]
struct AllRows {
    declared: NetworkCells,
    orders: Vec<Order>,
    named: Vec<Named>,
    names: Names,
}

impl Model for AllRows {
    ghost use Rattle.alert_book.specs.AllGroupsSteps.{AllRowsKept};

    ghost Value = { AllRowsKept };

    ghost view = { λ known.
        record { declared = known.declared; orders = known.orders.items; named = known.named.items } };

    ghost use Rattle.std.specs.Prelude.{◌≡◌, All, length};
    ghost use Rattle.alert_book.specs.NameSteps.{AreNames};
    ghost use Rattle.alert_book.specs.SendableSteps.{IsSendable};

    ghost invariant = { λ known. All IsSendable known.orders.items × AreNames known.names known.orders.items
        × (length known.named.items ≡ length known.orders.items) };
}

/// A sending without its cells, and these.
fn without_its_cells(alloc: Global, sending: Sending) -> (Sending, Cells)
    ensures sending { result.0 ≡ sending_to sending [] }
    ensures cells { result.1 ≡ sending.cells }
{
    let Sending {
        language,
        category,
        period,
        broadcasts,
        cells,
        text,
    } = sending;
    let none = Cells {
        list: Vec::new(alloc),
    };
    let bare = Sending {
        language,
        category,
        period,
        broadcasts,
        cells: none,
        text,
    };
    (bare, cells)
}

/// An action without its cells, and these.
fn action_without_cells(alloc: Global, action: Action) -> (Action, Cells)
    ensures action { result.0 ≡ action_to action [] }
    ensures cells { result.1 ≡ cells_of_action action }
{
    match action {
        Action::Write(sending) => {
            let (sending, cells) = without_its_cells(alloc, sending);
            (Action::Write(sending), cells)
        }
        Action::Update { update, sending } => {
            let (sending, cells) = without_its_cells(alloc, sending);
            (Action::Update { update, sending }, cells)
        }
        Action::Stop(cells) => {
            let none = Cells {
                list: Vec::new(alloc),
            };
            (Action::Stop(none), cells)
        }
    }
}

/// An order without its cells, and these.
fn without_cells(alloc: Global, order: Order) -> (Order, Cells)
    ensures order { result.0 ≡ order_to order [] }
    ensures cells { result.1 ≡ cells_of_action order.action }
    ensures sendable { IsSendable order → IsSendable result.0 }
{
    let Order {
        row,
        at,
        name,
        number,
        alert,
        action,
    } = order;
    let (action, cells) = action_without_cells(alloc, action);
    let bare = Order {
        row,
        at,
        name,
        number,
        alert,
        action,
    };
    (bare, cells)
}

impl AllRows {
    ghost use Rattle.alert_book.specs.declared.book.row.Row.{Row};

    /// None. It takes no memory.
    fn new(alloc: Global) -> AllRows
        ensures sound { AreRightlyKept result }
        ensures cells { result.declared.cells ≡ [] }
        ensures orders { result.orders ≡ [] }
    {
        AllRows {
            declared: NetworkCells::new(alloc),
            orders: Vec::new(alloc),
            named: Vec::new(alloc),
            names: Names::new(alloc),
        }
    }

    /// Reads the row of this number.
    fn read(&mut self, alloc: Global, row: u32, fields: ByteRecord) -> Result<(), RowFault>
        requires count { length self.old.declared.cells ≤ 65536 }
        requires few { length self.old.orders ≤ 4096 }
        ensures ok { OnOk result ((meant : Row) ×
            (all_row row self.old.declared self.old.orders (fields_of fields) ≡ Ok meant)
            × IsAllMore self.old self.new meant) }
        ensures err { IfErr result (λ fault. fault ≢ RowFault.Refused →
            all_row row self.old.declared self.old.orders (fields_of fields) ≡ Err fault) }
    {
        match network_row(
            alloc,
            row,
            &self.declared,
            &self.orders,
            &self.names,
            fields,
        )? {
            Row::Declare(cell) => self.declare(cell)?,
            Row::Give(order) => self.give(alloc, order)?,
        }
        Ok(())
    }

    /// Adds a cell, which isn't declared.
    fn declare(&mut self, cell: Cell) -> Result<(), AllocError>
        requires { length self.old.declared.cells ≤ 65536 }
        ensures { OnOk result (IsAllMore self.old self.new (Row.Declare cell)) }
    {
        self.declared.add(cell)
    }

    /// Adds an order.
    fn give(&mut self, alloc: Global, order: Order) -> Result<(), AllocError>
        requires count { length self.old.declared.cells ≤ 65536 }
        requires few { length self.old.orders ≤ 4096 }
        requires sendable { IsSendable order }
        ensures { OnOk result (IsAllMore self.old self.new (Row.Give order)) }
    {
        let (order, cells) = without_cells(alloc, order);
        let named = self.declared.named(alloc, &cells.list)?;
        self.orders.reserve(1)?;
        self.named.reserve(1)?;
        self.names.add(alloc, &self.orders, &order)?;
        self.orders.push_reserved(order);
        self.named.push_reserved(named);
        Ok(())
    }
}

/// The rows of a network book's octets.
fn all_rows(alloc: Global, octets: &[u8]) -> Result<AllRows, BookFault>
    ensures ok { IfOk result (λ known. AreRowsOfAll known octets.now) }
    ensures err { IfErr result (λ fault. (fault ≡ refused) ⊎ IsRowFaultBy (row_in_group 0) octets.now fault) }
{
    let mut known = AllRows::new(alloc);
    let mut row = 0;
    let reader = ReaderBuilder::new()
        .has_headers(false)
        .flexible(true)
        .from_reader(alloc, octets);
    for record in reader.into_byte_records() {
        let Ok(fields) = record else {
            return Err(fault_of_book(BookFaultKind::Refused));
        };
        row += 1;
        match known.read(alloc, row, fields) {
            Ok(()) => {}
            Err(fault) => return Err(fault_of_row(row, fault)),
        }
    }
    Ok(known)
}

/// Of cells those of a group.
fn part_of_group(cells: &[Cell], group: u16) -> &[Cell]
    ensures { result.now ≡ cells_of_group group cells.now }
{
    let first = (GROUP_SIZE as usize * usize::from(group)).min(cells.len());
    let last = first + (cells.len() - first).min(GROUP_SIZE as usize);
    &cells[first..last]
}

/// Of the cells that a row names those of a group.
fn named_in_group<'a>(cells: &'a [Cell], group: u16, named: &'a Named) -> &'a [Cell]
    ensures { result.now ≡ named_of cells.now group named.now }
{
    match named {
        Named::All(count) => {
            let front = (*count as usize).min(cells.len());
            part_of_group(&cells[..front], group)
        }
        Named::Listed(shares) => shares.of_group(group),
    }
}

/// A sending to these cells.
fn sending_to(alloc: Global, sending: &Sending, cells: &[Cell]) -> Result<Sending, AllocError>
    ensures { IfOk result (λ to. to ≡ sending_to sending.now cells.now) }
{
    Ok(Sending {
        language: copy_of(alloc, &sending.language.text)?,
        category: sending.category,
        period: sending.period,
        broadcasts: sending.broadcasts,
        cells: Cells {
            list: Vec::from_slice(alloc, cells)?,
        },
        text: copy_of(alloc, &sending.text.text)?,
    })
}

/// An action for these cells.
fn action_to(alloc: Global, action: &Action, cells: &[Cell]) -> Result<Action, AllocError>
    ensures { IfOk result (λ to. to ≡ action_to action.now cells.now) }
{
    match action {
        Action::Write(sending) => Ok(Action::Write(sending_to(alloc, sending, cells)?)),
        Action::Update { update, sending } => Ok(Action::Update {
            update: *update,
            sending: sending_to(alloc, sending, cells)?,
        }),
        Action::Stop(_) => Ok(Action::Stop(Cells {
            list: Vec::from_slice(alloc, cells)?,
        })),
    }
}

/// An order for these cells.
pub(crate) fn order_to(alloc: Global, order: &Order, cells: &[Cell]) -> Result<Order, AllocError>
    ensures { IfOk result (λ to. to ≡ order_to order.now cells.now) }
{
    Ok(Order {
        row: order.row,
        at: order.at,
        name: copy_of(alloc, &order.name.text)?,
        number: order.number,
        alert: order.alert,
        action: action_to(alloc, &order.action, cells)?,
    })
}

/// A copy of the pages of an order's text, if it has one.
pub(crate) fn copy_pages(alloc: Global, paged: &Option<Paged>) -> Result<Option<Paged>, AllocError>
    ensures same { IfOk result (HaveSamePages paged.now) }
    ensures pages { IfOk result (λ copy. (sending : Option Sending)
        → ArePagesOf sending paged.now → ArePagesOf sending copy) }
{
    match paged {
        Some(paged) => Ok(Some(Paged {
            dcs: paged.dcs,
            pages: Vec::from_slice(alloc, &paged.pages)?,
        })),
        None => Ok(None),
    }
}

/// Orders that are for some cells, and the pages of each.
#[derive(Drop)]
struct OwnOrders {
    orders: Vec<Order>,
    pages: Vec<Option<Paged>>,
}

impl OwnOrders {
    /// Adds an order for these cells, if they are some.
    fn add(
        &mut self,
        alloc: Global,
        order: &Order,
        cells: &[Cell],
        paged: &Option<Paged>,
    ) -> Result<(), AllocError>
        requires here { ArePagesOf (sending_of order.now.action) paged.now }
        requires paged { HavePages self.old.orders.items self.old.pages.items }
        ensures orders { OnOk result (self.new.orders.items
            ≡ self.old.orders.items ++ filter has_cells (order_to order.now cells.now ∷ [])) }
        ensures pages { OnOk result (HavePages self.new.orders.items self.new.pages.items) }
    {
        if cells.is_empty() {
            return Ok(());
        }
        let own = order_to(alloc, order, cells)?;
        let copy = copy_pages(alloc, paged)?;
        self.orders.push(own)?;
        self.pages.push(copy)?;
        Ok(())
    }
}

/// Of the orders of a network's rows those that are for some cells of a group, and their pages.
fn orders_of_group(
    alloc: Global,
    group: u16,
    cells: &[Cell],
    orders: &[Order],
    named: &[Named],
    pages: &[Option<Paged>],
) -> Result<OwnOrders, AllocError>
    requires named { length named.now ≡ length orders.now }
    requires paged { HavePages orders.now pages.now }
    ensures orders { IfOk result (λ own. own.orders.items
        ≡ filter has_cells (orders_in cells.now group orders.now named.now)) }
    ensures pages { IfOk result (λ own. HavePages own.orders.items own.pages.items) }
{
    let mut own = OwnOrders {
        orders: Vec::new(alloc),
        pages: Vec::new(alloc),
    };
    for place in 0..orders.len() {
        let part = named_in_group(cells, group, &named[place]);
        own.add(alloc, &orders[place], part, &pages[place])?;
    }
    Ok(own)
}

/// What a network book's octets mean, read once for all its groups: its cells, its orders, and the pages of their
/// texts. In clauses it is the cells, the orders without cells, and what each names.
#[derive(Debug, Drop)]
pub struct Network {
    cells: Vec<Cell>,
    orders: Vec<Order>,
    named: Vec<Named>,
    pages: Vec<Option<Paged>>,
}

impl Model for Network {
    ghost use Rattle.alert_book.specs.Network.{NetworkRows};

    ghost Value = { NetworkRows };

    ghost view = { λ network. record {
      cells = network.cells.items;
      orders = network.orders.items;
      named = network.named.items;
    } };

    ghost use Rattle.std.specs.Prelude.{◌≡◌, ◌≤◌, All, length};
    ghost use Rattle.alert_book.specs.Book.{HavePages};
    ghost use Rattle.alert_book.specs.SendableSteps.{IsSendable};

    ghost invariant = { λ network. (length network.cells.items ≤ 65536) × All IsSendable network.orders.items
        × HavePages network.orders.items network.pages.items
        × (length network.named.items ≡ length network.orders.items) };
}

impl Network {
    /// Reads the network book that octets are. All texts are judged and packed, whichever cells they are for, side by
    /// side in as many threads as there are processors.
    ///
    /// # Errors
    ///
    /// The first fault of the network book, as [`read_book`] has it of a book. Out of memory may come at any point.
    ///
    /// [`read_book`]: crate::read_book
    pub fn read<T: AllocGlobal + Threads + Sync>(
        rt: &T,
        octets: &[u8],
    ) -> Result<Network, BookFault>
        ensures ok { IfOk result (MeansNetwork octets.now) }
        ensures err { IfErr result (IsNoNetworkBook 0 octets.now) }
        ensures unread { IfErr result (λ fault. fault ≢ unread) }
    {
        if octets.len() > MAX_NETWORK {
            return Err(fault_of_book(BookFaultKind::TooManyRows));
        }
        let rows = all_rows(rt.alloc(), octets)?;
        let pages = all_pages(rt, &rows.orders)?;
        let AllRows {
            declared,
            orders,
            named,
            ..
        } = rows;
        Ok(Network {
            cells: declared.cells.list,
            orders,
            named,
            pages,
        })
    }

    /// The number of its groups: 1 to 1,024. A network without cells has one, whose book is empty.
    pub fn groups(&self) -> u16
        ensures { result ≡ groups_of (length self.now.cells) }
    {
        groups_of(self.cells.len() as u32)
    }

    /// The book of one of its groups, which are numbered from 0: 64 of its cells, and of each other row those of its
    /// cells that are among them.
    ///
    /// # Errors
    ///
    /// Out of memory.
    pub fn group(&self, alloc: Global, group: u16) -> Result<Book, AllocError>
        requires { group < groups_of (length self.now.cells) }
        ensures { IfOk result (λ book. (input : List ℕ) → MeansNetwork input self.now → IsGroupBook group input book) }
    {
        let own = part_of_group(&self.cells, group);
        let cells = Vec::from_slice(alloc, own)?;
        let OwnOrders { orders, pages } = orders_of_group(
            alloc,
            group,
            &self.cells,
            &self.orders,
            &self.named,
            &self.pages,
        )?;
        Ok(Book {
            cells,
            orders,
            pages,
        })
    }
}
