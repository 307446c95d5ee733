//! Network books: books of more cells than a session serves, which are read for one group of 64 cells at a time.

ghost use Rattle.std.specs.Prelude.{◌≡◌, ◌≢◌, ◌⊎◌, ◌↔◌, ◌≤◌, ◌++◌, ◌∷◌, [], Ok, Err, false, true, filter};
ghost use Rattle.std.specs.Prelude.{if◌then◌else◌};
ghost use Rattle.alert_book.specs.declared.book.row.Row.{Row};
ghost use Rattle.std.specs.Prelude.{◌<◌, ℕ, List, All, IfErr, IfOk, IsErrOf, IsTrue, OnErr, OnOk, length};
ghost use Rattle.csv.specs.Records.{fields_of};
ghost use Rattle.device_ends.specs.Source.{reader_of, source_failed};
ghost use Rattle.alert_book.specs.Book.{refused, unread, HavePages, IsRowFaultBy};
ghost use Rattle.alert_book.specs.NameSteps.{AreNames};
ghost use Rattle.alert_book.specs.Network.{declares_cell, groups_of, has_cells, row_in_group, CountsGroups};
ghost use Rattle.alert_book.specs.Network.{AreOrdersIn, AreOrdersOfGroup, HasGroups, HasNoBook, HasNoBookIn};
ghost use Rattle.alert_book.specs.Network.{HasNoOrders, IsGroupBook, IsNoNetworkBook, IsWrongNetwork, ReadsGroup};
ghost use Rattle.alert_book.specs.Network.{RefusesNetwork};
ghost use Rattle.alert_book.specs.NetworkSteps.{is_kept_at, kept_row, network_row_by, pages_kept, AreAllKept};
ghost use Rattle.alert_book.specs.NetworkSteps.{IsKeptMore, ReadsRows};
ghost use Rattle.alert_book.specs.Origin.{HasNoBookFrom, ReadsFrom};
ghost use Rattle.alert_book.specs.RowSteps.{IsFine};
ghost use Rattle.alert_book.specs.SendableSteps.{IsSendable};

use crate::book::cells::list_of;
use crate::book::declared::Declared;
use crate::book::fields::texts_of;
use crate::book::names::Names;
use crate::book::order::{Action, Order};
use crate::book::packing::all_pages;
use crate::book::row::{Row, row_after_verb};
use crate::book::{Book, fault_of_row, read_book};
use crate::fault::{BookFault, BookFaultKind, RowFault, fault_of_book};
use crate::network::group_cells::GroupCells;
use cbs_page::Paged;
use cbsp_wire::Cell;
use csv::{ByteRecord, ReaderBuilder};
use device_ends::{ReadFault, Source, read_up_to};
use std::alloc::{AllocError, AllocGlobal, Global};
use std::io::Read;
use std::marker::Model;
use std::thread::Threads;
use thiserror::Error;

pub(crate) mod all_cells;
pub(crate) mod all_groups;
pub(crate) mod cell_set;
pub(crate) mod group_cells;
pub(crate) mod shares;
pub(crate) mod some_cells;

/// The most octets of a network book: 64 MiB.
pub const MAX_NETWORK: usize = 0x400_0000;

/// The most rows of a network book that declare no cell.
pub(crate) const MAX_ORDERS: usize = 4096;

/// Why a group has no book.
#[derive(Clone, Copy, Debug, PartialEq, Eq, Error)]
pub enum GroupFault {
    /// The network book, or the book, is refused.
    #[error("{0}")]
    Network(BookFault),
    /// The network has this many groups, numbered from 0, and this one isn't among them.
    #[error("no such group: the network has {0}")]
    NoGroup(u16),
}

/// Where a book comes from.
#[derive(Clone, Copy, Debug, PartialEq, Eq)]
pub enum Origin {
    /// The octets are the book.
    Book,
    /// The octets are a network book, of which this is the group of that number, from 0.
    Group(u16),
}

/// The rows of a network book, as far as they are read, with of each row the cells that are in the group.
#[derive(Debug, Drop)]
struct RowsInGroup {
    declared: GroupCells,
    orders: Vec<Order>,
    names: Names,
}

impl Model for RowsInGroup {
    ghost use Rattle.alert_book.specs.NetworkSteps.{RowsKept};

    ghost Value = { RowsKept };

    ghost view = { λ known. record { declared = known.declared; orders = known.orders.items } };

    ghost use Rattle.std.specs.Prelude.{All};
    ghost use Rattle.alert_book.specs.NameSteps.{AreNames};
    ghost use Rattle.alert_book.specs.SendableSteps.{IsSendable};

    ghost invariant = { λ known. All IsSendable known.orders.items × AreNames known.names known.orders.items };
}

/// Whether a row declares a cell.
pub(crate) fn declares_cell(fields: &ByteRecord) -> bool
    ensures { result ≡ declares_cell (fields_of fields.now) }
{
    match fields.get(0) {
        Some(verb) => verb == b"cell".as_slice(),
        None => false,
    }
}

/// What the row of this number means in a network that declares these cells.
pub(crate) fn network_row<D: Declared>(
    alloc: Global,
    row: u32,
    declared: &D,
    orders: &[Order],
    names: &Names,
    fields: ByteRecord,
) -> Result<Row, RowFault>
    requires few { length orders.now ≤ 4096 }
    requires names { AreNames names.now orders.now }
    ensures ok { IfOk result (λ meant. network_row_by row (D.declares declared.now (fields_of fields))
        (D.field_cells declared.now) orders.now (fields_of fields) ≡ Ok meant) }
    ensures sendable { IfOk result (λ meant. All IsSendable orders.now → IsFine meant) }
    ensures err { IfErr result (λ fault. fault ≢ RowFault.Refused →
        network_row_by row (D.declares declared.now (fields_of fields)) (D.field_cells declared.now) orders.now
        (fields_of fields) ≡ Err fault) }
{
    if !declares_cell(&fields) && orders.len() >= MAX_ORDERS {
        return Err(RowFault::TooManyRows);
    }
    let fields = texts_of(fields)?;
    row_after_verb(alloc, row, declared, orders, names, &fields)
}

impl RowsInGroup {
    /// Reads the row of this number.
    fn read(&mut self, alloc: Global, row: u32, fields: ByteRecord) -> Result<(), RowFault>
        requires count { self.old.declared.count ≤ 65536 }
        requires few { length self.old.orders ≤ 4096 }
        ensures ok { OnOk result ((meant : Row) ×
            (kept_row row self.old.declared self.old.orders (fields_of fields) ≡ Ok meant)
            × IsKeptMore self.old self.new meant) }
        ensures err { IfErr result (λ fault. fault ≢ RowFault.Refused →
            kept_row row self.old.declared self.old.orders (fields_of fields) ≡ Err fault) }
    {
        match network_row(
            alloc,
            row,
            &self.declared,
            &self.orders,
            &self.names,
            fields,
        )? {
            Row::Declare(cell) => self.declare(cell)?,
            Row::Give(order) => self.give(alloc, order)?,
        }
        Ok(())
    }

    /// Adds a cell, which isn't declared.
    fn declare(&mut self, cell: Cell) -> Result<(), AllocError>
        requires { self.old.declared.count ≤ 65536 }
        ensures { OnOk result (IsKeptMore self.old self.new (Row.Declare cell)) }
    {
        self.declared.add(cell)
    }

    /// Adds an order.
    fn give(&mut self, alloc: Global, order: Order) -> Result<(), AllocError>
        requires few { length self.old.orders ≤ 4096 }
        requires sendable { IsSendable order }
        ensures { OnOk result (IsKeptMore self.old self.new (Row.Give order)) }
    {
        self.orders.reserve(1)?;
        self.names.add(alloc, &self.orders, &order)?;
        self.orders.push_reserved(order);
        Ok(())
    }
}

/// The rows of a network book's octets, with of each row the cells that are in the group.
fn rows_in_group(alloc: Global, octets: &[u8], group: u16) -> Result<RowsInGroup, BookFault>
    ensures ok { IfOk result (λ known. AreAllKept known group octets.now) }
    ensures err { IfErr result (λ fault. (fault ≡ refused) ⊎ IsRowFaultBy (row_in_group group) octets.now fault) }
{
    let mut known = RowsInGroup {
        declared: GroupCells::new(alloc, group),
        orders: Vec::new(alloc),
        names: Names::new(alloc),
    };
    let mut row = 0;
    let reader = ReaderBuilder::new()
        .has_headers(false)
        .flexible(true)
        .from_reader(alloc, octets);
    for record in reader.into_byte_records() {
        let Ok(fields) = record else {
            return Err(fault_of_book(BookFaultKind::Refused));
        };
        row += 1;
        match known.read(alloc, row, fields) {
            Ok(()) => {}
            Err(fault) => return Err(fault_of_row(row, fault)),
        }
    }
    Ok(known)
}

/// The orders that the rows of a network book's octets give, each for its cells of the first group. No text of them is
/// judged.
///
/// # Errors
///
/// The first fault of a row, or out of memory.
pub fn network_orders(alloc: Global, octets: &[u8]) -> Result<Vec<Order>, BookFault>
    ensures ok { IfOk result (λ orders. AreOrdersIn 0 octets.now orders.items) }
    ensures err { IfErr result (λ fault. (fault ≡ refused) ⊎ IsRowFaultBy (row_in_group 0) octets.now fault) }
{
    let RowsInGroup { orders, .. } = rows_in_group(alloc, octets, 0)?;
    Ok(orders)
}

/// The orders that the rows of a network book's octets give for some cells of a group. No text of them is judged.
///
/// # Errors
///
/// `Network` with the first fault of a row, or out of memory, and `NoGroup` with the number of groups if this one isn't
/// among them.
pub fn group_orders(alloc: Global, octets: &[u8], group: u16) -> Result<Vec<Order>, GroupFault>
    ensures ok { IfOk result (λ orders. AreOrdersOfGroup group octets.now orders.items) }
    ensures err { IfErr result (HasNoOrders group octets.now) }
{
    let rows = match rows_in_group(alloc, octets, group) {
        Ok(rows) => rows,
        Err(fault) => return Err(GroupFault::Network(fault)),
    };
    let groups = groups_of(rows.declared.count);
    if groups <= group {
        return Err(GroupFault::NoGroup(groups));
    }
    let RowsInGroup { orders, .. } = rows;
    match orders_kept(alloc, orders) {
        Ok(orders) => Ok(orders),
        Err(_) => Err(GroupFault::Network(fault_of_book(BookFaultKind::Refused))),
    }
}

/// Whether an order is for some cells.
fn has_cells(order: &Order) -> bool
    ensures { result ≡ has_cells order.now }
{
    let cells = match &order.action {
        Action::Write(sending) | Action::Update { sending, .. } => &sending.cells,
        Action::Stop(cells) => cells,
    };
    !list_of(cells).is_empty()
}

/// How many groups a network of this many cells has.
pub(crate) fn groups_of(cells: u32) -> u16
    requires { cells ≤ 65536 }
    ensures { result ≡ groups_of cells }
{
    let groups = (cells + 63) / 64;
    if groups == 0 { 1 } else { groups as u16 }
}

/// A network book that is read for a group.
#[derive(Drop)]
struct NetworkForGroup {
    rows: RowsInGroup,
    pages: Vec<Option<Paged>>,
}

/// The network book that octets are, if they are one.
fn network_of<T: AllocGlobal + Threads + Sync>(
    rt: &T,
    octets: &[u8],
    group: u16,
) -> Result<NetworkForGroup, BookFault>
    requires { length octets.now ≤ 67108864 }
    ensures ok { IfOk result (λ network. AreAllKept network.rows group octets.now
        × HavePages network.rows.orders network.pages.items) }
    ensures err { IfErr result (λ fault. (fault ≡ refused) ⊎ IsWrongNetwork group octets.now fault) }
    ensures unread { IfErr result (λ fault. fault ≢ unread) }
{
    let rows = rows_in_group(rt.alloc(), octets, group)?;
    let pages = all_pages(rt, &rows.orders)?;
    Ok(NetworkForGroup { rows, pages })
}

/// The network book that octets are, if they are one and not too many.
fn network_in<T: AllocGlobal + Threads + Sync>(
    rt: &T,
    octets: &[u8],
    group: u16,
) -> Result<NetworkForGroup, BookFault>
    ensures bounded { OnOk result (length octets.now ≤ 67108864) }
    ensures ok { IfOk result (λ network. AreAllKept network.rows group octets.now
        × HavePages network.rows.orders network.pages.items) }
    ensures err { IfErr result (IsNoNetworkBook group octets.now) }
    ensures unread { IfErr result (λ fault. fault ≢ unread) }
{
    if octets.len() > MAX_NETWORK {
        return Err(fault_of_book(BookFaultKind::TooManyRows));
    }
    network_of(rt, octets, group)
}

/// Reads a network book to its end, for a group.
fn read_network<T: AllocGlobal + Threads + Sync, R: Read>(
    rt: &T,
    source: &mut Source<R>,
    group: u16,
) -> Result<NetworkForGroup, BookFault>
    ensures ok { IfOk result (λ network. ReadsRows (R.remaining (reader_of source.old))
        (R.remaining (reader_of source.new)) group network.rows network.pages.items) }
    ensures err { IfErr result (λ fault. RefusesNetwork (R.remaining (reader_of source.old))
        (R.remaining (reader_of source.new)) group fault) }
    ensures device { IsErrOf result unread ↔ IsTrue (source_failed source.new) }
    ensures not_failed { OnOk result (source_failed source.new ≡ false) }
    ensures failed_stays { source_failed source.old ≡ true → source.new ≡ source.old }
{
    let octets = match read_up_to(source, rt.alloc(), MAX_NETWORK) {
        Ok(octets) => octets,
        Err(ReadFault::Device) => return Err(fault_of_book(BookFaultKind::ReadFailed)),
        Err(ReadFault::Refused) => return Err(fault_of_book(BookFaultKind::Refused)),
    };
    network_in(rt, &octets, group)
}

/// Whether the order at a place is for some cells.
fn is_kept_at(orders: &[Order], place: usize) -> bool
    ensures { result ≡ is_kept_at orders.now place }
{
    match orders.get(place) {
        Some(order) => has_cells(order),
        None => false,
    }
}

/// Appends the pages of a text if they are kept.
fn push_if(
    pages: &mut Vec<Option<Paged>>,
    paged: Option<Paged>,
    is_kept: bool,
) -> Result<(), AllocError>
    ensures { OnOk result (pages.new.items ≡ pages.old.items ++ (if is_kept then paged ∷ [] else [])) }
{
    if is_kept {
        pages.push(paged)?;
    }
    Ok(())
}

/// Of the pages of orders those of the orders that are for some cells.
fn pages_kept(
    alloc: Global,
    orders: &[Order],
    pages: Vec<Option<Paged>>,
) -> Result<Vec<Option<Paged>>, AllocError>
    ensures { IfOk result (λ kept. kept.items ≡ pages_kept orders.now pages.items) }
{
    let mut kept = Vec::new(alloc);
    let mut place = 0;
    for paged in pages {
        push_if(&mut kept, paged, is_kept_at(orders, place))?;
        place += 1;
    }
    Ok(kept)
}

/// Of orders those that are for some cells.
fn orders_kept(alloc: Global, orders: Vec<Order>) -> Result<Vec<Order>, AllocError>
    ensures { IfOk result (λ kept. kept.items ≡ filter has_cells orders.items) }
{
    let mut kept = Vec::new(alloc);
    for order in orders {
        if has_cells(&order) {
            kept.push(order)?;
        }
    }
    Ok(kept)
}

/// The book of the group that a network book was read for.
fn book_of(alloc: Global, network: NetworkForGroup) -> Result<Book, AllocError>
    requires { HavePages network.rows.orders network.pages.items }
    ensures cells { IfOk result (λ book. book.cells ≡ network.rows.declared.cells) }
    ensures orders { IfOk result (λ book. book.orders ≡ filter has_cells network.rows.orders) }
    ensures pages { IfOk result (λ book. HavePages book.orders book.pages) }
{
    let NetworkForGroup { rows, pages } = network;
    let RowsInGroup {
        declared,
        orders,
        ..
    } = rows;
    let pages = pages_kept(alloc, &orders, pages)?;
    let orders = orders_kept(alloc, orders)?;
    let cells = declared.cells;
    Ok(Book {
        cells: cells.list,
        orders,
        pages,
    })
}

/// The book of a group for which a network book was read.
fn book_in(alloc: Global, network: NetworkForGroup, group: u16) -> Result<Book, GroupFault>
    requires known { (input : List ℕ) × AreAllKept network.rows group input }
    requires paged { HavePages network.rows.orders network.pages.items }
    ensures cells { IfOk result (λ book. book.cells ≡ network.rows.declared.cells) }
    ensures orders { IfOk result (λ book. book.orders ≡ filter has_cells network.rows.orders) }
    ensures pages { IfOk result (λ book. HavePages book.orders book.pages) }
    ensures there { OnOk result (group < groups_of network.rows.declared.count) }
    ensures err { IfErr result (λ fault. (fault ≡ GroupFault.Network refused)
        ⊎ ((fault ≡ GroupFault.NoGroup (groups_of network.rows.declared.count))
        × (groups_of network.rows.declared.count ≤ group))) }
{
    let groups = groups_of(network.rows.declared.count);
    if group >= groups {
        return Err(GroupFault::NoGroup(groups));
    }
    match book_of(alloc, network) {
        Ok(book) => Ok(book),
        Err(_) => Err(GroupFault::Network(fault_of_book(BookFaultKind::Refused))),
    }
}

/// Reads a network book to its end, and gives the book of one of its groups, which are numbered from 0: 64 of its
/// cells, and of each other row those of its cells that are among them. All texts are judged, whichever cells they are
/// for.
///
/// # Errors
///
/// `Network` with the first fault of the network book, as [`read_book`] has it of a book, and `NoGroup` with the number
/// of its groups if this one isn't among them. Out of memory may come at any point.
///
/// [`read_book`]: crate::read_book
pub fn read_group<T: AllocGlobal + Threads + Sync, R: Read>(
    rt: &T,
    source: &mut Source<R>,
    group: u16,
) -> Result<Book, GroupFault>
    ensures ok { IfOk result (λ book. ReadsGroup (R.remaining (reader_of source.old))
        (R.remaining (reader_of source.new)) group book) }
    ensures err { IfErr result (λ fault. HasNoBook (R.remaining (reader_of source.old))
        (R.remaining (reader_of source.new)) group fault) }

    // The device, at any reader.
    ensures device { IsErrOf result (GroupFault.Network unread) ↔ IsTrue (source_failed source.new) }
    ensures not_failed { OnOk result (source_failed source.new ≡ false) }
    ensures failed_stays { source_failed source.old ≡ true → source.new ≡ source.old }
{
    match read_network(rt, source, group) {
        Ok(network) => book_in(rt.alloc(), network, group),
        Err(fault) => Err(GroupFault::Network(fault)),
    }
}

/// Gives the book of one of the groups of the network book that octets are, as [`read_group`] does of a reader's.
///
/// # Errors
///
/// Returns the faults of [`read_group`].
pub fn group_in<T: AllocGlobal + Threads + Sync>(
    rt: &T,
    octets: &[u8],
    group: u16,
) -> Result<Book, GroupFault>
    ensures ok { IfOk result (IsGroupBook group octets.now) }
    ensures err { IfErr result (HasNoBookIn group octets.now) }
{
    match network_in(rt, octets, group) {
        Ok(network) => book_in(rt.alloc(), network, group),
        Err(fault) => Err(GroupFault::Network(fault)),
    }
}

/// Reads a book to its end, as [`read_book`] does, or a network book for a group, as [`read_group`] does.
///
/// # Errors
///
/// `Network` with the fault of [`read_book`], or the faults of [`read_group`].
pub fn read_book_from<T: AllocGlobal + Threads + Sync, R: Read>(
    rt: &T,
    source: &mut Source<R>,
    origin: Origin,
) -> Result<Book, GroupFault>
    ensures ok { IfOk result (λ book. ReadsFrom origin (R.remaining (reader_of source.old))
        (R.remaining (reader_of source.new)) book) }
    ensures err { IfErr result (λ fault. HasNoBookFrom origin (R.remaining (reader_of source.old))
        (R.remaining (reader_of source.new)) fault) }

    // The device, at any reader.
    ensures device { IsErrOf result (GroupFault.Network unread) ↔ IsTrue (source_failed source.new) }
    ensures not_failed { OnOk result (source_failed source.new ≡ false) }
    ensures failed_stays { source_failed source.old ≡ true → source.new ≡ source.old }
{
    match origin {
        Origin::Group(group) => read_group(rt, source, group),
        Origin::Book => match read_book(rt, source) {
            Ok(book) => Ok(book),
            Err(fault) => Err(GroupFault::Network(fault)),
        },
    }
}

/// Reads a network book to its end, and gives the number of its groups: 1 to 1,024. A network without cells has one,
/// whose book is empty.
///
/// # Errors
///
/// The first fault of the network book, as [`read_book`] has it of a book. Out of memory may come at any point.
///
/// [`read_book`]: crate::read_book
pub fn count_groups<T: AllocGlobal + Threads + Sync, R: Read>(
    rt: &T,
    source: &mut Source<R>,
) -> Result<u16, BookFault>
    ensures ok { IfOk result (λ groups. CountsGroups (R.remaining (reader_of source.old))
        (R.remaining (reader_of source.new)) 0 groups) }
    ensures err { IfErr result (λ fault. RefusesNetwork (R.remaining (reader_of source.old))
        (R.remaining (reader_of source.new)) 0 fault) }

    // The device, at any reader.
    ensures device { IsErrOf result unread ↔ IsTrue (source_failed source.new) }
    ensures not_failed { OnOk result (source_failed source.new ≡ false) }
    ensures failed_stays { source_failed source.old ≡ true → source.new ≡ source.old }
{
    let network = read_network(rt, source, 0)?;
    Ok(groups_of(network.rows.declared.count))
}

/// Gives the number of groups of the network book that octets are, as [`count_groups`] does of a reader's.
///
/// # Errors
///
/// Returns the faults of [`count_groups`].
pub fn groups_in<T: AllocGlobal + Threads + Sync>(rt: &T, octets: &[u8]) -> Result<u16, BookFault>
    ensures ok { IfOk result (HasGroups 0 octets.now) }
    ensures err { IfErr result (IsNoNetworkBook 0 octets.now) }
    ensures unread { IfErr result (λ fault. fault ≢ unread) }
{
    let network = network_in(rt, octets, 0)?;
    Ok(groups_of(network.rows.declared.count))
}
