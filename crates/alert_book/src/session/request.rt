//! The requests that a row's order comes to: messages, each to the cells that have one version of its alert.

ghost use Rattle.std.specs.Prelude.{ℕ, false, slice_index_or, true};
ghost use Rattle.std.specs.Prelude.{◌≡◌, ◌<◌, ◌∷◌, ◌++◌, [], Some, None, All, map, IfOk, IfSome, OnOk, if◌then◌else◌};
ghost use Rattle.alert_book.specs.Session.{has_cells, is_version, requests_of, targets_of, serial_if};
ghost use Rattle.alert_book.specs.Session.{serial_of};
ghost use Rattle.alert_book.specs.Session.{request_with, stop_request, update_request, write_of};
ghost use Rattle.alert_book.specs.SessionSteps.{cell_version, cells_found, live_by, AreMarked};
ghost use Rattle.alert_book.specs.SendableSteps.{HasSerials, IsSendable};

use crate::book::cells::list_of;
use crate::book::order::{Action, Alert, Order, Sending};
use crate::session::live_versions::LiveVersions;
use cbs_page::{Paged, Serial};
use cbsp_wire::{Cell, Cells, Contents, Message};
use std::alloc::Global;
use std::collections::VecDeque;

/// Out of memory.
pub use std::alloc::AllocError as Refused;

/// How many versions an alert has at most, the first among them.
const VERSIONS: usize = 16;

/// A message of a session.
#[derive(Debug, Drop)]
pub struct Request {
    /// The row that gives it, from 1.
    pub row: u32,
    /// The slot at which it is given.
    pub at: u16,
    /// The number of its alert.
    pub number: u16,
    /// The version that is live in a cell that accepts it, by its update number; none is after a kill.
    pub version: Option<u8>,
    /// The message.
    pub message: Message,
}

/// The cells in which a version of an alert is believed live.
#[derive(Debug, Drop)]
pub struct Target {
    /// The version, by its update number.
    pub version: u8,
    /// The cells.
    pub cells: Cells,
}

/// A cell, and the version of an alert that is believed live there.
#[derive(Clone, Copy)]
pub struct CellVersion {
    /// The cell.
    pub cell: Cell,
    /// The version, by its update number, if one is live.
    pub version: Option<u8>,
}

/// The serial number of a version of an alert.
fn serial_of(alert: Alert, version: u8) -> Serial
    requires alert { HasSerials alert }
    requires version { version < 16 }
    ensures { result ≡ serial_of alert version }
{
    Serial::of(u16::from(alert.scope) * 0x4000 + alert.code * 0x10 + u16::from(version))
}

/// The same if there is a version.
fn serial_if(alert: Alert, version: Option<u8>) -> Option<Serial>
    requires alert { HasSerials alert }
    requires version { IfSome version (λ v. v < 16) }
    ensures { result ≡ serial_if alert version }
{
    match version {
        Some(version) => Some(serial_of(alert, version)),
        None => None,
    }
}

/// Whether a version is this one.
fn is_version(version: u8, live: Option<u8>) -> bool
    ensures { result ≡ is_version version live }
{
    match live {
        Some(live) => live == version,
        None => false,
    }
}

/// Some cells, each with the version of an alert that is believed live there.
fn versions_in(
    alloc: Global,
    live: &LiveVersions<'_>,
    number: u16,
    cells: &[Cell],
) -> Result<Vec<CellVersion>, Refused>
    ensures { IfOk result (λ found. found.items ≡ map (cell_version (live_by live.now) number) cells.now) }
{
    let mut found = Vec::with_capacity(alloc, cells.len())?;
    for (place, cell) in cells.iter().enumerate() {
        found.push(CellVersion {
            cell: *cell,
            version: live.version(number, *cell, place),
        })?;
    }
    Ok(found)
}

/// Marks a version, if there is one.
fn mark(marks: &mut [bool; VERSIONS], version: Option<u8>)
    ensures { (other : ℕ) → slice_index_or marks.new other true ≡ false
        → (slice_index_or marks.old other true ≡ false) × (is_version other version ≡ false) }
{
    if let Some(version) = version {
        let index = usize::from(version);
        if index < VERSIONS {
            marks[index] = true;
        }
    }
}

/// The versions that are live in some of these cells, by a walk over them: mostly there is one.
fn marks_of(found: &[CellVersion]) -> [bool; VERSIONS]
    ensures { AreMarked result found.now }
{
    let mut marks = [false; VERSIONS];
    let mut left = found;
    'found: while let [one, rest @ ..] = left {
        mark(&mut marks, one.version);
        left = rest;
    }
    marks
}

/// Of some cells those that have this version, which are looked for only if it is marked.
fn cells_if_marked(
    alloc: Global,
    marks: &[bool; VERSIONS],
    found: &[CellVersion],
    version: u8,
) -> Result<Cells, Refused>
    requires { AreMarked marks.now found.now }
    ensures { IfOk result (λ cells. cells ≡ cells_found version found.now) }
{
    let index = usize::from(version);
    if index < VERSIONS && !marks[index] {
        return Ok(Cells {
            list: Vec::new(alloc),
        });
    }
    cells_with(alloc, found, version)
}

/// Of some cells those that have this version.
fn cells_with(alloc: Global, found: &[CellVersion], version: u8) -> Result<Cells, Refused>
    ensures { IfOk result (λ cells. cells ≡ cells_found version found.now) }
{
    let mut list = Vec::with_capacity(alloc, found.len())?;
    for one in found {
        if is_version(version, one.version) {
            list.push(one.cell)?;
        }
    }
    Ok(Cells { list })
}

/// The message that has cells broadcast a version of an alert, in place of another one if there is one.
fn write_of(
    alloc: Global,
    alert: Alert,
    sending: &Sending,
    paged: &Paged,
    version: u8,
    replaced: Option<u8>,
    cells: Cells,
) -> Result<Message, Refused>
    requires alert { HasSerials alert }
    requires version { version < 16 }
    requires replaced { IfSome replaced (λ v. v < 16) }
    ensures { IfOk result (λ message. message ≡ write_of alert sending.now paged.now version replaced cells) }
{
    let list = Vec::from_slice(alloc, &paged.pages)?;
    Ok(Message::Write {
        id: alert.id,
        new_serial: serial_of(alert, version),
        old_serial: serial_if(alert, replaced),
        cells,
        channel: None,
        category: Some(sending.category),
        period: sending.period,
        broadcasts: sending.broadcasts,
        dcs: paged.dcs,
        contents: Contents::new(list)?,
    })
}

/// The request of an order with this message.
fn request_with(order: &Order, version: Option<u8>, message: Message) -> Request
    ensures { result ≡ request_with order.now version message }
{
    Request {
        row: order.row,
        at: order.at,
        number: order.number,
        version,
        message,
    }
}

/// Appends a version that is believed live in some cell.
fn push_target(targets: &mut Vec<Target>, target: Target) -> Result<(), Refused>
    ensures { OnOk result (targets.new.items
        ≡ targets.old.items ++ (if has_cells target then target ∷ [] else [])) }
{
    if !target.cells.list.is_empty() {
        targets.push(target)?;
    }
    Ok(())
}

/// The versions of an alert that are believed live in some of these cells, in their order, each with its cells.
fn targets_of(
    alloc: Global,
    live: &LiveVersions<'_>,
    number: u16,
    cells: &[Cell],
) -> Result<Vec<Target>, Refused>
    ensures same { IfOk result (λ targets. targets.items ≡ targets_of (live_by live.now) number cells.now) }
    ensures versions { IfOk result (λ targets. All (λ t. t.version < 16) targets.items) }
{
    let found = versions_in(alloc, live, number, cells)?;
    let marks = marks_of(&found);
    let mut targets = Vec::new(alloc);
    for version in 0..16 {
        let cells = cells_if_marked(alloc, &marks, &found, version)?;
        push_target(&mut targets, Target { version, cells })?;
    }
    Ok(targets)
}

/// The request of a row that writes an alert.
fn write_request(
    alloc: Global,
    order: &Order,
    sending: &Sending,
    paged: &Paged,
) -> Result<VecDeque<Request>, Refused>
    requires { HasSerials order.now.alert }
    ensures { IfOk result (λ requests. requests.items ≡ request_with order.now (Some 0)
        (write_of order.now.alert sending.now paged.now 0 None sending.now.cells) ∷ []) }
{
    let list = Vec::from_slice(alloc, &sending.cells.list)?;
    let message = write_of(alloc, order.alert, sending, paged, 0, None, Cells { list })?;
    let mut requests = VecDeque::new(alloc);
    requests.push_back(request_with(order, Some(0), message))?;
    Ok(requests)
}

/// The requests of a row that updates an alert, for these targets.
fn update_requests(
    alloc: Global,
    order: &Order,
    sending: &Sending,
    paged: &Paged,
    version: u8,
    targets: Vec<Target>,
) -> Result<VecDeque<Request>, Refused>
    requires alert { HasSerials order.now.alert }
    requires version { version < 16 }
    requires targets { All (λ t. t.version < 16) targets.items }
    ensures { IfOk result (λ requests.
        requests.items ≡ map (update_request order.now sending.now paged.now version) targets.items) }
{
    let mut requests = VecDeque::new(alloc);
    for target in targets {
        let replaced = Some(target.version);
        let message = write_of(
            alloc,
            order.alert,
            sending,
            paged,
            version,
            replaced,
            target.cells,
        )?;
        requests.push_back(request_with(order, Some(version), message))?;
    }
    Ok(requests)
}

/// The requests of a row that stops an alert, for these targets.
fn stop_requests(
    alloc: Global,
    order: &Order,
    targets: Vec<Target>,
) -> Result<VecDeque<Request>, Refused>
    requires alert { HasSerials order.now.alert }
    requires targets { All (λ t. t.version < 16) targets.items }
    ensures { IfOk result (λ requests. requests.items ≡ map (stop_request order.now) targets.items) }
{
    let mut requests = VecDeque::new(alloc);
    for target in targets {
        let message = Message::Kill {
            id: order.alert.id,
            old_serial: serial_of(order.alert, target.version),
            cells: target.cells,
            channel: None,
        };
        requests.push_back(request_with(order, None, message))?;
    }
    Ok(requests)
}

/// The requests that a row gives.
pub(crate) fn requests_of(
    alloc: Global,
    live: &LiveVersions<'_>,
    order: &Order,
    paged: &Option<Paged>,
) -> Result<VecDeque<Request>, Refused>
    requires { IsSendable order.now }
    ensures { IfOk result (λ requests. requests.items ≡ requests_of (live_by live.now) order.now paged.now) }
{
    match (&order.action, paged) {
        (Action::Write(sending), Some(paged)) => write_request(alloc, order, sending, paged),
        (Action::Update { update, sending }, Some(paged)) => {
            let targets = targets_of(alloc, live, order.number, list_of(&sending.cells))?;
            update_requests(alloc, order, sending, paged, *update, targets)
        }
        (Action::Stop(cells), _) => {
            let targets = targets_of(alloc, live, order.number, list_of(cells))?;
            stop_requests(alloc, order, targets)
        }
        _ => Ok(VecDeque::new(alloc)),
    }
}
