//! What one cell was asked over a link.

ghost use Rattle.std.specs.Prelude.{◌≡◌, ℕ, List, find, map, IfErr, IfOk};
ghost use Rattle.std.specs.Option.{option_map};
ghost use Rattle.link_orders.specs.Orders.{AreNoOrders, AreNoOrdersIn, AreOrders, AreOrdersIn, IsReference, begin_of};
ghost use Rattle.cell_orders.specs.Rows.{emergencies_to, rows_of};
ghost use Rattle.link_orders.specs.Orders.{early_fault, first_asked, asked_mark, call_heard, heard_from, asks_cell};
ghost use Rattle.link_orders.specs.Orders.{is_early, is_untimed};
ghost use Rattle.link_orders.specs.Steps.{HaveOverheardAll, begins_in, link_messages_in};

use crate::calls::{Call, Calls, calls_of};
use crate::clock::{EPOCH, SLOT, median, slot_at, slots_before, ticks_if};
use crate::overheard::Overheard;
use cbsp_wire::Cell;
use cell_orders::{Heard, OrderRow, concerns, emergencies_to, rows_of};
use gsmtap::Sender;
use link_streams::LinkPacket;
use std::alloc::{AllocError, Global};
use thiserror::Error;

/// Whose orders are wanted of a capture file, and by which clock.
#[derive(Clone, Copy, Debug, PartialEq, Eq)]
pub struct OrdersWanted {
    /// The cell.
    pub cell: Cell,
    /// The IPv4 address of the controller, if one alone is wanted.
    pub controller: Option<u32>,
    /// In which slot of the tape the first block of the air is; without the air it is the first message that concerns
    /// the cell.
    pub first_slot: u16,
    /// Whose blocks are the air.
    pub from: Sender,
}

/// What a cell was asked.
#[derive(Debug, Drop)]
pub struct LinkOrders {
    /// The rows, in the order of the answers.
    pub rows: Vec<OrderRow>,
    /// How many messages of the wanted controller can't be read.
    pub unread: usize,
    /// How many emergency messages to the cell there are, which are no rows.
    pub emergencies: usize,
}

/// Why there are no orders.
#[derive(Clone, Copy, Debug, PartialEq, Eq, Error)]
pub enum OrdersFault {
    /// The packet of this number ends a message, and has no time.
    #[error("packet {0}: no time")]
    NoTime(u64),
    /// A message that concerns the cell comes before the tape begins.
    #[error("packet {packet}: before the tape begins")]
    Early {
        /// The number of its packet.
        packet: u64,
        /// The slot of the tape in which the first block has to be, so that the message comes in slot 0.
        first_slot: u64,
    },
    /// Out of memory.
    #[error("out of memory")]
    Refused,
}

impl From<AllocError> for OrdersFault {
    ghost use Rattle.std.specs.Prelude.{◌≡◌};
    ghost use Rattle.link_orders.specs.declared.orders.OrdersFault.{OrdersFault};
    ghost use Rattle.link_orders.specs.declared.orders.OrdersFault.TheVariants as faults;

    ghost from_gives = { λ _ fault. fault ≡ faults.Refused };

    fn from(_error: AllocError) -> OrdersFault {
        OrdersFault::Refused
    }
}

/// Whether a message has no time.
fn is_untimed(call: &Call) -> bool
    ensures { result ≡ is_untimed call.now }
{
    call.time.is_none()
}

/// Whether a message concerns a cell.
fn asks_cell(cell: Cell, call: &Call) -> bool
    ensures { result ≡ asks_cell cell call.now }
{
    concerns(cell, &call.message)
}

/// Whether a message concerns a cell, and comes before the tape begins.
fn is_early(cell: Cell, begin: u64, call: &Call) -> bool
    ensures { result ≡ is_early cell begin call.now }
{
    asks_cell(cell, call) && ticks_if(call.time) < begin
}

/// When the first message comes that concerns a cell, if one does.
fn asked_mark(cell: Cell, calls: &[Call]) -> Option<u64>
    ensures { result ≡ asked_mark cell calls.now }
{
    match calls.iter().find(|call| asks_cell(cell, call)) {
        Some(call) => Some(ticks_if(call.time)),
        None => None,
    }
}

/// When the first message comes that concerns a cell.
fn first_asked(cell: Cell, calls: &[Call]) -> u64
    ensures { result ≡ first_asked cell calls.now }
{
    asked_mark(cell, calls).unwrap_or(EPOCH)
}

/// When the slot of the first block begins.
fn reference_of(cell: Cell, calls: &[Call], begins: Vec<u64>) -> u64
    ensures { IsReference cell calls.now begins.items result }
{
    match median(begins) {
        Some(mark) => mark,
        None => first_asked(cell, calls),
    }
}

/// When the tape begins.
fn begin_of(wanted: &OrdersWanted, reference: u64) -> u64
    ensures { result ≡ begin_of wanted.now reference }
{
    reference.saturating_sub(SLOT * u64::from(wanted.first_slot))
}

/// The first message without a time, as a fault.
fn untimed(calls: &[Call]) -> Option<OrdersFault>
    ensures { result ≡ option_map (λ call. OrdersFault.NoTime call.packet) (find is_untimed calls.now) }
{
    match calls.iter().find(|call| is_untimed(call)) {
        Some(call) => Some(OrdersFault::NoTime(call.packet)),
        None => None,
    }
}

/// A message that comes before the tape begins, as a fault.
fn early_fault(first_slot: u16, begin: u64, call: &Call) -> OrdersFault
    ensures { result ≡ early_fault first_slot begin call.now }
{
    OrdersFault::Early {
        packet: call.packet,
        first_slot: u64::from(first_slot) + slots_before(begin, ticks_if(call.time)),
    }
}

/// The first message that concerns the cell before the tape begins, as a fault.
fn early(cell: Cell, first_slot: u16, begin: u64, calls: &[Call]) -> Option<OrdersFault>
    ensures { result ≡ option_map (early_fault first_slot begin) (find (is_early cell begin) calls.now) }
{
    match calls.iter().find(|call| is_early(cell, begin, call)) {
        Some(call) => Some(early_fault(first_slot, begin, call)),
        None => None,
    }
}

/// A message with its slot.
fn call_heard(begin: u64, call: Call) -> Heard
    ensures { result ≡ call_heard begin call }
{
    Heard {
        slot: slot_at(begin, ticks_if(call.time)),
        time: call.time.unwrap_or(0),
        packet: call.packet,
        connection: call.connection,
        message: call.message,
    }
}

/// Messages with their slots. The only error is out of memory.
fn heard_from(alloc: Global, begin: u64, calls: Vec<Call>) -> Result<Vec<Heard>, AllocError>
    ensures { IfOk result (λ heard. heard.items ≡ map (call_heard begin) calls.items) }
{
    let mut heard = Vec::new(alloc);
    for call in calls {
        heard.push(call_heard(begin, call))?;
    }
    Ok(heard)
}

/// The orders of messages, of which all come in time.
fn made(alloc: Global, cell: Cell, begin: u64, calls: Calls) -> Result<LinkOrders, AllocError>
    ensures rows { IfOk result (λ orders. orders.rows.items
        ≡ rows_of cell (heard_from begin calls.list.items)) }
    ensures emergencies { IfOk result (λ orders. orders.emergencies
        ≡ emergencies_to cell (heard_from begin calls.list.items)) }
    ensures unread { IfOk result (λ orders. orders.unread ≡ calls.unread) }
{
    let heard = heard_from(alloc, begin, calls.list)?;
    let rows = rows_of(alloc, cell, &heard)?;
    Ok(LinkOrders {
        rows,
        unread: calls.unread,
        emergencies: emergencies_to(cell, &heard),
    })
}

/// The orders of messages of a link, by what blocks of the air say of when their tape begins.
fn orders_by(
    alloc: Global,
    wanted: &OrdersWanted,
    messages: &[LinkPacket],
    begins: Vec<u64>,
) -> Result<LinkOrders, OrdersFault>
    ensures orders { IfOk result (AreOrders wanted.now messages.now begins.items) }
    ensures fault { IfErr result (AreNoOrders wanted.now messages.now begins.items) }
{
    let calls = calls_of(alloc, wanted.controller, messages)?;
    if let Some(fault) = untimed(&calls.list) {
        return Err(fault);
    }
    let reference = reference_of(wanted.cell, &calls.list, begins);
    let begin = begin_of(wanted, reference);
    if let Some(fault) = early(wanted.cell, wanted.first_slot, begin, &calls.list) {
        return Err(fault);
    }
    Ok(made(alloc, wanted.cell, begin, calls)?)
}

/// What a cell was asked, and what it answered, by all packets of a capture file of less than 2^48 octets.
///
/// # Errors
///
/// Returns the first message without a time; else the first that concerns the cell before the tape begins; and out of
/// memory.
pub fn orders_of(
    alloc: Global,
    overheard: Overheard,
    wanted: &OrdersWanted,
) -> Result<LinkOrders, OrdersFault>
    ensures orders { IfOk result (λ orders. (input : List ℕ) → HaveOverheardAll wanted.now.from input overheard →
        AreOrdersIn wanted.now input orders) }
    ensures fault { IfErr result (λ fault. (input : List ℕ) → HaveOverheardAll wanted.now.from input overheard →
        AreNoOrdersIn wanted.now input fault) }
{
    let Overheard { streams, clock, .. } = overheard;
    let messages = streams.messages();
    orders_by(alloc, wanted, &messages, clock.begins)
}
