//! The command `orders`: a capture file of a link to what one cell was asked.

ghost use Rattle.std.specs.Prelude.{◌≡◌, ◌+◌, string_bytes, IfErr, IfOk, OnOk};
ghost use Rattle.device_ends.specs.Moves.{ConsumesSome};
ghost use Rattle.device_ends.specs.Source.{reader_of};
ghost use Rattle.device_ends.specs.Stream.{FaultOfInput, IsStreamBetween, OutputOfInput};
ghost use Rattle.warnc_air.specs.OrdersOutput.{IsOrdersCommandFault, IsOrdersOutput, IsOrdersWriteFault};
ghost use Rattle.warnc_air.specs.OrdersOutput.{fault_of_orders, front_text, line_text, lines_text, orders_fault_of};
ghost use Rattle.warnc_air.specs.OrdersOutput.{passed_of};

use crate::cells::seconds_text;
use crate::reading::walk_over;
use crate::tape::MAX_INPUT;
use cell_orders::{OrderRow, orders_text};
use device_ends::{Failed, ReadFault, Sink, Source, write_all};
use gsmtap::{AirFault, AirFaultKind, Walk};
use link_orders::{LinkOrders, OrdersFault, OrdersWanted, Overheard, orders_of};
use std::alloc::{AllocError, Global};
use std::io::{Read, Write};
use std::slice;
use thiserror::Error;

/// What of a link has no row.
#[derive(Clone, Copy, Debug, PartialEq, Eq)]
pub struct PassedOver {
    /// How many messages of the wanted controller can't be read.
    pub unread: usize,
    /// How many emergency messages to the cell there are.
    pub emergencies: usize,
}

/// Why `orders` writes nothing. If several of the first five apply, it is the first of them.
#[derive(Clone, Copy, Debug, PartialEq, Eq, Error)]
pub enum OrdersCommandFault {
    /// The reader failed.
    #[error("read failed")]
    ReadFailed,
    /// There are more than 1,073,741,824 octets.
    #[error("capture is too long")]
    TooLong,
    /// The file or a packet of it is at fault.
    #[error("{0}")]
    Air(AirFault),
    /// The packet of this number ends a message, and has no time.
    #[error("packet {0}: no time")]
    NoTime(u64),
    /// A message that concerns the cell comes before the tape begins.
    #[error("packet {packet}: before the tape begins: use --first-slot {first_slot}")]
    Early {
        /// The number of its packet.
        packet: u64,
        /// The slot of the tape in which the first block has to be, so that the message comes in slot 0.
        first_slot: u64,
    },
    /// Out of memory.
    #[error("out of memory")]
    Refused,
    /// The writer failed. Some of the rows may be out.
    #[error("write failed")]
    WriteFailed,
}

/// Reads a capture file of the link between a cell broadcast centre and a base station controller, and of the air of a
/// cell, and writes what the cell was asked: a line for each row, with the number and the time of its packet in front
/// if these are wanted. Nothing is written before all lines are made. `passed` has then what has no row. The file isn't
/// kept, but for the messages of its link.
pub fn orders_stream<R: Read, W: Write>(
    alloc: Global,
    source: &mut Source<R>,
    sink: &mut Sink<W>,
    wanted: &OrdersWanted,
    packets: bool,
    passed: &mut PassedOver,
) -> Result<(), OrdersCommandFault>
    // What was written is what the cell was asked by the file that was read, at any reader of some file.
    ensures ok { OnOk result (OutputOfInput R.remaining W.contents (IsOrdersOutput wanted.now packets passed.new)
        source.old sink.old sink.new) }
    ensures err { IfErr result (FaultOfInput R.remaining W.contents (IsOrdersCommandFault wanted.now packets)
        source.old sink.old sink.new) }

    // One octet past the bound is read at most.
    ensures reads { ConsumesSome (R.remaining (reader_of source.old)) (R.remaining (reader_of source.new))
        (MAX_INPUT + 1) }

    // At any reader and any writer.
    ensures any_ends { IsStreamBetween OrdersCommandFault.ReadFailed IsOrdersWriteFault result W.contents source.old
        source.new sink.old sink.new }
{
    if source.failed() {
        return Err(OrdersCommandFault::ReadFailed);
    }
    let mut walk = Walk::new(alloc, Overheard::new(alloc, wanted.from));
    let count = match walk_over(alloc, source, &mut walk) {
        Ok(count) => count,
        Err(ReadFault::Device) => return Err(OrdersCommandFault::ReadFailed),
        Err(ReadFault::Refused) => return Err(OrdersCommandFault::Refused),
    };
    if count > MAX_INPUT {
        return Err(OrdersCommandFault::TooLong);
    }
    let overheard = match walk.end() {
        Ok(overheard) => overheard,
        Err(fault) => return Err(orders_fault_of(fault)),
    };
    let orders = match orders_of(alloc, overheard, wanted) {
        Ok(orders) => orders,
        Err(fault) => return Err(fault_of_orders(fault)),
    };
    let Ok(output) = lines_of(alloc, packets, &orders.rows) else {
        return Err(OrdersCommandFault::Refused);
    };
    *passed = passed_of(&orders);
    match write_all(sink, &output) {
        Ok(()) => Ok(()),
        Err(Failed) => Err(OrdersCommandFault::WriteFailed),
    }
}

/// The fault that a fault of a file is.
fn orders_fault_of(fault: AirFault) -> OrdersCommandFault
    ensures { result ≡ orders_fault_of fault }
{
    match fault.kind {
        AirFaultKind::Refused => OrdersCommandFault::Refused,
        _ => OrdersCommandFault::Air(fault),
    }
}

/// The fault that a fault of messages is.
fn fault_of_orders(fault: OrdersFault) -> OrdersCommandFault
    ensures { result ≡ fault_of_orders fault }
{
    match fault {
        OrdersFault::NoTime(packet) => OrdersCommandFault::NoTime(packet),
        OrdersFault::Early { packet, first_slot } => {
            OrdersCommandFault::Early { packet, first_slot }
        }
        OrdersFault::Refused => OrdersCommandFault::Refused,
    }
}

/// What of a link has no row.
fn passed_of(orders: &LinkOrders) -> PassedOver
    ensures { result ≡ passed_of orders.now }
{
    PassedOver {
        unread: orders.unread,
        emergencies: orders.emergencies,
    }
}

/// The lines of rows. The only error is out of memory, here and below.
fn lines_of(alloc: Global, packets: bool, rows: &[OrderRow]) -> Result<Vec<u8>, AllocError>
    ensures { IfOk result (λ octets. octets.items ≡ lines_text packets rows.now) }
{
    let mut output = Vec::new(alloc);
    for row in rows {
        let line = line_of(alloc, packets, row)?;
        output.extend_from_slice(&line)?;
    }
    Ok(output)
}

/// The line of a row.
fn line_of(alloc: Global, packets: bool, row: &OrderRow) -> Result<Vec<u8>, AllocError>
    ensures { IfOk result (λ octets. octets.items ≡ line_text packets row.now) }
{
    let line = orders_text(alloc, slice::from_ref(row))?;
    if !packets {
        return Ok(line);
    }
    let front = front_of(alloc, row)?;
    let mut octets = Vec::from_slice(alloc, front.as_bytes())?;
    octets.extend_from_slice(&line)?;
    Ok(octets)
}

/// The number of a row's packet and when that came.
fn front_of(alloc: Global, row: &OrderRow) -> Result<String, AllocError>
    ensures { IfOk result (λ text. string_bytes text ≡ front_text row.now) }
{
    let packet = row.packet;
    let time = seconds_text(alloc, row.time)?;
    format!(in alloc; "{packet},{time},")
}
