//! Which messages of a link count for a cell's orders.

ghost use Rattle.std.specs.Prelude.{◌≡◌, ◌++◌, count_by, IfOk, OnOk};
ghost use Rattle.link_orders.specs.Calls.{call_of, calls_at, calls_of, connection_of, first_packet, is_connection};
ghost use Rattle.link_orders.specs.Calls.{has_controller, turned, unread_of};

use cbsp_link::{LinkError, LinkMessage, read};
use link_streams::{LinkPacket, Way};
use std::alloc::{AllocError, Global};

/// A message of the link that was read.
#[derive(Debug, Drop)]
pub struct Call {
    /// The number of its packet.
    pub packet: u64,
    /// When that came, in nanoseconds from 1970-01-01T00:00:00Z on, if the file says it.
    pub time: Option<u64>,
    /// The number of its connection.
    pub connection: u64,
    /// What it says.
    pub message: LinkMessage,
}

/// The messages that count, and how many can't be read.
#[derive(Drop)]
pub struct Calls {
    pub list: Vec<Call>,
    pub unread: usize,
}

/// The way back.
fn turned(way: Way) -> Way
    ensures { result ≡ turned way }
{
    Way {
        source: way.destination,
        source_port: way.destination_port,
        destination: way.source,
        destination_port: way.source_port,
    }
}

/// Whether two ways are of one connection.
fn is_connection(a: Way, b: Way) -> bool
    ensures { result ≡ is_connection a b }
{
    a == b || a == turned(b)
}

/// The number of the packet of a connection's first message.
fn first_packet(messages: &[LinkPacket], way: Way) -> Option<u64>
    ensures { result ≡ first_packet messages.now way }
{
    match messages.iter().find(|other| is_connection(way, other.way)) {
        Some(first) => Some(first.number),
        None => None,
    }
}

/// The number of a message's connection: that of the packet of its first message.
fn connection_of(messages: &[LinkPacket], one: &LinkPacket) -> u64
    ensures { result ≡ connection_of messages.now one.now }
{
    first_packet(messages, one.way).unwrap_or(one.number)
}

/// Whether a message is of the wanted controller.
fn has_controller(controller: Option<u32>, one: &LinkPacket) -> bool
    ensures { result ≡ has_controller controller one.now }
{
    let Some(wanted) = controller else {
        return true;
    };
    match one.controller() {
        Some(address) => address == wanted,
        None => false,
    }
}

/// A message, if it can be read. The only error is out of memory, here and below.
fn call_of(
    alloc: Global,
    messages: &[LinkPacket],
    one: &LinkPacket,
) -> Result<Option<Call>, AllocError>
    ensures { IfOk result (λ call. call ≡ call_of messages.now one.now) }
{
    match read(alloc, &one.octets.list) {
        Ok((message, _)) => Ok(Some(Call {
            packet: one.number,
            time: one.time,
            connection: connection_of(messages, one),
            message,
        })),
        Err(LinkError::Fault(_)) => Ok(None),
        Err(LinkError::OutOfMemory) => Err(AllocError),
    }
}

/// Appends a message, if it counts.
fn push_call(
    alloc: Global,
    controller: Option<u32>,
    messages: &[LinkPacket],
    one: &LinkPacket,
    calls: &mut Vec<Call>,
) -> Result<(), AllocError>
    ensures { OnOk result (calls.new.items ≡ calls.old.items ++ calls_at controller messages.now one.now) }
{
    if !has_controller(controller, one) {
        return Ok(());
    }
    match call_of(alloc, messages, one)? {
        Some(call) => {
            calls.push(call)?;
            Ok(())
        }
        None => Ok(()),
    }
}

/// The messages that count, in order.
fn list_of(
    alloc: Global,
    controller: Option<u32>,
    messages: &[LinkPacket],
) -> Result<Vec<Call>, AllocError>
    ensures { IfOk result (λ calls. calls.items ≡ calls_of controller messages.now) }
{
    let mut calls = Vec::new(alloc);
    for one in messages {
        push_call(alloc, controller, messages, one, &mut calls)?;
    }
    Ok(calls)
}

/// How many messages are of the wanted controller.
fn count_of(controller: Option<u32>, messages: &[LinkPacket]) -> usize
    ensures { result ≡ count_by (has_controller controller) messages.now }
{
    messages
        .iter()
        .filter(|one| has_controller(controller, one))
        .count()
}

/// The messages that count, in order, and how many can't be read.
pub(crate) fn calls_of(
    alloc: Global,
    controller: Option<u32>,
    messages: &[LinkPacket],
) -> Result<Calls, AllocError>
    ensures list { IfOk result (λ calls. calls.list.items ≡ calls_of controller messages.now) }
    ensures unread { IfOk result (λ calls. calls.unread ≡ unread_of controller messages.now) }
{
    let list = list_of(alloc, controller, messages)?;
    let unread = count_of(controller, messages).saturating_sub(list.len());
    Ok(Calls { list, unread })
}
