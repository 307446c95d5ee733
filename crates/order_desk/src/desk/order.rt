//! Orders that were read, and what is done of them.

ghost use Rattle.std.specs.Prelude.{◌≡◌, true, IfErr, IfOk};
ghost use Rattle.cbsp_wire.specs.Range.{cells_are_valid};
ghost use Rattle.bsc_table.specs.Orders.{IsWellFormed};
ghost use Rattle.order_desk.specs.Desk.{IsNoOrder, IsOrderOf};
ghost use Rattle.order_desk.specs.DeskSteps.{IsPrepared};

use crate::desk::reply::{ReplyRoom, room_for};
use crate::fault::DeskFault;
use bsc_table::{Answer, Command, orders_of};
use cbsp_wire::{Cell, WireFault, read};
use std::alloc::Global;

/// Why a cell gives an order no answer.
#[derive(Clone, Copy, Debug, PartialEq, Eq)]
pub(crate) enum CellFault {
    /// Its lock holds the book of another cell or run: no call leaves one there, but the lock's type doesn't say so.
    WrongBook,
    /// Out of memory.
    Refused,
}

/// An order that was read, with all the room that it takes.
#[derive(Drop)]
pub(crate) struct PreparedOrder {
    pub(crate) command: Command,
    pub(crate) cells: Vec<Cell>,
    pub(crate) answers: Vec<(Cell, Answer)>,
    pub(crate) room: ReplyRoom,
}

/// The cells that a message names, and the command to each of them.
fn order_in(alloc: Global, octets: &[u8]) -> Result<(Vec<Cell>, Command), DeskFault>
    ensures order { IfOk result (λ order. IsOrderOf octets.now order.0.items order.1) }
    ensures valid { IfOk result (λ order. cells_are_valid order.0.items ≡ true) }
    ensures formed { IfOk result (λ order. IsWellFormed order.1) }
    ensures refused { IfErr result (IsNoOrder octets.now) }
{
    // A message that octets mean names distinct cells.
    cbsp_wire::meaning_law();
    let message = match read(alloc, octets) {
        Ok(message) => message,
        Err(WireFault::Refused) => return Err(DeskFault::Memory { done: 0 }),
        Err(fault) => return Err(DeskFault::Wire(fault)),
    };
    match orders_of(message) {
        Ok(order) => Ok(order),
        Err(cause) => Err(DeskFault::Cause(cause)),
    }
}

/// The order that a message is, with all the room that it takes.
pub(crate) fn prepared(alloc: Global, octets: &[u8]) -> Result<PreparedOrder, DeskFault>
    ensures prepared { IfOk result (IsPrepared octets.now) }
    ensures refused { IfErr result (IsNoOrder octets.now) }
{
    let (cells, command) = order_in(alloc, octets)?;
    let count = cells.len();
    Ok(PreparedOrder {
        command,
        cells,
        answers: Vec::with_capacity(alloc, count)?,
        room: room_for(alloc, count)?,
    })
}
