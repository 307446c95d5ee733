//! What a centre asked of a cell, each with its answer.

ghost use Rattle.std.specs.Prelude.{◌≡◌, ◌++◌, ◌∷◌, [], position, IfOk, OnOk};
ghost use Rattle.cell_orders.specs.Exchange.{after_heard, answered, answers, awaited_by, exchange_begun, brought_by};
ghost use Rattle.cell_orders.specs.Exchange.{concerns};
ghost use Rattle.cell_orders.specs.Exchange.{end_if, exchanges, is_brought, same_awaited, same_order, same_old_serial};
ghost use Rattle.cell_orders.specs.Exchange.{after_answer};
ghost use Rattle.cell_orders.specs.Steps.{IsConsistent, answers_with, standing_of, wait_of, waits_kept};

use crate::heard::Heard;
use crate::naming::{fails_cell, lists_cell};
use cbs_page::Serial;
use cbsp_link::{Answered, LinkMessage};
use cbsp_wire::Cell;
use std::alloc::{AllocError, Global};

/// What a message waits for, or brings.
#[derive(Clone, Copy, Debug, PartialEq, Eq)]
pub(crate) enum Awaited {
    /// The reply to an order.
    Reply {
        /// The message identifier.
        id: u16,
        /// The order.
        order: Answered,
    },
    /// The reply to RESET.
    End,
}

/// What concerns a cell, and its answer, if it came.
#[derive(Clone, Copy)]
pub(crate) struct HeldExchange<'a> {
    pub(crate) order: &'a Heard,
    pub(crate) answer: Option<&'a Heard>,
}

/// An order that has no answer, and its place.
#[derive(Clone, Copy)]
struct Waiting<'a> {
    place: usize,
    order: &'a Heard,
}

/// What concerns a cell, in the order in which it began or was answered. What is answered leaves its place, where
/// `None` stands in for it, so that the places of what waits stay the same.
#[derive(Drop)]
pub(crate) struct Exchanges<'a> {
    pub(crate) places: Vec<Option<HeldExchange<'a>>>,
    waiting: Vec<Waiting<'a>>,
}

/// Whether a message asks something of a cell, or says that it lost its messages: an order or RESET that names it, or
/// RESTART or FAILURE of the cell broadcast channel that takes its messages away.
pub fn concerns(cell: Cell, message: &LinkMessage) -> bool
    ensures { result ≡ concerns cell message.now }
{
    match message {
        LinkMessage::Write { cells, .. }
        | LinkMessage::Kill { cells, .. }
        | LinkMessage::Reset { cells } => lists_cell(&cells.list, cell),
        LinkMessage::Restart {
            cells,
            broadcast_type,
            recovery,
        } => *broadcast_type == 0 && *recovery == 1 && lists_cell(&cells.list, cell),
        LinkMessage::Failure {
            failures,
            broadcast_type,
        } => *broadcast_type == 0 && fails_cell(&failures.list, cell),
        LinkMessage::Emergency { .. }
        | LinkMessage::Done { .. }
        | LinkMessage::Failed { .. }
        | LinkMessage::ResetDone { .. }
        | LinkMessage::ResetFailed { .. }
        | LinkMessage::Other { .. } => false,
    }
}

/// What a message waits for.
fn awaited_by(message: &LinkMessage) -> Option<Awaited>
    ensures { result ≡ awaited_by message.now }
{
    match message {
        LinkMessage::Write {
            id,
            new_serial,
            old_serial,
            ..
        } => {
            let order = Answered::Write {
                new_serial: *new_serial,
                old_serial: *old_serial,
            };
            Some(Awaited::Reply { id: *id, order })
        }
        LinkMessage::Kill { id, old_serial, .. } => {
            let order = Answered::Kill {
                old_serial: *old_serial,
            };
            Some(Awaited::Reply { id: *id, order })
        }
        LinkMessage::Reset { .. } => Some(Awaited::End),
        LinkMessage::Emergency { .. }
        | LinkMessage::Done { .. }
        | LinkMessage::Failed { .. }
        | LinkMessage::ResetDone { .. }
        | LinkMessage::ResetFailed { .. }
        | LinkMessage::Restart { .. }
        | LinkMessage::Failure { .. }
        | LinkMessage::Other { .. } => None,
    }
}

/// The reply to RESET, if it names the cell.
fn end_if(names_cell: bool) -> Option<Awaited>
    ensures { result ≡ end_if names_cell }
{
    if names_cell { Some(Awaited::End) } else { None }
}

/// What a message brings.
fn brought_by(cell: Cell, message: &LinkMessage) -> Option<Awaited>
    ensures { result ≡ brought_by cell message.now }
{
    match message {
        LinkMessage::Done { id, order, .. } | LinkMessage::Failed { id, order, .. } => {
            Some(Awaited::Reply {
                id: *id,
                order: *order,
            })
        }
        LinkMessage::ResetDone { cells } => end_if(lists_cell(&cells.list, cell)),
        LinkMessage::ResetFailed { failures, cells } => {
            end_if(fails_cell(&failures.list, cell) || lists_cell(&cells.list, cell))
        }
        LinkMessage::Write { .. }
        | LinkMessage::Emergency { .. }
        | LinkMessage::Kill { .. }
        | LinkMessage::Reset { .. }
        | LinkMessage::Restart { .. }
        | LinkMessage::Failure { .. }
        | LinkMessage::Other { .. } => None,
    }
}

/// Whether two serial numbers are the same, or both are left out.
fn same_old_serial(one: Option<Serial>, other: Option<Serial>) -> bool
    ensures { result ≡ same_old_serial one other }
{
    match (one, other) {
        (Some(one), Some(other)) => one.number() == other.number(),
        (None, None) => true,
        (Some(_), None) | (None, Some(_)) => false,
    }
}

/// Whether two orders are the same.
fn same_order(one: Answered, other: Answered) -> bool
    ensures { result ≡ same_order one other }
{
    match one {
        Answered::Write {
            new_serial,
            old_serial,
        } => match other {
            Answered::Write {
                new_serial: new_other,
                old_serial: old_other,
            } => {
                new_serial.number() == new_other.number() && same_old_serial(old_serial, old_other)
            }
            Answered::Kill { .. } => false,
        },
        Answered::Kill { old_serial } => match other {
            Answered::Kill {
                old_serial: old_other,
            } => old_serial.number() == old_other.number(),
            Answered::Write { .. } => false,
        },
    }
}

/// Whether what is waited for is what is brought.
fn same_awaited(one: Awaited, other: Awaited) -> bool
    ensures { result ≡ same_awaited one other }
{
    match one {
        Awaited::Reply { id, order } => match other {
            Awaited::Reply {
                id: id_other,
                order: order_other,
            } => id == id_other && same_order(order, order_other),
            Awaited::End => false,
        },
        Awaited::End => match other {
            Awaited::End => true,
            Awaited::Reply { .. } => false,
        },
    }
}

/// Whether something is waited for, and is brought.
fn is_brought(one: Option<Awaited>, other: Option<Awaited>) -> bool
    ensures { result ≡ is_brought one other }
{
    match one {
        Some(one) => match other {
            Some(other) => same_awaited(one, other),
            None => false,
        },
        None => false,
    }
}

/// Whether a message that brings this answers another of its connection.
fn answers(heard: &Heard, brought: Option<Awaited>, order: &Heard) -> bool
    ensures { result ≡ answers_with brought heard.now order.now }
{
    heard.connection == order.connection && is_brought(awaited_by(&order.message), brought)
}

/// The number of the first of some orders that a message answers. What it brings is looked for once.
fn first_answered(cell: Cell, heard: &Heard, waiting: &[Waiting<'_>]) -> Option<usize>
    ensures { result ≡ position (λ w. answers cell heard.now w.order.now) waiting.now }
{
    let brought = brought_by(cell, &heard.message);
    waiting
        .iter()
        .position(|one| answers(heard, brought, one.order))
}

impl<'a> Exchanges<'a> {
    /// None. It takes no memory.
    fn new(alloc: Global) -> Exchanges<'a>
        ensures consistent { IsConsistent result }
        ensures none { standing_of result ≡ [] }
    {
        Exchanges {
            places: Vec::new(alloc),
            waiting: Vec::new(alloc),
        }
    }

    /// Adds what a message begins.
    fn begin(&mut self, heard: &'a Heard) -> Result<(), AllocError>
        requires { IsConsistent self.old }
        ensures consistent { OnOk result (IsConsistent self.new) }
        ensures added { OnOk result (standing_of self.new ≡ standing_of self.old ++ exchange_begun heard.now ∷ []) }
    {
        match awaited_by(&heard.message) {
            Some(_) => self.begin_waiting(heard),
            None => self.begin_answered(heard),
        }
    }

    /// Adds an order, which waits for its answer.
    fn begin_waiting(&mut self, heard: &'a Heard) -> Result<(), AllocError>
        requires { IsConsistent self.old }
        ensures consistent { OnOk result (IsConsistent self.new) }
        ensures added { OnOk result (standing_of self.new
            ≡ standing_of self.old ++ record { order = heard.now; answer = None } ∷ []) }
    {
        let place = self.places.len();
        self.waiting.push(Waiting {
            place,
            order: heard,
        })?;
        self.places.push(Some(HeldExchange {
            order: heard,
            answer: None,
        }))?;
        Ok(())
    }

    /// Adds what is its own answer.
    fn begin_answered(&mut self, heard: &'a Heard) -> Result<(), AllocError>
        requires { IsConsistent self.old }
        ensures consistent { OnOk result (IsConsistent self.new) }
        ensures added { OnOk result (standing_of self.new
            ≡ standing_of self.old ++ record { order = heard.now; answer = Some heard.now } ∷ []) }
    {
        self.places.push(Some(HeldExchange {
            order: heard,
            answer: Some(heard),
        }))?;
        Ok(())
    }

    /// Moves the first order that a message answers to the end, with its answer.
    fn settle(&mut self, cell: Cell, heard: &'a Heard) -> Result<(), AllocError>
        requires { IsConsistent self.old }
        ensures consistent { OnOk result (IsConsistent self.new) }
        ensures moved { OnOk result (standing_of self.new ≡ after_answer cell heard.now (standing_of self.old)) }
    {
        match first_answered(cell, heard, &self.waiting) {
            Some(number) => {
                let Waiting { place, order } = self.waiting.remove(number);
                self.places[place] = None;
                self.places.push(Some(HeldExchange {
                    order,
                    answer: Some(heard),
                }))?;
                Ok(())
            }
            None => Ok(()),
        }
    }

    /// Takes a message.
    fn hear(&mut self, cell: Cell, heard: &'a Heard) -> Result<(), AllocError>
        requires { IsConsistent self.old }
        ensures consistent { OnOk result (IsConsistent self.new) }
        ensures taken { OnOk result (standing_of self.new ≡ after_heard cell (standing_of self.old) heard.now) }
    {
        if concerns(cell, &heard.message) {
            self.begin(heard)
        } else {
            self.settle(cell, heard)
        }
    }
}

/// What messages asked of a cell, each with its answer. The only error is out of memory.
pub(crate) fn exchanges_of<'a>(
    alloc: Global,
    cell: Cell,
    heard: &'a [Heard],
) -> Result<Exchanges<'a>, AllocError>
    ensures { IfOk result (λ s. standing_of s ≡ exchanges cell heard.now) }
{
    let mut all = Exchanges::new(alloc);
    for one in heard {
        all.hear(cell, one)?;
    }
    Ok(all)
}
