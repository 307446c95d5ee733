//! Reading a message.

ghost use Rattle.std.specs.Prelude.{◌≡◌, IfErr, MatchResult, Ok, Err, None};
ghost use Rattle.cbsp_link.specs.Outcome.{Gives, needed};
ghost use Rattle.cbsp_link.specs.Element.{elements_in, fault_in};
ghost use Rattle.cbsp_link.specs.Value.{cells_in, counts_in, needed_cells, needed_failures, needed_period};
ghost use Rattle.cbsp_link.specs.Value.{needed_pages};
ghost use Rattle.cbsp_link.specs.Value.{pair_in, octet_in};
ghost use Rattle.cbsp_link.specs.Meaning.{front_of, kind_of, message_of, message_by, link_message};
ghost use Rattle.cbsp_link.specs.Meaning.{write_answered, kill_answered, broadcast, emergency, done, failed};
ghost use Rattle.cbsp_link.specs.Meaning.{reset_failed, restart, IsWholeFront};
ghost use Rattle.cbsp_link.specs.declared.fault.LinkError.{LinkError};
ghost use Rattle.cbsp_link.specs.Meaning as meaning;
ghost use Rattle.cbsp_link.specs.declared.iei.TheConstants.{OLD_SERIAL_NUMBER};

use crate::elements::{contents, fault, first, octet, pair};
use crate::fault::{LinkError, LinkFault};
use crate::iei;
use crate::items::{cells_of_body, counts_of_body, failures_of_body};
use crate::message::{Answered, LinkCells, LinkCounts, LinkFailures, LinkMessage};
use cbs_page::{Dcs, MAX_PAGES, Serial};
use cbsp_wire::Contents;
use std::alloc::Global;

/// A message that is looked into, by its type (3GPP TS 48.049, 8.1.2).
#[derive(Clone, Copy, Debug, PartialEq, Eq)]
pub(crate) enum Kind {
    /// 1, WRITE-REPLACE.
    Write,
    /// 2, WRITE-REPLACE COMPLETE.
    WriteDone,
    /// 3, WRITE-REPLACE FAILURE.
    WriteFailed,
    /// 4, KILL.
    Kill,
    /// 5, KILL COMPLETE.
    KillDone,
    /// 6, KILL FAILURE.
    KillFailed,
    /// 16, RESET.
    Reset,
    /// 17, RESET COMPLETE.
    ResetDone,
    /// 18, RESET FAILURE.
    ResetFailed,
    /// 19, RESTART.
    Restart,
    /// 20, FAILURE.
    Failure,
}

/// The kind that a message's first octet says.
fn kind_from(message_type: u8) -> Option<Kind>
    ensures { result ≡ kind_of message_type }
{
    match message_type {
        1 => Some(Kind::Write),
        2 => Some(Kind::WriteDone),
        3 => Some(Kind::WriteFailed),
        4 => Some(Kind::Kill),
        5 => Some(Kind::KillDone),
        6 => Some(Kind::KillFailed),
        16 => Some(Kind::Reset),
        17 => Some(Kind::ResetDone),
        18 => Some(Kind::ResetFailed),
        19 => Some(Kind::Restart),
        20 => Some(Kind::Failure),
        _ => None,
    }
}

/// The message at the front of octets, before its elements are looked at.
#[derive(Clone, Copy, Debug)]
pub struct Frame<'a> {
    /// Its first octet (3GPP TS 48.049, 8.1.2).
    pub message_type: u8,
    /// The octets after its header of 4.
    pub body: &'a [u8],
    /// The octets after the message.
    pub rest: &'a [u8],
}

/// The message at the front of octets, by its length alone: so a message that isn't read can be passed over.
///
/// # Errors
///
/// `CutMessage` if there are fewer than 4 octets, or fewer after them than the length field says.
#[tactic(auto, unfolding(crate::specs::Meaning::front_of))]
pub fn split(octets: &[u8]) -> Result<Frame<'_>, LinkFault>
    ensures { MatchResult result
        (λ f. front_of octets.now
        ≡ Ok (record { message_type = f.message_type; body = f.body.now; rest = f.rest.now }))
        (λ fault. front_of octets.now ≡ Err fault) }
{
    let [message_type, a, b, c, after @ ..] = octets else {
        return Err(LinkFault::CutMessage);
    };
    let size = usize::from(*a) * 65536 + usize::from(*b) * 256 + usize::from(*c);
    if after.len() < size {
        return Err(LinkFault::CutMessage);
    }
    let (body, rest) = after.split_at(size);
    Ok(Frame {
        message_type: *message_type,
        body,
        rest,
    })
}

/// A number of two octets that the message needs.
fn needed_pair(octets: &[u8], number: u8) -> Result<u16, LinkError>
    ensures { Gives (λ n. n) result (needed number (pair_in number (elements_in octets.now))) }
{
    match pair(octets, number) {
        Some(value) => Ok(value),
        None => Err(LinkError::Fault(LinkFault::MissingElement(number))),
    }
}

/// A serial number that the message needs.
fn needed_serial(octets: &[u8], number: u8) -> Result<Serial, LinkError>
    ensures { Gives (λ n. n) result (needed number (pair_in number (elements_in octets.now))) }
{
    match pair(octets, number) {
        Some(value) => Ok(Serial::of(value)),
        None => Err(LinkError::Fault(LinkFault::MissingElement(number))),
    }
}

/// A number of one octet that the message needs.
fn needed_octet(octets: &[u8], number: u8) -> Result<u8, LinkError>
    ensures { Gives (λ n. n) result (needed number (octet_in number (elements_in octets.now))) }
{
    match octet(octets, number) {
        Some(value) => Ok(value),
        None => Err(LinkError::Fault(LinkFault::MissingElement(number))),
    }
}

/// The old serial number, if there is one.
fn old_serial(octets: &[u8]) -> Option<Serial>
    ensures { result ≡ pair_in OLD_SERIAL_NUMBER (elements_in octets.now) }
{
    match pair(octets, iei::OLD_SERIAL_NUMBER) {
        Some(value) => Some(Serial::of(value)),
        None => None,
    }
}

/// The cells that the message needs.
#[tactic(auto, unfolding(crate::specs::Value::needed_cells))]
fn needed_cells(alloc: Global, octets: &[u8]) -> Result<LinkCells, LinkError>
    ensures { Gives (λ cells. cells) result (needed_cells (elements_in octets.now)) }
{
    match first(octets, iei::CELL_LIST) {
        Some(body) => cells_of_body(alloc, body),
        None => Err(LinkError::Fault(LinkFault::MissingElement(iei::CELL_LIST))),
    }
}

/// The failures that the message needs.
#[tactic(auto, unfolding(crate::specs::Value::needed_failures))]
fn needed_failures(alloc: Global, octets: &[u8]) -> Result<LinkFailures, LinkError>
    ensures { Gives (λ failures. failures) result (needed_failures (elements_in octets.now)) }
{
    match first(octets, iei::FAILURE_LIST) {
        Some(body) => failures_of_body(alloc, body),
        None => Err(LinkError::Fault(LinkFault::MissingElement(iei::FAILURE_LIST))),
    }
}

/// The cells, if the message names some.
fn cells(alloc: Global, octets: &[u8]) -> Result<LinkCells, LinkError>
    ensures { Gives (λ cells. cells) result (cells_in (elements_in octets.now)) }
{
    match first(octets, iei::CELL_LIST) {
        Some(body) => cells_of_body(alloc, body),
        None => Ok(LinkCells {
            list: Vec::new(alloc),
        }),
    }
}

/// The completed broadcasts, if the message names some.
fn counts(alloc: Global, octets: &[u8]) -> Result<LinkCounts, LinkError>
    ensures { Gives (λ counts. counts) result (counts_in (elements_in octets.now)) }
{
    match first(octets, iei::BROADCASTS_COMPLETED) {
        Some(body) => counts_of_body(alloc, body),
        None => Ok(LinkCounts {
            list: Vec::new(alloc),
        }),
    }
}

/// The repetition period.
#[tactic(auto, unfolding(crate::specs::Value::needed_period))]
fn needed_period(octets: &[u8]) -> Result<u16, LinkError>
    ensures { Gives (λ n. n) result (needed_period (elements_in octets.now)) }
{
    let period = needed_pair(octets, iei::REPETITION_PERIOD)?;
    if period <= 4095 {
        Ok(period)
    } else {
        Err(LinkError::Fault(LinkFault::WrongElement(iei::REPETITION_PERIOD)))
    }
}

/// The pages.
#[tactic(auto, unfolding(crate::specs::Value::needed_pages))]
fn needed_pages(alloc: Global, octets: &[u8]) -> Result<Contents, LinkError>
    ensures { Gives (λ contents. contents) result (needed_pages (elements_in octets.now)) }
{
    let pages = needed_octet(octets, iei::NUMBER_OF_PAGES)?;
    let contents = contents(alloc, octets)?;
    if 1 <= pages && usize::from(pages) <= MAX_PAGES && usize::from(pages) == contents.len() {
        Ok(Contents::new(contents)?)
    } else {
        Err(LinkError::Fault(LinkFault::WrongElement(iei::NUMBER_OF_PAGES)))
    }
}

/// The order to write that a reply answers.
#[tactic(auto, unfolding(crate::specs::Meaning::write_answered))]
fn write_answered(octets: &[u8]) -> Result<Answered, LinkError>
    ensures { Gives (λ order. order) result (write_answered (elements_in octets.now)) }
{
    let new_serial = needed_serial(octets, iei::NEW_SERIAL_NUMBER)?;
    Ok(Answered::Write {
        new_serial,
        old_serial: old_serial(octets),
    })
}

/// The order to stop that a reply answers.
#[tactic(auto, unfolding(crate::specs::Meaning::kill_answered))]
fn kill_answered(octets: &[u8]) -> Result<Answered, LinkError>
    ensures { Gives (λ order. order) result (kill_answered (elements_in octets.now)) }
{
    let old_serial = needed_serial(octets, iei::OLD_SERIAL_NUMBER)?;
    Ok(Answered::Kill { old_serial })
}

/// A write for the cell broadcast channel.
#[tactic(auto, unfolding(crate::specs::Meaning::broadcast))]
fn broadcast(
    alloc: Global,
    channel: u8,
    id: u16,
    new_serial: Serial,
    octets: &[u8],
) -> Result<LinkMessage, LinkError>
    ensures { Gives (λ m. m) result (broadcast channel id new_serial (elements_in octets.now)) }
{
    let cells = needed_cells(alloc, octets)?;
    let period = needed_period(octets)?;
    let broadcasts = needed_pair(octets, iei::BROADCASTS_REQUESTED)?;
    let dcs = Dcs(needed_octet(octets, iei::DATA_CODING)?);
    let contents = needed_pages(alloc, octets)?;
    Ok(LinkMessage::Write {
        id,
        new_serial,
        old_serial: old_serial(octets),
        cells,
        channel,
        category: octet(octets, iei::CATEGORY),
        period,
        broadcasts,
        dcs,
        contents,
    })
}

/// An emergency message.
#[tactic(auto, unfolding(crate::specs::Meaning::emergency))]
fn emergency(
    alloc: Global,
    id: u16,
    new_serial: Serial,
    octets: &[u8],
) -> Result<LinkMessage, LinkError>
    ensures { Gives (λ m. m) result (emergency id new_serial (elements_in octets.now)) }
{
    let cells = needed_cells(alloc, octets)?;
    Ok(LinkMessage::Emergency {
        id,
        new_serial,
        old_serial: old_serial(octets),
        cells,
    })
}

/// An order to write.
#[tactic(auto, unfolding(crate::specs::Meaning::write))]
fn write(alloc: Global, octets: &[u8]) -> Result<LinkMessage, LinkError>
    ensures { Gives (λ m. m) result (meaning.write (elements_in octets.now)) }
{
    let id = needed_pair(octets, iei::MESSAGE_IDENTIFIER)?;
    let new_serial = needed_serial(octets, iei::NEW_SERIAL_NUMBER)?;
    match octet(octets, iei::CHANNEL_INDICATOR) {
        Some(channel) => broadcast(alloc, channel, id, new_serial, octets),
        None => emergency(alloc, id, new_serial, octets),
    }
}

/// An order to stop.
#[tactic(auto, unfolding(crate::specs::Meaning::kill))]
fn kill(alloc: Global, octets: &[u8]) -> Result<LinkMessage, LinkError>
    ensures { Gives (λ m. m) result (meaning.kill (elements_in octets.now)) }
{
    let id = needed_pair(octets, iei::MESSAGE_IDENTIFIER)?;
    let old_serial = needed_serial(octets, iei::OLD_SERIAL_NUMBER)?;
    let cells = needed_cells(alloc, octets)?;
    let channel = octet(octets, iei::CHANNEL_INDICATOR);
    Ok(LinkMessage::Kill {
        id,
        old_serial,
        cells,
        channel,
    })
}

/// A reply that the order is carried out.
#[tactic(auto, unfolding(crate::specs::Meaning::done))]
fn done(alloc: Global, order: Answered, octets: &[u8]) -> Result<LinkMessage, LinkError>
    ensures { Gives (λ m. m) result (done order (elements_in octets.now)) }
{
    let id = needed_pair(octets, iei::MESSAGE_IDENTIFIER)?;
    let completed = counts(alloc, octets)?;
    let cells = cells(alloc, octets)?;
    let channel = octet(octets, iei::CHANNEL_INDICATOR);
    Ok(LinkMessage::Done {
        id,
        order,
        completed,
        cells,
        channel,
    })
}

/// A reply that the order is refused somewhere.
#[tactic(auto, unfolding(crate::specs::Meaning::failed))]
fn failed(alloc: Global, order: Answered, octets: &[u8]) -> Result<LinkMessage, LinkError>
    ensures { Gives (λ m. m) result (failed order (elements_in octets.now)) }
{
    let id = needed_pair(octets, iei::MESSAGE_IDENTIFIER)?;
    let failures = needed_failures(alloc, octets)?;
    let completed = counts(alloc, octets)?;
    let cells = cells(alloc, octets)?;
    let channel = octet(octets, iei::CHANNEL_INDICATOR);
    Ok(LinkMessage::Failed {
        id,
        order,
        failures,
        completed,
        cells,
        channel,
    })
}

/// A reply that messages go on somewhere.
#[tactic(auto, unfolding(crate::specs::Meaning::reset_failed))]
fn reset_failed(alloc: Global, octets: &[u8]) -> Result<LinkMessage, LinkError>
    ensures { Gives (λ m. m) result (reset_failed (elements_in octets.now)) }
{
    let failures = needed_failures(alloc, octets)?;
    let cells = cells(alloc, octets)?;
    Ok(LinkMessage::ResetFailed { failures, cells })
}

/// That cells broadcast again.
#[tactic(auto, unfolding(crate::specs::Meaning::restart))]
fn restart(alloc: Global, octets: &[u8]) -> Result<LinkMessage, LinkError>
    ensures { Gives (λ m. m) result (restart (elements_in octets.now)) }
{
    let cells = needed_cells(alloc, octets)?;
    let broadcast_type = needed_octet(octets, iei::BROADCAST_MESSAGE_TYPE)?;
    let recovery = needed_octet(octets, iei::RECOVERY_INDICATION)?;
    Ok(LinkMessage::Restart {
        cells,
        broadcast_type,
        recovery,
    })
}

/// That cells broadcast no more.
#[tactic(auto, unfolding(crate::specs::Meaning::failure))]
fn failure(alloc: Global, octets: &[u8]) -> Result<LinkMessage, LinkError>
    ensures { Gives (λ m. m) result (meaning.failure (elements_in octets.now)) }
{
    let failures = needed_failures(alloc, octets)?;
    let broadcast_type = needed_octet(octets, iei::BROADCAST_MESSAGE_TYPE)?;
    Ok(LinkMessage::Failure {
        failures,
        broadcast_type,
    })
}

/// The message of a kind that elements say.
#[tactic(auto, unfolding(crate::specs::Meaning::message_of))]
fn message(alloc: Global, kind: Kind, octets: &[u8]) -> Result<LinkMessage, LinkError>
    ensures { Gives (λ m. m) result (message_of kind (elements_in octets.now)) }
{
    match kind {
        Kind::Write => write(alloc, octets),
        Kind::WriteDone => done(alloc, write_answered(octets)?, octets),
        Kind::WriteFailed => failed(alloc, write_answered(octets)?, octets),
        Kind::Kill => kill(alloc, octets),
        Kind::KillDone => done(alloc, kill_answered(octets)?, octets),
        Kind::KillFailed => failed(alloc, kill_answered(octets)?, octets),
        Kind::Reset => Ok(LinkMessage::Reset {
            cells: needed_cells(alloc, octets)?,
        }),
        Kind::ResetDone => Ok(LinkMessage::ResetDone {
            cells: needed_cells(alloc, octets)?,
        }),
        Kind::ResetFailed => reset_failed(alloc, octets),
        Kind::Restart => restart(alloc, octets),
        Kind::Failure => failure(alloc, octets),
    }
}

/// The message of a type with this body.
fn message_in(alloc: Global, message_type: u8, body: &[u8]) -> Result<LinkMessage, LinkError>
    ensures meant { Gives (λ m. m) result (message_by message_type (kind_of message_type) body.now) }
    ensures memory_late { IfErr result (λ e. e ≡ LinkError.OutOfMemory → fault_in body.now ≡ None) }
{
    let Some(kind) = kind_from(message_type) else {
        return Ok(LinkMessage::Other { message_type });
    };
    if let Some(fault) = fault(body) {
        return Err(LinkError::Fault(fault));
    }
    message(alloc, kind, body)
}

/// The message at the front of octets, and the octets after it.
///
/// # Errors
///
/// The first of these that applies, or `OutOfMemory` in place of the third.
///
/// 1. `CutMessage`: fewer than 4 octets, or fewer after them than the length field says.
/// 2. `CutElement`, `UnknownElement`: the first element that goes past the end, or whose identifier is none of the
///    standard's. Not of a message that isn't looked into.
/// 3. `MissingElement`, `WrongElement`: the first element, in the order in which `link_message` of specs/ takes them,
///    that the message needs and doesn't have, or that isn't what it has to be: a list with a discriminator above 6,
///    without a discriminator, or with a part of an item; a period above 4,095; a number of pages that isn't 1 to 15,
///    or isn't that of the contents.
#[tactic(auto, unfolding(crate::specs::Meaning::link_message))]
pub fn read(alloc: Global, octets: &[u8]) -> Result<(LinkMessage, &[u8]), LinkError>
    // What is returned is what the octets mean, and what follows it, or the first fault.
    ensures meant { Gives (λ x. (x.0, x.1.now)) result (link_message octets.now) }
    // Out of memory is reported only of a whole message whose elements are whole.
    ensures memory_late { IfErr result (λ e. e ≡ LinkError.OutOfMemory → IsWholeFront (front_of octets.now)) }
{
    let frame = match split(octets) {
        Ok(frame) => frame,
        Err(fault) => return Err(LinkError::Fault(fault)),
    };
    let message = message_in(alloc, frame.message_type, frame.body)?;
    Ok((message, frame.rest))
}
