//! Writing a message.

ghost use Rattle.std.specs.Prelude.{◌≡◌, ◌++◌, OnOk, IfOk, IfErr, None};
ghost use Rattle.std.specs.List.{flat_map};
ghost use Rattle.cbsp_link.specs.Outcome.{Gives};
ghost use Rattle.cbsp_link.specs.Written.{two_octets, pair_element, pair_if, octet_element, octet_if, list_element};
ghost use Rattle.cbsp_link.specs.Written.{discriminator_of, name_octets, counted_octets, failed_octets, page_element};
ghost use Rattle.cbsp_link.specs.Written.{cells_element, counts_element, failures_element, answered_elements, body_of};
ghost use Rattle.cbsp_link.specs.Written.{answered_type, first_octet_of, plmn_octets, written, wrong_of};
ghost use Rattle.cbsp_link.specs.declared.iei.TheConstants.{OLD_SERIAL_NUMBER};
ghost use Rattle.cbsp_link.specs.declared.fault.LinkError.{LinkError};

use crate::fault::{LinkError, LinkFault};
use crate::iei;
use crate::message::{Answered, LinkCell, LinkCount, LinkFailure, LinkMessage, Plmn};
use crate::writing::checks::wrong_of;
use cbs_page::{Content, Serial};
use std::alloc::{AllocError, Global};

pub(crate) mod checks;

/// Appends a number in two octets, the high one first.
fn put_two(out: &mut Vec<u8>, number: u16) -> Result<(), AllocError>
    ensures { OnOk result (out.new.items ≡ out.old.items ++ two_octets number) }
{
    out.extend_from_slice(&[(number / 256) as u8, (number % 256) as u8])
}

/// Appends an element of two octets.
fn put_pair(out: &mut Vec<u8>, element: u8, number: u16) -> Result<(), AllocError>
    ensures { OnOk result (out.new.items ≡ out.old.items ++ pair_element element number) }
{
    out.extend_from_slice(&[element, (number / 256) as u8, (number % 256) as u8])
}

/// Appends the old serial number, if there is one.
fn put_old(out: &mut Vec<u8>, serial: Option<Serial>) -> Result<(), AllocError>
    ensures { OnOk result (out.new.items ≡ out.old.items ++ pair_if OLD_SERIAL_NUMBER serial) }
{
    match serial {
        Some(serial) => put_pair(out, iei::OLD_SERIAL_NUMBER, serial.number()),
        None => Ok(()),
    }
}

/// Appends an element of one octet.
fn put_octet(out: &mut Vec<u8>, element: u8, octet: u8) -> Result<(), AllocError>
    ensures { OnOk result (out.new.items ≡ out.old.items ++ octet_element element octet) }
{
    out.extend_from_slice(&[element, octet])
}

/// Appends an element of one octet, if there is one.
fn put_octet_if(out: &mut Vec<u8>, element: u8, octet: Option<u8>) -> Result<(), AllocError>
    ensures { OnOk result (out.new.items ≡ out.old.items ++ octet_if element octet) }
{
    match octet {
        Some(octet) => put_octet(out, element, octet),
        None => Ok(()),
    }
}

/// Appends an element with a length.
fn put_list(out: &mut Vec<u8>, element: u8, octets: &[u8]) -> Result<(), AllocError>
    ensures { OnOk result (out.new.items ≡ out.old.items ++ list_element element octets.now) }
{
    let length = octets.len();
    out.extend_from_slice(&[element, (length / 256 % 256) as u8, (length % 256) as u8])?;
    out.extend_from_slice(octets)
}

/// The discriminator of a cell.
pub(crate) fn discriminator_of(cell: LinkCell) -> u8
    ensures { result ≡ discriminator_of cell }
{
    match cell {
        LinkCell::Global { .. } => 0,
        LinkCell::LacCi { .. } => 1,
        LinkCell::Ci { .. } => 2,
        LinkCell::Nothing => 3,
        LinkCell::Area { .. } => 4,
        LinkCell::Lac { .. } => 5,
        LinkCell::All => 6,
    }
}

/// Appends the octets of a network.
fn put_plmn(out: &mut Vec<u8>, plmn: Plmn) -> Result<(), AllocError>
    ensures { OnOk result (out.new.items ≡ out.old.items ++ plmn_octets plmn) }
{
    out.extend_from_slice(&[plmn.0, plmn.1, plmn.2])
}

/// Appends the octets that name a cell.
fn put_name(out: &mut Vec<u8>, cell: LinkCell) -> Result<(), AllocError>
    ensures { OnOk result (out.new.items ≡ out.old.items ++ name_octets cell) }
{
    match cell {
        LinkCell::Global { plmn, lac, ci } => {
            put_plmn(out, plmn)?;
            put_two(out, lac)?;
            put_two(out, ci)
        }
        LinkCell::LacCi { lac, ci } => {
            put_two(out, lac)?;
            put_two(out, ci)
        }
        LinkCell::Ci { ci } => put_two(out, ci),
        LinkCell::Area { plmn, lac } => {
            put_plmn(out, plmn)?;
            put_two(out, lac)
        }
        LinkCell::Lac { lac } => put_two(out, lac),
        LinkCell::Nothing | LinkCell::All => Ok(()),
    }
}

/// Appends the octets of a completed broadcast.
fn put_count(out: &mut Vec<u8>, count: LinkCount) -> Result<(), AllocError>
    ensures { OnOk result (out.new.items ≡ out.old.items ++ counted_octets count) }
{
    put_name(out, count.cell)?;
    put_two(out, count.number)?;
    out.extend_from_slice(&[count.info])
}

/// Appends the octets of a failure.
fn put_failure(out: &mut Vec<u8>, failure: LinkFailure) -> Result<(), AllocError>
    ensures { OnOk result (out.new.items ≡ out.old.items ++ failed_octets failure) }
{
    out.extend_from_slice(&[discriminator_of(failure.cell)])?;
    put_name(out, failure.cell)?;
    out.extend_from_slice(&[failure.cause])
}

/// Appends the octets that name cells.
fn put_names(out: &mut Vec<u8>, cells: &[LinkCell]) -> Result<(), AllocError>
    ensures { OnOk result (out.new.items ≡ out.old.items ++ flat_map name_octets cells.now) }
{
    for cell in cells {
        put_name(out, *cell)?;
    }
    Ok(())
}

/// Appends the octets of completed broadcasts.
fn put_counts(out: &mut Vec<u8>, counts: &[LinkCount]) -> Result<(), AllocError>
    ensures { OnOk result (out.new.items ≡ out.old.items ++ flat_map counted_octets counts.now) }
{
    for count in counts {
        put_count(out, *count)?;
    }
    Ok(())
}

/// Appends the octets of failures.
fn put_failures(out: &mut Vec<u8>, failures: &[LinkFailure]) -> Result<(), AllocError>
    ensures { OnOk result (out.new.items ≡ out.old.items ++ flat_map failed_octets failures.now) }
{
    for failure in failures {
        put_failure(out, *failure)?;
    }
    Ok(())
}

/// Appends the cell list, if it has cells.
fn put_cell_list(alloc: Global, out: &mut Vec<u8>, cells: &[LinkCell]) -> Result<(), AllocError>
    ensures { OnOk result (out.new.items ≡ out.old.items ++ cells_element cells.now) }
{
    let [first, ..] = cells else {
        return Ok(());
    };
    let mut octets = Vec::new(alloc);
    octets.extend_from_slice(&[discriminator_of(*first)])?;
    put_names(&mut octets, cells)?;
    put_list(out, iei::CELL_LIST, &octets)
}

/// Appends the list of completed broadcasts, if it has some.
fn put_count_list(alloc: Global, out: &mut Vec<u8>, counts: &[LinkCount]) -> Result<(), AllocError>
    ensures { OnOk result (out.new.items ≡ out.old.items ++ counts_element counts.now) }
{
    let [first, ..] = counts else {
        return Ok(());
    };
    let mut octets = Vec::new(alloc);
    octets.extend_from_slice(&[discriminator_of(first.cell)])?;
    put_counts(&mut octets, counts)?;
    put_list(out, iei::BROADCASTS_COMPLETED, &octets)
}

/// Appends the list of failures, if it has some.
fn put_failure_list(
    alloc: Global,
    out: &mut Vec<u8>,
    failures: &[LinkFailure],
) -> Result<(), AllocError>
    ensures { OnOk result (out.new.items ≡ out.old.items ++ failures_element failures.now) }
{
    if failures.is_empty() {
        return Ok(());
    }
    let mut octets = Vec::new(alloc);
    put_failures(&mut octets, failures)?;
    put_list(out, iei::FAILURE_LIST, &octets)
}

/// Appends the pages.
fn put_pages(out: &mut Vec<u8>, contents: &[Content]) -> Result<(), AllocError>
    ensures { OnOk result (out.new.items ≡ out.old.items ++ flat_map page_element contents.now) }
{
    for content in contents {
        out.extend_from_slice(&[iei::MESSAGE_CONTENT, content.used])?;
        out.extend_from_slice(content.octets.as_slice())?;
    }
    Ok(())
}

/// Appends the serial numbers of the order that a reply answers.
fn put_answered(out: &mut Vec<u8>, order: Answered) -> Result<(), AllocError>
    ensures { OnOk result (out.new.items ≡ out.old.items ++ answered_elements order) }
{
    match order {
        Answered::Write {
            new_serial,
            old_serial,
        } => {
            put_pair(out, iei::NEW_SERIAL_NUMBER, new_serial.number())?;
            put_old(out, old_serial)
        }
        Answered::Kill { old_serial } => put_pair(out, iei::OLD_SERIAL_NUMBER, old_serial.number()),
    }
}

/// The octets after the header.
#[tactic(auto, unfolding(crate::specs::Written::body_of))]
fn body_of(alloc: Global, message: &LinkMessage) -> Result<Vec<u8>, AllocError>
    ensures { IfOk result (λ v. v.items ≡ body_of message.now) }
{
    let mut out = Vec::new(alloc);
    match message {
        LinkMessage::Write {
            id,
            new_serial,
            old_serial,
            cells,
            channel,
            category,
            period,
            broadcasts,
            dcs,
            contents,
        } => {
            let pages = contents.as_slice();
            put_pair(&mut out, iei::MESSAGE_IDENTIFIER, *id)?;
            put_pair(&mut out, iei::NEW_SERIAL_NUMBER, new_serial.number())?;
            put_old(&mut out, *old_serial)?;
            put_cell_list(alloc, &mut out, &cells.list)?;
            put_octet(&mut out, iei::CHANNEL_INDICATOR, *channel)?;
            put_octet_if(&mut out, iei::CATEGORY, *category)?;
            put_pair(&mut out, iei::REPETITION_PERIOD, *period)?;
            put_pair(&mut out, iei::BROADCASTS_REQUESTED, *broadcasts)?;
            put_octet(&mut out, iei::NUMBER_OF_PAGES, (pages.len() % 256) as u8)?;
            put_octet(&mut out, iei::DATA_CODING, dcs.0)?;
            put_pages(&mut out, pages)?;
        }
        LinkMessage::Kill {
            id,
            old_serial,
            cells,
            channel,
        } => {
            put_pair(&mut out, iei::MESSAGE_IDENTIFIER, *id)?;
            put_pair(&mut out, iei::OLD_SERIAL_NUMBER, old_serial.number())?;
            put_cell_list(alloc, &mut out, &cells.list)?;
            put_octet_if(&mut out, iei::CHANNEL_INDICATOR, *channel)?;
        }
        LinkMessage::Done {
            id,
            order,
            completed,
            cells,
            channel,
        } => {
            put_pair(&mut out, iei::MESSAGE_IDENTIFIER, *id)?;
            put_answered(&mut out, *order)?;
            put_count_list(alloc, &mut out, &completed.list)?;
            put_cell_list(alloc, &mut out, &cells.list)?;
            put_octet_if(&mut out, iei::CHANNEL_INDICATOR, *channel)?;
        }
        LinkMessage::Failed {
            id,
            order,
            failures,
            completed,
            cells,
            channel,
        } => {
            put_pair(&mut out, iei::MESSAGE_IDENTIFIER, *id)?;
            put_answered(&mut out, *order)?;
            put_failure_list(alloc, &mut out, &failures.list)?;
            put_count_list(alloc, &mut out, &completed.list)?;
            put_cell_list(alloc, &mut out, &cells.list)?;
            put_octet_if(&mut out, iei::CHANNEL_INDICATOR, *channel)?;
        }
        LinkMessage::Reset { cells } | LinkMessage::ResetDone { cells } => {
            put_cell_list(alloc, &mut out, &cells.list)?;
        }
        LinkMessage::ResetFailed { failures, cells } => {
            put_failure_list(alloc, &mut out, &failures.list)?;
            put_cell_list(alloc, &mut out, &cells.list)?;
        }
        LinkMessage::Restart {
            cells,
            broadcast_type,
            recovery,
        } => {
            put_cell_list(alloc, &mut out, &cells.list)?;
            put_octet(&mut out, iei::BROADCAST_MESSAGE_TYPE, *broadcast_type)?;
            put_octet(&mut out, iei::RECOVERY_INDICATION, *recovery)?;
        }
        LinkMessage::Failure {
            failures,
            broadcast_type,
        } => {
            put_failure_list(alloc, &mut out, &failures.list)?;
            put_octet(&mut out, iei::BROADCAST_MESSAGE_TYPE, *broadcast_type)?;
        }
        LinkMessage::Emergency { .. } | LinkMessage::Other { .. } => {}
    }
    Ok(out)
}

/// The first octet of a reply, of those for an order to write and one to stop.
fn answered_type(write: u8, kill: u8, order: Answered) -> u8
    ensures { result ≡ answered_type write kill order }
{
    match order {
        Answered::Write { .. } => write,
        Answered::Kill { .. } => kill,
    }
}

/// The first octet of a message.
fn first_octet_of(message: &LinkMessage) -> u8
    ensures { result ≡ first_octet_of message.now }
{
    match message {
        LinkMessage::Write { .. } | LinkMessage::Emergency { .. } => 1,
        LinkMessage::Kill { .. } => 4,
        LinkMessage::Done { order, .. } => answered_type(2, 5, *order),
        LinkMessage::Failed { order, .. } => answered_type(3, 6, *order),
        LinkMessage::Reset { .. } => 16,
        LinkMessage::ResetDone { .. } => 17,
        LinkMessage::ResetFailed { .. } => 18,
        LinkMessage::Restart { .. } => 19,
        LinkMessage::Failure { .. } => 20,
        LinkMessage::Other { message_type } => *message_type,
    }
}

/// The octets of a message, with its elements in the standard's order: 0E, 03, 02, 09, 08, 04, 12, 05, 06, 07, 13, 0C,
/// 01, and 16, 0D. It takes memory for them, and for each list twice.
///
/// # Errors
///
/// The first of these that applies; out of memory comes last.
///
/// 1. `NotWritten`: an emergency message, or one of another type.
/// 2. `WrongElement`, the first in the order in which they are written: a list that the message needs has no item; a
///    list has more than 5,000 items; its cells don't share a discriminator, or one of discriminator 3 or 6 stands in a
///    cell list beside others; a channel, a type of broadcast or a recovery above 1, a category above 2, a period above
///    4,095; no page or more than 15; more than 82 octets used of one.
/// 3. `OutOfMemory`.
#[tactic(auto, unfolding(crate::specs::Written::octets_of_link))]
pub fn write(alloc: Global, message: &LinkMessage) -> Result<Vec<u8>, LinkError>
    ensures written { Gives (λ v. v.items) result (written message.now) }
    ensures memory_last { IfErr result (λ e. e ≡ LinkError.OutOfMemory → wrong_of message.now ≡ None) }
{
    if let Some(fault) = wrong_of(message) {
        return Err(LinkError::Fault(fault));
    }
    let body = body_of(alloc, message)?;
    let length = body.len();
    let header = [
        first_octet_of(message),
        (length / 65536 % 256) as u8,
        (length / 256 % 256) as u8,
        (length % 256) as u8,
    ];
    let mut out = Vec::new(alloc);
    out.extend_from_slice(&header)?;
    out.extend_from_slice(&body)?;
    Ok(out)
}
