//! Which messages are written.

ghost use Rattle.std.specs.Prelude.{◌≡◌, ◌==◌, ◌&&◌, length, nat_le, None};
ghost use Rattle.std.specs.List.{list_all};
ghost use Rattle.cbs_page.specs.Text.{max_pages};
ghost use Rattle.cbsp_link.specs.Written.{is_short, discriminator_of, are_alike, stands_alone, cells_fit, counts_fit};
ghost use Rattle.cbsp_link.specs.Written.{counts_are_alike, failures_fit, has_some, at_most, or_else, wrong_of};
ghost use Rattle.cbsp_link.specs.declared.iei.TheConstants.{MESSAGE_CONTENT, CELL_LIST, BROADCASTS_COMPLETED};
ghost use Rattle.cbsp_link.specs.declared.iei.TheConstants.{CATEGORY, REPETITION_PERIOD, NUMBER_OF_PAGES};
ghost use Rattle.cbsp_link.specs.declared.iei.TheConstants.{CHANNEL_INDICATOR};

use crate::fault::LinkFault;
use crate::iei;
use crate::message::{LinkCell, LinkCount, LinkFailure, LinkMessage};
use crate::writing::discriminator_of;
use cbs_page::{Content, MAX_PAGES};

/// How many items a list has at most (own): the length of this many fits two octets.
const MOST_ITEMS: usize = 5000;

/// Whether the cell is named without octets.
fn is_short(cell: LinkCell) -> bool
    ensures { result ≡ is_short cell }
{
    match cell {
        LinkCell::Nothing | LinkCell::All => true,
        LinkCell::Global { .. }
        | LinkCell::LacCi { .. }
        | LinkCell::Ci { .. }
        | LinkCell::Area { .. }
        | LinkCell::Lac { .. } => false,
    }
}

/// Whether cells have this discriminator.
fn have_discriminator(cells: &[LinkCell], discriminator: u8) -> bool
    ensures { result ≡ list_all (λ cell. discriminator_of cell == discriminator) cells.now }
{
    cells
        .iter()
        .all(|cell| discriminator_of(*cell) == discriminator)
}

/// Whether cells share a discriminator.
fn are_alike(cells: &[LinkCell]) -> bool
    ensures { result ≡ are_alike cells.now }
{
    match cells {
        [first, rest @ ..] => have_discriminator(rest, discriminator_of(*first)),
        [] => true,
    }
}

/// Whether the cells of completed broadcasts have this discriminator.
fn counts_have_discriminator(counts: &[LinkCount], discriminator: u8) -> bool
    ensures { result ≡ list_all (λ count. discriminator_of count.cell == discriminator) counts.now }
{
    counts
        .iter()
        .all(|count| discriminator_of(count.cell) == discriminator)
}

/// Whether the cells of completed broadcasts share a discriminator.
fn counts_are_alike(counts: &[LinkCount]) -> bool
    ensures { result ≡ counts_are_alike counts.now }
{
    match counts {
        [first, rest @ ..] => counts_have_discriminator(rest, discriminator_of(first.cell)),
        [] => true,
    }
}

/// Whether no cell that is named without octets stands beside others.
fn stands_alone(cells: &[LinkCell]) -> bool
    ensures { result ≡ stands_alone cells.now }
{
    match cells {
        [first, _, ..] => !is_short(*first),
        _ => true,
    }
}

/// Whether cells may be a cell list's.
fn cells_fit(cells: &[LinkCell]) -> bool
    ensures { result ≡ cells_fit cells.now }
{
    cells.len() <= MOST_ITEMS && stands_alone(cells) && are_alike(cells)
}

/// Whether completed broadcasts may be a list's.
fn counts_fit(counts: &[LinkCount]) -> bool
    ensures { result ≡ counts_fit counts.now }
{
    counts.len() <= MOST_ITEMS && counts_are_alike(counts)
}

/// Whether cells may be those of a cell list that the message needs.
fn needed_cells_fit(cells: &[LinkCell]) -> bool
    ensures { result ≡ (has_some cells.now && cells_fit cells.now) }
{
    !cells.is_empty() && cells_fit(cells)
}

/// Whether failures may be those of a list that the message needs.
fn needed_failures_fit(failures: &[LinkFailure]) -> bool
    ensures { result ≡ (has_some failures.now && failures_fit failures.now) }
{
    !failures.is_empty() && failures.len() <= MOST_ITEMS
}

/// Whether the octet, if there is one, is at most this.
fn at_most(limit: u8, octet: Option<u8>) -> bool
    ensures { result ≡ at_most limit octet }
{
    match octet {
        Some(octet) => octet <= limit,
        None => true,
    }
}

/// Whether at most 82 octets are used of each page.
fn used_fit(contents: &[Content]) -> bool
    ensures { result ≡ list_all (λ content. nat_le content.used 82) contents.now }
{
    contents.iter().all(|content| content.used <= 82)
}

/// The others, if the test of an element is passed.
fn or_else(element: u8, passes: bool, others: Option<LinkFault>) -> Option<LinkFault>
    ensures { result ≡ or_else element passes others }
{
    if passes {
        others
    } else {
        Some(LinkFault::WrongElement(element))
    }
}

/// What is wrong with the lists and the channel of a reply.
fn wrong_of_reply(
    completed: &[LinkCount],
    cells: &[LinkCell],
    channel: Option<u8>,
) -> Option<LinkFault>
    ensures { result ≡ or_else BROADCASTS_COMPLETED (counts_fit completed.now)
        (or_else CELL_LIST (cells_fit cells.now) (or_else CHANNEL_INDICATOR (at_most 1 channel) None)) }
{
    let channel = or_else(iei::CHANNEL_INDICATOR, at_most(1, channel), None);
    let cells = or_else(iei::CELL_LIST, cells_fit(cells), channel);
    or_else(iei::BROADCASTS_COMPLETED, counts_fit(completed), cells)
}

/// What is wrong with the numbers and pages of a write.
fn wrong_of_broadcast(
    channel: u8,
    category: Option<u8>,
    period: u16,
    contents: &[Content],
) -> Option<LinkFault>
    ensures { result ≡ or_else CHANNEL_INDICATOR (nat_le channel 1)
        (or_else CATEGORY (at_most 2 category)
        (or_else REPETITION_PERIOD (nat_le period 4095)
        (or_else NUMBER_OF_PAGES (nat_le 1 (length contents.now) && nat_le (length contents.now) max_pages)
        (or_else MESSAGE_CONTENT (list_all (λ content. nat_le content.used 82) contents.now) None)))) }
{
    let pages = contents.len();
    let used = or_else(iei::MESSAGE_CONTENT, used_fit(contents), None);
    let counted = or_else(iei::NUMBER_OF_PAGES, 1 <= pages && pages <= MAX_PAGES, used);
    let period = or_else(iei::REPETITION_PERIOD, period <= 4095, counted);
    let category = or_else(iei::CATEGORY, at_most(2, category), period);
    or_else(iei::CHANNEL_INDICATOR, channel <= 1, category)
}

/// The first thing for which a message isn't written.
#[tactic(auto, unfolding(crate::specs::Written::wrong_of))]
pub(crate) fn wrong_of(message: &LinkMessage) -> Option<LinkFault>
    ensures { result ≡ wrong_of message.now }
{
    match message {
        LinkMessage::Write {
            cells,
            channel,
            category,
            period,
            contents,
            ..
        } => {
            let others = wrong_of_broadcast(*channel, *category, *period, contents.as_slice());
            or_else(iei::CELL_LIST, needed_cells_fit(&cells.list), others)
        }
        LinkMessage::Kill { cells, channel, .. } => {
            let others = or_else(iei::CHANNEL_INDICATOR, at_most(1, *channel), None);
            or_else(iei::CELL_LIST, needed_cells_fit(&cells.list), others)
        }
        LinkMessage::Done {
            completed,
            cells,
            channel,
            ..
        } => wrong_of_reply(&completed.list, &cells.list, *channel),
        LinkMessage::Failed {
            failures,
            completed,
            cells,
            channel,
            ..
        } => {
            let others = wrong_of_reply(&completed.list, &cells.list, *channel);
            or_else(
                iei::FAILURE_LIST,
                needed_failures_fit(&failures.list),
                others,
            )
        }
        LinkMessage::Reset { cells } | LinkMessage::ResetDone { cells } => or_else(
            iei::CELL_LIST,
            needed_cells_fit(&cells.list),
            None,
        ),
        LinkMessage::ResetFailed { failures, cells } => {
            let others = or_else(iei::CELL_LIST, cells_fit(&cells.list), None);
            or_else(
                iei::FAILURE_LIST,
                needed_failures_fit(&failures.list),
                others,
            )
        }
        LinkMessage::Restart {
            cells,
            broadcast_type,
            recovery,
        } => {
            let recovery = or_else(iei::RECOVERY_INDICATION, *recovery <= 1, None);
            let others = or_else(iei::BROADCAST_MESSAGE_TYPE, *broadcast_type <= 1, recovery);
            or_else(iei::CELL_LIST, needed_cells_fit(&cells.list), others)
        }
        LinkMessage::Failure {
            failures,
            broadcast_type,
        } => {
            let others = or_else(iei::BROADCAST_MESSAGE_TYPE, *broadcast_type <= 1, None);
            or_else(
                iei::FAILURE_LIST,
                needed_failures_fit(&failures.list),
                others,
            )
        }
        LinkMessage::Emergency { .. } | LinkMessage::Other { .. } => Some(LinkFault::NotWritten),
    }
}
