//! How often the last page of each message was aired, and when first: as often as a broadcast of it was completed, and
//! when one was for the first time.

ghost use Rattle.std.specs.Prelude.{◌≡◌, ◌+◌, ◌<◌, ◌≤◌, if◌then◌else◌, length, slice_index, EachIndex, IfOk, Some};
ghost use Rattle.std.specs.Prelude.{ℕ, None, slice_index_or};
ghost use Rattle.scheduler.specs.Pages.{airs_page};
ghost use Rattle.bsc_table.specs.Book.{air_pairs};
ghost use Rattle.report.specs.LastPages.{first_last_page, pages_at, page_count_of};
ghost use Rattle.report.specs.RowSteps.{last_pages};

use bsc_table::{Aired, Command, Entry};
use std::alloc::{AllocError, Global};

/// How many pages the message of a command has: none, unless it is a write.
fn pages_of(command: &Command) -> usize
    ensures { result ≡ page_count_of command.now }
{
    match command {
        Command::Write { contents, .. } => contents.as_slice().len(),
        Command::Kill { .. } => 0,
        Command::Status { .. } => 0,
    }
}

/// Counts a page that was aired, if it is the last one of its message.
fn count_page(counts: &mut [u16], log: &[Entry], aired: Aired)
    requires places { length counts.old ≡ length log.now }
    requires few { EachIndex counts.old (λ place. slice_index counts.old place < 65535) }
    ensures { EachIndex counts.old (λ place. slice_index counts.new place ≡ slice_index counts.old place
        + (if airs_page place (pages_at log.now place) (Some (aired.entry, aired.page)) then 1 else 0)) }
{
    let place = usize::from(aired.entry);
    if place < counts.len() && usize::from(aired.page) == pages_of(&log[place].command) {
        counts[place] += 1;
    }
}

/// How often the slots of a run air the last page of the message of each entry, by the entry's place in the log.
pub(crate) fn count_last_pages(
    alloc: Global,
    log: &[Entry],
    air: &[Option<Aired>],
) -> Result<Vec<u16>, AllocError>
    requires { length air.now ≤ 65535 }
    ensures places { IfOk result (λ counts. length counts.items ≡ length log.now) }
    ensures each { IfOk result (λ counts. EachIndex counts.items (λ place.
        slice_index counts.items place ≡ last_pages log.now (air_pairs air.now) place)) }
{
    let mut counts = vec![in alloc; 0; log.len()]?;
    for used in air {
        if let Some(aired) = used {
            count_page(counts.as_mut_slice(), log, *aired);
        }
    }
    Ok(counts)
}

/// Notes the slot of a page that was aired, if it is the last one of its message.
fn note_page(firsts: &mut [Option<u16>], log: &[Entry], aired: Aired, slot: u16)
    requires { length firsts.old ≡ length log.now }
    ensures { (place : ℕ) → place < length log.now → slice_index_or firsts.new place None
        ≡ (if airs_page place (pages_at log.now place) (Some (aired.entry, aired.page)) then Some slot
        else slice_index_or firsts.old place None) }
{
    let place = usize::from(aired.entry);
    if place < firsts.len() && usize::from(aired.page) == pages_of(&log[place].command) {
        firsts[place] = Some(slot);
    }
}

/// The first slot of a run that airs the last page of the message of each entry of a cell's log, by the entry's place
/// there: none if no slot does, or the entry is no write. It is one walk over the slots.
///
/// # Errors
///
/// Out of memory.
pub fn first_last_pages(
    alloc: Global,
    log: &[Entry],
    air: &[Option<Aired>],
) -> Result<Vec<Option<u16>>, AllocError>
    requires { length air.now ≤ 65535 }
    ensures places { IfOk result (λ firsts. length firsts.items ≡ length log.now) }
    ensures each { IfOk result (λ firsts. (place : ℕ) → place < length log.now
        → slice_index_or firsts.items place None ≡ first_last_page log.now (air_pairs air.now) place) }
{
    let mut firsts = vec![in alloc; None; log.len()]?;
    let mut slot = air.len();
    // From the last slot on: so what is noted last is the first.
    while slot > 0 {
        slot -= 1;
        let used = &air[slot];
        if let Some(aired) = used {
            note_page(firsts.as_mut_slice(), log, *aired, slot as u16);
        }
    }
    Ok(firsts)
}
