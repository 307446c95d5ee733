//! The blocks of a slot that airs a page.

ghost use Rattle.std.specs.Prelude.{◌≡◌, ◌≤◌, ◌+◌, ◌-◌, ◌++◌, ℕ, List, length, vec_capacity, vec_len, MatchOption};
ghost use Rattle.std.specs.Prelude.{All, IsOk, OnErr, OnOk};
ghost use Rattle.std.specs.List.{slice_get};
ghost use Rattle.bsc_table.specs.Book.{air_pairs, aired_pair};
ghost use Rattle.cbch_blocks.specs.Blocks.{idle_blocks};
ghost use Rattle.cbch_blocks.specs.RecordBlocks.{blocks_of_slot, blocks_of_uses, octets_of_blocks, page_aired};
ghost use Rattle.cbch_blocks.specs.RecordBlocks.{pages_of_command};
ghost use Rattle.cbch_blocks.specs.TapeSteps.{CanAir, CanSendPage, HasRoom, octets_of_slot};

use crate::blocks::{BLOCK_OCTETS, cut, idle};
use crate::front::strip_front;
use crate::tape::Refused;
use bsc_table::{Aired, Command, Entry};
use cbs_page::page_bytes;

/// The four blocks of a page of a command.
fn page_blocks(command: &Command, page: u8) -> [[u8; BLOCK_OCTETS]; 4]
    requires { CanSendPage page command.now }
    ensures { result ≡ blocks_of_slot (slice_get (pages_of_command command.now) (page - 1)) }
{
    match command {
        Command::Write {
            id,
            serial,
            dcs,
            contents,
            ..
        } => {
            let contents = contents.as_slice();
            let total = contents.len() as u8;
            let content = &contents[page as usize - 1];
            cut(&page_bytes(*id, *serial, *dcs, page, total, &content.octets))
        }
        Command::Kill { .. } => idle(),
        Command::Status { .. } => idle(),
    }
}

/// The four blocks of a slot that airs a page.
fn aired_blocks(log: &[Entry], aired: Aired) -> [[u8; BLOCK_OCTETS]; 4]
    requires { CanAir log.now (aired_pair (Some aired)) }
    ensures { result ≡ blocks_of_slot (page_aired log.now (aired_pair (Some aired))) }
{
    page_blocks(&log[aired.entry as usize].command, aired.page)
}

/// The octets after the blocks of a slot, if they begin with these. `idle` are the octets of an idle slot.
pub(crate) fn strip_slot<'a>(
    octets: &'a [u8],
    idle: &[u8],
    log: &[Entry],
    used: Option<Aired>,
) -> Option<&'a [u8]>
    requires idle { idle.now ≡ octets_of_blocks idle_blocks }
    requires used { CanAir log.now (aired_pair used) }
    ensures { MatchOption result
        ((rest : List ℕ) → octets.now ≡ octets_of_slot log.now (aired_pair used) ++ rest → ⊥)
        (λ rest. octets.now ≡ octets_of_slot log.now (aired_pair used) ++ rest.now) }
{
    match used {
        None => strip_front(octets, idle),
        Some(aired) => strip_front(octets, aired_blocks(log, aired).as_flattened()),
    }
}

/// Appends the blocks of a slot that airs a page. Takes no memory where there is room for them.
fn put_page(octets: &mut Vec<u8>, log: &[Entry], aired: Aired) -> Result<(), Refused>
    requires { CanAir log.now (aired_pair (Some aired)) }
    ensures put { OnOk result (octets.new.items
        ≡ octets.old.items ++ octets_of_slot log.now (aired_pair (Some aired))) }
    ensures len { OnOk result (vec_len octets.new
        ≡ vec_len octets.old + length (octets_of_slot log.now (aired_pair (Some aired)))) }
    ensures capacity { vec_capacity octets.old ≤ vec_capacity octets.new }
    ensures full { OnErr result (HasRoom octets.old (octets_of_slot log.now (aired_pair (Some aired))) → ⊥) }
{
    let blocks = aired_blocks(log, aired);
    octets.extend_from_slice(blocks.as_flattened())?;
    Ok(())
}

/// Appends the blocks of slots, in their order. Takes no memory where there is room for them.
pub(crate) fn put_slots(
    octets: &mut Vec<u8>,
    log: &[Entry],
    air: &[Option<Aired>],
) -> Result<(), Refused>
    requires { All (λ used. CanAir log.now (aired_pair used)) air.now }
    ensures put { OnOk result (octets.new.items
        ≡ octets.old.items ++ octets_of_blocks (blocks_of_uses log.now (air_pairs air.now))) }
    ensures room { HasRoom octets.old (octets_of_blocks (blocks_of_uses log.now (air_pairs air.now))) → IsOk result }
    ensures capacity { vec_capacity octets.old ≤ vec_capacity octets.new }
{
    // The octets of an idle slot are made once, as most slots are idle.
    let blocks = idle();
    let idle = blocks.as_flattened();
    for used in air {
        match used {
            None => octets.extend_from_slice(idle)?,
            Some(aired) => put_page(octets, log, *aired)?,
        }
    }
    Ok(())
}
