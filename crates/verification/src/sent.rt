//! The pages that a tape sends.

ghost use Rattle.std.specs.Prelude.{◌≡◌, ◌<◌, ◌≤◌, ◌^◌, All, AllPairs, IfOk, OnOk};
ghost use Rattle.verification.specs.Asked.{AskedMessage};
ghost use Rattle.verification.specs.ByName.{AreByName, name_number};
ghost use Rattle.verification.specs.Judged.{judged_in};
ghost use Rattle.verification.specs.Sent.{sent_in};

use cbs_page::PageView;
use handset::page_in_front;
use std::alloc::{AllocError, Global};

/// How many blocks a slot has.
const BLOCKS: usize = 4;

/// A page that was sent.
#[derive(Clone, Copy)]
pub struct SentPage {
    /// The slot in which its first block was sent.
    pub slot: usize,
    /// What its octets say.
    pub page: PageView,
}

/// A number for an identifier and a serial number, another one for each two.
pub fn name_number(id: u16, serial: u16) -> u32
    ensures { result ≡ name_number id serial }
{
    u32::from(id) * 0x1_0000 + u32::from(serial)
}

impl SentPage {
    /// The number of its identifier and serial number.
    pub fn name_number(&self) -> u32
        ensures { result ≡ name_number self.now.page.id self.now.page.serial }
    {
        name_number(self.page.id, self.page.serial.number())
    }
}

/// The pages in a tape's blocks, in order, whatever their data codings and numbers.
pub fn sent_pages(alloc: Global, blocks: &[[u8; 23]]) -> Result<Vec<SentPage>, AllocError>
    ensures pages { IfOk result (λ sent. sent.items ≡ sent_in blocks.now) }
    ensures rising { IfOk result (λ sent. AllPairs (λ a b. a.slot ≤ b.slot) sent.items) }
    // Slots are far from the greatest number, so that they may be added to.
    ensures few { IfOk result (λ sent. All (λ s. s.slot < 2 ^ 62) sent.items) }
{
    let mut sent = Vec::new(alloc);
    for place in 0..blocks.len() {
        if let Some(page) = page_in_front(&blocks[place..]) {
            sent.push(SentPage {
                slot: place / BLOCKS,
                page,
            })?;
        }
    }
    Ok(sent)
}

/// Puts pages by identifier and serial number, so that those of one message stand together, in the order in which they
/// were sent.
///
/// # Errors
///
/// Out of memory.
pub fn sort_by_name(sent: &mut Vec<SentPage>) -> Result<(), AllocError>
    requires { AllPairs (λ a b. a.slot ≤ b.slot) sent.old.items }
    ensures same { OnOk result ((a : AskedMessage) → judged_in a sent.new.items ≡ judged_in a sent.old.items) }
    ensures stand { OnOk result (AreByName sent.new.items) }
{
    sent.sort_by_key(|page| page.name_number())?;
    Ok(())
}
