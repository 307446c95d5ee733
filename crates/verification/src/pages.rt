//! The differences that the pages of a message show.

ghost use Rattle.std.specs.Prelude.{◌≡◌, ◌++◌, OnOk};
ghost use Rattle.verification.specs.Difference.{difference_of, differs, first_difference, first_slot};
ghost use Rattle.verification.specs.Difference.{page_differences};
ghost use Rattle.verification.specs.Kept.{asked_kept};

use crate::asked::Asked;
use crate::difference::{Difference, Kind};
use crate::judged::JudgedPage;
use cbs_page::Serial;
use std::alloc::AllocError;

/// The most pages of a message.
const MAX_PAGES: u8 = cbs_page::MAX_PAGES as u8;

impl<'a> Asked<'a> {
    /// A difference of the message at a slot.
    pub fn difference(&self, kind: Kind, slot: usize) -> Difference
        ensures { result ≡ difference_of (asked_kept self.now) kind slot }
    {
        Difference {
            slot,
            id: self.id,
            serial: Serial::of(self.serial),
            kind,
        }
    }

    /// Whether a page of the message is such a page as a kind of difference tells of.
    fn differs(&self, kind: Kind, page: &JudgedPage) -> bool
        ensures { result ≡ differs (asked_kept self.now) kind page.now }
    {
        match kind {
            Kind::Otherwise { page: number } => page.number == number && !page.right,
            Kind::BeforeStart => page.slot < self.start as usize,
            Kind::AfterStop => self.is_stopped(page.slot),
            Kind::AfterLast => self.is_over(page.slot) && !self.is_stopped(page.slot),
            Kind::NotWhole { .. } => false,
            Kind::NotOrdered => false,
            Kind::Again { .. } => false,
        }
    }

    /// The slot of the first of the message's pages of which a kind of difference tells.
    fn first_slot(&self, pages: &[JudgedPage], kind: Kind) -> Option<usize>
        ensures { result ≡ first_slot (asked_kept self.now) pages.now kind }
    {
        for page in pages {
            if self.differs(kind, page) {
                return Some(page.slot);
            }
        }
        None
    }
}

/// Appends a difference of this kind, at the first such page of a message, if there is one.
///
/// # Errors
///
/// Out of memory.
pub fn push_first(
    found: &mut Vec<Difference>,
    asked: &Asked,
    pages: &[JudgedPage],
    kind: Kind,
) -> Result<(), AllocError>
    ensures { OnOk result (found.new.items
        ≡ found.old.items ++ first_difference (asked_kept asked.now) pages.now kind) }
{
    if let Some(slot) = asked.first_slot(pages, kind) {
        found.push(asked.difference(kind, slot))?;
    }
    Ok(())
}

/// Appends the differences that the pages of a message show.
///
/// # Errors
///
/// Out of memory.
pub fn push_page_differences(
    found: &mut Vec<Difference>,
    asked: &Asked,
    pages: &[JudgedPage],
) -> Result<(), AllocError>
    ensures { OnOk result (found.new.items ≡ found.old.items ++ page_differences (asked_kept asked.now) pages.now) }
{
    for place in 0..MAX_PAGES {
        push_first(found, asked, pages, Kind::Otherwise { page: place + 1 })?;
    }
    push_first(found, asked, pages, Kind::BeforeStart)?;
    push_first(found, asked, pages, Kind::AfterStop)?;
    push_first(found, asked, pages, Kind::AfterLast)
}
