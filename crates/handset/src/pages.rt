//! The pages that count, by the message that they are of.

ghost use Rattle.std.specs.Prelude.{◌≡◌, ◌++◌, ◌∷◌, [], All, IfOk, IsTrue, OnErr, OnOk};
ghost use Rattle.cbs_page.specs.Page.{is_readable};
ghost use Rattle.handset.specs.Keeping.{kept_of};
ghost use Rattle.handset.specs.KeepingSteps.{KeepsPage, pages_in};
ghost use Rattle.handset.specs.Reception.{name_of};

use crate::messages::Refused;
use cbs_page::PageView;
use std::alloc::Global;
use std::collections::HashMap;
use std::marker::Model;
use std::slice;

/// The pages of a message that count, in the order in which they came. The first lies here itself: many messages have
/// no other, and to take memory for it would cost more than all else of keeping it.
#[derive(Drop)]
enum Kept {
    One(PageView),
    More(Vec<PageView>),
}

impl Kept {
    /// The pages.
    fn as_slice(&self) -> &[PageView]
        ensures { result.now ≡ pages_in self.now }
    {
        match self {
            Kept::One(page) => slice::from_ref(page),
            Kept::More(pages) => pages.as_slice(),
        }
    }

    /// Keeps a page after the others.
    ///
    /// # Errors
    ///
    /// `Refused` if out of memory; nothing has changed then.
    fn push(&mut self, alloc: Global, page: &PageView) -> Result<(), Refused>
        ensures pages { OnOk result (pages_in self.new ≡ pages_in self.old ++ page.now ∷ []) }
        ensures refused { OnErr result (pages_in self.new ≡ pages_in self.old) }
    {
        match self {
            Kept::One(first) => {
                let pages = two_pages(alloc, first, page)?;
                *self = Kept::More(pages);
            }
            Kept::More(pages) => pages.push(*page)?,
        }
        Ok(())
    }
}

/// The first two pages of a message, with room for the others: most messages come whole, so their pages move no more.
fn two_pages(alloc: Global, first: &PageView, second: &PageView) -> Result<Vec<PageView>, Refused>
    ensures { IfOk result (λ pages. pages.items ≡ first.now ∷ second.now ∷ []) }
{
    let mut pages = Vec::with_capacity(alloc, usize::from(first.total))?;
    pages.push(*first)?;
    pages.push(*second)?;
    Ok(pages)
}

/// The pages of each message that count. Those of one message are found by its identifier and its serial number,
/// however many messages there are.
#[derive(Drop)]
pub struct Pages {
    alloc: Global,
    by_name: HashMap<(u16, u16), Kept>,
}

impl Model for Pages {
    ghost use Rattle.std.specs.Prelude.{All, IsTrue, List, map};
    ghost use Rattle.cbs_page.specs.declared.octets.PageView.{PageView};
    ghost use Rattle.cbs_page.specs.Page.{is_readable};
    ghost use Rattle.handset.specs.Keeping.{kept_of};
    ghost use Rattle.handset.specs.KeepingSteps.{name_at, pages_in};
    ghost use Rattle.handset.specs.Reception.{Name};

    ghost Value = { List (Name × List PageView) };

    ghost view = { λ p. map (λ entry. (name_at entry.0, pages_in entry.1)) p.by_name.entries };

    ghost invariant = { λ p. (name : Name) → All (λ page. IsTrue (is_readable page))
        (kept_of (map (λ entry. (name_at entry.0, pages_in entry.1)) p.by_name.entries) name) };
}

impl Pages {
    /// No pages. It takes no memory.
    pub fn new(alloc: Global) -> Pages
        ensures { result ≡ [] }
    {
        Pages {
            alloc,
            by_name: HashMap::new(alloc),
        }
    }

    /// The pages of the message that a page is of.
    pub fn of_message(&self, page: &PageView) -> &[PageView]
        ensures pages { result.now ≡ kept_of self.now (name_of page.now) }
        ensures readable { All (λ p. IsTrue (is_readable p)) result.now }
    {
        match self.by_name.get(&(page.id, page.serial.number())) {
            Some(kept) => kept.as_slice(),
            None => &[],
        }
    }

    /// Keeps a page after those of its message, of which `is_first` says that there are none: then they needn't be
    /// looked for.
    ///
    /// # Errors
    ///
    /// `Refused` if out of memory; nothing has changed then.
    pub fn push(&mut self, page: &PageView, is_first: bool) -> Result<(), Refused>
        requires readable { IsTrue (is_readable page.now) }
        requires first { IsTrue is_first → kept_of self.old (name_of page.now) ≡ [] }
        ensures pages { OnOk result (KeepsPage self.old self.new page.now) }
        ensures refused { OnErr result (self.new ≡ self.old) }
    {
        if is_first {
            self.push_first(page)
        } else {
            self.push_more(page)
        }
    }

    /// Keeps the first page of a message.
    fn push_first(&mut self, page: &PageView) -> Result<(), Refused>
        requires readable { IsTrue (is_readable page.now) }
        requires first { kept_of self.old (name_of page.now) ≡ [] }
        ensures pages { OnOk result (KeepsPage self.old self.new page.now) }
        ensures refused { OnErr result (self.new ≡ self.old) }
    {
        let name = (page.id, page.serial.number());
        self.by_name.insert(name, Kept::One(*page))?;
        Ok(())
    }

    /// Keeps a page after those of its message, if there are any.
    fn push_more(&mut self, page: &PageView) -> Result<(), Refused>
        requires { IsTrue (is_readable page.now) }
        ensures pages { OnOk result (KeepsPage self.old self.new page.now) }
        ensures refused { OnErr result (self.new ≡ self.old) }
    {
        let alloc = self.alloc;
        match self.by_name.get_mut(&(page.id, page.serial.number())) {
            Some(kept) => {
                kept.push(alloc, page)?;
                Ok(())
            }
            None => self.push_first(page),
        }
    }
}
