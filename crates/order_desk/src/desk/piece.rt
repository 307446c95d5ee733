//! What a cell aired in some slots that follow each other.

ghost use Rattle.std.specs.Prelude.{◌≡◌, ◌≤◌, [], Some, vec_capacity};
ghost use Rattle.bsc_table.specs.Book.{aired_pair};
ghost use Rattle.order_desk.specs.Pieces.{octets_aired, write_page_octets, piece_pages};

use bsc_table::{Aired, CellBook, Command, Entry};
use cbs_page::{MAX_PAGES, page_bytes};
use cbsp_wire::Cell;

/// How many slots a piece has at most (own).
pub const PIECE_SLOTS: u16 = 64;

/// What a cell aired in some slots that follow each other.
#[derive(Debug, Drop)]
pub struct Piece {
    /// The cell.
    pub cell: Cell,
    /// The first of the slots.
    pub from: u16,
    /// The octets of the page that each slot aired; None for an idle slot.
    pub pages: Vec<Option<[u8; 88]>>,
}

/// The octets of a page of a command (3GPP TS 23.041, 9.4.1); None if it has no such page.
fn page_of(command: &Command, page: u8) -> Option<[u8; 88]>
    ensures { result ≡ write_page_octets page command.now }
{
    match command {
        Command::Write {
            id,
            serial,
            dcs,
            contents,
            ..
        } => {
            let contents = contents.as_slice();
            let total = contents.len();
            if page == 0 || page as usize > total || total > MAX_PAGES {
                return None;
            }
            let content = &contents[page as usize - 1];
            Some(page_bytes(*id, *serial, *dcs, page, total as u8, &content.octets))
        }
        Command::Kill { .. } | Command::Status { .. } => None,
    }
}

/// The octets of the page that a slot aired, by the cell's log.
fn aired_page(log: &[Entry], aired: Aired) -> Option<[u8; 88]>
    ensures { result ≡ octets_aired log.now (aired_pair (Some aired)) }
{
    let entry = log.get(aired.entry as usize)?;
    page_of(&entry.command, aired.page)
}

/// Puts in what a lent book aired in at most `k` slots from `from` on, of those that were played.
pub(crate) fn put_pages(book: &CellBook, pages: &mut Vec<Option<[u8; 88]>>, from: u16, k: u16)
    requires empty { pages.old.items ≡ [] }
    requires room { k ≤ vec_capacity pages.old }
    ensures { pages.new.items ≡ piece_pages from k book.now }
{
    let log = book.log();
    let air = book.air();
    let rest = &air[(from as usize).min(air.len())..];
    for used in &rest[..(k as usize).min(rest.len())] {
        match used {
            // most slots are idle, and what isn't there needn't be moved
            None => pages.push_reserved(None),
            Some(aired) => pages.push_reserved(aired_page(log, *aired)),
        }
    }
}
