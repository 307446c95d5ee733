//! Tables of a message's pages, as CSV: what the octets of each page are, and the text that it shows.

ghost use Rattle.std.specs.Prelude.{◌≡◌, ◌≤◌, ◌++◌, ℕ, List, length, string_bytes, IfOk, IsSome, IsTrue, OnOk};
ghost use Rattle.std.specs.Prelude.{encode_utf8_all};
ghost use Rattle.cbs_page.specs.Coding.{alphabet_of};
ghost use Rattle.cbs_page.specs.Page.{is_readable, view_of};
ghost use Rattle.cbs_page.specs.Text.{max_pages, text_of_page};
ghost use Rattle.warnc_inspect.specs.PageOutput.{content_row, page_columns, page_row, table_of_pages};
ghost use Rattle.warnc_inspect.specs.ReadSteps.{IsTable};

use crate::table::Table;
use cbch_blocks::cut;
use cbs_page::{Content, Dcs, Paged, Serial, page_bytes, page_text, read_page};
use itoa::Buffer;
use std::alloc::{AllocError, Global};

/// The table of a message's pages.
///
/// # Errors
///
/// Out of memory.
pub(crate) fn table_of_pages(
    alloc: Global,
    id: u16,
    serial: Serial,
    paged: &Paged,
) -> Result<Vec<u8>, AllocError>
    requires few { length paged.now.pages.items ≤ max_pages }
    requires known { IsSome (alphabet_of paged.now.dcs.0) }
    ensures { IfOk result (λ octets. octets.items ≡ table_of_pages id serial paged.now) }
{
    let total = paged.pages.len() as u8;
    let mut table = page_columns(alloc)?;
    for (place, content) in paged.pages.iter().enumerate() {
        let number = place as u8 + 1;
        push_content(
            alloc, &mut table, id, serial, paged.dcs, number, total, content,
        )?;
    }
    table.into_octets()
}

/// A table of no pages.
fn page_columns(alloc: Global) -> Result<Table, AllocError>
    ensures { IfOk result (λ table. IsTable table page_columns) }
{
    let mut table = Table::empty(alloc)?;
    table.push_row(&[
        b"page",
        b"pages",
        b"serial",
        b"identifier",
        b"coding",
        b"used",
        b"block_1",
        b"block_2",
        b"block_3",
        b"block_4",
        b"text",
    ])?;
    Ok(table)
}

/// Appends the row of page `number` of `total`, with this content.
fn push_content(
    alloc: Global,
    table: &mut Table,
    id: u16,
    serial: Serial,
    dcs: Dcs,
    number: u8,
    total: u8,
    content: &Content,
) -> Result<(), AllocError>
    requires first { 1 ≤ number }
    requires within { number ≤ total }
    requires few { total ≤ max_pages }
    requires known { IsSome (alphabet_of dcs.0) }
    ensures { OnOk result ((octets : List ℕ) → IsTable table.old octets →
        IsTable table.new (octets ++ content_row id serial dcs.0 total number content.now)) }
{
    let page = page_bytes(id, serial, dcs, number, total, &content.octets);
    push_page(alloc, table, number, total, content.used, &page)
}

/// Appends the row of a page.
fn push_page(
    alloc: Global,
    table: &mut Table,
    number: u8,
    total: u8,
    used: u8,
    page: &[u8; 88],
) -> Result<(), AllocError>
    requires { IsTrue (is_readable (view_of page.now)) }
    ensures { OnOk result ((octets : List ℕ) → IsTable table.old octets →
        IsTable table.new (octets ++ page_row number total used page.now)) }
{
    let text = text_shown(alloc, page)?;
    let serial = hex::encode(alloc, &page[..2])?;
    let identifier = hex::encode(alloc, &page[2..4])?;
    let coding = hex::encode(alloc, &page[4..5])?;
    let [first, second, third, fourth] = cut(page);
    let first = hex::encode(alloc, first.as_slice())?;
    let second = hex::encode(alloc, second.as_slice())?;
    let third = hex::encode(alloc, third.as_slice())?;
    let fourth = hex::encode(alloc, fourth.as_slice())?;
    let (mut numbers, mut totals, mut uses) = (Buffer::new(), Buffer::new(), Buffer::new());
    table.push_row(&[
        numbers.format(number).as_bytes(),
        totals.format(total).as_bytes(),
        serial.as_bytes(),
        identifier.as_bytes(),
        coding.as_bytes(),
        uses.format(used).as_bytes(),
        first.as_bytes(),
        second.as_bytes(),
        third.as_bytes(),
        fourth.as_bytes(),
        text.as_bytes(),
    ])
}

/// The text that a phone shows of a page alone.
fn text_shown(alloc: Global, page: &[u8; 88]) -> Result<String, AllocError>
    requires { IsTrue (is_readable (view_of page.now)) }
    ensures { IfOk result (λ text. string_bytes text ≡ encode_utf8_all (text_of_page (view_of page.now))) }
{
    page_text(alloc, &read_page(page))
}
