//! A page: its 88 octets, its blocks, and the text that a phone shows of it.

ghost use Rattle.std.specs.Prelude.{◌≡◌, ◌≢◌};
ghost use Rattle.cbch_blocks.specs.Blocks.{blocks_of_page};
ghost use Rattle.warnc_c.specs.Calls.{IsPage, IsPageText};

use crate::output::put;
use crate::status;
use cbch_blocks::cut;
use cbs_page::{Dcs, MAX_PAGES, Serial, page_bytes, page_text, read_page};
use std::alloc::Global;

/// The 88 octets of a page (3GPP TS 23.041, clause 9.4.1).
///
/// The answer is [`status::OK`], or [`status::NUMBER`] unless `1 <= number <= total <= 15`.
#[unsafe(no_mangle)]
pub extern "C" fn warnc_page(
    id: u16,
    serial: u16,
    coding: u8,
    number: u8,
    total: u8,
    content: &[u8; 82],
    page: &mut [u8; 88],
) -> u32
    ensures answer { IsPage id serial coding number total content.now result page.new }
    ensures stays { result ≢ 0 → page.new ≡ page.old }
{
    if number < 1 || number > total || usize::from(total) > MAX_PAGES {
        return status::NUMBER;
    }
    *page = page_bytes(id, Serial::of(serial), Dcs(coding), number, total, content);
    status::OK
}

/// The four blocks that carry a page, in the order in which they are sent (3GPP TS 44.012).
#[unsafe(no_mangle)]
pub extern "C" fn warnc_cut(page: &[u8; 88], blocks: &mut [[u8; 23]; 4])
    ensures { blocks.new ≡ blocks_of_page page.now }
{
    *blocks = cut(page);
}

/// The text that a phone shows of a page, in UTF-8 (3GPP TS 23.038, clauses 6.1.2.2 and 6.2): at most 279 octets.
///
/// The answer is [`status::OK`], with the text at the front of the room and `written` octets of it;
/// [`status::ROOM`] if the room is smaller than the text, which has `written` octets; [`status::UNREADABLE`];
/// [`status::MEMORY`].
#[unsafe(no_mangle)]
pub extern "C" fn warnc_page_text(
    alloc: Global,
    page: &[u8; 88],
    room: &mut [u8],
    written: &mut usize,
) -> u32
    ensures answer { IsPageText page.now result room.old room.new written.new }
    ensures room_stays { result ≢ 0 → room.new ≡ room.old }
    ensures written_stays { result ≢ 0 → result ≢ 9 → written.new ≡ written.old }
{
    let view = read_page(page);
    if !view.readable() {
        return status::UNREADABLE;
    }
    match page_text(alloc, &view) {
        Ok(text) => put(text.as_bytes(), room, written),
        Err(_) => status::MEMORY,
    }
}
