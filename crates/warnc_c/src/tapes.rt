//! Tapes to the table of what phones show of them.

ghost use Rattle.std.specs.Prelude.{◌≡◌, ◌≢◌, IfErr, IfOk};
ghost use Rattle.warnc_inspect.specs.ReadOutput.{IsReadOutput};
ghost use Rattle.warnc_c.specs.Calls.{IsTable, IsTableFault, number_of_table_fault, wanted_pages};

use crate::output::put;
use crate::status;
use device_ends::Source;
use handset::TapeFault;
use short_pages::Pages;
use std::alloc::Global;
use warnc_inspect::read::table_of_tapes;

/// Reads 0 to 64 tapes, and puts the table that `warnc read` writes of them, as CSV: `lac,ci,id,serial,text`, and a row
/// for each message that a phone in the cell shows. With short pages those of one to three blocks are read, too (3GPP
/// TS 44.012, 3.3).
///
/// The answer is [`status::OK`], with the table at the front of the room and `written` octets of it;
/// [`status::ROOM`] if the room is smaller than the table, which has `written` octets; [`status::SHORT`];
/// [`status::LONG`]; [`status::MEMORY`].
#[unsafe(no_mangle)]
pub extern "C" fn warnc_read(
    alloc: Global,
    tapes: &[u8],
    short_pages: bool,
    room: &mut [u8],
    written: &mut usize,
) -> u32
    ensures answer { IsTable (wanted_pages short_pages) tapes.now result room.old room.new written.new }
    ensures room_stays { result ≢ 0 → room.new ≡ room.old }
    ensures written_stays { result ≢ 0 → result ≢ 9 → written.new ≡ written.old }
{
    match table_of(alloc, tapes, wanted_pages(short_pages)) {
        Ok(table) => put(&table, room, written),
        Err(fault) => number_of(fault),
    }
}

/// The table of what tapes show.
fn table_of(alloc: Global, tapes: &[u8], wanted: Pages) -> Result<Vec<u8>, TapeFault>
    ensures ok { IfOk result (λ table. IsReadOutput wanted tapes.now table.items) }
    ensures err { IfErr result (IsTableFault tapes.now) }
{
    let table = match table_of_tapes(alloc, &mut Source::new(tapes), wanted) {
        Ok(table) => table,
        Err(fault) => return Err(fault),
    };
    match table.into_octets() {
        Ok(octets) => Ok(octets),
        Err(_) => Err(TapeFault::Refused),
    }
}

/// The pages that are read.
pub fn wanted_pages(short_pages: bool) -> Pages
    ensures { result ≡ wanted_pages short_pages }
{
    if short_pages {
        Pages::OfAny
    } else {
        Pages::OfFour
    }
}

/// The number of a fault. Octets in memory can be read, so memory alone can be lacking.
pub fn number_of(fault: TapeFault) -> u32
    ensures { result ≡ number_of_table_fault fault }
{
    match fault {
        TapeFault::Short => status::SHORT,
        TapeFault::Long => status::LONG,
        TapeFault::ReadFailed => status::MEMORY,
        TapeFault::Refused => status::MEMORY,
    }
}
