//! What the blocks of one sender in a capture file carry.

ghost use Rattle.std.specs.Prelude.{◌≡◌, OnOk};
ghost use Rattle.gsmtap.specs.Carried.{wanted_of};
ghost use Rattle.gsmtap.specs.CarriedSteps.{gathered_with};

use crate::tap::Station;
use crate::tape::{Sender, Wanted};
use cbsp_wire::Cell;
use std::alloc::AllocError;

/// What the blocks of one sender carry.
#[derive(Drop, Debug)]
pub struct Carried {
    /// How many slots there are from the first block's to the last one's, at most 65,535.
    pub slots: usize,
    /// How many pages they have, of four blocks each.
    pub pages: usize,
    /// The message identifiers of these pages, each once, in the order in which they come first.
    pub identifiers: Vec<u16>,
}

/// The tape of a sender's blocks alone, whatever cell it names.
pub(crate) fn wanted_of(station: Station) -> Wanted
    ensures { result ≡ wanted_of station }
{
    Wanted {
        cell: Cell { lac: 0, ci: 0 },
        slots: None,
        first_slot: 0,
        from: Sender {
            address: Some(station.address),
            arfcn: Some(station.arfcn),
            channel: station.channel,
        },
    }
}

/// Notes a number that isn't there yet.
pub(crate) fn note(numbers: &mut Vec<u16>, one: u16) -> Result<(), AllocError>
    ensures { OnOk result (numbers.new.items ≡ gathered_with numbers.old.items one) }
{
    if !numbers.contains(&one) {
        numbers.push(one)?;
    }
    Ok(())
}
