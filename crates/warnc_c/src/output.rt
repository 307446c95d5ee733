//! Octets into the room that C has for them.

ghost use Rattle.std.specs.Prelude.{◌≡◌, length};
ghost use Rattle.warnc_c.specs.Calls.{Puts};

use crate::status;

/// Puts octets at the front of a room that has as many, and tells in each case how many there are.
pub fn put(octets: &[u8], room: &mut [u8], written: &mut usize) -> u32
    ensures written { written.new ≡ length octets.now }
    ensures put { Puts octets.now result room.old room.new }
{
    *written = octets.len();
    if octets.len() > room.len() {
        return status::ROOM;
    }
    room[..octets.len()].copy_from_slice(octets);
    status::OK
}
