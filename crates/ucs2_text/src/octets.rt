//! The units of a page as octets and back, two octets each, the high one first.

ghost use Rattle.std.specs.Prelude.{◌≡◌, ◌+◌, ◌*◌, ◌<◌, ◌≤◌, ◌++◌, drop, length, slice_index};
ghost use Rattle.std.specs.List.{flat_map};
ghost use Rattle.ucs2_text.specs.Ucs2.{octets_of_unit, octets_of_units, page_units, units_of_octets};

use arrayvec::ArrayVec;

/// What fills a short page: a carriage return.
const FILL: u16 = 0x000D;

/// The 82 octets of a page of these units: two octets each, the high one first, filled with 000D.
pub fn put_units(units: &ArrayVec<u16, 41>) -> [u8; 82]
    ensures { result ≡ octets_of_units units.now.items }
{
    octets_of(&filled_page(units.as_slice()))
}

/// The 41 units of the octets of a page, two octets each, the high one first. Those of the fill are among them.
pub fn units_of(octets: &[u8; 82]) -> [u16; 41]
    ensures { result ≡ units_of_octets octets.now }
{
    let mut units = [0; 41];
    read_units(&mut units, octets);
    units
}

/// The units, and carriage return up to 41 of them.
fn filled_page(units: &[u16]) -> [u16; 41]
    requires { length units.now ≤ 41 }
    ensures { result ≡ page_units units.now }
{
    let mut page = [FILL; 41];
    put_first(&mut page, units);
    page
}

/// Writes these units over the first ones of a page.
fn put_first(page: &mut [u16], units: &[u16])
    requires { length units.now ≤ length page.old }
    ensures { page.new ≡ units.now ++ drop (length units.now) page.old }
{
    page[..units.len()].copy_from_slice(units);
}

/// The octets of units, two each, the high one first.
fn octets_of(units: &[u16; 41]) -> [u8; 82]
    ensures { result ≡ flat_map octets_of_unit units.now }
{
    let mut octets = [0; 82];
    for place in 0..41 {
        octets[2 * place] = (units[place] / 256) as u8;
        octets[2 * place + 1] = (units[place] % 256) as u8;
    }
    octets
}

/// Reads the units of a page.
fn read_units(units: &mut [u16], octets: &[u8])
    requires whole_page { length units.old ≡ 41 }
    requires whole_octets { length octets.now ≡ 82 }
    ensures { units.new ≡ units_of_octets octets.now }
{
    for (place, unit) in units.iter_mut().enumerate() {
        *unit = unit_at(octets, place);
    }
}

/// The unit at a place of the page: the octets at twice that place.
fn unit_at(octets: &[u8], place: usize) -> u16
    requires { 2 * place + 1 < length octets.now }
    ensures { result ≡ slice_index (units_of_octets octets.now) place }
{
    256 * u16::from(octets[2 * place]) + u16::from(octets[2 * place + 1])
}
