//! The packing of 7-bit characters into the 82 octets of a cell broadcast page.
//!
//! Bit `i` of the octets is bit `i mod 7` of septet `i div 7` (3GPP TS 23.038, 6.1.2.2): [`pack`]
//! fills a page with carriage return and writes its octets, [`unpack`] reads the 93 septets of any
//! octets, and [`packing_laws`] says that the two are inverse to each other. Nothing here allocates.
#![tactic(auto)]

ghost use Rattle.std.specs.Prelude.{◌≡◌, ℕ, ◌+◌, ◌*◌, ◌/◌, ◌%◌, ◌^◌, ◌<◌, ◌≤◌, ◌++◌, All, drop, length};
ghost use Rattle.std.specs.Prelude.{slice_index_or};
ghost use Rattle.septets.specs.Packing.{filled, septet_at, unpacked, IsPacked, IsUnpacked};

mod laws;

use arrayvec::ArrayVec;
pub use laws::packing_laws;

/// How many septets a page has (TS 23.038, 6.1.2.2).
pub const SEPTETS: usize = 93;

/// How many octets a page's content has (TS 23.041, 9.4.1).
pub const OCTETS: usize = 82;

/// Carriage return, which fills a page after its text (TS 23.038, 6.1.2.2).
pub const CR: u8 = 0x0D;

/// Packs the septets of a page, each below 128, and fills it with [`CR`] up to 93 septets.
pub fn pack(septets: &ArrayVec<u8, 93>) -> [u8; 82]
    requires { All (λ septet. septet < 128) septets.now.items }
    ensures { IsPacked septets.now.items result }
{
    let page = filled_page(septets.as_slice());
    let mut octets = [0; OCTETS];
    for group in 0..GROUPS {
        for step in 0..7 {
            octets[7 * group + step] = joined(
                page[8 * group + step],
                page[8 * group + step + 1],
                step,
            );
        }
    }
    for step in 0..4 {
        octets[7 * GROUPS + step] = joined(
            page[8 * GROUPS + step],
            page[8 * GROUPS + step + 1],
            step,
        );
    }
    octets[OCTETS - 1] = joined(page[SEPTETS - 1], 0, 4);
    octets
}

/// The 93 septets that a page's octets carry, whatever their five spare bits are.
pub fn unpack(octets: &[u8; 82]) -> [u8; 93]
    ensures bits { IsUnpacked octets.now result }
    ensures value { result ≡ unpacked octets.now }
{
    let mut septets = [0; SEPTETS];
    for group in 0..GROUPS {
        septets[8 * group..8 * group + 8].copy_from_slice(&unpacked_group(octets, group));
    }
    for place in 8 * GROUPS..SEPTETS {
        septets[place] = unpacked_septet(octets, place);
    }
    septets
}

/// How many groups of eight septets a page has, each in seven octets; five septets follow.
const GROUPS: usize = 11;

/// The septets, and carriage return up to 93 of them.
fn filled_page(septets: &[u8]) -> [u8; 93]
    requires { length septets.now ≤ 93 }
    ensures { result ≡ filled septets.now }
{
    let mut page = [CR; SEPTETS];
    put_first(&mut page, septets);
    page
}

/// Writes these septets over the first ones of a page.
fn put_first(page: &mut [u8], septets: &[u8])
    requires { length septets.now ≤ length page.old }
    ensures { page.new ≡ septets.now ++ drop (length septets.now) page.old }
{
    page[..septets.len()].copy_from_slice(septets);
}

/// The octet of two septets side by side without their lowest bits, as many as it is octets after its group's first.
fn joined(low: u8, high: u8, step: usize) -> u8
    requires low_of_seven { low < 128 }
    requires high_of_seven { high < 128 }
    requires in_group { step < 7 }
    ensures { result ≡ (high * 128 + low) / 2 ^ step % 256 }
{
    let pair = u16::from(low) | u16::from(high) << 7;
    (pair >> step & 0xFF) as u8
}

/// The eight septets of a group. Its seven octets are taken as one number, with the octet after them, which a page
/// always has.
fn unpacked_group(octets: &[u8; 82], group: usize) -> [u8; 8]
    requires { group < 11 }
    ensures { (place : ℕ) → place < 8 → slice_index_or result place 0 ≡ septet_at octets.now (8 * group + place) }
{
    let mut own = [0; 8];
    own.copy_from_slice(&octets[7 * group..7 * group + 8]);
    spread(u64::from_le_bytes(own)).to_le_bytes()
}

/// The eight septets of a number's lowest 56 bits, each in an octet of its own: the upper half of them is moved up
/// first, then the upper half of each half, then of each quarter.
fn spread(septets: u64) -> u64
    ensures { (place : ℕ) → place < 8 → result / 2 ^ (8 * place) % 2 ^ 8 ≡ septets / 2 ^ (7 * place) % 2 ^ 7 }
{
    let halves = septets & 0x0000_0000_0FFF_FFFF | (septets & 0x00FF_FFFF_F000_0000) << 4;
    let quarters = halves & 0x0000_3FFF_0000_3FFF | (halves & 0x0FFF_C000_0FFF_C000) << 2;
    quarters & 0x007F_007F_007F_007F | (quarters & 0x3F80_3F80_3F80_3F80) << 1
}

/// The septet at a place of the page: of two octets, seven bits.
fn unpacked_septet(octets: &[u8; 82], place: usize) -> u8
    requires { place < 93 }
    ensures { result ≡ septet_at octets.now place }
{
    let first = 7 * place / 8;
    let pair = u16::from(octets[first]) | u16::from(octets[first + 1]) << 8;
    (pair >> (7 * place % 8) & 0x7F) as u8
}
