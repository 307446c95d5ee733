//! The options of a block of pcapng, and what they say of an interface's clock.

ghost use Rattle.std.specs.Prelude.{◌≡◌, ◌≤◌, length, option_copied};
ghost use Rattle.gsmtap.specs.Blocks.{is_option, option_in, tick_by, tick_in, tick_of};

use crate::file::{OctetOrder, half_in};

/// The code of the resolution of an interface's clock.
const RESOLUTION: u16 = 9;

/// The code of the time from which it counts.
const OFFSET: u16 = 14;

/// Whether octets begin with an option that isn't the end of the options.
fn is_option(order: OctetOrder, octets: &[u8]) -> bool
    ensures { result ≡ is_option order octets.now }
{
    octets.len() >= 4
        && half_in(order, octets) != 0
        && usize::from(half_in(order, &octets[2..])) <= octets.len() - 4
}

/// The value of the first option of a code.
fn option_in(order: OctetOrder, code: u16, octets: &[u8]) -> Option<&[u8]>
    ensures { option_copied result ≡ option_in order code octets.now }
{
    let mut left = octets;
    'options: while is_option(order, left) {
        let length = usize::from(half_in(order, &left[2..]));
        if half_in(order, left) == code {
            return Some(&left[4..4 + length]);
        }
        let end = 4 + length.div_ceil(4) * 4;
        left = &left[end.min(left.len())..];
    }
    None
}

/// How many nanoseconds a tick lasts of which a second has a power of ten.
fn tick_of(resolution: &[u8]) -> Option<u32>
    ensures { result ≡ tick_of resolution.now }
{
    match resolution {
        [0] => Some(1_000_000_000),
        [1] => Some(100_000_000),
        [2] => Some(10_000_000),
        [3] => Some(1_000_000),
        [4] => Some(100_000),
        [5] => Some(10_000),
        [6] => Some(1000),
        [7] => Some(100),
        [8] => Some(10),
        [9] => Some(1),
        _ => None,
    }
}

/// How many nanoseconds a tick of an interface's clock lasts, by the options of its description; none if that isn't
/// known.
pub fn tick_in(order: OctetOrder, options: &[u8]) -> Option<u32>
    ensures { result ≡ tick_in order options.now }
{
    if option_in(order, OFFSET, options).is_some() {
        return None;
    }
    match option_in(order, RESOLUTION, options) {
        Some(resolution) => tick_of(resolution),
        None => Some(1000),
    }
}
