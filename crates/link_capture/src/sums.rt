//! The checksums of the internet (RFC 1071).

ghost use Rattle.std.specs.Prelude.{◌≡◌, ◌≤◌, ◌<◌, ◌*◌, ◌%◌, sum};
ghost use Rattle.link_capture.specs.Segment.{complement, octet_sum, weight};

/// The sum of a header's words.
#[tactic(auto)]
pub(crate) fn sum_of(words: &[u16; 10]) -> u32
    ensures sum { result ≡ sum words.now }
    ensures bound { result ≤ 655350 }
{
    let mut sum = 0;
    for word in words {
        sum += u32::from(*word);
    }
    sum
}

/// What an octet at a place of a word counts.
fn weight(place: usize) -> u32
    ensures value { result ≡ weight place }
    ensures bound { result ≤ 256 }
{
    if place % 2 == 0 { 256 } else { 1 }
}

/// The sum of the words of octets, as it is left by a division by 65,535.
pub(crate) fn octet_sum(octets: &[u8]) -> u32
    ensures sum { result ≡ octet_sum 0 octets.now % 65535 }
    ensures bound { result < 65535 }
{
    let mut sum = 0;
    for (place, octet) in octets.iter().enumerate() {
        sum = (sum + weight(place) * u32::from(*octet)) % 65_535;
    }
    sum
}

/// The checksum where the words have this sum.
pub(crate) fn complement(sum: u32) -> u16
    ensures { result ≡ complement sum }
{
    ((65_535 - sum % 65_535) % 65_535) as u16
}
