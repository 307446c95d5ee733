//! Octets as the tables write them: words of hexadecimal digits, and names of worked octets. `2B*22` is 22 times 2B.

use std::alloc::Global;
use std::test::Fail;
use test_support::{Words, octets_of};

/// The page with serial number 0010, identifier 4370, data coding 01, the only one of its message, and the text "@".
const PAGE: &str =
    "0010111201118046A3D168341A8D46A3D168341A8D46A3D168341A8D46A3D168341A8D46A3D168341A8D46A3D1\
    68341A8D46A3D168341A8D46A3D168341A8D46A3D168341A8D46A3D168341A8D46A3D168341A8D46A3D100";

/// Its four blocks, in the order in which they are sent (3GPP TS 44.012).
const BLOCKS: &str = "200010111201118046A3D168341A8D46A3D168341A8D46\
    21A3D168341A8D46A3D168341A8D46A3D168341A8D46A3\
    22D168341A8D46A3D168341A8D46A3D168341A8D46A3D1\
    3368341A8D46A3D168341A8D46A3D168341A8D46A3D100";

/// Those of the same page, but with serial number 0110.
const OTHER_BLOCKS: &str = "200110111201118046A3D168341A8D46A3D168341A8D46\
    21A3D168341A8D46A3D168341A8D46A3D168341A8D46A3\
    22D168341A8D46A3D168341A8D46A3D168341A8D46A3D1\
    3368341A8D46A3D168341A8D46A3D168341A8D46A3D100";

/// The four blocks of an idle slot.
const IDLE: &str = "2F2B2B2B2B2B2B2B2B2B2B2B2B2B2B2B2B2B2B2B2B2B2B\
    2F2B2B2B2B2B2B2B2B2B2B2B2B2B2B2B2B2B2B2B2B2B2B\
    2F2B2B2B2B2B2B2B2B2B2B2B2B2B2B2B2B2B2B2B2B2B2B\
    2F2B2B2B2B2B2B2B2B2B2B2B2B2B2B2B2B2B2B2B2B2B2B";

/// A message that orders a write to cell 1-1: identifier 4370, serial number 0010, period 2, no requested broadcasts,
/// data coding 01, and one page, with the text "@".
const WRITE: &str = "0100006E0E11120300100400050100010001050206000207000013010C01\
    01018046A3D168341A8D46A3D168341A8D46A3D168341A8D46A3D168341A8D46A3D168341A8D46A3D168341A\
    8D46A3D168341A8D46A3D168341A8D46A3D168341A8D46A3D168341A8D46A3D168341A8D46A3D100";

/// The same of serial number 0001, with a page of octets A1.
const WRITE_A: &str = "0100006E0E11120300010400050100010001050206000207000013010C01\
    0152A1A1A1A1A1A1A1A1A1A1A1A1A1A1A1A1A1A1A1A1A1A1A1A1A1A1A1A1A1A1A1A1A1A1A1A1A1A1A1A1A1\
    A1A1A1A1A1A1A1A1A1A1A1A1A1A1A1A1A1A1A1A1A1A1A1A1A1A1A1A1A1A1A1A1A1A1A1A1A1A1A1A1A1";

/// The same of serial number 0002, with period 4 and two pages, of octets B1 and B2.
const WRITE_B: &str = "010000C20E11120300020400050100010001050206000407000013020C01\
    0152B1B1B1B1B1B1B1B1B1B1B1B1B1B1B1B1B1B1B1B1B1B1B1B1B1B1B1B1B1B1B1B1B1B1B1B1B1B1B1B1B1\
    B1B1B1B1B1B1B1B1B1B1B1B1B1B1B1B1B1B1B1B1B1B1B1B1B1B1B1B1B1B1B1B1B1B1B1B1B1B1B1B1B1\
    0152B2B2B2B2B2B2B2B2B2B2B2B2B2B2B2B2B2B2B2B2B2B2B2B2B2B2B2B2B2B2B2B2B2B2B2B2B2B2B2B2B2\
    B2B2B2B2B2B2B2B2B2B2B2B2B2B2B2B2B2B2B2B2B2B2B2B2B2B2B2B2B2B2B2B2B2B2B2B2B2B2B2B2B2";

/// The octets that a word stands for.
pub fn octets_named(alloc: Global, word: &str) -> Result<Vec<u8>, Fail> {
    octets_of(
        alloc,
        match word {
            "page" => PAGE,
            "blocks" => BLOCKS,
            "other" => OTHER_BLOCKS,
            "idle" => IDLE,
            "write" => WRITE,
            "write_a" => WRITE_A,
            "write_b" => WRITE_B,
            digits => digits,
        },
    )
}

/// Appends the octets that a word stands for, as often as it says.
fn put_word(alloc: Global, octets: &mut Vec<u8>, word: &str) -> Result<(), Fail> {
    let (name, times) = word.split_once('*').unwrap_or((word, "1"));
    let piece = octets_named(alloc, name)?;
    for _ in 0..times.parse::<u16>()? {
        octets.extend_from_slice(&piece)?;
    }
    Ok(())
}

/// Whether octets are those that a text says, whose first word is their number.
pub fn are_octets(alloc: Global, octets: &[u8], wanted: &str) -> Result<bool, Fail> {
    let mut words = Words::of(wanted);
    let length = words.number()?;
    let mut wanted = Vec::new(alloc);
    for _ in 0..48 {
        put_word(alloc, &mut wanted, words.word())?;
    }
    Ok(octets.len() as u64 == length && octets == wanted.as_slice())
}

/// The worked page with an octet changed; as it is if it has no such octet.
pub fn page_with(alloc: Global, place: usize) -> Result<[u8; 88], Fail> {
    let mut octets = octets_of(alloc, PAGE)?;
    if let Some(octet) = octets.get_mut(place) {
        *octet ^= 1;
    }
    let mut page = [0; 88];
    if octets.len() != page.len() {
        return Err(Fail::new("a page has 88 octets"));
    }
    page.copy_from_slice(&octets);
    Ok(page)
}
