//! The page whose first octets came (3GPP TS 23.041, clause 9.4.1, and 3GPP TS 23.038, clauses 6.1.2.2 and 6.2.3).

ghost use Rattle.std.specs.Prelude.{◌≡◌, ◌≤◌, ◌-◌, ◌++◌, length, replicate, take, drop};
ghost use Rattle.septets.specs.Packing.{unpacked};
ghost use Rattle.ucs2_text.specs.Ucs2.{octets_of_units, units_of_octets};
ghost use Rattle.short_pages.specs.WholePage.{codes_came, content_of, packed, whole_content, whole_page};

use arrayvec::ArrayVec;
use cbs_page::{Alphabet, Dcs};
use septets::{pack, unpack};
use ucs2_text::{put_units, units_of};

/// The octets of a page before its content.
const HEADER: usize = 6;

/// The page of 88 octets of which these came, 6 at least. It shows the characters that came whole.
pub(crate) fn whole_page(came: &[u8]) -> [u8; 88]
    requires header { 6 ≤ length came.now }
    requires within { length came.now ≤ 88 }
    ensures { result ≡ whole_page came.now }
{
    let content = whole_content(Dcs(came[4]).alphabet(), &came[HEADER..]);
    let mut octets = [0; 88];
    octets[..HEADER].copy_from_slice(&came[..HEADER]);
    octets[HEADER..].copy_from_slice(&content);
    octets
}

/// The content of 82 octets of which these came. No text is shown of a page whose alphabet isn't known.
fn whole_content(alphabet: Option<Alphabet>, came: &[u8]) -> [u8; 82]
    requires { length came.now ≤ 82 }
    ensures { result ≡ whole_content alphabet came.now }
{
    match alphabet {
        Some(alphabet) => with_codes(alphabet, came),
        None => padded(came),
    }
}

/// The content of the codes that came whole in these octets.
fn with_codes(alphabet: Alphabet, came: &[u8]) -> [u8; 82]
    requires { length came.now ≤ 82 }
    ensures { result ≡ content_of alphabet (codes_came alphabet came.now) }
{
    let content = padded(came);
    match alphabet {
        Alphabet::Gsm => with_septets(&content, 8 * came.len() / 7),
        Alphabet::Ucs2 => with_units(&content, came.len() / 2),
    }
}

/// These octets, and octets of 0 up to 82.
fn padded(came: &[u8]) -> [u8; 82]
    requires { length came.now ≤ 82 }
    ensures { result ≡ came.now ++ replicate (82 - length came.now) 0 }
{
    let mut content = [0; 82];
    content[..came.len()].copy_from_slice(came);
    content
}

/// The content of this many of the first septets of a content, and CR after them.
fn with_septets(content: &[u8; 82], count: usize) -> [u8; 82]
    ensures { result ≡ packed (take count (unpacked content.now)) }
{
    let mut septets = ArrayVec::from(unpack(content));
    septets.truncate(count);
    pack(&septets)
}

/// The content of this many of the first units of a content, and CR after them.
fn with_units(content: &[u8; 82], count: usize) -> [u8; 82]
    ensures { result ≡ octets_of_units (take count (units_of_octets content.now)) }
{
    let mut units = ArrayVec::from(units_of(content));
    units.truncate(count);
    put_units(&units)
}
