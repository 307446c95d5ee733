//! Texts whose characters are septets of their own numbers: their octets are the septets of their pages. Most texts in
//! the GSM 7-bit alphabet are such texts.

ghost use Rattle.std.specs.Prelude.{◌≡◌, true, not, ◌==◌, ◌&&◌};
ghost use Rattle.std.specs.List.{list_all};
ghost use Rattle.cbs_page.specs.PagingSteps.{is_own_septet};

use crate::text::is_plain;
use septets::CR;

/// Whether each octet is the septet of a character of its own number that a text may have. All are looked at, with no
/// branch: that is a few vector steps.
pub fn are_own_septets(octets: &[u8]) -> bool
    ensures { result ≡ list_all is_own_septet octets.now }
{
    let mut are_own = true;
    for octet in octets {
        are_own &= is_plain(*octet) & (*octet != CR);
    }
    are_own
}
