//! A sender in a capture file, and where its blocks are.

ghost use Rattle.std.specs.Prelude.{◌≡◌};
ghost use Rattle.gsmtap.specs.Heard.{is_station};
ghost use Rattle.gsmtap.specs.HeardSteps.{heard_again};

use crate::tap::Station;

/// A sender of blocks of a cell broadcast channel, and where a capture file has them.
#[derive(Clone, Copy, Debug, PartialEq, Eq)]
pub struct Heard {
    /// The sender.
    pub station: Station,
    /// How many blocks of it there are.
    pub blocks: u64,
    /// The first packet with a block of it, from 1.
    pub first: u64,
    /// The last one.
    pub last: u64,
}

/// Whether two senders are one.
pub(crate) fn is_station(a: Station, b: Station) -> bool
    ensures { result ≡ is_station a b }
{
    a == b
}

/// Counts one more block of a sender, in the packet of this number.
pub(crate) fn count_again(one: &mut Heard, number: u64)
    ensures { one.new ≡ heard_again number one.old }
{
    one.blocks = one.blocks.saturating_add(1);
    one.last = number;
}
