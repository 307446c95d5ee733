//! What bounds the rows that are judged, by what is looked at.

ghost use Rattle.std.specs.Prelude.{◌≡◌, ◌≤◌};
ghost use Rattle.alert_book.specs.Extent.{bounds_of, most_octets};

use crate::book::MAX_INPUT;
use crate::network::MAX_NETWORK;

/// What bounds the rows that are judged.
#[derive(Clone, Copy, Debug, PartialEq, Eq)]
pub enum Bounds {
    /// A book has up to 4,096 rows, of which up to 64 declare cells.
    Book,
    /// A network book has up to 65,536 rows that declare cells, and up to 4,096 others.
    Network,
}

/// What a command looks at.
#[derive(Clone, Copy, Debug, PartialEq, Eq)]
pub enum Extent {
    /// A book.
    Book,
    /// A network book.
    Network,
    /// The group of this number, from 0, of a network book.
    Group(u16),
}

impl Bounds {
    /// The most octets: 16 MiB of a book, and 64 MiB of a network book.
    pub fn most_octets(self) -> usize
        ensures most { result ≡ most_octets self }
        ensures few { result ≤ 67108864 }
    {
        match self {
            Bounds::Book => MAX_INPUT,
            Bounds::Network => MAX_NETWORK,
        }
    }
}

impl Extent {
    /// What bounds the rows.
    pub fn bounds(self) -> Bounds
        ensures { result ≡ bounds_of self }
    {
        match self {
            Extent::Book => Bounds::Book,
            Extent::Network | Extent::Group(_) => Bounds::Network,
        }
    }
}
