//! Laws of checks.

ghost use Rattle.book_check.specs.Laws.{BooksAreClean, ChecksAreOne, CleanAreBooks, CleanAreNetworks};
ghost use Rattle.book_check.specs.Laws.{FaultsHaveAFirst, FirstIsTheBooks, FirstIsTheNetworks, NetworksAreClean};
ghost use Rattle.book_check.specs.Laws.{PagesAreCounted};

use alert_book::{book_laws, network_laws};

/// Nothing is found in octets exactly if they are a book. If something is found, then the octets are no book for the
/// first fault of a row's own, or if no row has one, for the first fault of a text. The same holds of network books,
/// for each of their groups. What is told of octets is one table, and the number of pages that it tells of a text is
/// that of the pieces into which the text is cut. It does nothing: its contract is the law.
pub fn check_laws()
    ensures clean { CleanAreBooks }
    ensures books { BooksAreClean }
    ensures first { FirstIsTheBooks }
    ensures clean_network { CleanAreNetworks }
    ensures networks { NetworksAreClean }
    ensures first_of_network { FirstIsTheNetworks }
    ensures some { FaultsHaveAFirst }
    ensures one { ChecksAreOne }
    ensures pages { PagesAreCounted }
{
    book_laws();
    network_laws();
}
