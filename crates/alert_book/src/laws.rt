//! Laws of books and of sessions.

ghost use Rattle.alert_book.specs.Laws.{BooksAreOne, BooksAreRight, CellsAreValid, FaultsAreOne, OrdersAreFew};
ghost use Rattle.alert_book.specs.Laws.{RowsAreFew, RowsAreOne, RowsAreRightOrWrong};
ghost use Rattle.alert_book.specs.LastAccepted.{LastAcceptedIsReplaced};
ghost use Rattle.alert_book.specs.NetworkLaws.{BooksAreNetworks, CountsAreOne, NetworkFaultsAreOne, NetworksAreOne};
ghost use Rattle.alert_book.specs.NetworkLaws.{NetworksAreRight};
ghost use Rattle.alert_book.specs.Texts.{TextsAreUtf8};
ghost use Rattle.alert_book.specs.TurnLaws.{AsksOncePerOrder, RequestsAreWritable, RequestsComeOfOrders, SessionsEnd};

/// Octets mean one list of cells and orders at most, and if they do, no row of theirs is wrong. They are one book, with
/// one list of pages, or have one fault, and never both; and a group of a network has one book. A book has at most
/// 4,096 rows. It has at most 64 cells, none twice, and 4,096 orders, and so has that of a group. It does nothing: its
/// contract is the law.
pub fn book_laws()
    ensures one { RowsAreOne }
    ensures right_or_wrong { RowsAreRightOrWrong }
    ensures one_book { BooksAreOne }
    ensures book_or_fault { BooksAreRight }
    ensures one_fault { FaultsAreOne }
    ensures few { RowsAreFew }
    ensures cells { CellsAreValid }
    ensures orders { OrdersAreFew }
{}

/// A book is a network book of one group, whose book it is. All groups see one network: octets that are a network book
/// for one group are one for each, with the same cells and so as many groups, and have no fault. The fault of octets
/// that are none is the same for all groups. It does nothing: its contract is the law.
pub fn network_laws()
    ensures book { BooksAreNetworks }
    ensures one_network { NetworksAreOne }
    ensures one_count { CountsAreOne }
    ensures network_or_fault { NetworksAreRight }
    ensures one_fault { NetworkFaultsAreOne }
{}

/// States, as its contract, what holds of the turns of every session of a book, or of a group's, whatever the replies
/// say. It does nothing.
pub fn session_laws()
    // Each request leaves fewer that can follow it: a session ends.
    ensures end { SessionsEnd }

    // No cell is asked more often than the session's part of the book has orders.
    ensures once_per_order { AsksOncePerOrder }

    // Each request has the row, the slot, the identifier and the text of an order of the book, and a write the serial
    // number of the version that the row sends.
    ensures come_of_orders { RequestsComeOfOrders }

    // The message of each request can be written.
    ensures writable { RequestsAreWritable }

    // No cell is asked to replace or to stop a version of an alert but the one that it accepted last, by the replies so
    // far.
    ensures last_accepted { LastAcceptedIsReplaced }
{}

/// The texts of a book's orders are UTF-8, and those of a group's. It does nothing: its contract is the law.
pub fn text_laws()
    ensures { TextsAreUtf8 }
{}
