//! Runs of a book: what its sessions ask of the cells, what they answer, and what a handset shows that reads their
//! blocks. A book is served by one session, or by several side by side, each of a part of its alerts.
//!
//! Nothing here runs: the crate has the definitions of a run, on which the engines of the program stand, and the laws
//! that say what it means and that it is one, proved from the public laws of the crates below it, and from lemmas of
//! theirs.
#![tactic(auto)]

ghost use Rattle.book_runs.specs.CellParts.{CellsRunApart, PartsInARow, PartsMakeTheWhole, RecordsAreThoseOfTheWhole};
ghost use Rattle.book_runs.specs.CellParts.{TapesInARow};
ghost use Rattle.book_runs.specs.Fit.{BooksAreFit, CopiesAreFit, PartsAreFit, SettledFitBooksAreRuns};
ghost use Rattle.book_runs.specs.LiveLaws.{LiveRunsAcceptWhatWasOrdered, LiveRunsShowTheBook, OneSessionIsARun};
ghost use Rattle.book_runs.specs.LiveLaws.{SettledSessionsAreRuns};
ghost use Rattle.book_runs.specs.LiveParts.{CellsLiveApart, LivePartsMakeTheWhole};
ghost use Rattle.book_runs.specs.OneRun.{RunsAreOne};
ghost use Rattle.book_runs.specs.Ordered.{RunsAcceptWhatWasOrdered};
ghost use Rattle.book_runs.specs.RunLaws.{RunsShowTheBook};
ghost use Rattle.book_runs.specs.ServedParts.{ServedPartsInARow};
ghost use Rattle.book_runs.specs.WholeNetwork.{GroupsAreOfNetworks, GroupsAreParts, NetworksHaveOneRun};
ghost use Rattle.book_runs.specs.WholeNetwork.{WholeNetworksAreCounted};

/// States, as its contract, what the blocks of a book's run show. Does nothing: its body names the laws that carry it.
pub fn run_laws()
    ensures { RunsShowTheBook }
{
    cbs_page::text_laws();
    alert_book::text_laws();
    alert_book::session_laws();
    bsc_table::legal_histories();
    composition::composition_laws();
}

/// States, as its contract, that the cells of a book's run accept what its orders had them start, and nothing else.
/// Does nothing: its body names the laws that carry it.
pub fn order_laws()
    ensures { RunsAcceptWhatWasOrdered }
{
    cbs_page::text_laws();
    alert_book::text_laws();
    alert_book::session_laws();
    bsc_table::legal_histories();
    composition::composition_laws();
}

/// States, as its contract, that a book has one run of this many slots. Does nothing: its body names the laws that
/// carry it.
pub fn one_run_law()
    ensures { RunsAreOne }
{
    alert_book::book_laws();
    scheduler::air_laws();
}

/// States, as its contract, what holds of the runs of a book whose parts are served by a session each, side by side.
/// Does nothing: its body names the laws that carry it.
pub fn session_laws()
    // A settled desk's records are those of a run, where each pass notes what its session asked, and nothing else.
    ensures settled { SettledSessionsAreRuns }

    // A run of one session is a run of the book.
    ensures one { OneSessionIsARun }

    // What the blocks of a run show, whatever the cells answered and in whichever order the sessions came to them.
    ensures shown { LiveRunsShowTheBook }

    // The cells accept what the orders had them start, and nothing else.
    ensures accepted { LiveRunsAcceptWhatWasOrdered }
{
    cbs_page::text_laws();
    alert_book::text_laws();
    alert_book::book_laws();
    alert_book::session_laws();
    bsc_table::legal_histories();
    composition::composition_laws();
}

/// States, as its contract, that a book's cells don't depend on one another: what concerns some of them in the book's
/// run is the run of their own book. Does nothing: its body names the laws that carry it.
pub fn cells_law()
    // What a run asks, has answered and airs in some cells is a run of these cells' book.
    ensures apart { CellsRunApart }

    // So each run of these cells' book has of them the records that each run of the whole book has.
    ensures same { RecordsAreThoseOfTheWhole }

    // And runs of some cells' book and of the others' are one of the whole book, cell by cell in its order.
    ensures joined { PartsMakeTheWhole }

    // So are those of any number of parts that have its cells one after the other, with the tapes one after the other.
    ensures in_a_row { PartsInARow }
    ensures tapes { TapesInARow }

    // Such a part's book is fit to be run at a desk, which when it is settled has a run of it.
    ensures fit { PartsAreFit }
    ensures settled { SettledFitBooksAreRuns }
{
    alert_book::book_laws();
    alert_book::network_laws();
    alert_book::session_laws();
    scheduler::air_laws();
}

/// States, as its contract, that a book may be served part by part, some of its cells each. Does nothing: its body
/// names the laws that carry it.
pub fn served_parts_law()
    // A book that was read is fit to be run at a desk, and a copy of a fit one is.
    ensures books { BooksAreFit }
    ensures copies { CopiesAreFit }

    // What sessions of copies of the parts' books served, cell after cell, is what one session of the book serves.
    ensures in_a_row { ServedPartsInARow }
{
    alert_book::book_laws();
    alert_book::network_laws();
    alert_book::session_laws();
}

/// States the law of `cells_law` for runs that several sessions serve side by side. Does nothing: its body names the
/// laws that carry it.
pub fn live_cells_law()
    ensures apart { CellsLiveApart }
    ensures joined { LivePartsMakeTheWhole }
{
    alert_book::network_laws();
}

/// States, as its contract, that the runs of a network's groups are one run of all its cells. Does nothing: its body
/// names the laws that carry it.
pub fn networks_law()
    // The book of a group is that of its cells, of the whole network's book.
    ensures groups { GroupsAreParts }

    // Each group's book is of such a network, which is counted by its cells.
    ensures of_networks { GroupsAreOfNetworks }
    ensures counted { WholeNetworksAreCounted }

    // Runs of the books of all groups are one run of the whole network's.
    ensures one_run { NetworksHaveOneRun }
{
    alert_book::book_laws();
}
