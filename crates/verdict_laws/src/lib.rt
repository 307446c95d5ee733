//! A cell's own tape keeps what the cell was ordered and answered: of a history whose run is over, and in which no
//! replacement waits, `verify --orders` finds nothing by the orders file of that history.
//!
//! Nothing here runs: the crate is one law over the definitions of the crates below it.
#![tactic(auto)]

ghost use Rattle.verdict_laws.specs.OwnOrders.{LiveRunsKeepTheirOrders, NothingIsFoundOfOrders, OwnOrdersAreKept};
ghost use Rattle.verdict_laws.specs.OwnOrders.{OwnOrdersAreReadBack, OwnOrdersDifferNowhere, RunsKeepTheirOrders};

/// States, as its contract, what is found of a cell's own tape by its own orders and answers. That the history is
/// legal, that its run is over and has slots as a tape has, and that no replacement waits are the only premises. Own
/// rules, of no standard.
///
/// Does nothing: its contract is the law, and its body names the laws that carry it.
pub fn verdict_laws()
    // The blocks of a history differ nowhere from its orders and answers.
    ensures own_orders_differ_nowhere { OwnOrdersDifferNowhere }

    // So nothing is what is found of them, and nothing else is.
    ensures own_orders_are_kept { OwnOrdersAreKept }
    ensures nothing_is_found { NothingIsFoundOfOrders }

    // So it is of each such cell of a book's run, by one session or by several side by side.
    ensures runs_keep_their_orders { RunsKeepTheirOrders }
    ensures live_runs_keep_their_orders { LiveRunsKeepTheirOrders }

    // The orders file of such a history says its orders and answers.
    ensures own_orders_are_read_back { OwnOrdersAreReadBack }
{
    scheduler::air_laws();
    bsc_table::legal_histories();
    handset::reading_laws();
    handset::tape_laws();
    orders_file::orders_file_laws();
    verification_laws::verification_laws();
}
