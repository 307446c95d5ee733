//! What the blocks of a cell's record show: a handset that reads them shows each accepted message exactly from its
//! first whole broadcast on, with its texts, and the numbers that the cell reports are the counts of whole broadcasts
//! in the blocks.
//!
//! Nothing here runs: the crate is one law over the definitions of the crates below it, proved from their public laws
//! alone.
#![tactic(auto)]

ghost use Rattle.composition.specs.Composition.{CompletedIsWholeInBlocks, ShownAreTheBroadcast, ShownGrowByOne};
ghost use Rattle.composition.specs.Meaning.{PagesReadAreThoseAired, ReportedIsWholeInBlocks, AcceptedAreMeant};
ghost use Rattle.composition.specs.Meaning.{NoneAfterTheStop, RecordsAreTapes, TextsAreThoseOfContents};
ghost use Rattle.composition.specs.Same.{SameAcceptedSameBlocks};

/// States, as its contract, what the blocks of a cell's legal history show. That the history is legal is the only
/// premise: of the commands, of their order and of the loads nothing else is asked. Own rules, of no standard.
///
/// Does nothing: its contract is the law, and its body names the laws that carry it.
pub fn composition_laws()
    // The pages that a handset reads of the blocks are those that the slots air, in order.
    ensures pages_read_are_those_aired { PagesReadAreThoseAired }

    // The completed number of an accepted message before a slot is the number of its whole broadcasts in the blocks
    // before it.
    ensures completed_is_whole_in_blocks { CompletedIsWholeInBlocks }

    // Before each slot a handset shows exactly the accepted messages of which a broadcast is whole by then, each
    // once, with the texts of its pages. A slot adds at most one, at the end.
    ensures shown_are_the_broadcast { ShownAreTheBroadcast }
    ensures shown_grow_by_one { ShownGrowByOne }

    // Each number that a cell reports of a message is the number of its whole broadcasts in the blocks before that
    // slot.
    ensures reported_is_whole_in_blocks { ReportedIsWholeInBlocks }

    // So orders mean what they say, in words of their own: of each accepted message as many broadcasts are whole in
    // the blocks as its start, its period and its stop say, up to the one that is not over, and it is shown exactly
    // where that is one or more.
    ensures accepted_are_meant { AcceptedAreMeant }

    // No page of a message is aired at or after its stop.
    ensures none_after_the_stop { NoneAfterTheStop }

    // A record whose run is over gives a tape, whose reading is what its blocks show.
    ensures records_are_tapes { RecordsAreTapes }

    // Two cells that accepted the same writes and kills, and played as many slots, sent the same blocks.
    ensures same_accepted_same_blocks { SameAcceptedSameBlocks }

    // The texts of a write's pages are those of its contents.
    ensures texts_are_those_of_contents { TextsAreThoseOfContents }
{
    scheduler::air_laws();
    bsc_table::legal_histories();
    handset::reading_laws();
    handset::tape_laws();
}
