//! A cell's own tape keeps what the cell was asked: of a legal history whose run is over no difference is found, and of
//! the tapes of such records no row.
//!
//! Nothing here runs: the crate is one law over the definitions of the crates below it.
#![tactic(auto)]

ghost use Rattle.verification_laws.specs.OneList.{CellsDifferInOneList, NoRowsAreAnEmptyTable};
ghost use Rattle.verification_laws.specs.OneList.{TapesHaveOneListOfRows, TapesHaveOneTable};
ghost use Rattle.verification_laws.specs.OwnTapes.{NoRowsAreFound, NothingIsFound, OwnTapesDifferNowhere};
ghost use Rattle.verification_laws.specs.OwnTapes.{OwnTapesHaveNoRows, OwnTapesKeepTheirCells};
ghost use Rattle.verification_laws.specs.Recorded.{RecordsAreRecorded};
ghost use Rattle.verification_laws.specs.Shown.{AllShownAreAsked, NoOthersAreShown, OwedAreShown};
ghost use Rattle.verification_laws.specs.Timed.{DifferencesAreWithin};

/// States, as its contract, what is found of a cell's own tape. That the history is legal, and that its run is over,
/// are the only premises. Own rules, of no standard.
///
/// Does nothing: its contract is the law, and its body names the laws that carry it.
pub fn verification_laws()
    // The differences of a cell's tape are one list, and so are the rows of all tapes.
    ensures cells_differ_in_one_list { CellsDifferInOneList }
    ensures tapes_have_one_list_of_rows { TapesHaveOneListOfRows }

    // Their table, plain or explained, is one text, and has the names of its columns alone where there is no row.
    ensures tapes_have_one_table { TapesHaveOneTable }
    ensures no_rows_are_an_empty_table { NoRowsAreAnEmptyTable }

    // Each difference is at a slot of the run or of the tape, so that it has a time.
    ensures differences_are_within { DifferencesAreWithin }

    // The blocks of a legal history have none of the differences.
    ensures own_tapes_differ_nowhere { OwnTapesDifferNowhere }

    // So nothing is what is found of them, and nothing else is.
    ensures own_tapes_keep_their_cells { OwnTapesKeepTheirCells }
    ensures nothing_is_found { NothingIsFound }

    // And the tapes of such records of distinct cells, in any order, have no rows.
    ensures own_tapes_have_no_rows { OwnTapesHaveNoRows }
    ensures no_rows_are_found { NoRowsAreFound }

    // The tape of such a record holds its blocks.
    ensures records_are_recorded { RecordsAreRecorded }

    // Of blocks that have no difference, whoever sent them, each message that is shown is one that the cell accepted,
    // with the text that was asked, and each that isn't background and stood for a whole period is shown.
    ensures no_others_are_shown { NoOthersAreShown }
    ensures all_shown_are_asked { AllShownAreAsked }
    ensures owed_are_shown { OwedAreShown }
{
    scheduler::air_laws();
    bsc_table::legal_histories();
    handset::reading_laws();
    handset::tape_laws();
    handset::recording_laws();
}
