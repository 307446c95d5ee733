//! The guarantee and the laws that it stands on, over the definitions of load and air alone; and what it comes to for a
//! cell's legal history.

ghost use Rattle.bsc_table.specs.Guarantee.{ReservationsCoverBroadcasts, DemandIsNoMoreThanTheSlots};
ghost use Rattle.bsc_table.specs.Guarantee.{LackMeansABusyPeriod, AdmittedLoadIsAGuarantee};
ghost use Rattle.bsc_table.specs.Guarantee.{AdmittedBroadcastsAreCompleted, ForegroundIsServed};
ghost use Rattle.bsc_table.specs.Room.{ReservedNeverRises, StopKeepsRoom, StartKeepsRoom, TakeoverKeepsRoom};
ghost use Rattle.bsc_table.specs.Room.{WaitingPassesItsStart};
ghost use Rattle.bsc_table.specs.Bounds.{CompletedIsAtMost, CompletedIsAtLeast, ForegroundIsAtLeast, BoundsAreNear};
ghost use Rattle.bsc_table.specs.Promised.{LegalPairsComeOnce, LegalClaimsFit, LegalLoadsFit, LegalHistoriesAreServed};
ghost use Rattle.bsc_table.specs.Promised.{LegalHistoriesAreBounded, LegalPagesAreAiredOnce};
ghost use Rattle.bsc_table.specs.Refusals.{RefusalsChangeNothing, AcceptedEntriesAreAll};
ghost use Rattle.bsc_table.specs.Written.{AcceptedAreWrites, UsesAreOfWrites, AcceptedRise, AcceptedHaveLoads};
ghost use Rattle.bsc_table.specs.Reported.{LegalAnswersAreTrue};
ghost use Rattle.bsc_table.specs.Transitions.{OpenedAreLegal, StepKeepsLegal, StepsKeepLegal};

/// Admitted load is a guarantee: where the loads that are reserved at each slot sum to at most `SCALE`, and each slot
/// airs what the air rule says, each broadcast is completed within its own period, from its release up to its due
/// slot. Nothing is promised of a broadcast that its message's stop or the end of the run cuts, nor of messages whose
/// loads were freed sooner than at the end of the period in which they were stopped. Own rules, of no standard.
///
/// Does nothing: its contract is the law, and the three laws that carry it.
pub fn guarantee()
    // Over the whole time of a broadcast its message's load is reserved.
    ensures reservations_cover_broadcasts { ReservationsCoverBroadcasts }

    // So the broadcasts inside a range of slots have no more pages than it has slots.
    ensures demand_is_no_more_than_the_slots { DemandIsNoMoreThanTheSlots }

    // A broadcast lacks a page only where all slots of such a range were used by others inside it, or by itself.
    ensures lack_means_a_busy_period { LackMeansABusyPeriod }

    // So none does.
    ensures admitted_load_is_a_guarantee { AdmittedLoadIsAGuarantee }

    // In the words of the completed number: from its due slot on, each counts as completed.
    ensures admitted_broadcasts_are_completed { AdmittedBroadcastsAreCompleted }

    // Background messages, which reserve nothing, take no page from the others.
    ensures foreground_is_served { ForegroundIsServed }
{}

/// What keeps room at every slot, also where a message that is accepted has to wait for its start: up to then it
/// reserves what its load has over that of the stopped message behind which it waits, and from then on its whole
/// load, where that one's reservation ends. Over what messages claim of a cell alone. Own rules, of no standard.
///
/// Does nothing: its contract is the law.
pub fn room_laws()
    // Where each that waits does so alone, behind one that hands over to it, the loads reserved never rise from now on.
    ensures reserved_never_rises { ReservedNeverRises }

    // So it stays, with room at every slot, where a live message is stopped, where one starts whose load has room
    // now, and where one takes over from a live message, if what it reserves until its start has room now.
    ensures stop_keeps_room { StopKeepsRoom }
    ensures start_keeps_room { StartKeepsRoom }
    ensures takeover_keeps_room { TakeoverKeepsRoom }

    // One that takes over from a message that waits can always do so, and starts where that one would have.
    ensures waiting_passes_its_start { WaitingPassesItsStart }
{}

/// What the completed number of a message can be, before any slot that was played: at most as many as its requested
/// broadcasts whose period had begun while it stood, and, where what is aired was admitted, at least as many as those
/// whose period was over. Own rules, of no standard.
///
/// Does nothing: its contract is the law.
pub fn completed_bounds()
    // No broadcast counts that had not begun, whatever the cell airs.
    ensures completed_is_at_most { CompletedIsAtMost }

    // Each broadcast counts whose period was over, where the reserved loads fit and each slot airs what the air rule
    // says.
    ensures completed_is_at_least { CompletedIsAtLeast }

    // Of messages that aren't background, that is so also among background messages, of which nothing is admitted.
    ensures foreground_is_at_least { ForegroundIsAtLeast }

    // So the number is known up to one: only the broadcast under way, or cut by the stop, is in doubt.
    ensures bounds_are_near { BoundsAreNear }
{}

/// What a cell's record can become, step by step: a step is a command that is asked, or a play of some slots. Each call
/// of `CellBook::apply` and `CellBook::play` is such a step. Own rules, of no standard.
///
/// Does nothing: its contract is the law.
pub fn steps_of_a_cell()
    // A new record is a legal history, and each step keeps it one: a command of a message of the warning centre, or a
    // status, and a play of any number of slots.
    ensures opened_are_legal { OpenedAreLegal }
    ensures step_keeps_legal { StepKeepsLegal }

    // So is the record that any list of steps reaches from a new one on, for every cell and every number of slots.
    ensures steps_keep_legal { StepsKeepLegal }
{}

/// What a cell promises of each message that it accepted. Its history is legal: the commands are such as a message of
/// the warning centre can ask for, they came in the order of their slots, each was answered by the rules, and each slot
/// aired what the air rule says. No other premise is made.
///
/// Nothing is promised of the broadcast that was under way at a message's stop, or is at the clock, nor that a
/// background message is broadcast at all. Own rules, of no standard.
///
/// Does nothing: its contract is the law.
pub fn legal_histories()
    // An entry that was not accepted leaves every accepted message as it was, with its stop and its reservation; and
    // the accepted entries of a log alone determine its accepted messages, but for their numbers, of which the order
    // is kept.
    ensures refusals_change_nothing { RefusalsChangeNothing }
    ensures accepted_entries_are_all { AcceptedEntriesAreAll }

    // An accepted message is the write that stands in the log at its number, has a page and a period, and numbers rise.
    ensures accepted_are_writes { AcceptedAreWrites }
    ensures accepted_have_loads { AcceptedHaveLoads }
    ensures accepted_rise { AcceptedRise }

    // A slot airs nothing but pages of such writes.
    ensures uses_are_of_writes { UsesAreOfWrites }

    // A message is known by its identifier and serial number: no two that were accepted have the same.
    ensures legal_pairs_come_once { LegalPairsComeOnce }

    // However messages were accepted, replaced and killed, the loads that are reserved sum to at most `SCALE` at each
    // slot.
    ensures legal_claims_fit { LegalClaimsFit }
    ensures legal_loads_fit { LegalLoadsFit }

    // Each broadcast of a message that isn't background, that was requested, that is due by the clock and that no stop
    // cut was completed, from its release up to the slot in which it was due, and each of its pages once.
    ensures legal_histories_are_served { LegalHistoriesAreServed }
    ensures legal_pages_are_aired_once { LegalPagesAreAiredOnce }

    // So before each slot up to the clock, the broadcasts of a message that are completed are at least those requested
    // whose period was over while it stood, and at most those requested whose period had begun while it stood. For a
    // background message the least isn't promised.
    ensures legal_histories_are_bounded { LegalHistoriesAreBounded }

    // And each number that was reported of a message, in answer to its kill, to its replacement or to a status, is the
    // number of its broadcasts that were completed by then, and lies between these bounds.
    ensures legal_answers_are_true { LegalAnswersAreTrue }
{
    scheduler::air_laws();
}
