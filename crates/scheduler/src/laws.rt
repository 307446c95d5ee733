//! Laws of air lists, over their definitions alone.

ghost use Rattle.scheduler.specs.AirLaws.{OneChoice, SomeChoice, GrowsByTheChoice, FrontsAreByTheRule, OneAirList};
ghost use Rattle.scheduler.specs.AirLaws.{NumbersOnlyOrder, LaterMessagesChangeNothing, LaterStopsChangeNothing};
ghost use Rattle.scheduler.specs.AirLaws.{PagesComeInOrder, AtMostItsPages, PagesComeOnce, CompletedIsEachPageOnce};
ghost use Rattle.scheduler.specs.AirLaws.{LastPagesAreCompletedBroadcasts, NoPageLessOften, AllAreCounted};
ghost use Rattle.scheduler.specs.BackgroundLaws.{BackgroundCountsAsIdle, BackgroundChangesNothing, BlankingKeepsPages};
ghost use Rattle.scheduler.specs.BackgroundLaws.{BlankingKeepsCompleted};

/// States, as its contract, what the air rule promises. It does nothing.
pub fn air_laws()
    // What a slot airs is determined, where the numbers of the messages rise, and each slot has a choice.
    ensures one_choice { OneChoice }
    ensures some_choice { SomeChoice }

    // An air list by the rule grows by what is chosen, each front of it is by the rule, and it is the only one of its
    // length.
    ensures grows { GrowsByTheChoice }
    ensures front { FrontsAreByTheRule }
    ensures one_air { OneAirList }

    // Of the numbers of messages the rule looks at the order alone.
    ensures renumbered { NumbersOnlyOrder }

    // A message that is added later changes nothing before its start, and a stop nothing before its slot.
    ensures later_message { LaterMessagesChangeNothing }
    ensures later_stop { LaterStopsChangeNothing }

    // The pages of a broadcast come in order, and none comes at or after the stop.
    ensures in_order { PagesComeInOrder }

    // No broadcast has more pages aired, by its due slot, than its message has.
    ensures at_most_its_pages { AtMostItsPages }

    // Each page that is aired of a broadcast is aired once: so a broadcast that is completed has each page of its
    // message once.
    ensures pages_come_once { PagesComeOnce }
    ensures completed_is_each_page_once { CompletedIsEachPageOnce }

    // The last page of a message is aired as often as a broadcast of it is completed, and none of its pages less often.
    ensures last_page_counts { LastPagesAreCompletedBroadcasts }
    ensures no_page_less { NoPageLessOften }

    // The completed number leaves out no completed broadcast.
    ensures all_counted { AllAreCounted }
{}

/// States, as its contract, what the air rule promises the messages that aren't background: these air what they would
/// air alone, however much background there is. It does nothing.
pub fn background_laws()
    // With the slots that air background idle, an air list by the rule is one of the other messages alone, which is the
    // only one of its length.
    ensures counts_as_idle { BackgroundCountsAsIdle }
    ensures changes_nothing { BackgroundChangesNothing }

    // Of each message that isn't background it has the same pages, and the same completed broadcasts.
    ensures keeps_pages { BlankingKeepsPages }
    ensures keeps_completed { BlankingKeepsCompleted }
{}
