//! Laws of loads and of reservations, over their definitions alone.

ghost use Rattle.admission.specs.Laws.{PeriodsDivideScale, ScaleIsTheLeast, LoadsAreExact, NoSlotOverAll};
ghost use Rattle.admission.specs.Laws.{NoSlotOverStanding, NoSlotOverNow, NoSlotOverScale, HeldNeverRises};
ghost use Rattle.admission.specs.Laws.{PassedIsHeld, PassedKeepsLater, StopOnBoundary, StopBeforeStart, StopNoLater};
ghost use Rattle.admission.specs.Laws.{StopCovers};

/// States, as its contract, what the parts of a cell's slots are. It does nothing.
pub fn scale_laws()
    // Each period of up to 20 slots divides `SCALE`, and it is the least number of which that is true.
    ensures divided { PeriodsDivideScale }
    ensures least { ScaleIsTheLeast }

    // So the load of a message with such a period is exact.
    ensures exact { LoadsAreExact }
{}

/// States, as its contract, what reservations promise one another. It does nothing.
pub fn reservation_laws()
    // At no slot are more loads reserved than all of them together.
    ensures no_slot_over { NoSlotOverAll }

    // From a slot on, the loads at each slot are no more than those of the reservations that have not ended by that
    // slot.
    ensures no_slot_over_standing { NoSlotOverStanding }

    // A stop on the boundary of a period ends the reservation at once, and so does one at the start or before it.
    ensures stop_on_boundary { StopOnBoundary }
    ensures stop_before_start { StopBeforeStart }

    // A stop never makes a reservation last longer than the message would have stood.
    ensures stop_no_later { StopNoLater }

    // Each period that begins before the stop lies inside the reservation.
    ensures stop_covers { StopCovers }

    // At no slot do the reservations of a budget hold more than now, nor more than `SCALE`.
    ensures no_slot_over_now { NoSlotOverNow }
    ensures no_slot_over_scale { NoSlotOverScale }

    // From slot to slot what they hold never rises, though some may wait for their start.
    ensures held_never_rises { HeldNeverRises }

    // What a budget holds once a slot has come is what it was to hold there, and what it holds later stays.
    ensures passed_is_held { PassedIsHeld }
    ensures passed_keeps_later { PassedKeepsLater }
{}
