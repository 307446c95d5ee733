//! What reports of the same rows have in common.

ghost use Rattle.report.specs.Laws.{PlainIsFullCut, UntimedIsTimedCut};

/// States, as its contract, that a plain report is the full one of the same rows with the columns after the first eight
/// left out, and that a report without times is the one with times of the same rows and columns with the times left
/// out. Does nothing.
pub fn report_laws()
    ensures columns { PlainIsFullCut }
    ensures times { UntimedIsTimedCut }
{}
