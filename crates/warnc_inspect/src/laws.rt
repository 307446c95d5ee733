//! Laws of the table of what tapes show.

ghost use Rattle.warnc_inspect.specs.Laws.{WithoutShortPagesOneTable};
ghost use Rattle.warnc_inspect.specs.WholeOutput.{WholeTapesHold, WholeTapesShow};

use handset::{recording_laws, tape_laws};

/// A law of `read`. It does nothing: its contract is the statement.
///
/// Of tapes without a page of one to three blocks the same table is written, whichever pages are wanted.
pub fn read_laws()
    ensures { WithoutShortPagesOneTable }
{
    recording_laws();
    tape_laws();
}

/// What whole tapes are. It does nothing: its contract is the statement.
///
/// They hold what the tapes hold, with four blocks of each page, and a handset shows of them what the tapes show by all
/// their pages.
pub fn whole_laws()
    ensures hold { WholeTapesHold }
    ensures show { WholeTapesShow }
{
    recording_laws();
}
