//! Laws of short pages, over lists of blocks alone.

ghost use Rattle.short_pages.specs.Laws.{CutPagesComeBack, ShortPagesAreReadOnce, WithoutShortPagesTheSame};

/// Laws of short pages. It does nothing: its contract is the statement.
///
/// The page of a slot is read once, says what came of it, and shows the characters that came whole. Where a page was
/// cut after its text, the slot gets the four blocks of the whole page. Blocks without a short page show what they show
/// to a handset that knows none.
pub fn short_page_laws()
    ensures read_once { ShortPagesAreReadOnce }
    ensures cut_pages_come_back { CutPagesComeBack }
    ensures same_without { WithoutShortPagesTheSame }
{}
