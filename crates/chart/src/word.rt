//! The languages of a page, and its words.

ghost use Rattle.std.specs.Prelude.{◌≡◌};
ghost use Rattle.chart.specs.Words.{word_in};

use crate::english::english;
use crate::german::german;
use slot_times::Start;

/// The language of a page.
#[derive(Clone, Copy, Debug, PartialEq, Eq)]
pub enum Language {
    /// English.
    English,
    /// German.
    German,
}

/// In which language a page speaks, and by which clock.
#[derive(Clone, Copy, Debug, PartialEq, Eq)]
pub struct Wording {
    /// The language.
    pub language: Language,
    /// When slot 0 begins, if the page has the time of day; else it has that since the run began.
    pub start: Option<Start>,
}

/// A word of a page, or several. Each language has a table of all.
#[derive(Clone, Copy, Debug, PartialEq, Eq)]
pub enum Word {
    /// The code of the language.
    Code,
    /// The title of the page.
    Title,
    /// What comes before the number of slots of the run.
    Run,
    /// What comes after it.
    Slots,
    /// What comes after it if it is one.
    Slot,
    /// What comes before the time at which slot 0 begins.
    Begins,
    /// What comes after it.
    BeginsEnd,
    /// What comes before the first slot of the part that is drawn.
    Part,
    /// What comes before the slot after its last one.
    PartTo,
    /// What the reader of the page is told then.
    Introduction,
    /// What comes before the number of a group.
    Group,
    /// What comes before the number of messages.
    Messages,
    /// What comes before the number of refused orders.
    Refused,
    /// What comes before how full the cell gets.
    Fullest,
    /// Between the share of the cell and when it is taken.
    ShareAt,
    /// What is said after the words of an identifier of an additional language.
    Additional,
    /// What comes after the number of whole broadcasts that stands in place of marks.
    Broadcasts,
    /// What comes after it if it is one.
    Broadcast,
    /// What is said of a message that no phone shows.
    Unseen,
    /// What comes before the cause of a refused order.
    RefusedBecause,
    /// What comes before a message's start.
    From,
    /// What comes before its end, or before the last of several cells.
    To,
    /// What comes before its period.
    Every,
    /// What stands in place of a period of one slot.
    EverySlot,
    /// What comes before the number of its whole broadcasts.
    Whole,
    /// What comes before the slot after which a phone shows it first.
    Shown,
    /// What stands there if none shows it.
    NotShown,
    /// What comes before the slot of a refusal.
    RefusedAt,
    /// What the load is called that a cell has reserved.
    Load,
    /// The high category.
    High,
    /// The normal category.
    Normal,
    /// Background.
    Background,
    /// What comes before the name of a cell.
    Cell,
    /// What comes before the names of several cells.
    Cells,
    /// What comes after their number.
    CellsEnd,
    /// What comes before the number of further cells.
    And,
    /// What comes after it.
    More,
    /// What the overview is called.
    Overview,
    /// What stands before an axis.
    Axis,
}

/// A word in a language.
pub(crate) fn word_in(language: Language, word: Word) -> &'static str
    ensures { result.now ≡ word_in language word }
{
    match language {
        Language::English => english(word),
        Language::German => german(word),
    }
}
