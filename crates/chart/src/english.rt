//! The words of a page in English.

ghost use Rattle.std.specs.Prelude.{◌≡◌};
ghost use Rattle.chart.specs.Words.{english};
ghost use Rattle.chart.specs.Identifier.{english_kind};

use crate::word::Word;

/// What the reader of the page is told.
pub const INTRODUCTION: &str = r#"</p>
<p class="pace">A message is sent every <b class="f5"></b>15 s <b class="f4"></b>30 s <b class="f3"></b>minute
<b class="f2"></b>2 minutes <b class="f1"></b>or less often</p>
<p>A bar is a message from its start to its end, with a mark wherever a broadcast of it is whole, or with their number
if there are over 400 or if its period takes less than 4 px of a page of 1,280 px. At the short thick mark a phone shows
it first. A red mark is a refused order. Below is the load that the cell has reserved: at the red edge it is full.</p>
"#;

/// Its words.
pub(crate) fn english(word: Word) -> &'static str
    ensures { result.now ≡ english word }
{
    match word {
        Word::Code => "en",
        Word::Title => "Warnings by cell",
        Word::Run => "A run of ",
        Word::Slots => " slots of 1.883 s, ",
        Word::Slot => " slot of 1.883 s, ",
        Word::Begins => " Slot 0 begins at ",
        Word::BeginsEnd => "; times are of the day, in UTC.",
        Word::Part => " Drawn from slot ",
        Word::PartTo => " to slot ",
        Word::Introduction => INTRODUCTION,
        Word::Group => "Group ",
        Word::Messages => "messages: ",
        Word::Refused => ", refused: ",
        Word::Fullest => ", fullest: ",
        Word::ShareAt => " % at ",
        Word::Additional => ", in an additional language",
        Word::Broadcasts => " broadcasts",
        Word::Broadcast => " broadcast",
        Word::Unseen => "not shown:",
        Word::RefusedBecause => "refused: ",
        Word::From => ": slots ",
        Word::To => " to ",
        Word::Every => ", every ",
        Word::EverySlot => ", every slot",
        Word::Whole => ", broadcasts: ",
        Word::Shown => ", first shown after ",
        Word::NotShown => ", not shown",
        Word::RefusedAt => ": refused at slot ",
        Word::Load => "Reserved load",
        Word::High => "high",
        Word::Normal => "normal",
        Word::Background => "background",
        Word::Cell => "Cell ",
        Word::Cells => "Cells ",
        Word::CellsEnd => " cells",
        Word::And => " and ",
        Word::More => " more",
        Word::Overview => "Cells",
        Word::Axis => "Slot, time",
    }
}

/// The warning that an identifier of the first language means (3GPP TS 23.041, clause 9.4.1.2.2), with its level of
/// EU-Alert (ETSI TS 102 900); nothing of another number.
pub(crate) fn english_kind(id: u16) -> &'static str
    ensures { result.now ≡ english_kind id }
{
    match id {
        4352 => "ETWS: earthquake",
        4353 => "ETWS: tsunami",
        4354 => "ETWS: earthquake and tsunami",
        4355 => "ETWS: test",
        4356 => "ETWS: other",
        4370 => "EU-Alert level 1: presidential",
        4371 => "Level 2: extreme, immediate, observed",
        4372 => "Level 2: extreme, immediate, likely",
        4373 => "Level 3: extreme, expected, observed",
        4374 => "Level 3: extreme, expected, likely",
        4375 => "Level 3: severe, immediate, observed",
        4376 => "Level 3: severe, immediate, likely",
        4377 => "Level 3: severe, expected, observed",
        4378 => "Level 3: severe, expected, likely",
        4379 => "Child abduction: EU-Amber",
        4380 => "Test: monthly",
        4381 => "Exercise",
        4382 => "Operator's own use",
        4396 => "Level 4: public safety, EU-Info",
        4398 => "Test: state or local",
        _ => "",
    }
}
