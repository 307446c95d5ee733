//! What is drawn of a run: the whole run, or a part of it.

ghost use Rattle.std.specs.Prelude.{◌≡◌, ◌≤◌};
ghost use Rattle.chart.specs.View.{bar_from, bar_width, holds, is_drawn, stretch_of, touches, width_of};

use crate::word::Wording;
use cbsp_wire::Cell;
use report::Row;

/// A part of a run.
#[derive(Clone, Copy, Debug, PartialEq, Eq)]
pub struct Part {
    /// Its first slot.
    pub from: u16,
    /// The slot after its last one. The part ends where the run does, if that comes first.
    pub to: u16,
}

/// What is drawn of a run.
#[derive(Clone, Copy, Debug, PartialEq, Eq)]
pub struct View {
    /// The one cell that is drawn, or all.
    pub cell: Option<Cell>,
    /// The part that is drawn, or the whole run.
    pub part: Option<Part>,
    /// The language and the clock of the page.
    pub wording: Wording,
}

/// The slots of a run that are drawn.
#[derive(Clone, Copy, Debug, PartialEq, Eq)]
pub struct Stretch {
    /// The first of them.
    pub from: u16,
    /// The slot after the last one.
    pub to: u16,
    /// Whether they are a part that was asked for.
    pub is_part: bool,
}

/// The slots that are drawn of a run of so many.
pub(crate) fn stretch_of(part: Option<Part>, slots: u16) -> Stretch
    ensures stretch { result ≡ stretch_of part slots }
    ensures ordered { result.from ≤ result.to }
    ensures within { result.to ≤ slots }
{
    match part {
        None => Stretch {
            from: 0,
            to: slots,
            is_part: false,
        },
        Some(part) => {
            let from = part.from.min(slots);
            Stretch {
                from,
                to: from.max(part.to.min(slots)),
                is_part: true,
            }
        }
    }
}

/// Whether what lasts from a slot to another one touches a part.
fn touches(from: u32, to: u32, start: u32, end: u32) -> bool
    ensures { result ≡ touches from to start end }
{
    if start == end {
        from <= start && start <= to
    } else {
        start.min(end) < to && from < start.max(end)
    }
}

impl Stretch {
    /// How many slots are drawn.
    pub(crate) fn width(self) -> u16
        ensures { result ≡ width_of self }
    {
        self.to.saturating_sub(self.from)
    }

    /// Whether a row has a line.
    pub(crate) fn is_drawn(self, row: &Row) -> bool
        ensures { result ≡ is_drawn self row.now }
    {
        !self.is_part
            || touches(
                u32::from(self.from),
                u32::from(self.to),
                row.start,
                u32::from(row.end),
            )
    }

    /// Where the bar of a row begins.
    pub(crate) fn bar_from(self, row: &Row) -> u32
        ensures { result ≡ bar_from self row.now }
    {
        row.start.max(u32::from(self.from))
    }

    /// How many slots it is long.
    pub(crate) fn bar_width(self, row: &Row) -> u32
        ensures { result ≡ bar_width self row.now }
    {
        u32::from(row.end.min(self.to)).saturating_sub(self.bar_from(row))
    }

    /// Whether a slot is drawn.
    pub(crate) fn holds(self, slot: u16) -> bool
        ensures { result ≡ holds self slot }
    {
        self.from <= slot && slot < self.to
    }
}
