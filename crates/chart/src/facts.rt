//! What counts of a cell: how many messages it took, how many orders it refused, and how full it gets.

ghost use Rattle.std.specs.Prelude.{◌≡◌, ◌+◌, ◌<◌, ◌≤◌, ◌++◌, ◌==◌, count_by, length, All, OnOk};
ghost use Rattle.std.specs.List.{position_from};
ghost use Rattle.std.specs.Option.{unwrap_or};
ghost use Rattle.admission.specs.declared.measure.TheConstants.{SCALE};
ghost use Rattle.chart.specs.Facts.{facts_of, facts_text, fullest_text, hundredths, is_refusal, most_of};

use crate::page::Page;
use crate::time::push_time;
use crate::word::{Word, Wording};
use admission::SCALE;
use report::{Row, Showing};
use std::alloc::AllocError;

/// What counts of a cell.
#[derive(Clone, Copy, Debug, PartialEq, Eq)]
pub struct Facts {
    /// How many messages it accepted.
    pub messages: usize,
    /// How many orders it refused.
    pub refused: usize,
    /// The most load that it has reserved at a slot, in parts of `SCALE`.
    pub most: u64,
    /// The first slot at which it has.
    pub slot: u16,
}

/// Whether a row is of a refused order.
fn is_refusal(row: &Row) -> bool
    ensures { result ≡ is_refusal row.now }
{
    match row.shown {
        Showing::Yes | Showing::No => false,
        Showing::Refused(_) => true,
    }
}

/// How many rows are of refused orders.
fn count_refused(rows: &[Row]) -> usize
    ensures { result ≡ count_by is_refusal rows.now }
{
    let mut count = 0;
    for row in rows {
        count += usize::from(is_refusal(row));
    }
    count
}

/// The greatest of these loads; 0 if there are none.
pub(crate) fn most_of(loads: &[u64]) -> u64
    ensures most { result ≡ most_of loads.now }
    ensures within { All (λ load. load ≤ SCALE) loads.now → result ≤ SCALE }
{
    let mut most = 0;
    for load in loads {
        most = most.max(*load);
    }
    most
}

/// The first slot with this load; 0 if there is none.
pub(crate) fn slot_of(loads: &[u64], most: u64) -> u16
    requires { length loads.now < 65536 }
    ensures slot { result ≡ unwrap_or (position_from (λ load. load == most) 0 loads.now) 0 }
    ensures within { result ≤ length loads.now }
{
    for (slot, load) in loads.iter().enumerate() {
        if *load == most {
            return slot as u16;
        }
    }
    0
}

/// What counts of a cell with these rows of its report, which has reserved these loads at the slots from this one on.
pub(crate) fn facts_of(rows: &[Row], from: u16, loads: &[u64]) -> Facts
    requires { from + length loads.now < 65536 }
    ensures facts { result ≡ facts_of rows.now from loads.now }
    ensures within { All (λ load. load ≤ SCALE) loads.now → result.most ≤ SCALE }
{
    let refused = count_refused(rows);
    let most = most_of(loads);
    Facts {
        messages: rows.len().saturating_sub(refused),
        refused,
        most,
        slot: from + slot_of(loads, most),
    }
}

/// How many hundredths of a cell a load takes, in parts of [`SCALE`], rounded up.
pub fn hundredths(load: u64) -> u64
    requires { load ≤ SCALE }
    ensures { result ≡ hundredths load }
{
    (load * 100).div_ceil(SCALE)
}

/// Appends how full a cell gets, and when.
#[tactic(auto, unfolding(crate::specs::Facts::fullest_text))]
pub(crate) fn push_fullest(
    page: &mut Page,
    wording: Wording,
    facts: Facts,
) -> Result<(), AllocError>
    requires { facts.most ≤ SCALE }
    ensures { OnOk result (page.new ≡ page.old ++ fullest_text wording facts) }
{
    page.number(hundredths(facts.most))?;
    page.word(wording, Word::ShareAt)?;
    push_time(page, wording.start, u32::from(facts.slot))
}

/// Appends what counts of a cell.
#[tactic(auto, unfolding(crate::specs::Facts::facts_text))]
pub(crate) fn push_facts(page: &mut Page, wording: Wording, facts: Facts) -> Result<(), AllocError>
    requires { facts.most ≤ SCALE }
    ensures { OnOk result (page.new ≡ page.old ++ facts_text wording facts) }
{
    page.word(wording, Word::Messages)?;
    page.number(facts.messages as u64)?;
    page.word(wording, Word::Refused)?;
    page.number(facts.refused as u64)?;
    page.word(wording, Word::Fullest)?;
    push_fullest(page, wording, facts)
}
