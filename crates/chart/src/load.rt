//! The loads that a cell has reserved, over the slots of its run.

ghost use Rattle.std.specs.Prelude.{◌≡◌, ◌+◌, ◌<◌, ◌≤◌, ◌++◌, ◌&&◌, ℕ, nat_le, nat_lt, if◌then◌else◌, List, length};
ghost use Rattle.std.specs.Prelude.{map, slice_index, All, IfOk, OnOk};
ghost use Rattle.std.specs.Fmt.{decimal};
ghost use Rattle.std.specs.List.{flat_map, range_with_len};
ghost use Rattle.admission.specs.declared.measure.TheConstants.{SCALE};
ghost use Rattle.bsc_table.specs.Claim.{Claim, claim_at, claimed_at};
ghost use Rattle.bsc_table.specs.Record.{Record, claim_of, claims_in, claims_of};
ghost use Rattle.bsc_table.specs.Room.{ClaimsFit};
ghost use Rattle.chart.specs.ChartText.{load_end, load_front, load_picture, load_shape, load_title};
ghost use Rattle.chart.specs.ChartText.{load_width};
ghost use Rattle.chart.specs.Kept.{accepted_kept, all_kept, load_within, HavePeriods};
ghost use Rattle.chart.specs.Load.{height_of, step_at, step_text, AreLoads, AreLoadsFrom};
ghost use Rattle.chart.specs.View.{width_of};
ghost use Rattle.chart.specs.declared.load.TheConstants.{LOAD_HEIGHT};
ghost use Rattle.chart.specs.Message.{end_within};

use crate::kept::KeptMessage;
use crate::page::Page;
use crate::view::Stretch;
use crate::word::{Word, Wording};
use admission::SCALE;
use std::alloc::{AllocError, Global};

/// How high the picture of the loads is, which is the height of a full cell: a divisor of [`SCALE`], since Firefox
/// leaves a path out whose numbers are as great as that.
pub const LOAD_HEIGHT: u64 = 1008;

/// How much load is drawn one step higher.
pub const LOAD_STEP: u64 = SCALE / LOAD_HEIGHT;

/// The front of the line of the loads, up to its name.
pub const LOAD: &str = "<div><p>";

/// What comes after its name, up to the first slot of the picture.
pub const LOAD_NAMED: &str = "</p>\n<svg class=\"loads\" viewBox=\"";

/// What comes between its first slot and its width.
pub const LOAD_ORIGIN: &str = " 0 ";

/// What comes between its width and its height, and between the first slot and the height at which the line begins.
pub const LOAD_BOX: &str = " ";

/// What comes between its height and its title.
pub const LOAD_TITLE: &str = "\" preserveAspectRatio=\"none\" role=\"img\"><title>";

/// What comes between its title and the first slot, at which the line begins at the bottom.
pub const LOAD_PATH: &str = "</title>\n<path class=\"load\" d=\"M";

/// What comes before a slot to which the line goes on.
pub const TO_SLOT: &str = "H";

/// What comes before a height to which it goes on.
pub const TO_LOAD: &str = "V";

/// The end of the picture, after the bottom's height.
pub const SHAPE_END: &str = "z\"/></svg>";

/// The end of the line of the loads.
pub const LOAD_END: &str = "</div>\n";

/// The first slot after a message's reservation, or after the run.
pub(crate) fn end_within(kept: &KeptMessage, slots: usize) -> usize
    requires { 0 < kept.now.period }
    ensures end { result ≡ end_within slots (accepted_kept kept.now).message }
    ensures within { result ≤ slots }
{
    match kept.end() {
        None => slots,
        Some(end) => end.min(slots as u64) as usize,
    }
}

/// The slots that a message reserves: up to its start its excess, and then its load.
#[derive(Clone, Copy)]
struct Reserved {
    /// The slot at which it was accepted.
    accepted: usize,
    /// The slot from which it is broadcast.
    start: usize,
    /// The first slot after its reservation, or after the run.
    end: usize,
    excess: u64,
    load: u64,
}

/// Adds a load to those of the slots from one on, up to, and without, another one.
fn add_load(loads: &mut [u64], from: usize, to: usize, load: u64)
    requires within { to ≤ length loads.old }
    requires room { (slot : ℕ) → slot < length loads.old → from ≤ slot → slot < to
        → slice_index loads.old slot + load ≤ SCALE }
    ensures same { length loads.new ≡ length loads.old }
    ensures each { (slot : ℕ) → slot < length loads.old
        → slice_index loads.new slot ≡ slice_index loads.old slot
        + (if nat_le from slot && nat_lt slot to then load else 0) }
{
    for slot in from..to {
        loads[slot] += load;
    }
}

/// Adds what is reserved at each slot to what others reserve.
fn add_reserved(loads: &mut [u64], reserved: Reserved)
    requires within { reserved.end ≤ length loads.old }
    requires room { (slot : ℕ) → slot < length loads.old
        → slice_index loads.old slot + load_within reserved slot ≤ SCALE }
    ensures same { length loads.new ≡ length loads.old }
    ensures each { (slot : ℕ) → slot < length loads.old
        → slice_index loads.new slot ≡ slice_index loads.old slot + load_within reserved slot }
{
    let start = reserved.start.max(reserved.accepted).min(reserved.end);
    add_load(loads, reserved.accepted, start, reserved.excess);
    add_load(
        loads,
        start.max(reserved.accepted),
        reserved.end,
        reserved.load,
    );
}

/// Adds what a message reserves at each slot to what others do.
fn add_claim(loads: &mut [u64], kept: &KeptMessage)
    requires period { 0 < kept.now.period }
    requires room { (slot : ℕ) → slot < length loads.old
        → slice_index loads.old slot + claim_at slot (claim_of (accepted_kept kept.now)) ≤ SCALE }
    ensures same { length loads.new ≡ length loads.old }
    ensures each { (slot : ℕ) → slot < length loads.old
        → slice_index loads.new slot ≡ slice_index loads.old slot
        + claim_at slot (claim_of (accepted_kept kept.now)) }
{
    let reserved = Reserved {
        accepted: usize::from(kept.accepted),
        start: kept.start as usize,
        end: end_within(kept, loads.len()),
        excess: kept.excess,
        load: kept.load(),
    };
    add_reserved(loads, reserved);
}

/// What these messages reserve at each slot of a run, all together. The only error is out of memory.
fn summed_loads(alloc: Global, all: &[KeptMessage], slots: u16) -> Result<Vec<u64>, AllocError>
    requires periods { HavePeriods all.now }
    requires fit { ClaimsFit (claims_of (all_kept all.now)) }
    ensures slots { IfOk result (λ loads. length loads.items ≡ slots) }
    ensures loads { IfOk result (λ loads. AreLoads (claims_of (all_kept all.now)) loads.items) }
{
    let mut loads = vec![in alloc; 0; usize::from(slots)]?;
    for kept in all {
        if kept.reserves() {
            add_claim(loads.as_mut_slice(), kept);
        }
    }
    Ok(loads)
}

/// The loads that these messages have reserved at each slot of a run, in parts of `SCALE`. The only error is out of
/// memory.
pub(crate) fn loads_of(
    alloc: Global,
    all: &[KeptMessage],
    slots: u16,
) -> Result<Vec<u64>, AllocError>
    requires periods { HavePeriods all.now }
    requires fit { ClaimsFit (claims_of (all_kept all.now)) }
    ensures slots { IfOk result (λ loads. length loads.items ≡ slots) }
    ensures loads { IfOk result (λ loads. AreLoads (claims_of (all_kept all.now)) loads.items) }
    ensures all { IfOk result (λ loads. loads.items
        ≡ map (claimed_at (claims_of (all_kept all.now))) (range_with_len 0 slots)) }
    ensures within { IfOk result (λ loads. All (λ load. load ≤ SCALE) loads.items) }
{
    let loads = summed_loads(alloc, all, slots)?;
    Ok(loads)
}

/// The loads from a slot to another one.
fn loads_between(loads: &[u64], stretch: Stretch) -> &[u64]
    requires ordered { stretch.from ≤ stretch.to }
    requires within { stretch.to ≤ length loads.now }
    ensures width { length result.now ≡ width_of stretch }
    ensures loads { (claims : List Claim) → AreLoads claims loads.now → AreLoadsFrom stretch.from claims result.now }
    ensures within { All (λ load. load ≤ SCALE) loads.now → All (λ load. load ≤ SCALE) result.now }
{
    &loads[usize::from(stretch.from)..usize::from(stretch.to)]
}

/// The loads at the slots that are drawn.
pub(crate) fn loads_within(loads: &[u64], stretch: Stretch) -> &[u64]
    requires ordered { stretch.from ≤ stretch.to }
    requires within { stretch.to ≤ length loads.now }
    ensures width { length result.now ≡ width_of stretch }
    ensures loads { (claims : List Claim) → AreLoads claims loads.now → AreLoadsFrom stretch.from claims result.now }
    ensures all { (claims : List Claim) → AreLoads claims loads.now
        → result.now ≡ map (claimed_at claims) (range_with_len stretch.from (width_of stretch)) }
    ensures within { All (λ load. load ≤ SCALE) loads.now → All (λ load. load ≤ SCALE) result.now }
{
    let drawn = loads_between(loads, stretch);
    drawn
}

/// How far below the picture's top a load is drawn, in whole steps: a full cell at the top, none at the bottom.
fn height_of(load: u64) -> u64
    ensures { result ≡ height_of load }
{
    LOAD_HEIGHT.saturating_sub(load / LOAD_STEP)
}

/// Appends the line at a slot.
fn push_step(page: &mut Page, slot: usize, before: u64, load: u64) -> Result<(), AllocError>
    ensures { OnOk result (page.new ≡ page.old ++ step_text slot before load) }
{
    if load == before {
        return Ok(());
    }
    page.markup(TO_SLOT)?;
    page.number(slot as u64)?;
    page.markup(TO_LOAD)?;
    page.number(height_of(load))
}

/// Appends the line at the slot that comes so many after another one.
fn push_step_after(
    page: &mut Page,
    from: u16,
    place: usize,
    before: u64,
    load: u64,
) -> Result<(), AllocError>
    requires { from + place < 65536 }
    ensures { OnOk result (page.new ≡ page.old ++ step_text (from + place) before load) }
{
    push_step(page, usize::from(from) + place, before, load)
}

/// Appends the line over the slots from this one on.
fn push_line(page: &mut Page, from: u16, loads: &[u64]) -> Result<(), AllocError>
    requires { from + length loads.now < 65536 }
    ensures { OnOk result ((claims : List Claim) → AreLoadsFrom from claims loads.now
        → page.new ≡ page.old ++ flat_map (step_at from claims) (range_with_len from (length loads.now))) }
{
    let mut before = 0;
    for (place, load) in loads.iter().enumerate() {
        push_step_after(page, from, place, before, *load)?;
        before = *load;
    }
    Ok(())
}

/// Appends the height of the picture's bottom. Heights are counted from the top, at which the cell is full.
fn push_bottom(page: &mut Page) -> Result<(), AllocError>
    ensures { OnOk result (page.new ≡ page.old ++ decimal LOAD_HEIGHT) }
{
    page.number(LOAD_HEIGHT)
}

/// Appends the size of the picture of the loads, up to its height.
#[tactic(auto, unfolding(crate::specs::ChartText::load_width))]
fn push_width(page: &mut Page, stretch: Stretch) -> Result<(), AllocError>
    ensures { OnOk result (page.new ≡ page.old ++ load_width stretch) }
{
    page.number(u64::from(stretch.from))?;
    page.markup(LOAD_ORIGIN)?;
    page.number(u64::from(stretch.width()))?;
    page.markup(LOAD_BOX)
}

/// Appends the title of the picture.
#[tactic(auto, unfolding(crate::specs::ChartText::load_title))]
fn push_title(page: &mut Page, wording: Wording) -> Result<(), AllocError>
    ensures { OnOk result (page.new ≡ page.old ++ load_title wording) }
{
    page.markup(LOAD_TITLE)?;
    page.word(wording, Word::Load)?;
    page.markup(LOAD_PATH)
}

/// Appends the front of the picture, up to the begin of the line.
#[tactic(auto, unfolding(crate::specs::ChartText::load_front))]
fn push_front(page: &mut Page, wording: Wording, stretch: Stretch) -> Result<(), AllocError>
    ensures { OnOk result (page.new ≡ page.old ++ load_front wording stretch) }
{
    push_width(page, stretch)?;
    push_bottom(page)?;
    push_title(page, wording)?;
    page.number(u64::from(stretch.from))?;
    page.markup(LOAD_BOX)?;
    push_bottom(page)
}

/// Appends the end of the picture of the loads.
#[tactic(auto, unfolding(crate::specs::ChartText::load_end))]
fn push_end(page: &mut Page, to: u16) -> Result<(), AllocError>
    ensures { OnOk result (page.new ≡ page.old ++ load_end to) }
{
    page.markup(TO_SLOT)?;
    page.number(u64::from(to))?;
    page.markup(TO_LOAD)?;
    push_bottom(page)?;
    page.markup(SHAPE_END)
}

/// Appends the loads that are reserved at the slots that are drawn as a shape, from the first slot of its picture on.
#[tactic(auto, unfolding(crate::specs::ChartText::load_shape))]
pub(crate) fn push_shape(
    page: &mut Page,
    wording: Wording,
    stretch: Stretch,
    loads: &[u64],
) -> Result<(), AllocError>
    requires width { length loads.now ≡ width_of stretch }
    requires ordered { stretch.from ≤ stretch.to }
    ensures { OnOk result ((r : Record) → AreLoadsFrom stretch.from (claims_in r.log) loads.now
        → page.new ≡ page.old ++ load_shape wording r stretch) }
{
    push_front(page, wording, stretch)?;
    push_line(page, stretch.from, loads)?;
    push_end(page, stretch.to)
}

/// Appends the line of the loads that are reserved at the slots that are drawn.
pub(crate) fn push_loads(
    page: &mut Page,
    wording: Wording,
    stretch: Stretch,
    loads: &[u64],
) -> Result<(), AllocError>
    requires width { length loads.now ≡ width_of stretch }
    requires ordered { stretch.from ≤ stretch.to }
    ensures { OnOk result ((r : Record) → AreLoadsFrom stretch.from (claims_in r.log) loads.now
        → page.new ≡ page.old ++ load_picture wording r stretch) }
{
    page.markup(LOAD)?;
    page.word(wording, Word::Load)?;
    page.markup(LOAD_NAMED)?;
    push_shape(page, wording, stretch, loads)?;
    page.markup(LOAD_END)
}
