//! The times of slots, and the axis under a cell's lines.

ghost use Rattle.std.specs.Prelude.{◌≡◌, ◌<◌, ◌≤◌, ◌++◌, OnOk};
ghost use Rattle.std.specs.List.{flat_map, range_with_len};
ghost use Rattle.chart.specs.Time.{axis, clock_text, day_begun, first_number, has_few, hours_text, place_of};
ghost use Rattle.chart.specs.Time.{place_text, seconds_at, slot_text, step_in, step_of, tick};
ghost use Rattle.chart.specs.declared.time.TheConstants.{MOST_TICKS};
ghost use Rattle.chart.specs.Time.{tick_front, tick_within, ticks, time_in_brackets, time_text, two_digits};

use crate::page::Page;
use crate::view::Stretch;
use crate::word::{Word, Wording};
use slot_times::Start;
use std::alloc::AllocError;

/// Between hours, minutes and seconds.
pub const COLON: &str = ":";

/// What comes before a time in brackets.
pub const BRACKET: &str = " (";

/// What comes after it.
pub const BRACKET_END: &str = ")";

/// The most ticks of an axis.
pub const MOST_TICKS: u16 = 6;

/// The front of a tick, up to where it stands.
pub const TICK: &str = "<span style=\"--at:calc(100%*";

/// Between slots and their hundredths.
pub const POINT: &str = ".";

/// Between where a tick stands and the slots of the run.
pub const OF: &str = "/";

/// What comes after where it stands.
pub const TICK_PLACED: &str = ")\">";

/// Between a tick's slot and its time.
pub const AT: &str = "<br>";

/// The end of a tick.
pub const TICK_END: &str = "</span>\n";

/// The front of the axis, up to its name.
pub const AXIS: &str = "<div><p>";

/// What comes after its name.
pub const AXIS_NAMED: &str = "</p><p class=\"axis\">\n";

/// The end of the axis.
pub const AXIS_END: &str = "</p></div>\n";

/// Appends a number below 100 in two digits.
#[tactic(auto, unfolding(crate::specs::Time::two_digits))]
fn push_two_digits(page: &mut Page, number: u64) -> Result<(), AllocError>
    ensures { OnOk result (page.new ≡ page.old ++ two_digits number) }
{
    page.number(number / 10)?;
    page.number(number % 10)
}

/// How many microseconds of its day, in UTC, had passed when slot 0 began, if that is known.
fn day_begun(start: Option<Start>) -> u64
    ensures value { result ≡ day_begun start }
    ensures bound { result < 86400000000 }
{
    match start {
        None => 0,
        Some(start) => start.microseconds % 86_400_000_000,
    }
}

/// Appends the hours of this many seconds, or of their day.
#[tactic(auto, unfolding(crate::specs::Time::hours_text))]
fn push_hours(page: &mut Page, start: Option<Start>, seconds: u64) -> Result<(), AllocError>
    ensures { OnOk result (page.new ≡ page.old ++ hours_text start seconds) }
{
    match start {
        None => page.number(seconds / 3600),
        Some(_) => push_two_digits(page, seconds / 3600 % 24),
    }
}

/// Appends this many seconds as hours, minutes and seconds, or as the time of day.
#[tactic(auto, unfolding(crate::specs::Time::clock_text))]
fn push_clock(page: &mut Page, start: Option<Start>, seconds: u64) -> Result<(), AllocError>
    ensures { OnOk result (page.new ≡ page.old ++ clock_text start seconds) }
{
    push_hours(page, start, seconds)?;
    page.markup(COLON)?;
    push_two_digits(page, seconds / 60 % 60)?;
    page.markup(COLON)?;
    push_two_digits(page, seconds % 60)
}

/// When a slot begins, cut down to whole seconds. A slot lasts 8 * 51 frames of 120/26 ms (3GPP TS 45.002), which are
/// 24480000/13 microseconds.
fn seconds_at(start: Option<Start>, slot: u32) -> u64
    ensures { result ≡ seconds_at start slot }
{
    (day_begun(start) * 13 + u64::from(slot) * 24_480_000) / 13_000_000
}

/// Appends when a slot begins.
#[tactic(auto, unfolding(crate::specs::Time::time_text))]
pub(crate) fn push_time(page: &mut Page, start: Option<Start>, slot: u32) -> Result<(), AllocError>
    ensures { OnOk result (page.new ≡ page.old ++ time_text start slot) }
{
    push_clock(page, start, seconds_at(start, slot))
}

/// Appends that time in brackets.
#[tactic(auto, unfolding(crate::specs::Time::time_in_brackets))]
pub(crate) fn push_time_in_brackets(
    page: &mut Page,
    start: Option<Start>,
    slot: u32,
) -> Result<(), AllocError>
    ensures { OnOk result (page.new ≡ page.old ++ time_in_brackets start slot) }
{
    page.markup(BRACKET)?;
    push_time(page, start, slot)?;
    page.markup(BRACKET_END)
}

/// Appends a slot and its time.
#[tactic(auto, unfolding(crate::specs::Time::slot_text))]
pub(crate) fn push_slot(page: &mut Page, start: Option<Start>, slot: u32) -> Result<(), AllocError>
    ensures { OnOk result (page.new ≡ page.old ++ slot_text start slot) }
{
    page.number(u64::from(slot))?;
    push_time_in_brackets(page, start, slot)
}

/// Whether a run of this many seconds lasts less than six such steps.
fn has_few(step: u16, seconds: u64) -> bool
    ensures { result ≡ has_few step seconds }
{
    seconds < u64::from(step) * 6
}

/// The seconds from one tick to the next: the first of these round times of which the run lasts less than six.
fn step_of(seconds: u64) -> u16
    ensures { result ≡ step_of seconds }
{
    if has_few(10, seconds) {
        10
    } else if has_few(30, seconds) {
        30
    } else if has_few(60, seconds) {
        60
    } else if has_few(120, seconds) {
        120
    } else if has_few(300, seconds) {
        300
    } else if has_few(600, seconds) {
        600
    } else if has_few(1800, seconds) {
        1800
    } else if has_few(3600, seconds) {
        3600
    } else if has_few(7200, seconds) {
        7200
    } else if has_few(14400, seconds) {
        14400
    } else {
        21600
    }
}

/// Appends where a tick stands, in slots.
#[tactic(auto, unfolding(crate::specs::Time::place_text))]
fn push_place(page: &mut Page, place: u64) -> Result<(), AllocError>
    ensures { OnOk result (page.new ≡ page.old ++ place_text place) }
{
    page.number(place / 100)?;
    page.markup(POINT)?;
    push_two_digits(page, place % 100)
}

/// Appends the front of a tick: where it stands of the slots that are drawn.
#[tactic(auto, unfolding(crate::specs::Time::tick_front))]
fn push_tick_front(page: &mut Page, width: u16, place: u64) -> Result<(), AllocError>
    ensures { OnOk result (page.new ≡ page.old ++ tick_front width place) }
{
    page.markup(TICK)?;
    push_place(page, place)?;
    page.markup(OF)?;
    page.number(u64::from(width))?;
    page.markup(TICK_PLACED)
}

/// Where a time stands on the axis, in hundredths of a slot.
fn place_of(start: Option<Start>, seconds: u32) -> u64
    ensures { result ≡ place_of start seconds }
{
    (u64::from(seconds) * 1_000_000).saturating_sub(day_begun(start)) * 1300 / 24_480_000
}

/// Appends the tick of a time.
#[tactic(auto, unfolding(crate::specs::Time::tick))]
fn push_tick(
    page: &mut Page,
    start: Option<Start>,
    stretch: Stretch,
    seconds: u32,
) -> Result<(), AllocError>
    ensures { OnOk result (page.new ≡ page.old ++ tick start stretch seconds) }
{
    let place = place_of(start, seconds);
    let drawn = place.saturating_sub(u64::from(stretch.from) * 100);
    push_tick_front(page, stretch.width(), drawn)?;
    page.number(place / 100)?;
    page.markup(AT)?;
    push_clock(page, start, u64::from(seconds))?;
    page.markup(TICK_END)
}

/// Appends the tick of this number, unless it comes after what is drawn.
fn push_tick_within(
    page: &mut Page,
    start: Option<Start>,
    stretch: Stretch,
    step: u16,
    number: u16,
) -> Result<(), AllocError>
    ensures { OnOk result (page.new ≡ page.old ++ tick_within start stretch step number) }
{
    let seconds = u32::from(number) * u32::from(step);
    if u64::from(seconds) > seconds_at(start, u32::from(stretch.to)) {
        return Ok(());
    }
    push_tick(page, start, stretch, seconds)
}

/// Appends the most ticks that an axis may have, from this number on.
fn push_ticks_by(
    page: &mut Page,
    start: Option<Start>,
    stretch: Stretch,
    step: u16,
    first: u16,
) -> Result<(), AllocError>
    requires { first < 65000 }
    ensures { OnOk result (page.new ≡ page.old
        ++ flat_map (tick_within start stretch step) (range_with_len first MOST_TICKS)) }
{
    for number in first..first + MOST_TICKS {
        push_tick_within(page, start, stretch, step, number)?;
    }
    Ok(())
}

/// The number of the first multiple of a step that doesn't come before a slot.
fn first_number(start: Option<Start>, from: u16, step: u16) -> u16
    requires { 10 ≤ step }
    ensures number { result ≡ first_number start from step }
    ensures within { result < 65000 }
{
    let begun = day_begun(start) * 13 + u64::from(from) * 24_480_000;
    begun.div_ceil(u64::from(step) * 13_000_000) as u16
}

/// The seconds from one tick to the next.
fn step_in(start: Option<Start>, stretch: Stretch) -> u16
    ensures step { result ≡ step_in start stretch }
    ensures long { 10 ≤ result }
{
    let end = seconds_at(start, u32::from(stretch.to));
    step_of(end.saturating_sub(seconds_at(start, u32::from(stretch.from))))
}

/// Appends the ticks of an axis.
#[tactic(auto, unfolding(crate::specs::Time::ticks))]
fn push_ticks(page: &mut Page, start: Option<Start>, stretch: Stretch) -> Result<(), AllocError>
    ensures { OnOk result (page.new ≡ page.old ++ ticks start stretch) }
{
    let step = step_in(start, stretch);
    push_ticks_by(
        page,
        start,
        stretch,
        step,
        first_number(start, stretch.from, step),
    )
}

/// Appends the axis.
#[tactic(auto, unfolding(crate::specs::Time::axis))]
pub(crate) fn push_axis(
    page: &mut Page,
    wording: Wording,
    stretch: Stretch,
) -> Result<(), AllocError>
    ensures { OnOk result (page.new ≡ page.old ++ axis wording stretch) }
{
    page.markup(AXIS)?;
    page.word(wording, Word::Axis)?;
    page.markup(AXIS_NAMED)?;
    push_ticks(page, wording.start, stretch)?;
    page.markup(AXIS_END)
}
