//! The sections of cells: those with the same contents have one, and an overview comes before all.

ghost use Rattle.std.specs.Prelude.{◌≡◌, ◌<◌, ◌++◌, length, OnOk};
ghost use Rattle.std.specs.List.{flat_map, range_with_len};
ghost use Rattle.chart.specs.Panels.{are_in_turn, cell_name, heading, heading_of_all, listed_text, more_if, more_text};
ghost use Rattle.chart.specs.Panels.{names_text, one_heading, overview, section_at, section_front, sections_text};
ghost use Rattle.chart.specs.Panels.{span_text, strip_at, strip_front};

use crate::page::Page;
use crate::panel::{Panel, cells_like, is_any_like};
use crate::word::{Word, Wording};
use cbsp_wire::Cell;
use std::alloc::{AllocError, Global};

/// Between a location area code and a cell identity.
pub const DASH: &str = "-";

/// What comes after a name of several.
pub const COMMA: &str = ", ";

/// The front of a section, up to the name of its first cell.
pub const SECTION: &str = "<details open id=\"c";

/// What comes before its heading.
pub const SECTION_NAME: &str = "\">\n<summary><h2>";

/// The front of a strip, up to the name of its section.
pub const STRIP: &str = "<a href=\"#c";

/// What comes before the name of its cells.
pub const STRIP_NAME: &str = "\"><b>";

/// What comes before its loads, up to their first slot.
pub const STRIP_PICTURE: &str = "</b>\n<svg class=\"loads\" viewBox=\"";

/// The front of the overview, up to its name.
pub const OVERVIEW: &str = "<nav aria-label=\"";

/// What comes after its name.
pub const OVERVIEW_NAMED: &str = "\">\n";

/// The end of the overview.
pub const OVERVIEW_END: &str = "</nav>\n";

/// Appends the name of a cell.
#[tactic(auto, unfolding(crate::specs::Panels::cell_name))]
fn push_name(page: &mut Page, cell: Cell) -> Result<(), AllocError>
    ensures { OnOk result (page.new ≡ page.old ++ cell_name cell) }
{
    page.number(u64::from(cell.lac))?;
    page.markup(DASH)?;
    page.number(u64::from(cell.ci))
}

/// Whether cells have the location area code of the first, and cell identities from its own on without a gap.
fn are_in_turn(first: Cell, cells: &[Cell]) -> bool
    ensures { result ≡ are_in_turn first.lac first.ci cells.now }
{
    for (place, cell) in cells.iter().enumerate() {
        if cell.lac != first.lac || usize::from(cell.ci) != usize::from(first.ci) + place {
            return false;
        }
    }
    true
}

/// Appends the names of the first and the last of cells that are in turn.
#[tactic(auto, unfolding(crate::specs::Panels::span_text))]
fn push_span(
    page: &mut Page,
    wording: Wording,
    first: Cell,
    cells: &[Cell],
) -> Result<(), AllocError>
    ensures { OnOk result (page.new ≡ page.old ++ span_text wording first (length cells.now)) }
{
    push_name(page, first)?;
    page.word(wording, Word::To)?;
    page.number(u64::from(first.lac))?;
    page.markup(DASH)?;
    page.number(u64::from(first.ci) + cells.len().saturating_sub(1) as u64)?;
    page.markup(COMMA)
}

/// Appends the name of one of several cells.
#[tactic(auto, unfolding(crate::specs::Panels::listed_text))]
fn push_listed(page: &mut Page, cell: Cell) -> Result<(), AllocError>
    ensures { OnOk result (page.new ≡ page.old ++ listed_text cell) }
{
    push_name(page, cell)?;
    page.markup(COMMA)
}

/// Appends the names of all cells.
fn push_list(page: &mut Page, cells: &[Cell]) -> Result<(), AllocError>
    ensures { OnOk result (page.new ≡ page.old ++ flat_map listed_text cells.now) }
{
    for cell in cells {
        push_listed(page, *cell)?;
    }
    Ok(())
}

/// Appends the names of several cells.
fn push_names(
    page: &mut Page,
    wording: Wording,
    first: Cell,
    cells: &[Cell],
) -> Result<(), AllocError>
    ensures { OnOk result (page.new ≡ page.old ++ names_text wording first cells.now) }
{
    if are_in_turn(first, cells) {
        push_span(page, wording, first, cells)
    } else {
        push_list(page, cells)
    }
}

/// Appends the heading of one cell.
#[tactic(auto, unfolding(crate::specs::Panels::one_heading))]
fn push_one_heading(page: &mut Page, wording: Wording, cell: Cell) -> Result<(), AllocError>
    ensures { OnOk result (page.new ≡ page.old ++ one_heading wording cell) }
{
    page.word(wording, Word::Cell)?;
    push_name(page, cell)
}

/// Appends the heading of several cells.
#[tactic(auto, unfolding(crate::specs::Panels::heading_of_all))]
fn push_heading_of_all(
    page: &mut Page,
    wording: Wording,
    first: Cell,
    cells: &[Cell],
) -> Result<(), AllocError>
    ensures { OnOk result (page.new ≡ page.old ++ heading_of_all wording first cells.now) }
{
    page.word(wording, Word::Cells)?;
    push_names(page, wording, first, cells)?;
    page.number(cells.len() as u64)?;
    page.word(wording, Word::CellsEnd)
}

/// Appends the heading of cells.
fn push_heading(
    page: &mut Page,
    wording: Wording,
    first: Cell,
    cells: &[Cell],
) -> Result<(), AllocError>
    ensures { OnOk result (page.new ≡ page.old ++ heading wording first cells.now) }
{
    if cells.len() <= 1 {
        push_one_heading(page, wording, first)
    } else {
        push_heading_of_all(page, wording, first, cells)
    }
}

/// Appends the front of a section, up to its contents.
#[tactic(auto, unfolding(crate::specs::Panels::section_front))]
fn push_section_front(
    page: &mut Page,
    wording: Wording,
    first: Cell,
    cells: &[Cell],
) -> Result<(), AllocError>
    ensures { OnOk result (page.new ≡ page.old ++ section_front wording first cells.now) }
{
    page.markup(SECTION)?;
    push_name(page, first)?;
    page.markup(SECTION_NAME)?;
    push_heading(page, wording, first, cells)
}

/// Appends the section of the cells with the contents of a panel, if it is the first of them.
fn push_section(
    alloc: Global,
    page: &mut Page,
    wording: Wording,
    all: &[Panel],
    place: usize,
) -> Result<(), AllocError>
    requires { place < length all.now }
    ensures { OnOk result (page.new ≡ page.old ++ section_at wording all.now place) }
{
    let panel = &all[place];
    if is_any_like(panel, &all[..place]) {
        return Ok(());
    }
    let cells = cells_like(alloc, panel, all)?;
    push_section_front(page, wording, panel.cell, &cells)?;
    page.page(&panel.contents)
}

/// Appends the sections of all panels.
fn push_each_section(
    alloc: Global,
    page: &mut Page,
    wording: Wording,
    all: &[Panel],
) -> Result<(), AllocError>
    ensures { OnOk result (page.new ≡ page.old
        ++ flat_map (section_at wording all.now) (range_with_len 0 (length all.now))) }
{
    for place in 0..all.len() {
        push_section(alloc, page, wording, all, place)?;
    }
    Ok(())
}

/// Appends how many more cells there are.
#[tactic(auto, unfolding(crate::specs::Panels::more_text))]
fn push_more(page: &mut Page, wording: Wording, more: usize) -> Result<(), AllocError>
    ensures { OnOk result (page.new ≡ page.old ++ more_text wording more) }
{
    page.word(wording, Word::And)?;
    page.number(more as u64)?;
    page.word(wording, Word::More)
}

/// Appends it, if there are any.
fn push_more_if(page: &mut Page, wording: Wording, more: usize) -> Result<(), AllocError>
    ensures { OnOk result (page.new ≡ page.old ++ more_if wording more) }
{
    if more == 0 {
        return Ok(());
    }
    push_more(page, wording, more)
}

/// Appends the front of a strip, up to its picture.
#[tactic(auto, unfolding(crate::specs::Panels::strip_front))]
fn push_strip_front(
    page: &mut Page,
    wording: Wording,
    first: Cell,
    number: usize,
) -> Result<(), AllocError>
    ensures { OnOk result (page.new ≡ page.old ++ strip_front wording first number) }
{
    page.markup(STRIP)?;
    push_name(page, first)?;
    page.markup(STRIP_NAME)?;
    push_name(page, first)?;
    push_more_if(page, wording, number.saturating_sub(1))?;
    page.markup(STRIP_PICTURE)
}

/// Appends the strip of the cells with the contents of a panel, if it is the first of them.
fn push_strip(
    alloc: Global,
    page: &mut Page,
    wording: Wording,
    all: &[Panel],
    place: usize,
) -> Result<(), AllocError>
    requires { place < length all.now }
    ensures { OnOk result (page.new ≡ page.old ++ strip_at wording all.now place) }
{
    let panel = &all[place];
    if is_any_like(panel, &all[..place]) {
        return Ok(());
    }
    let cells = cells_like(alloc, panel, all)?;
    push_strip_front(page, wording, panel.cell, cells.len())?;
    page.page(&panel.strip)
}

/// Appends the strips of all panels.
fn push_each_strip(
    alloc: Global,
    page: &mut Page,
    wording: Wording,
    all: &[Panel],
) -> Result<(), AllocError>
    ensures { OnOk result (page.new ≡ page.old
        ++ flat_map (strip_at wording all.now) (range_with_len 0 (length all.now))) }
{
    for place in 0..all.len() {
        push_strip(alloc, page, wording, all, place)?;
    }
    Ok(())
}

/// Appends the overview, if there are several cells.
fn push_overview(
    alloc: Global,
    page: &mut Page,
    wording: Wording,
    all: &[Panel],
) -> Result<(), AllocError>
    ensures { OnOk result (page.new ≡ page.old ++ overview wording all.now) }
{
    if all.len() <= 1 {
        return Ok(());
    }
    page.markup(OVERVIEW)?;
    page.word(wording, Word::Overview)?;
    page.markup(OVERVIEW_NAMED)?;
    push_each_strip(alloc, page, wording, all)?;
    page.markup(OVERVIEW_END)
}

/// Appends the overview and the sections of cells.
pub(crate) fn push_all(
    alloc: Global,
    page: &mut Page,
    wording: Wording,
    all: &[Panel],
) -> Result<(), AllocError>
    ensures { OnOk result (page.new ≡ page.old ++ sections_text wording all.now) }
{
    push_overview(alloc, page, wording, all)?;
    push_each_section(alloc, page, wording, all)
}
