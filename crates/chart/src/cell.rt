//! What is drawn of a cell.

ghost use Rattle.std.specs.Prelude.{◌≡◌, ◌≢◌, ◌≤◌, ◌++◌, filter, length, IfErr, IfOk, OnOk};
ghost use Rattle.admission.specs.declared.measure.TheConstants.{SCALE};
ghost use Rattle.bsc_table.specs.Record.{Record, claims_in};
ghost use Rattle.handset.specs.Keeping.{messages_shown};
ghost use Rattle.chart.specs.ChartText.{contents_text, panel_of, rows_in, strip_facts, strip_text};
ghost use Rattle.chart.specs.LineSteps.{IsContext};
ghost use Rattle.chart.specs.Load.{AreLoadsFrom};
ghost use Rattle.chart.specs.View.{is_drawn, width_of};

use crate::facts::{Facts, facts_of, push_facts, push_fullest};
use crate::kept::accepted_in;
use crate::line::CellContext;
use crate::load::{loads_of, loads_within, push_loads, push_shape};
use crate::page::Page;
use crate::panel::Panel;
use crate::time::push_axis;
use crate::view::{Part, Stretch, stretch_of};
use crate::word::{Word, Wording};
use bsc_table::CellRecord;
use handset::Reading;
use report::{BookOrders, ReportFault, Row, rows};
use std::alloc::{AllocError, Global};
use std::slice;

/// What comes after the names of a section's cells.
pub const NAME_END: &str = "</h2> ";

/// What comes after what counts of them.
pub const FACTS_END: &str = "</summary>\n";

/// The end of a cell.
pub const CELL_END: &str = "</details>\n";

/// What comes after the loads of a strip.
pub const STRIP_FACTS: &str = "\n<i>";

/// The end of a strip.
pub const STRIP_END: &str = "</i></a>\n";

/// Appends what a strip says after its loads.
#[tactic(auto, unfolding(crate::specs::ChartText::strip_facts))]
fn push_strip_facts(page: &mut Page, wording: Wording, facts: Facts) -> Result<(), AllocError>
    requires { facts.most ≤ SCALE }
    ensures { OnOk result (page.new ≡ page.old ++ strip_facts wording facts) }
{
    page.markup(STRIP_FACTS)?;
    push_fullest(page, wording, facts)?;
    page.word(wording, Word::Refused)?;
    page.number(facts.refused as u64)?;
    page.markup(STRIP_END)
}

/// What a strip has after its name.
fn strip_of(
    alloc: Global,
    wording: Wording,
    stretch: Stretch,
    loads: &[u64],
    facts: Facts,
) -> Result<Page, AllocError>
    requires width { length loads.now ≡ width_of stretch }
    requires ordered { stretch.from ≤ stretch.to }
    requires most { facts.most ≤ SCALE }
    ensures { IfOk result (λ strip. (r : Record) → AreLoadsFrom stretch.from (claims_in r.log) loads.now
        → strip ≡ strip_text wording r stretch facts) }
{
    let mut strip = Page::new(alloc);
    push_shape(&mut strip, wording, stretch, loads)?;
    push_strip_facts(&mut strip, wording, facts)?;
    Ok(strip)
}

/// What a section has after its name: what counts of its cell, these rows, each a line, its loads and the axis.
fn contents_of(
    alloc: Global,
    context: &CellContext,
    rows: &[Row],
    loads: &[u64],
    facts: Facts,
) -> Result<Page, AllocError>
    requires context { IsContext context.now }
    requires width { length loads.now ≡ width_of context.now.stretch }
    requires ordered { context.now.stretch.from ≤ context.now.stretch.to }
    requires loads { AreLoadsFrom context.now.stretch.from (claims_in context.now.run.now.log) loads.now }
    requires most { facts.most ≤ SCALE }
    ensures { IfOk result (λ contents. rows.now
        ≡ rows_in context.now.run.now context.now.stretch (messages_shown context.now.shown.now)
        → contents ≡ contents_text context.now.wording context.now.run.now context.now.stretch
        context.now.orders.now (messages_shown context.now.shown.now) facts) }
{
    let wording = context.wording;
    let stretch = context.stretch;
    let mut contents = Page::new(alloc);
    contents.markup(NAME_END)?;
    push_facts(&mut contents, wording, facts)?;
    contents.markup(FACTS_END)?;
    context.push_lines(&mut contents, rows)?;
    push_loads(&mut contents, wording, stretch, loads)?;
    push_axis(&mut contents, wording, stretch)?;
    contents.markup(CELL_END)?;
    Ok(contents)
}

/// Keeps the rows that are drawn.
fn keep_drawn(rows: &mut Vec<Row>, stretch: Stretch)
    ensures { rows.new.items ≡ filter (is_drawn stretch) rows.old.items }
{
    rows.retain(|row| stretch.is_drawn(row));
}

/// What is drawn of a cell.
pub(crate) fn panel_of(
    alloc: Global,
    wording: Wording,
    part: Option<Part>,
    orders: &BookOrders,
    run: &CellRecord,
    reading: &Reading,
) -> Result<Panel, ReportFault>
    ensures panel { IfOk result (λ panel. panel
        ≡ panel_of wording part run.now orders.now (messages_shown reading.now.shown.items)) }
    ensures cells { IfErr result (λ fault. fault ≡ ReportFault.Cells → run.now.cell ≢ reading.now.cell) }
    ensures faults { IfErr result (λ fault. fault ≢ ReportFault.WriteFailed) }
{
    // The loads of accepted messages fit.
    bsc_table::legal_histories();
    let slots = run.slots();
    let stretch = stretch_of(part, slots);
    let mut rows = match rows(alloc, slice::from_ref(run), slice::from_ref(reading)) {
        Ok(rows) => rows,
        Err(fault) => return Err(fault),
    };
    keep_drawn(&mut rows, stretch);
    let messages = accepted_in(alloc, run.log())?;
    let all_loads = loads_of(alloc, &messages, slots)?;
    let loads = loads_within(&all_loads, stretch);
    let facts = facts_of(&rows, stretch.from, loads);
    let context = CellContext {
        alloc,
        wording,
        stretch,
        orders,
        run,
        shown: &reading.shown,
        messages: &messages,
    };
    let strip = strip_of(alloc, wording, stretch, loads, facts)?;
    let contents = contents_of(alloc, &context, &rows, loads, facts)?;
    Ok(Panel {
        cell: run.cell(),
        strip,
        contents,
    })
}
