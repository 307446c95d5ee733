//! The page of a chart, and how it is written.

ghost use Rattle.std.specs.Prelude.{◌≡◌, ◌≢◌, ◌++◌, ◌∷◌, [], length, IfErr, IfOk, IsErrOf, OnOk};
ghost use Rattle.handset.specs.Keeping.{messages_shown};
ghost use Rattle.handset.specs.Tape.{readings_of};
ghost use Rattle.report.specs.Rows.{AreOfOneCells};
ghost use Rattle.chart.specs.ChartText.{chart_front, chart_part, chart_text, folded, foot_if, front_if_first};
ghost use Rattle.chart.specs.ChartText.{group_front, head, introduction, is_wanted, part_text, run_text, stretch_text};
ghost use Rattle.chart.specs.ChartText.{begin_if, begun_text, panel_if, panels_of, sections_of, slots_word};

use crate::cell::panel_of;
use crate::page::Page;
use crate::panel::Panel;
use crate::section::push_all;
use crate::time::{push_slot, push_time};
use crate::view::{Part, Stretch, View, stretch_of};
use crate::word::{Word, Wording};
use bsc_table::CellRecord;
use cbsp_wire::Cell;
use handset::Reading;
use report::{BookOrders, ReportFault};
use slot_times::{Start, slot_time};
use std::alloc::{AllocError, Global};

/// The front of the page, up to the code of its language.
pub const HEAD: &str = "<!DOCTYPE html>\n<html lang=\"";

/// What comes after that, up to the title.
pub const HEAD_LANGUAGE_END: &str = r#"">
<head>
<meta charset="utf-8">
<meta http-equiv="Content-Security-Policy" content="default-src 'none'; style-src 'unsafe-inline'">
<meta name="viewport" content="width=device-width, initial-scale=1">
<title>"#;

/// What comes after the title, up to the heading.
pub const HEAD_TITLE_END: &str = r#"</title>
<style>
:root{color-scheme:light dark;--ground:#fff;--text:#1a1a1a;--faint:#666;--lane:#eef1f4}
:root{--f1:#6288b5;--f2:#456f9f;--f3:#2a5588;--f4:#143c6a;--f5:#061d38;--load:#5e7688;--refusal:#b3261e}
:root{--mark:rgb(0 0 0/.75);--pale:rgb(255 255 255/.5);--first:#fe5}
@media(prefers-color-scheme:dark){
:root{--ground:#15181c;--text:#e6e6e6;--faint:#a0a6ac;--lane:#262c33}
:root{--f1:#5c7fa9;--f2:#7398c5;--f3:#8fb3dc;--f4:#b0cfef;--f5:#d9e9fa;--load:#7f95a6;--refusal:#ff8a80}
:root{--mark:rgb(0 0 0/.7);--pale:rgb(0 0 0/.7);--first:#201400}
}
body{background:var(--ground);color:var(--text);font:15px/1.4 system-ui,sans-serif;margin:1.5em}
summary{color:var(--faint);cursor:pointer;margin:.8em 0 .4em}
h2{color:var(--text);display:inline;font-size:1em}
nav{display:grid;gap:.15em 2em;grid-template-columns:repeat(auto-fill,minmax(min(31em,100%),1fr));margin:1em 0}
nav a{align-items:center;color:inherit;display:grid;gap:.8em;grid-template-columns:13em 1fr 14em;text-decoration:none}
nav a:hover{background:var(--lane)}
nav a>*{overflow:hidden;text-overflow:ellipsis;white-space:nowrap}
nav i{color:var(--faint);font-size:.85em;font-style:normal}
div{align-items:center;display:grid;gap:.8em;grid-template-columns:minmax(8em,26em) 1fr;margin:.15em 0}
div p{display:flex;flex-wrap:wrap;gap:0 .3em;margin:0;overflow:hidden;white-space:nowrap}
div b{max-width:14em;overflow:hidden;text-overflow:ellipsis}
div bdi{flex:1;min-width:0;overflow:hidden;text-overflow:ellipsis}
.cause{white-space:normal}
div:hover p,div p:active{white-space:normal}
div i,div small{color:var(--faint);font-size:1em}
details{contain-intrinsic-size:auto 40em;content-visibility:auto}
svg{background:var(--lane);display:block;height:1.2em;width:100%}
path{stroke:var(--first);stroke-width:4px;vector-effect:non-scaling-stroke}
rect{height:10px}
.loads{border-top:2px solid var(--refusal);height:4em}
nav .loads{border-top-width:1px;height:1.4em}
.load{fill:var(--load);stroke:none}
.f1{background:var(--f1);fill:var(--f1)}
.f2{background:var(--f2);fill:var(--f2)}
.f3{background:var(--f3);fill:var(--f3)}
.f4{background:var(--f4);fill:var(--f4)}
.f5{background:var(--f5);fill:var(--f5)}
.whole{clip-path:inset(50% -999px 0)fill-box;fill:none;shape-rendering:crispEdges;stroke:var(--mark);stroke-width:1px}
.whole{transform:translateY(-1px)scaleY(calc(4/3))}
:is(.f3,.f4,.f5)~.whole{stroke:var(--pale)}
:is(.f4,.f5)~.whole{stroke-opacity:.8}
.pace b{display:inline-block;height:.8em;margin:0 .3em 0 .6em;width:1.6em}
.refusal{stroke:var(--refusal)}
div .axis{color:var(--faint);display:block;font-size:.85em;height:3.2em;overflow:visible;position:relative}
.axis span{left:var(--at);padding-top:.3em;position:absolute;text-align:center;transform:translateX(calc(-1*var(--at)))}
.axis span::before{border-left:1px solid;content:"";height:.4em;left:var(--at);position:absolute;top:0}
@media(max-width:46em){
body{margin:1em}
nav a{gap:.1em .5em;grid-template-columns:1fr auto;margin:.2em 0}
nav .loads{grid-column:1/3;grid-row:2}
div{gap:.1em;grid-template-columns:minmax(0,1fr);margin:.5em 0}
div p.axis{font-size:.75em}
div bdi,.cause{flex-basis:100%}
}
@media print{
:root{--lane:#fff}
svg{border:1px solid var(--faint);box-sizing:border-box;print-color-adjust:exact;-webkit-print-color-adjust:exact}
div{break-inside:avoid}
div p{display:block;white-space:normal}
}
@media(prefers-contrast:more){:root{--faint:var(--text)}svg{outline:1px solid var(--text)}}
</style>
</head>
<body>
<h1>"#;

/// What comes after the heading, up to the number of slots.
pub const HEADING_END: &str = "</h1>\n<p>";

/// What comes after their time.
pub const RUN_END: &str = " (h:mm:ss).";

/// What comes after it.
pub const PART_END: &str = ".";

/// The end of the page.
pub const FOOT: &str = "</body>\n</html>\n";

/// The front of a group of a network, up to its name.
pub const GROUP: &str = "<details>\n<summary><h2>";

/// What comes after its number.
pub const GROUP_NAME_END: &str = "</h2></summary>\n";

/// The end of a group.
pub const GROUP_FOOT: &str = "</details>\n";

/// Whether a cell is drawn.
fn is_wanted(wanted: Option<Cell>, cell: Cell) -> bool
    ensures { result ≡ is_wanted wanted cell }
{
    match wanted {
        None => true,
        Some(wanted) => wanted.lac == cell.lac && wanted.ci == cell.ci,
    }
}

/// Adds the panel of a cell, if it is wanted.
fn add_if_wanted(
    alloc: Global,
    panels: &mut Vec<Panel>,
    view: View,
    orders: &BookOrders,
    run: &CellRecord,
    reading: &Reading,
) -> Result<(), ReportFault>
    ensures panel { OnOk result (panels.new.items
        ≡ panels.old.items ++ panel_if view run.now orders.now (messages_shown reading.now.shown.items)) }
    ensures cells { IfErr result (λ fault. fault ≡ ReportFault.Cells → run.now.cell ≢ reading.now.cell) }
    ensures faults { IfErr result (λ fault. fault ≢ ReportFault.WriteFailed) }
{
    if is_wanted(view.cell, run.cell()) {
        let panel = match panel_of(alloc, view.wording, view.part, orders, run, reading) {
            Ok(panel) => panel,
            Err(fault) => return Err(fault),
        };
        add(panels, panel)?;
    }
    Ok(())
}

/// Adds a panel.
fn add(panels: &mut Vec<Panel>, panel: Panel) -> Result<(), AllocError>
    ensures { OnOk result (panels.new.items ≡ panels.old.items ++ panel ∷ []) }
{
    panels.push(panel)?;
    Ok(())
}

/// The panels of the cells that are wanted.
fn panels_of(
    alloc: Global,
    view: View,
    orders: &BookOrders,
    records: &[CellRecord],
    readings: &[Reading],
) -> Result<Vec<Panel>, ReportFault>
    requires { length records.now ≡ length readings.now }
    ensures panels { IfOk result (λ panels. panels.items
        ≡ panels_of view orders.now records.now (readings_of readings.now)) }
    ensures cells { IsErrOf result ReportFault.Cells → ¬ AreOfOneCells records.now (readings_of readings.now) }
    ensures faults { IfErr result (λ fault. fault ≢ ReportFault.WriteFailed) }
{
    let mut panels = Vec::new(alloc);
    for (place, record) in records.iter().enumerate() {
        add_if_wanted(alloc, &mut panels, view, orders, record, &readings[place])?;
    }
    Ok(panels)
}

/// Appends the sections of the cells that are wanted.
fn push_sections(
    alloc: Global,
    page: &mut Page,
    view: View,
    orders: &BookOrders,
    records: &[CellRecord],
    readings: &[Reading],
) -> Result<(), ReportFault>
    requires { length records.now ≡ length readings.now }
    ensures sections { OnOk result (page.new
        ≡ page.old ++ sections_of view orders.now records.now (readings_of readings.now)) }
    ensures cells { IsErrOf result ReportFault.Cells → ¬ AreOfOneCells records.now (readings_of readings.now) }
    ensures faults { IfErr result (λ fault. fault ≢ ReportFault.WriteFailed) }
{
    let panels = panels_of(alloc, view, orders, records, readings)?;
    push_all(alloc, page, view.wording, &panels)?;
    Ok(())
}

/// Appends the head of the page.
#[tactic(auto, unfolding(crate::specs::ChartText::head))]
fn push_head(page: &mut Page, wording: Wording) -> Result<(), AllocError>
    ensures { OnOk result (page.new ≡ page.old ++ head wording) }
{
    page.markup(HEAD)?;
    page.word(wording, Word::Code)?;
    page.markup(HEAD_LANGUAGE_END)?;
    page.word(wording, Word::Title)?;
    page.markup(HEAD_TITLE_END)?;
    page.word(wording, Word::Title)?;
    page.markup(HEADING_END)
}

/// Appends what the reader of the page is told first.
#[tactic(auto, unfolding(crate::specs::ChartText::introduction))]
fn push_introduction(page: &mut Page, wording: Wording) -> Result<(), AllocError>
    ensures { OnOk result (page.new ≡ page.old ++ introduction wording) }
{
    page.word(wording, Word::Introduction)
}

/// What comes after so many slots.
fn slots_word(slots: u16) -> Word
    ensures { result ≡ slots_word slots }
{
    if slots == 1 { Word::Slot } else { Word::Slots }
}

/// Appends how long the runs are.
#[tactic(auto, unfolding(crate::specs::ChartText::run_text))]
fn push_run(page: &mut Page, wording: Wording, slots: u16) -> Result<(), AllocError>
    ensures { OnOk result (page.new ≡ page.old ++ run_text wording slots) }
{
    page.word(wording, Word::Run)?;
    page.number(u64::from(slots))?;
    page.word(wording, slots_word(slots))?;
    push_time(page, None, u32::from(slots))?;
    page.markup(RUN_END)
}

/// Appends when slot 0 begins.
#[tactic(auto, unfolding(crate::specs::ChartText::begun_text))]
fn push_begin(page: &mut Page, wording: Wording, start: Start) -> Result<(), AllocError>
    ensures { OnOk result (page.new ≡ page.old ++ begun_text wording start) }
{
    page.word(wording, Word::Begins)?;
    page.text_octets(&slot_time(start, 0))?;
    page.word(wording, Word::BeginsEnd)
}

/// Appends that, if the page has the time of day.
fn push_begin_if(page: &mut Page, wording: Wording, start: Option<Start>) -> Result<(), AllocError>
    ensures { OnOk result (page.new ≡ page.old ++ begin_if wording start) }
{
    match start {
        None => Ok(()),
        Some(start) => push_begin(page, wording, start),
    }
}

/// Appends which slots are drawn.
#[tactic(auto, unfolding(crate::specs::ChartText::stretch_text))]
fn push_stretch(page: &mut Page, wording: Wording, stretch: Stretch) -> Result<(), AllocError>
    ensures { OnOk result (page.new ≡ page.old ++ stretch_text wording stretch) }
{
    page.word(wording, Word::Part)?;
    push_slot(page, wording.start, u32::from(stretch.from))?;
    page.word(wording, Word::PartTo)?;
    push_slot(page, wording.start, u32::from(stretch.to))?;
    page.markup(PART_END)
}

/// Appends which part is drawn, if it isn't all.
fn push_part(page: &mut Page, wording: Wording, stretch: Stretch) -> Result<(), AllocError>
    ensures { OnOk result (page.new ≡ page.old ++ part_text wording stretch) }
{
    if stretch.is_part {
        push_stretch(page, wording, stretch)
    } else {
        Ok(())
    }
}

/// Appends the front of the page.
#[tactic(auto, unfolding(crate::specs::ChartText::chart_front))]
fn push_front(
    page: &mut Page,
    wording: Wording,
    slots: u16,
    part: Option<Part>,
) -> Result<(), AllocError>
    ensures { OnOk result (page.new ≡ page.old ++ chart_front wording slots part) }
{
    push_head(page, wording)?;
    push_run(page, wording, slots)?;
    push_begin_if(page, wording, wording.start)?;
    push_part(page, wording, stretch_of(part, slots))?;
    push_introduction(page, wording)
}

/// The page of a chart.
fn page_of(
    alloc: Global,
    slots: u16,
    view: View,
    orders: &BookOrders,
    records: &[CellRecord],
    readings: &[Reading],
) -> Result<Page, ReportFault>
    ensures page { IfOk result (λ page. page
        ≡ chart_text slots view orders.now records.now (readings_of readings.now)) }
    ensures cells { IsErrOf result ReportFault.Cells → ¬ AreOfOneCells records.now (readings_of readings.now) }
    ensures faults { IfErr result (λ fault. fault ≢ ReportFault.WriteFailed) }
{
    if records.len() != readings.len() {
        return Err(ReportFault::Cells);
    }
    let mut page = Page::new(alloc);
    push_front(&mut page, view.wording, slots, view.part)?;
    push_sections(alloc, &mut page, view, orders, records, readings)?;
    page.markup(FOOT)?;
    Ok(page)
}

/// The chart of a run of `slots` slots: a page in HTML that stands alone, with a section for each cell, or for the
/// wanted one alone: by its record and what a handset read of its blocks a line for each row of its report, in order,
/// with the name that `orders` have of it, and the loads that it had reserved at each slot. Of a part of the run those
/// rows have a line that touch it, bars, marks and loads are cut to it.
///
/// # Errors
///
/// Returns [`ReportFault::Cells`] only if the readings aren't of the same cells as the records in the same order, and
/// [`ReportFault::Refused`] if out of memory.
pub fn chart_octets(
    alloc: Global,
    slots: u16,
    view: View,
    orders: &BookOrders,
    records: &[CellRecord],
    readings: &[Reading],
) -> Result<Vec<u8>, ReportFault>
    ensures page { IfOk result (λ octets. octets.items
        ≡ chart_text slots view orders.now records.now (readings_of readings.now)) }
    ensures cells { IsErrOf result ReportFault.Cells → ¬ AreOfOneCells records.now (readings_of readings.now) }
    ensures faults { IfErr result (λ fault. fault ≢ ReportFault.WriteFailed) }
{
    let page = page_of(alloc, slots, view, orders, records, readings)?;
    Ok(page.into_octets())
}

/// Appends the sections of a group under its number, if there are any.
fn push_folded(
    page: &mut Page,
    wording: Wording,
    group: u16,
    sections: &Page,
) -> Result<(), AllocError>
    ensures { OnOk result (page.new ≡ page.old ++ folded wording group sections.now) }
{
    if sections.octets().is_empty() {
        return Ok(());
    }
    push_group(page, wording, group)?;
    page.page(sections)?;
    page.markup(GROUP_FOOT)
}

/// Appends the front of a group.
#[tactic(auto, unfolding(crate::specs::ChartText::group_front))]
fn push_group(page: &mut Page, wording: Wording, group: u16) -> Result<(), AllocError>
    ensures { OnOk result (page.new ≡ page.old ++ group_front wording group) }
{
    page.markup(GROUP)?;
    page.word(wording, Word::Group)?;
    page.number(u64::from(group))?;
    page.markup(GROUP_NAME_END)
}

/// Appends the front of the page, if the group is the first.
fn push_front_if_first(
    page: &mut Page,
    wording: Wording,
    slots: u16,
    group: u16,
    part: Option<Part>,
) -> Result<(), AllocError>
    ensures { OnOk result (page.new ≡ page.old ++ front_if_first wording slots group part) }
{
    if group == 0 {
        push_front(page, wording, slots, part)?;
    }
    Ok(())
}

/// Appends the end of the page, if it ends here.
fn push_foot_if(page: &mut Page, is_last: bool) -> Result<(), AllocError>
    ensures { OnOk result (page.new ≡ page.old ++ foot_if is_last) }
{
    if is_last { page.markup(FOOT) } else { Ok(()) }
}

/// The part of a network's group in the chart of all of its groups: the sections of its cells, folded under its number.
/// The front of the page is the first group's, and its end the last one's, so that the parts that are joined in order
/// are one page.
///
/// # Errors
///
/// Returns the faults of [`chart_octets`].
pub fn part_octets(
    alloc: Global,
    slots: u16,
    group: u16,
    is_last: bool,
    view: View,
    orders: &BookOrders,
    records: &[CellRecord],
    readings: &[Reading],
) -> Result<Vec<u8>, ReportFault>
    ensures page { IfOk result (λ octets. octets.items
        ≡ chart_part slots group is_last view orders.now records.now (readings_of readings.now)) }
    ensures cells { IsErrOf result ReportFault.Cells → ¬ AreOfOneCells records.now (readings_of readings.now) }
    ensures faults { IfErr result (λ fault. fault ≢ ReportFault.WriteFailed) }
{
    if records.len() != readings.len() {
        return Err(ReportFault::Cells);
    }
    let mut sections = Page::new(alloc);
    push_sections(alloc, &mut sections, view, orders, records, readings)?;
    let mut page = Page::new(alloc);
    push_front_if_first(&mut page, view.wording, slots, group, view.part)?;
    push_folded(&mut page, view.wording, group, &sections)?;
    push_foot_if(&mut page, is_last)?;
    Ok(page.into_octets())
}
