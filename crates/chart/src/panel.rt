//! What is drawn of a cell, and which cells look alike.

ghost use Rattle.std.specs.Prelude.{◌≡◌, IfOk};
ghost use Rattle.chart.specs.Panels.{cells_like, is_any_like, is_like};

use crate::page::Page;
use cbsp_wire::Cell;
use std::alloc::{AllocError, Global};

/// What is drawn of a cell.
#[derive(Drop)]
pub struct Panel {
    /// The cell.
    pub cell: Cell,
    /// What the overview has of it, after its name.
    pub strip: Page,
    /// What its section has after its name.
    pub contents: Page,
}

/// Whether two sections have the same contents.
fn is_like(panel: &Panel, other: &Panel) -> bool
    ensures { result ≡ is_like panel.now other.now }
{
    other.contents.octets() == panel.contents.octets()
}

/// Whether one of these sections has the contents of another.
pub(crate) fn is_any_like(panel: &Panel, others: &[Panel]) -> bool
    ensures { result ≡ is_any_like panel.now others.now }
{
    for other in others {
        if is_like(panel, other) {
            return true;
        }
    }
    false
}

/// The cells whose sections have the contents of this one. The only error is out of memory.
pub(crate) fn cells_like(
    alloc: Global,
    panel: &Panel,
    all: &[Panel],
) -> Result<Vec<Cell>, AllocError>
    ensures { IfOk result (λ cells. cells.items ≡ cells_like panel.now all.now) }
{
    let mut cells = Vec::new(alloc);
    for other in all {
        if is_like(panel, other) {
            cells.push(other.cell)?;
        }
    }
    Ok(cells)
}
