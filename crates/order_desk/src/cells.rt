//! The cells that an order or a desk may have.

ghost use Rattle.std.specs.Prelude.{◌≡◌};
ghost use Rattle.cbsp_wire.specs.Range.{cells_are_valid};

use cbsp_wire::cells::are_distinct;
use cbsp_wire::{Cell, MAX_LISTED};

/// Whether there are at most 64 cells, and none stands twice. It takes no memory.
pub fn cells_ok(cells: &[Cell]) -> bool
    ensures { result ≡ cells_are_valid cells.now }
{
    cells.len() <= MAX_LISTED && are_distinct(cells)
}
