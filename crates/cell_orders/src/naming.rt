//! Which cells lists name, and what they say of a cell (3GPP TS 48.049, 8.2.6, 8.2.10 and 8.2.11).

ghost use Rattle.std.specs.Prelude.{◌≡◌};
ghost use Rattle.std.specs.Option.{option_copied};
ghost use Rattle.cell_orders.specs.Naming.{cell_cause, count_of, done_of, fails_cell, failure_of, lists_cell, names};
ghost use Rattle.cell_orders.specs.Naming.{valid_number};

use cbsp_link::{LinkCell, LinkCount, LinkFailure};
use cbsp_wire::Cell;

/// Whether an item of a list names a cell: by its location area code and cell identity, by one of these, or as all
/// cells. The network that it may name isn't looked at.
pub fn names(named: LinkCell, cell: Cell) -> bool
    ensures { result ≡ names named cell }
{
    match named {
        LinkCell::Global { lac, ci, .. } => lac == cell.lac && ci == cell.ci,
        LinkCell::LacCi { lac, ci } => lac == cell.lac && ci == cell.ci,
        LinkCell::Ci { ci } => ci == cell.ci,
        LinkCell::Nothing => false,
        LinkCell::Area { lac, .. } => lac == cell.lac,
        LinkCell::Lac { lac } => lac == cell.lac,
        LinkCell::All => true,
    }
}

/// Whether a cell list names a cell.
pub(crate) fn lists_cell(cells: &[LinkCell], cell: Cell) -> bool
    ensures { result ≡ lists_cell cells.now cell }
{
    cells.iter().any(|named| names(*named, cell))
}

/// The first failure of a cell.
fn failure_of(failures: &[LinkFailure], cell: Cell) -> Option<&LinkFailure>
    ensures { option_copied result ≡ failure_of failures.now cell }
{
    for failure in failures {
        if names(failure.cell, cell) {
            return Some(failure);
        }
    }
    None
}

/// The cause of a cell's first failure.
pub(crate) fn cell_cause(failures: &[LinkFailure], cell: Cell) -> Option<u8>
    ensures { result ≡ cell_cause failures.now cell }
{
    match failure_of(failures, cell) {
        Some(failure) => Some(failure.cause),
        None => None,
    }
}

/// Whether a failure names a cell.
pub(crate) fn fails_cell(failures: &[LinkFailure], cell: Cell) -> bool
    ensures { result ≡ fails_cell failures.now cell }
{
    cell_cause(failures, cell).is_some()
}

/// The first completed broadcasts of a cell.
fn count_of(completed: &[LinkCount], cell: Cell) -> Option<&LinkCount>
    ensures { option_copied result ≡ count_of completed.now cell }
{
    for count in completed {
        if names(count.cell, cell) {
            return Some(count);
        }
    }
    None
}

/// Its number, if it is valid.
fn valid_number(count: &LinkCount) -> Option<u16>
    ensures { result ≡ valid_number count.now }
{
    if count.info == 0 {
        Some(count.number)
    } else {
        None
    }
}

/// How many broadcasts a cell completed, if the number is there and valid.
pub(crate) fn done_of(completed: &[LinkCount], cell: Cell) -> Option<u16>
    ensures { result ≡ done_of completed.now cell }
{
    match count_of(completed, cell) {
        Some(count) => valid_number(count),
        None => None,
    }
}
