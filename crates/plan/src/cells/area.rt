//! Areas: sets of cells with a name.

ghost use Rattle.std.specs.Prelude.{◌≡◌, ◌≤◌, ◌++◌, find, length, IfOk, OnOk};
ghost use Rattle.std.specs.Option.{option_copied};
ghost use Rattle.std.specs.List.{flat_map};
ghost use Rattle.csv.specs.Records.{fields_of};
ghost use Rattle.plan.specs.PlanCells.{area_cells, area_named, area_of, is_named, parts_of};
ghost use Rattle.alert_book.specs.Fields.{column};

use crate::cells::parts::push_parts;
use crate::cells::range::{MOST_CELLS, push_all_ranged};
use crate::octets::{Octets, Texts, copy_of, octets_of, trimmed};
use alert_book::octets_at;
use csv::ByteRecord;
use std::alloc::{AllocError, Global};

/// A set of cells with a name.
#[derive(Debug, Drop)]
pub(crate) struct Area {
    pub(crate) name: Octets,
    pub(crate) cells: Texts,
}

/// The cells of an area's parts; of more parts than a book has cells one too many.
fn area_cells(alloc: Global, mut parts: Vec<Octets>) -> Result<Texts, AllocError>
    ensures { IfOk result (λ cells. cells ≡ area_cells parts.items) }
{
    if parts.len() > MOST_CELLS {
        parts.truncate(MOST_CELLS + 1);
        return Ok(Texts { list: parts });
    }
    let mut list = Vec::new(alloc);
    push_all_ranged(alloc, &mut list, &parts)?;
    Ok(Texts { list })
}

/// The area of a row.
pub(crate) fn area_of(alloc: Global, fields: &ByteRecord) -> Result<Area, AllocError>
    ensures { IfOk result (λ area. area ≡ area_of (fields_of fields.now)) }
{
    let mut parts = Vec::new(alloc);
    for place in 2..fields.len() {
        push_parts(alloc, &mut parts, octets_at(fields, place))?;
    }
    Ok(Area {
        name: copy_of(alloc, trimmed(octets_at(fields, 1)))?,
        cells: area_cells(alloc, parts)?,
    })
}

/// Whether an area has a name.
fn is_named(area: &Area, name: &[u8]) -> bool
    ensures { result ≡ is_named name.now area.now }
{
    octets_of(&area.name) == name
}

/// The first area of a name.
pub(crate) fn area_named<'a>(areas: &'a [Area], name: &[u8]) -> Option<&'a Area>
    ensures { option_copied result ≡ area_named areas.now name.now }
{
    areas.iter().find(|area| is_named(*area, name))
}
