//! The rows of a plan, as CSV reads them.

ghost use Rattle.std.specs.Prelude.{◌≡◌, IfOk};
ghost use Rattle.plan.specs.PlanText.{config_of, ArePlanRows};

use crate::rows::Fields;
use crate::text::{separator_of, without_mark};
use csv::ReaderBuilder;
use std::alloc::{AllocError, Global};

/// The rows of a plan's octets.
pub(crate) fn records_of(alloc: Global, octets: &[u8]) -> Result<Vec<Fields>, AllocError>
    ensures { IfOk result (λ records. ArePlanRows octets.now records.items) }
{
    let separator = separator_of(without_mark(octets));
    let mut records = Vec::new(alloc);
    let reader = ReaderBuilder::new()
        .has_headers(false)
        .flexible(true)
        .delimiter(separator)
        .from_reader(alloc, octets);
    for row in reader.into_byte_records() {
        let Ok(record) = row else {
            return Err(AllocError);
        };
        records.push(Fields { record })?;
    }
    Ok(records)
}
