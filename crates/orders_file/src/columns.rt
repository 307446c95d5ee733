//! The columns of a row.

ghost use Rattle.std.specs.Prelude.{◌≡◌};
ghost use Rattle.csv.specs.Records.{fields_of};
ghost use Rattle.orders_file.specs.Columns.{column};

use csv::ByteRecord;

/// The field at a place, counted from 0; no octets if there is none.
pub(crate) fn column(fields: &ByteRecord, place: usize) -> &[u8]
    ensures { result.now ≡ column (fields_of fields.now) place }
{
    match fields.get(place) {
        Some(field) => field,
        None => b"",
    }
}
