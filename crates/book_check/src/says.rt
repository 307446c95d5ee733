//! What is said of a fault: what is wanted in its place.

ghost use Rattle.std.specs.Prelude.{◌≡◌, IfOk, string_bytes};
ghost use Rattle.csv.specs.Records.{fields_of};
ghost use Rattle.alert_book.specs.Fields.{column};
ghost use Rattle.book_check.specs.Words.{columns_words, count_words, pages_words, says_of_row};
ghost use Rattle.book_check.specs.Words.{says_of_text, text_of, twice_words, undeclared_words};

use crate::words::{column_of, number_words, too_many_words, unknown_words, verb_name, verb_words};
use alert_book::{Column, Found, Judge, RowFault, Verb, are_texts, columns_of, octets_at, text_at};
use book_texts::{first_forcing, pages_needed, place_of_forcing};
use cbs_page::TextFault;
use cbsp_wire::Cell;
use csv::ByteRecord;
use std::alloc::{AllocError, Global};

/// All languages.
const LANGUAGES: &str =
    "unknown language: de, en, it, fr, es, nl, sv, da, pt, fi, no, el, tr, hu, pl, und, cs, he, ar, ru or is";

/// What is said of a row of a verb, by the number of its columns.
fn count_words(alloc: Global, verb: Option<Verb>, columns: usize) -> Result<String, AllocError>
    ensures { IfOk result (λ says. string_bytes says ≡ count_words verb columns) }
{
    let Some(verb) = verb else {
        return Ok(String::new(alloc));
    };
    let (name, wanted) = (verb_name(verb), columns_of(verb));
    format!(in alloc; "{columns} columns, {name} has {wanted}")
}

/// What is said of a row whose columns aren't UTF-8, or whose number of columns is wrong.
fn columns_words(
    alloc: Global,
    verb: Option<Verb>,
    fields: &ByteRecord,
) -> Result<String, AllocError>
    ensures { IfOk result (λ says. string_bytes says ≡ columns_words verb (fields_of fields.now)) }
{
    if are_texts(fields) {
        return count_words(alloc, verb, fields.len());
    }
    String::from_str(alloc, "not UTF-8: save as CSV UTF-8")
}

/// What is said of cells one of which isn't declared.
fn undeclared_words(alloc: Global, cell: Option<Cell>) -> Result<String, AllocError>
    ensures { IfOk result (λ says. string_bytes says ≡ undeclared_words cell) }
{
    let Some(Cell { lac, ci }) = cell else {
        return String::from_str(alloc, "no earlier row declares a cell");
    };
    format!(in alloc; "no earlier row declares this cell: {lac}-{ci}")
}

/// What is said of a cell that was given before, or of a name that this row has.
fn twice_words(
    alloc: Global,
    column: Option<Column>,
    named: Option<u32>,
) -> Result<String, AllocError>
    ensures { IfOk result (λ says. string_bytes says ≡ twice_words column named) }
{
    match (column, named) {
        (Some(Column::Ci), _) => String::from_str(alloc, "an earlier row declares this cell"),
        (Some(Column::Name), Some(row)) => format!(in alloc; "row {row} has this name"),
        (Some(Column::Cells), _) => String::from_str(alloc, "a cell comes twice"),
        _ => Ok(String::new(alloc)),
    }
}

/// The text of a column; no text if it isn't UTF-8.
fn text_of(fields: &ByteRecord, place: usize) -> &str
    ensures { result.now ≡ text_of (column (fields_of fields.now) place) }
{
    match text_at(fields, place) {
        Some(text) => text,
        None => "",
    }
}

/// What is said of a fault that was found in a row of this number, once the row counts.
pub(crate) fn says_of_row(
    alloc: Global,
    row: u32,
    judge: &Judge,
    fields: &ByteRecord,
    verb: Option<Verb>,
    found: Found,
) -> Result<String, AllocError>
    ensures { IfOk result (λ says. string_bytes says
        ≡ says_of_row row judge.now (fields_of fields.now) verb found.column found.fault) }
{
    let column = column_of(verb, found.column);
    let field = text_of(fields, found.column.saturating_sub(1));
    match found.fault {
        RowFault::Columns => columns_words(alloc, verb, fields),
        RowFault::Verb => {
            String::from_str(alloc, verb_words(fields.len(), octets_at(fields, 0)))
        }
        RowFault::Number => String::from_str(alloc, number_words(column)),
        RowFault::UnknownCell => undeclared_words(alloc, judge.undeclared_in(alloc, field)?),
        RowFault::TwiceNamed => twice_words(alloc, column, judge.row_with_name(field)),
        RowFault::UnknownName => String::from_str(alloc, unknown_words(verb)),
        RowFault::TooManyUpdates => String::from_str(alloc, "an alert has 15 updates at most"),
        RowFault::TooManyRows => {
            String::from_str(alloc, too_many_words(judge.bounds(), verb, row))
        }
        RowFault::Refused => Ok(String::new(alloc)),
    }
}

/// What is said of a text that has too many pages.
fn pages_words(alloc: Global, text: &str) -> Result<String, AllocError>
    ensures { IfOk result (λ says. string_bytes says ≡ pages_words text.now) }
{
    let pages = pages_needed(text);
    match (first_forcing(text), place_of_forcing(text)) {
        (Some(character), Some(place)) => {
            format!(in alloc;
                "{pages} pages, 15 is the most: UCS-2 because of {character} at {place}"
            )
        }
        _ => format!(in alloc; "{pages} pages, 15 is the most"),
    }
}

/// What is said of the fault of a text in the column of a place.
pub(crate) fn says_of_text(
    alloc: Global,
    fields: &ByteRecord,
    place: usize,
    why: TextFault,
) -> Result<String, AllocError>
    ensures { IfOk result (λ says. string_bytes says ≡ says_of_text (column (fields_of fields.now) place) why) }
{
    match why {
        TextFault::BadLanguage => String::from_str(alloc, LANGUAGES),
        TextFault::Empty => String::from_str(alloc, "a text"),
        TextFault::BadCharacter { place } => format!(in alloc; "bad character at {place}"),
        TextFault::TooManyPages => pages_words(alloc, text_of(fields, place)),
        TextFault::Refused => Ok(String::new(alloc)),
    }
}
