//! Fixed words: the names of columns, and what is wanted in them.

ghost use Rattle.std.specs.Prelude.{◌≡◌, ◌≤◌};
ghost use Rattle.std.specs.List.{list_any};
ghost use Rattle.book_check.specs.Words.{column_of, field_name, is_separator, language_place};
ghost use Rattle.book_check.specs.Words.{many_of_verb, name_of, number_words, place_of_text, text_place};
ghost use Rattle.book_check.specs.Words.{too_many_words, unknown_words, verb_name, verb_words};

use alert_book::{Bounds, Column, Verb, columns_after};
use cbs_page::TextFault;

/// The columns after the first, by a row's verb: what the column of a place is, counted from 1.
pub(crate) fn column_of(verb: Option<Verb>, place: usize) -> Option<Column>
    ensures { result ≡ column_of verb place }
{
    let verb = verb?;
    if place < 2 {
        return None;
    }
    match columns_after(verb).get(place - 2) {
        Some(column) => Some(*column),
        None => None,
    }
}

/// The name of a column.
fn name_of(column: Column) -> &'static str
    ensures { result.now ≡ name_of column }
{
    match column {
        Column::Lac => "LAC",
        Column::Ci => "CI",
        Column::At => "AT",
        Column::Name => "NAME",
        Column::Id => "ID",
        Column::Scope => "SCOPE",
        Column::Code => "CODE",
        Column::Language => "LANG",
        Column::Category => "CATEGORY",
        Column::Period => "PERIOD",
        Column::Broadcasts => "BROADCASTS",
        Column::Cells => "CELLS",
        Column::Text => "TEXT",
    }
}

/// The name of the column of a place; none if no verb has it.
pub(crate) fn field_name(verb: Option<Verb>, place: usize) -> &'static str
    ensures { result.now ≡ field_name verb place }
{
    if place == 1 {
        return "VERB";
    }
    match column_of(verb, place) {
        Some(column) => name_of(column),
        None => "",
    }
}

/// What a column wants that has a number, or a list of cells.
pub(crate) fn number_words(column: Option<Column>) -> &'static str
    ensures { result.now ≡ number_words column }
{
    match column {
        Some(Column::Lac) => "a number from 0 to 65535",
        Some(Column::Ci) => "a number from 0 to 65535",
        Some(Column::At) => "a number from 0 to 65535",
        Some(Column::Id) => "a number from 0 to 65535",
        Some(Column::Broadcasts) => "a number from 0 to 65535",
        Some(Column::Scope) => "a number from 0 to 3",
        Some(Column::Code) => "a number from 0 to 1023",
        Some(Column::Category) => "0 (high), 1 (background) or 2 (normal)",
        Some(Column::Period) => "a number from 1 to 1024",
        Some(Column::Cells) => "* or LAC-CI with one space between",
        Some(Column::Name) | Some(Column::Language) | Some(Column::Text) | None => "",
    }
}

/// Whether a word has a semicolon or a tab.
fn has_separator(word: &[u8]) -> bool
    ensures { result ≡ list_any is_separator word.now }
{
    word.iter().any(|octet| *octet == b';' || *octet == b'\t')
}

/// What a row wants that has no verb, by the number of its columns and its first.
pub(crate) fn verb_words(columns: usize, word: &[u8]) -> &'static str
    ensures { result.now ≡ verb_words columns word.now }
{
    if columns == 1 && has_separator(word) {
        return "columns are separated by commas";
    }
    "cell, write, update or stop"
}

/// The word of a verb.
pub(crate) fn verb_name(verb: Verb) -> &'static str
    ensures { result.now ≡ verb_name verb }
{
    match verb {
        Verb::Cell => "cell",
        Verb::Write => "write",
        Verb::Update => "update",
        Verb::Stop => "stop",
    }
}

/// What a row wants whose name isn't known, or that has none.
pub(crate) fn unknown_words(verb: Option<Verb>) -> &'static str
    ensures { result.now ≡ unknown_words verb }
{
    match verb {
        Some(Verb::Write) => "a name",
        Some(Verb::Update) => "no earlier row writes this name",
        Some(Verb::Stop) => "no earlier row writes this name",
        Some(Verb::Cell) | None => "",
    }
}

/// What is said of a cell too many in a network book, or of another row too many.
fn many_of_verb(verb: Option<Verb>) -> &'static str
    ensures { result.now ≡ many_of_verb verb }
{
    match verb {
        Some(Verb::Cell) => "a network book has 65536 cells at most",
        Some(Verb::Write | Verb::Update | Verb::Stop) | None => {
            "a network book has 4096 rows besides cells at most"
        }
    }
}

/// What is said of a row too many, or of a cell too many.
pub(crate) fn too_many_words(bounds: Bounds, verb: Option<Verb>, row: u32) -> &'static str
    ensures { result.now ≡ too_many_words bounds verb row }
{
    match bounds {
        Bounds::Book if row > 4096 => "a book has 4096 rows at most",
        Bounds::Book => "a book has 64 cells at most",
        Bounds::Network if row > 69_633 => "a network book has 69632 rows at most",
        Bounds::Network => many_of_verb(verb),
    }
}

/// Where a row's text stands.
fn text_place(verb: Option<Verb>) -> usize
    ensures place { result ≡ text_place verb }
    ensures some { 1 ≤ result }
{
    match verb {
        Some(Verb::Write) => 12,
        Some(Verb::Update) => 9,
        Some(Verb::Cell) | Some(Verb::Stop) | None => 1,
    }
}

/// Where the language of a row's text stands.
fn language_place(verb: Option<Verb>) -> usize
    ensures place { result ≡ language_place verb }
    ensures some { 1 ≤ result }
{
    match verb {
        Some(Verb::Write) => 7,
        Some(Verb::Update) => 4,
        Some(Verb::Cell) | Some(Verb::Stop) | None => 1,
    }
}

/// The column of a text's fault.
pub(crate) fn place_of_text(verb: Option<Verb>, why: TextFault) -> usize
    ensures place { result ≡ place_of_text verb why }
    ensures some { 1 ≤ result }
{
    match why {
        TextFault::BadLanguage => language_place(verb),
        TextFault::Empty
        | TextFault::BadCharacter { .. }
        | TextFault::TooManyPages
        | TextFault::Refused => text_place(verb),
    }
}
