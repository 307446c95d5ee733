//! What is said of a row's fault: what a plan may have in its place.

use alert_book::{Column, Found, RowFault, Verb};

/// The name of a column.
pub(crate) fn name_of(column: Column) -> &'static str {
    match column {
        Column::Lac => "LAC",
        Column::Ci => "CI",
        Column::At => "AT",
        Column::Name => "NAME",
        Column::Id => "ID",
        Column::Scope => "SCOPE",
        Column::Code => "CODE",
        Column::Language => "LANG",
        Column::Category => "CATEGORY",
        Column::Period => "PERIOD",
        Column::Broadcasts => "BROADCASTS",
        Column::Cells => "CELLS",
        Column::Text => "TEXT",
    }
}

/// What a column wants that has a number, or a list of cells.
fn number_words(kind: Option<Column>) -> &'static str {
    match kind {
        Some(Column::At) => "slots from 0 to 65535, or a time as 0:30:00, 90 s, 15 min or 2 h",
        Some(Column::Period) => "slots from 1 to 1024, or a time as 0:01:00, 90 s, 15 min or 2 h",
        Some(Column::Scope) => "0 to 3, or immediate, plmn, area or cell",
        Some(Column::Code) => "a number from 0 to 1023",
        Some(Column::Category) => "high, background or normal, or 0, 1 or 2",
        Some(Column::Cells) => "*, or up to 64 of cells as 1-2, ranges as 1-2..9, and areas",
        Some(_) | None => "a number from 0 to 65535",
    }
}

/// What is said of a row whose number of columns is wrong, or that has one that isn't UTF-8.
fn columns_words(verb: Option<Verb>, column: usize) -> &'static str {
    if column > 1 {
        return "not UTF-8: save as CSV UTF-8";
    }
    match verb {
        Some(Verb::Cell) => "cell has 3 columns",
        Some(Verb::Write) => "write has 12 columns",
        Some(Verb::Update) => "update has 9 columns",
        Some(Verb::Stop) => "stop has 4 columns",
        None => "not UTF-8: save as CSV UTF-8",
    }
}

/// What is said of what was given before.
fn twice_words(kind: Option<Column>) -> &'static str {
    match kind {
        Some(Column::Ci) => "an earlier row declares this cell",
        Some(Column::Name) => "an earlier row has this name",
        Some(_) | None => "a cell comes twice",
    }
}

/// What is said of a row's fault in this column.
pub(crate) fn says_of_row(verb: Option<Verb>, kind: Option<Column>, found: Found) -> &'static str {
    match found.fault {
        RowFault::Columns => columns_words(verb, found.column),
        RowFault::Verb => "cell, write, update, stop or area",
        RowFault::Number => number_words(kind),
        RowFault::UnknownCell => "no earlier row declares this cell, or any",
        RowFault::TwiceNamed => twice_words(kind),
        RowFault::UnknownName if verb == Some(Verb::Write) => "a name",
        RowFault::UnknownName => "no earlier row writes this name",
        RowFault::TooManyUpdates => "an alert has 15 updates at most",
        RowFault::TooManyRows => "a book has 4096 rows and 64 cells at most",
        RowFault::Refused => "out of memory",
    }
}
