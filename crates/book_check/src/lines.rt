//! The line on which each record of a text begins.
//!
//! [`pass_record`] goes over the octets of a record as the crate `csv` does, so that each of its records has its line.

ghost use Rattle.std.specs.Prelude.{◌≡◌, ◌+◌, ◌<◌, ◌≤◌, false, true, drop, length};
ghost use Rattle.csv.specs.Machine.{in_field, start_field, start_record, step};
ghost use Rattle.csv.specs.Reading.{default_config, strip_bom};
ghost use Rattle.book_check.specs.Lines.{blank_front, ends_line, is_line_end, line_of};
ghost use Rattle.book_check.specs.LineSteps.{csv_state, is_start, IsBefore, IsOn, IsStep, PassesRecord, SameRecord};

/// Where in a record a place is.
#[derive(Clone, Copy, Debug, PartialEq, Eq)]
pub(crate) enum Within {
    /// Before a record.
    Start,
    /// Before a field.
    Field,
    /// In a plain field, or in plain text after quotes.
    Plain,
    /// In quotes.
    Quoted,
    /// After a quote in quotes.
    Quote,
    /// After a record that CR ended.
    Return,
}

/// What comes of an octet.
#[derive(Clone, Copy, Debug)]
pub(crate) struct Next {
    /// Where the place after it is.
    pub(crate) within: Within,
    /// Whether it ends the record.
    pub(crate) ends: bool,
}

/// A place in a text.
#[derive(Clone, Copy, Debug)]
pub(crate) struct Cursor {
    /// How many octets stand before it.
    pub(crate) at: usize,
    /// How many lines end before it.
    pub(crate) ended: usize,
    /// Where in a record it is.
    pub(crate) within: Within,
}

/// A record that was passed.
#[derive(Clone, Copy, Debug)]
pub(crate) struct Passed {
    /// The line on which it begins, counted from 1.
    pub(crate) line: usize,
    /// The place behind it.
    pub(crate) cursor: Cursor,
}

/// The octets without a byte order mark.
#[tactic(auto, unfolding(csv::specs::Reading::strip_bom))]
pub(crate) fn without_mark(octets: &[u8]) -> &[u8]
    ensures { result.now ≡ strip_bom octets.now }
{
    match octets {
        [0xEF, 0xBB, 0xBF, rest @ ..] => rest,
        _ => octets,
    }
}

/// Whether an octet is CR or LF.
fn is_line_end(octet: u8) -> bool
    ensures { result ≡ is_line_end octet }
{
    octet == b'\r' || octet == b'\n'
}

/// Whether a line ends with the octet at a place.
fn ends_line(text: &[u8], place: usize) -> bool
    requires { place < length text.now }
    ensures { result ≡ ends_line text.now place }
{
    let before = text[place.saturating_sub(1)];
    let octet = text[place];
    octet == b'\r' || (octet == b'\n' && before != b'\r')
}

/// What comes of an octet in a plain field.
fn in_field(octet: u8) -> Next
    ensures step { IsStep result (in_field default_config octet).0 (in_field default_config octet).1 }
    ensures start { result.ends ≡ true → is_start result.within ≡ true }
{
    if octet == b',' {
        return Next {
            within: Within::Field,
            ends: false,
        };
    }
    if octet == b'\r' {
        return Next {
            within: Within::Return,
            ends: true,
        };
    }
    if octet == b'\n' {
        return Next {
            within: Within::Start,
            ends: true,
        };
    }
    Next {
        within: Within::Plain,
        ends: false,
    }
}

/// What comes of an octet before a field.
fn start_field(octet: u8) -> Next
    ensures step { IsStep result (start_field default_config octet).0 (start_field default_config octet).1 }
    ensures start { result.ends ≡ true → is_start result.within ≡ true }
{
    if octet == b'"' {
        return Next {
            within: Within::Quoted,
            ends: false,
        };
    }
    in_field(octet)
}

/// What comes of an octet before a record.
fn start_record(octet: u8) -> Next
    ensures step { IsStep result (start_record default_config octet).0 (start_record default_config octet).1 }
    ensures start { result.ends ≡ true → is_start result.within ≡ true }
    ensures skips { is_line_end octet ≡ true → (result.within ≡ Within.Start) × (result.ends ≡ false) }
{
    if is_line_end(octet) {
        return Next {
            within: Within::Start,
            ends: false,
        };
    }
    start_field(octet)
}

/// What comes of an octet after a place.
fn next_within(within: Within, octet: u8) -> Next
    ensures step { IsStep result (step default_config (csv_state within) octet).0
        (step default_config (csv_state within) octet).1 }
    ensures start { result.ends ≡ true → is_start result.within ≡ true }
    ensures skips { is_start within ≡ true → is_line_end octet ≡ true
        → (result.within ≡ Within.Start) × (result.ends ≡ false) }
{
    match within {
        Within::Start | Within::Return => start_record(octet),
        Within::Field => start_field(octet),
        Within::Plain => in_field(octet),
        Within::Quoted if octet == b'"' => Next {
            within: Within::Quote,
            ends: false,
        },
        Within::Quoted => Next {
            within: Within::Quoted,
            ends: false,
        },
        Within::Quote if octet == b'"' => Next {
            within: Within::Quoted,
            ends: false,
        },
        Within::Quote => in_field(octet),
    }
}

/// The cursor behind the octet at a cursor, after which this comes.
fn behind(text: &[u8], cursor: Cursor, next: Next) -> Cursor
    requires on { IsOn text.now cursor }
    requires more { cursor.at < length text.now }
    ensures at { result.at ≡ cursor.at + 1 }
    ensures on { IsOn text.now result }
    ensures within { result.within ≡ next.within }
{
    Cursor {
        at: cursor.at + 1,
        ended: cursor.ended + usize::from(ends_line(text, cursor.at)),
        within: next.within,
    }
}

/// The cursor behind the line ends that stand before a record.
fn record_start(text: &[u8], start: Cursor) -> Cursor
    requires { IsBefore text.now start }
    ensures before { IsBefore text.now result }
    ensures at { result.at ≡ start.at + blank_front (drop start.at text.now) }
    ensures same { SameRecord text.now start result }
{
    let mut cursor = start;
    'blanks: while cursor.at < text.len() {
        let octet = text[cursor.at];
        if !is_line_end(octet) {
            return cursor;
        }
        cursor = behind(text, cursor, next_within(cursor.within, octet));
    }
    cursor
}

/// The cursor behind a record, or at the end of the text.
fn record_end(text: &[u8], start: Cursor) -> Cursor
    requires { IsBefore text.now start }
    ensures before { IsBefore text.now result }
    ensures passes { PassesRecord text.now start result }
{
    let mut cursor = start;
    'octets: while cursor.at < text.len() {
        let next = next_within(cursor.within, text[cursor.at]);
        cursor = behind(text, cursor, next);
        if next.ends {
            return cursor;
        }
    }
    Cursor {
        within: Within::Start,
        ..cursor
    }
}

/// Passes the next record of a text, with the line ends before it.
pub(crate) fn pass_record(text: &[u8], cursor: Cursor) -> Passed
    requires { IsBefore text.now cursor }
    ensures before { IsBefore text.now result.cursor }
    ensures line { result.line ≡ line_of text.now (drop cursor.at text.now) }
    ensures passes { PassesRecord text.now cursor result.cursor }
{
    let start = record_start(text, cursor);
    Passed {
        line: start.ended + 1,
        cursor: record_end(text, start),
    }
}
