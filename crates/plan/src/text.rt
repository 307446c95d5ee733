//! The text of a plan: the separator of its columns.

ghost use Rattle.std.specs.Prelude.{◌≡◌};
ghost use Rattle.csv.specs.Reading.{strip_bom};
ghost use Rattle.plan.specs.PlanText.{after_plain, after_start, is_bare, is_line_end, is_separator, look_after};
ghost use Rattle.plan.specs.PlanText.{separator_of};

/// Where a place of a text is.
#[derive(Clone, Copy, Debug, PartialEq, Eq)]
pub(crate) enum Look {
    /// At the start of a line, or behind spaces there.
    Start,
    /// In a comment.
    Comment,
    /// In plain text.
    Plain,
    /// In quotes.
    Quoted,
    /// Behind a quote in quotes.
    Closed,
}

/// The octets without a byte order mark.
#[tactic(auto, unfolding(csv::specs::Reading::strip_bom))]
pub(crate) fn without_mark(octets: &[u8]) -> &[u8]
    ensures { result.now ≡ strip_bom octets.now }
{
    match octets {
        [0xEF, 0xBB, 0xBF, rest @ ..] => rest,
        _ => octets,
    }
}

/// Whether an octet separates columns.
fn is_separator(octet: u8) -> bool
    ensures { result ≡ is_separator octet }
{
    octet == b',' || octet == b';' || octet == b'\t'
}

/// Whether an octet is CR or LF.
fn is_line_end(octet: u8) -> bool
    ensures { result ≡ is_line_end octet }
{
    octet == b'\r' || octet == b'\n'
}

/// Where the place behind an octet of plain text is.
fn after_plain(octet: u8) -> Look
    ensures { result ≡ after_plain octet }
{
    if is_line_end(octet) {
        Look::Start
    } else {
        Look::Plain
    }
}

/// Where the place behind an octet at the start of a line is.
fn after_start(octet: u8) -> Look
    ensures { result ≡ after_start octet }
{
    if octet == b' ' {
        Look::Start
    } else if octet == b'#' {
        Look::Comment
    } else if octet == b'"' {
        Look::Quoted
    } else {
        after_plain(octet)
    }
}

/// Where the place behind an octet is.
fn look_after(at: Look, octet: u8) -> Look
    ensures { result ≡ look_after at octet }
{
    match at {
        Look::Start => after_start(octet),
        Look::Comment if is_line_end(octet) => Look::Start,
        Look::Comment => Look::Comment,
        Look::Plain => after_plain(octet),
        Look::Quoted if octet == b'"' => Look::Closed,
        Look::Quoted => Look::Quoted,
        Look::Closed if octet == b'"' => Look::Quoted,
        Look::Closed => after_plain(octet),
    }
}

/// Whether a place is neither in a comment nor in quotes.
fn is_bare(at: Look) -> bool
    ensures { result ≡ is_bare at }
{
    match at {
        Look::Start | Look::Plain | Look::Closed => true,
        Look::Comment | Look::Quoted => false,
    }
}

/// The separator of a text's columns: the first outside comments and quotes, or a comma if there is none.
pub(crate) fn separator_of(text: &[u8]) -> u8
    ensures { result ≡ separator_of text.now }
{
    let mut at = Look::Start;
    for octet in text {
        if is_bare(at) && is_separator(*octet) {
            return *octet;
        }
        at = look_after(at, *octet);
    }
    b','
}
