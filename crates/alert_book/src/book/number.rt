//! Numbers in a book: one to five digits.

ghost use Rattle.std.specs.Prelude.{◌≡◌};
ghost use Rattle.std.specs.Char.{is_ascii_digit};
ghost use Rattle.std.specs.List.{list_all};
ghost use Rattle.alert_book.specs.Number.{is_number, in_range, is_number, number_within};

/// Whether a text is one to five ASCII digits.
fn is_number(text: &str) -> bool
    ensures { result ≡ is_number text.now }
{
    1 <= text.len() && text.len() <= 5 && are_digits(text)
}

/// Whether a text has ASCII digits alone.
fn are_digits(text: &str) -> bool
    ensures { result ≡ list_all is_ascii_digit text.now }
{
    text.bytes().all(|digit| digit.is_ascii_digit())
}

/// The number that a text says, if it is one and in this range.
pub(crate) fn number_within(text: &str, least: u16, most: u16) -> Option<u16>
    ensures { result ≡ number_within least most text.now }
{
    if !is_number(text) {
        return None;
    }
    match text.parse::<u32>() {
        Ok(value) => in_range(value, least, most),
        Err(_) => None,
    }
}

/// The value, if it is in this range.
fn in_range(value: u32, least: u16, most: u16) -> Option<u16>
    ensures { result ≡ in_range least most value }
{
    if least as u32 <= value && value <= most as u32 {
        Some(value as u16)
    } else {
        None
    }
}
