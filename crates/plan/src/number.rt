//! Numbers in a plan, as a book has them: one to five digits.

ghost use Rattle.std.specs.Prelude.{◌≡◌, ◌≤◌, length, true, IfSome};
ghost use Rattle.std.specs.Char.{is_ascii_digit};
ghost use Rattle.std.specs.List.{list_all};
ghost use Rattle.std.specs.Str.Parse.{digits_value};
ghost use Rattle.alert_book.specs.Number.{is_number, number_within, in_range};

/// Whether a text has ASCII digits alone.
fn are_digits(text: &[u8]) -> bool
    ensures { result ≡ list_all is_ascii_digit text.now }
{
    text.iter().all(|digit| digit.is_ascii_digit())
}

/// Whether a text is one to five ASCII digits.
fn is_number(text: &[u8]) -> bool
    ensures { result ≡ is_number text.now }
{
    1 <= text.len() && text.len() <= 5 && are_digits(text)
}

/// The number that up to five digits say.
fn value_of(digits: &[u8]) -> u64
    requires few { length digits.now ≤ 5 }
    requires digits { list_all is_ascii_digit digits.now ≡ true }
    ensures { result ≡ digits_value 10 digits.now }
{
    let mut value = 0;
    for digit in digits {
        value = value * 10 + u64::from(*digit - b'0');
    }
    value
}

/// The number that a text says, if it is one and in this range.
pub(crate) fn number_within(text: &[u8], least: u64, most: u64) -> Option<u64>
    ensures value { result ≡ number_within least most text.now }
    ensures range { IfSome result (λ value. (least ≤ value) × (value ≤ most)) }
{
    if !is_number(text) {
        return None;
    }
    in_range(value_of(text), least, most)
}

/// The value, if it is in this range.
fn in_range(value: u64, least: u64, most: u64) -> Option<u64>
    ensures value { result ≡ in_range least most value }
    ensures range { IfSome result (λ value. (least ≤ value) × (value ≤ most)) }
{
    if least <= value && value <= most {
        Some(value)
    } else {
        None
    }
}
