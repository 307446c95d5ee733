//! Octets as the tables write them.

use std::test::Fail;

/// Puts the octets that a table writes behind others: `|` is a line feed, `%` and two hexadecimal digits are an octet,
/// and all else stands for itself.
pub fn add_rows(octets: &mut Vec<u8>, text: &str) -> Result<(), Fail> {
    for (place, part) in text.split('%').enumerate() {
        let mut plain = part;
        if place > 0 {
            let (digits, rest) = part
                .split_at_checked(2)
                .ok_or("two digits follow a percent sign")?;
            octets.push(u8::from_str_radix(digits, 16)?)?;
            plain = rest;
        }
        for octet in plain.bytes() {
            octets.push(if octet == b'|' { b'\n' } else { octet })?;
        }
    }
    Ok(())
}
