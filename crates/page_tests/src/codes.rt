//! Actions on characters, septets and units.

ghost use Rattle.std.specs.Prelude.{◌<◌, All};

use crate::table::octets_of;
use arrayvec::ArrayVec;
use gsm_alphabet::{Code, decode_ext, decode_one, encode_char};
use septets::{pack, unpack};
use std::alloc::Global;
use std::fmt::Write;
use std::test::Fail;
use test_support::digits_of;
use ucs2_text::{char_of, put_units, unit_of, units_of};

/// Puts the code of a character, `-` if it has none, and `!` behind a code that shows another character.
fn put_code(text: &mut String, character: char) -> Result<(), Fail> {
    let shown = match encode_char(character) {
        Some(Code::One(septet)) => {
            write!(text, "{septet:02x}")?;
            decode_one(septet)
        }
        Some(Code::Ext(septet)) => {
            write!(text, "1b{septet:02x}")?;
            decode_ext(septet)
        }
        None => {
            text.push('-')?;
            character
        }
    };
    if shown != character {
        text.push('!')?;
    }
    Ok(())
}

/// `codes TEXT`: the code of each character, which shows the character again.
pub fn codes_of(alloc: Global, text: &str) -> Result<String, Fail> {
    let mut codes = String::new(alloc);
    for character in text.chars() {
        if !codes.is_empty() {
            codes.push(' ')?;
        }
        put_code(&mut codes, character)?;
    }
    Ok(codes)
}

/// `show CODE ..`: the character that each code shows, a septet or an escape and a septet.
pub fn shown(alloc: Global, codes: &str) -> Result<String, Fail> {
    let mut text = String::new(alloc);
    for code in codes.split(' ') {
        let septet = u16::from_str_radix(code, 16)?;
        let low = (septet % 256) as u8;
        text.push(if septet / 256 == 0x1B {
            decode_ext(low)
        } else {
            decode_one(low)
        })?;
    }
    Ok(text)
}

/// As many septets as a page has, of octets.
fn septets_of(octets: &[u8]) -> ArrayVec<u8, 93>
    ensures { All (λ septet. septet < 128) result.items }
{
    let mut septets = ArrayVec::new();
    for octet in octets {
        let _ = septets.try_push(*octet & 0x7F);
    }
    septets
}

/// `pack SEPTETS`: the octets of the page, from which the septets come back with CR behind them.
pub fn packed(alloc: Global, digits: &str) -> Result<String, Fail> {
    let given = octets_of(alloc, digits)?;
    let septets = septets_of(&given);
    let octets = pack(&septets);
    let mut text = digits_of(alloc, octets.as_slice())?;
    let back = unpack(&octets);
    let (front, filling) = back.as_slice().split_at(given.len().min(93));
    if front != given.as_slice() || filling.iter().any(|septet| *septet != 0x0D) {
        text.push_str(" and not back")?;
    }
    Ok(text)
}

/// `unpack OCTETS`: the septets of a page.
pub fn unpacked(alloc: Global, digits: &str) -> Result<String, Fail> {
    let given = octets_of(alloc, digits)?;
    let octets = content_of(&given)?;
    Ok(digits_of(alloc, unpack(&octets).as_slice())?)
}

/// The octets of a whole page.
pub fn content_of(given: &[u8]) -> Result<[u8; 82], Fail> {
    let mut content = [0; 82];
    if given.len() != 82 {
        return Err(Fail::new("not 82 octets"));
    }
    content.copy_from_slice(given);
    Ok(content)
}

/// `unit CHARACTER`: its unit, `-` if it has none.
pub fn unit(alloc: Global, text: &str) -> Result<String, Fail> {
    let mut units = String::new(alloc);
    for character in text.chars() {
        match unit_of(character) {
            Some(unit) => write!(units, "{unit:04x}")?,
            None => units.push('-')?,
        }
    }
    Ok(units)
}

/// `units TEXT`: the octets of the page that has these units.
pub fn units(alloc: Global, text: &str) -> Result<String, Fail> {
    let mut units: ArrayVec<u16, 41> = ArrayVec::new();
    for character in text.chars() {
        let Some(unit) = unit_of(character) else {
            return Err(Fail::new("a character without a unit"));
        };
        if units.is_full() {
            return Err(Fail::new("more units than a page has"));
        }
        units.push(unit);
    }
    Ok(digits_of(alloc, put_units(&units).as_slice())?)
}

/// `characters OCTETS`: those of the first units of a page that begins with these octets, and has 0 behind them.
pub fn characters(alloc: Global, digits: &str) -> Result<String, Fail> {
    let given = octets_of(alloc, digits)?;
    let mut octets = [0; 82];
    for (place, octet) in octets.iter_mut().zip(given.iter()) {
        *place = *octet;
    }
    let mut text = String::new(alloc);
    for unit in units_of(&octets).iter().take(given.len() / 2) {
        text.push(char_of(*unit))?;
    }
    Ok(text)
}
