//! What the words of a row name: cells, and messages of the warning centre as octets.

use cbsp_wire::Cell;
use std::alloc::{AllocError, Global};
use std::fmt::Write;
use std::test::Fail;
use test_support::{Words, octets_of};

/// The element of a page, of which one octet is used.
const PAGE: &str =
    "01010D0D0D0D0D0D0D0D0D0D0D0D0D0D0D0D0D0D0D0D0D0D0D0D0D0D0D0D0D0D0D0D0D0D0D0D0D0D0D0D0D\
    0D0D0D0D0D0D0D0D0D0D0D0D0D0D0D0D0D0D0D0D0D0D0D0D0D0D0D0D0D0D0D0D0D0D0D0D0D0D0D0D0D";

/// The cell of a word: location area code and cell identity, as `1-2`.
pub fn cell_of(word: &str) -> Result<Cell, Fail> {
    let (lac, ci) = word.split_once('-').unwrap_or((word, ""));
    Ok(Cell {
        lac: lac.parse::<u16>()?,
        ci: ci.parse::<u16>()?,
    })
}

/// The cells of a word: `1-1,1-2`, or `none`.
pub fn cells_of(alloc: Global, word: &str) -> Result<Vec<Cell>, Fail> {
    let mut cells = Vec::new(alloc);
    for part in word.split(',') {
        if part != "none" {
            cells.push(cell_of(part)?)?;
        }
    }
    Ok(cells)
}

/// Puts the element of a list of cells.
fn put_cells(digits: &mut String, cells: &[Cell]) -> Result<(), AllocError> {
    let length = cells.len().wrapping_mul(4).wrapping_add(1);
    write!(digits, "04{length:04x}01")?;
    for cell in cells {
        write!(digits, "{:04x}{:04x}", cell.lac, cell.ci)?;
    }
    Ok(())
}

/// Puts the elements that a write and a replacement have of their own: their message is broadcast until it is stopped.
fn put_write(digits: &mut String, pages: u8, words: &mut Words) -> Result<(), Fail> {
    let (serial, category, period) = (words.word(), words.word(), words.number16()?);
    let category = match category {
        "high" => "00",
        "background" => "01",
        _ => "02",
    };
    write!(
        digits,
        "03{serial}05{category}06{period:04x}07000013{pages:02x}0c01"
    )?;
    for _ in 0..pages {
        digits.push_str(PAGE)?;
    }
    Ok(())
}

/// Puts the elements of an order, which may come in any order. The words: the identifier, the serial number of the
/// message that is killed or replaced, what a write has, and the cells.
fn put_elements(
    alloc: Global,
    digits: &mut String,
    verb: &str,
    words: &mut Words,
) -> Result<(), Fail> {
    let id = words.number16()?;
    write!(digits, "0e{id:04x}")?;
    if verb != "write" {
        let serial = words.word();
        write!(digits, "02{serial}")?;
    }
    match verb {
        "write" | "replace" => put_write(digits, 1, words)?,
        "replace-by-two-pages" => put_write(digits, 2, words)?,
        _ => {}
    }
    let cells = cells_of(alloc, words.word())?;
    Ok(put_cells(digits, &cells)?)
}

/// The octets of a message: `write ..`, `replace ..`, `replace-by-two-pages ..`, `kill ..`, or `octets` and their
/// digits.
pub fn message_of(alloc: Global, words: &mut Words) -> Result<Vec<u8>, Fail> {
    let verb = words.word();
    if verb == "octets" {
        return octets_of(alloc, words.word());
    }
    let mut digits = String::new(alloc);
    put_elements(alloc, &mut digits, verb, words)?;
    let kind = if verb == "kill" { "04" } else { "01" };
    let length = digits.len() / 2;
    octets_of(alloc, &format!(in alloc; "{kind}{length:06x}{digits}")?)
}
