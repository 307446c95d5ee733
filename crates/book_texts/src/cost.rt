//! What a text costs: its alphabet, its pages, and the room on the last of them.

ghost use Rattle.std.specs.Prelude.{◌≡◌, ◌≤◌, is_some};
ghost use Rattle.std.specs.List.{list_all};
ghost use Rattle.std.specs.Str.{chars};
ghost use Rattle.gsm_alphabet.specs.Alphabet.{code_of};
ghost use Rattle.cbs_page.specs.Text.{alphabet_for, capacity};
ghost use Rattle.book_texts.specs.Cost.{first_forcing, forces_ucs2, forcing_count, pages_needed};
ghost use Rattle.book_texts.specs.Cost.{pages_without_forcing, place_of_forcing, IsCostOf};
ghost use Rattle.book_texts.specs.TextsSteps.{Fills};

use cbs_page::Alphabet;
use gsm_alphabet::encode_char;

/// What a text costs, whatever its number of pages.
#[derive(Clone, Copy, Debug, PartialEq, Eq)]
pub struct TextCost {
    /// GSM 7-bit if that has each of its characters, else UCS-2.
    pub alphabet: Alphabet,
    /// How many characters it has.
    pub characters: usize,
    /// How many pages it takes; no text takes none.
    pub pages: usize,
    /// How many more septets, or units, the last page has room for.
    pub room: usize,
}

/// How far a text fills pages.
#[derive(Clone, Copy)]
pub struct Filling {
    /// How many characters it has.
    pub characters: usize,
    /// How many pages there are.
    pub pages: usize,
    /// How many codes the last one has.
    pub used: usize,
}

/// What a text costs. It may take more pages than a message has.
pub fn cost_of_text(text: &str) -> TextCost
    ensures { IsCostOf (chars text.now) result }
{
    let alphabet = alphabet_of_text(text);
    let filling = filling_of(text, alphabet);
    TextCost {
        alphabet,
        characters: filling.characters,
        pages: filling.pages,
        room: alphabet.capacity() - filling.used,
    }
}

/// The first character of a text that GSM 7-bit lacks, so that the text is sent in UCS-2.
pub fn first_forcing(text: &str) -> Option<char>
    ensures { result ≡ first_forcing (chars text.now) }
{
    text.chars().find(|character| forces_ucs2(*character))
}

/// How many characters stand before it.
pub fn place_of_forcing(text: &str) -> Option<usize>
    ensures { result ≡ place_of_forcing (chars text.now) }
{
    text.chars().position(forces_ucs2)
}

/// How many characters of a text GSM 7-bit lacks.
pub fn forcing_count(text: &str) -> usize
    ensures { result ≡ forcing_count (chars text.now) }
{
    text.chars()
        .filter(|character| forces_ucs2(*character))
        .count()
}

/// How many pages a text takes.
pub fn pages_needed(text: &str) -> usize
    ensures { result ≡ pages_needed (chars text.now) }
{
    cost_of_text(text).pages
}

/// How many pages a text would take without the characters that GSM 7-bit lacks.
pub fn pages_without_forcing(text: &str) -> usize
    ensures { result ≡ pages_without_forcing (chars text.now) }
{
    filling_of(text, Alphabet::Gsm).pages
}

/// Whether GSM 7-bit lacks a character.
fn forces_ucs2(character: char) -> bool
    ensures { result ≡ forces_ucs2 character }
{
    encode_char(character).is_none()
}

/// Whether GSM 7-bit has a character.
fn has_code(character: char) -> bool
    ensures { result ≡ is_some (code_of character) }
{
    encode_char(character).is_some()
}

/// Whether GSM 7-bit has each character of a text.
fn is_gsm(text: &str) -> bool
    ensures { result ≡ list_all (λ c. is_some (code_of c)) (chars text.now) }
{
    text.chars().all(has_code)
}

/// The alphabet of a text.
fn alphabet_of_text(text: &str) -> Alphabet
    ensures { result ≡ alphabet_for (chars text.now) }
{
    if is_gsm(text) {
        Alphabet::Gsm
    } else {
        Alphabet::Ucs2
    }
}

/// How far a text fills pages in an alphabet.
fn filling_of(text: &str, alphabet: Alphabet) -> Filling
    ensures filled { Fills alphabet (chars text.now) result }
    ensures within { result.used ≤ capacity alphabet }
{
    let capacity = alphabet.capacity();
    let mut characters = 0;
    let mut pages = 1;
    let mut used = 0;
    for character in text.chars() {
        characters += 1;
        let cost = alphabet.cost(character);
        if used + cost <= capacity {
            used += cost;
        } else {
            pages += 1;
            used = cost;
        }
    }
    if characters == 0 {
        pages = 0;
    }
    Filling {
        characters,
        pages,
        used,
    }
}
