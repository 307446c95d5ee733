//! Actions on pages: their octets, and the texts that are cut into them.

ghost use Rattle.std.specs.Prelude.{◌≤◌, IfOk, IsTrue};
ghost use Rattle.cbs_page.specs.Page.{is_readable};

use crate::codes::content_of;
use crate::table::octets_of;
use cbs_page::{
    Dcs, PageView, Paged, Refused, Serial, TextFault, language_dcs, page_bytes, page_text,
    paginate, push_page_text, read_page,
};
use std::alloc::{AllocError, Global};
use std::fmt::Write;
use std::test::Fail;
use test_support::{Drought, Words, digits_of};

/// What comes of an action on a page: on a text, which stands as it is, or on words, all of which are read. Memory is
/// scarce for the cutting of a text, and for the text that a page shows, if the line says so.
pub fn carried_out(
    alloc: Global,
    drought: &mut Drought,
    verb: &str,
    rest: &str,
) -> Result<String, Fail> {
    match verb {
        "cut" => cut(alloc, drought, rest),
        "content" => content(alloc, rest),
        "shown" => shown(alloc, drought, rest),
        "behind" => behind(alloc, drought, rest),
        "page" => page(alloc, rest),
        "view" => view(alloc, rest),
        _ => {
            let mut words = Words::of(rest);
            let found = by_words(alloc, verb, &mut words)?;
            if words.word().is_empty() {
                return Ok(found);
            }
            Err(Fail::new("words are left over"))
        }
    }
}

/// What comes of an action whose words are all short.
fn by_words(alloc: Global, verb: &str, words: &mut Words<'_>) -> Result<String, Fail> {
    match verb {
        "serial" => serial(alloc, words),
        "fields" => fields(alloc, words),
        "alphabet" => alphabet(alloc, words),
        "language" => language(alloc, words),
        "faults" => Ok(faults(alloc)?),
        _ => Ok(format!(in alloc; "no such action")?),
    }
}

/// The next word, an octet of hexadecimal digits.
fn octet_of(words: &mut Words<'_>) -> Result<u8, Fail> {
    Ok(u8::from_str_radix(words.word(), 16)?)
}

/// The next word, a number below 256.
fn number8(words: &mut Words<'_>) -> Result<u8, Fail> {
    Ok(words.word().parse::<u8>()?)
}

/// `serial SCOPE CODE UPDATE`: the serial number, `-` if there is none.
fn serial(alloc: Global, words: &mut Words<'_>) -> Result<String, Fail> {
    match Serial::new(number8(words)?, words.number16()?, number8(words)?) {
        Some(serial) => Ok(format!(in alloc; "{:04x}", serial.number())?),
        None => Ok(format!(in alloc; "-")?),
    }
}

/// `fields SERIAL`: its geographical scope, message code and update number, and the number again.
fn fields(alloc: Global, words: &mut Words<'_>) -> Result<String, Fail> {
    let serial = Serial::of(words.hex16()?);
    let (scope, code, update) = (serial.scope(), serial.code(), serial.update());
    Ok(format!(in alloc; "{scope} {code} {update} {:04x}", serial.number())?)
}

/// `alphabet FIRST LAST`: the alphabet that all these data codings have.
fn alphabet(alloc: Global, words: &mut Words<'_>) -> Result<String, Fail> {
    let (first, last) = (octet_of(words)?, octet_of(words)?);
    let alphabet = Dcs(first).alphabet();
    for value in first..=last {
        if Dcs(value).alphabet() != alphabet {
            return Ok(format!(in alloc; "another one from {value:02x}")?);
        }
    }
    Ok(format!(in alloc; "{alphabet:?}")?)
}

/// `language WORD`: the data coding of a language.
fn language(alloc: Global, words: &mut Words<'_>) -> Result<String, Fail> {
    Ok(format!(in alloc; "{:?}", language_dcs(words.word()))?)
}

/// `page ID SERIAL DCS NUMBER TOTAL CONTENT`: the octets of the page, numbers in hexadecimal.
fn page(alloc: Global, rest: &str) -> Result<String, Fail> {
    let mut words = Words::of(rest);
    let (id, serial, dcs) = (
        words.hex16()?,
        Serial::of(words.hex16()?),
        octet_of(&mut words)?,
    );
    let (number, total) = (octet_of(&mut words)?, octet_of(&mut words)?);
    let given = octets_of(alloc, words.word())?;
    if number < 1 || number > total || total > 15 || !words.word().is_empty() {
        return Err(Fail::new("no page"));
    }
    let octets = page_bytes(id, serial, Dcs(dcs), number, total, &content_of(&given)?);
    Ok(digits_of(alloc, octets.as_slice())?)
}

/// `view OCTETS`: what a page says.
fn view(alloc: Global, digits: &str) -> Result<String, Fail> {
    let given = octets_of(alloc, digits)?;
    let mut octets = [0; 88];
    if given.len() != 88 {
        return Err(Fail::new("not 88 octets"));
    }
    octets.copy_from_slice(&given);
    Ok(said_by(alloc, &read_page(&octets))?)
}

/// What a page says.
fn said_by(alloc: Global, view: &PageView) -> Result<String, AllocError> {
    let PageView {
        serial,
        id,
        dcs,
        number,
        total,
        content,
    } = *view;
    let readable = if view.readable() {
        "readable"
    } else {
        "unreadable"
    };
    let content = digits_of(alloc, content.as_slice())?;
    format!(in alloc;
        "serial {:04x} id {id:04x} dcs {:02x} page {number} of {total} {readable} content {content}",
        serial.number(),
        dcs.0
    )
}

/// A page of one page with this data coding and content, which is readable.
fn page_of_one(dcs: Dcs, content: &[u8; 82]) -> Result<PageView, Fail>
    ensures { IfOk result (λ view. IsTrue (is_readable view)) }
{
    let view = read_page(&page_bytes(1, Serial::of(1), dcs, 1, 1, content));
    if !view.readable() {
        return Err(Fail::new("not readable"));
    }
    Ok(view)
}

/// `DCS CONTENT`: such a page.
fn given_page(alloc: Global, words: &str) -> Result<PageView, Fail>
    ensures { IfOk result (λ view. IsTrue (is_readable view)) }
{
    let (dcs, digits) = words.split_once(' ').unwrap_or((words, ""));
    let given = octets_of(alloc, digits)?;
    page_of_one(Dcs(u8::from_str_radix(dcs, 16)?), &content_of(&given)?)
}

/// The text that a page shows, or the name of the fault.
fn text_of(alloc: Global, drought: &mut Drought, view: &PageView) -> Result<String, Fail>
    requires { IsTrue (is_readable view.now) }
{
    drought.begin(alloc);
    let outcome = page_text(alloc, view);
    drought.end();
    match outcome {
        Ok(text) => Ok(text),
        Err(fault) => Ok(format!(in alloc; "{fault:?}")?),
    }
}

/// `shown DCS CONTENT`: the text that a page with this data coding and content shows.
fn shown(alloc: Global, drought: &mut Drought, rest: &str) -> Result<String, Fail> {
    let view = given_page(alloc, rest)?;
    text_of(alloc, drought, &view)
}

/// `behind WORD DCS CONTENT`: the word, and behind it the text that a page shows. Out of memory, the word still stands.
fn behind(alloc: Global, drought: &mut Drought, rest: &str) -> Result<String, Fail> {
    let (word, rest) = rest.split_once(' ').unwrap_or((rest, ""));
    let view = given_page(alloc, rest)?;
    let mut text = String::from_str(alloc, word)?;
    drought.begin(alloc);
    let outcome = push_page_text(&mut text, &view);
    drought.end();
    match outcome {
        Ok(()) => Ok(text),
        Err(fault) if text.starts_with(word) => Ok(format!(in alloc; "{fault:?}")?),
        Err(_) => Err(Fail::new("the text before the page's is gone")),
    }
}

/// The text that the pages of a message show, joined. No memory is scarce for it.
fn text_of_pages(alloc: Global, paged: &Paged) -> Result<String, Fail> {
    let mut text = String::new(alloc);
    let mut drought = Drought::new(alloc)?;
    for content in &paged.pages {
        let view = page_of_one(paged.dcs, &content.octets)?;
        text.push_str(&text_of(alloc, &mut drought, &view)?)?;
    }
    Ok(text)
}

/// `cut LANGUAGE TEXT`: the data coding of the pages and the octets used of each, or the fault. The pages show the text
/// again.
fn cut(alloc: Global, drought: &mut Drought, rest: &str) -> Result<String, Fail> {
    let (language, text) = rest.split_once(' ').unwrap_or((rest, ""));
    drought.begin(alloc);
    let outcome = paginate(alloc, text, language);
    drought.end();
    match outcome {
        Ok(paged) => pages_of(alloc, &paged, text),
        Err(fault) => Ok(format!(in alloc; "{fault:?}")?),
    }
}

/// The pages of a text.
fn pages_of(alloc: Global, paged: &Paged, text: &str) -> Result<String, Fail> {
    let mut said = format!(in alloc; "dcs {:02x} used", paged.dcs.0)?;
    for content in &paged.pages {
        write!(said, " {}", content.used)?;
    }
    if text_of_pages(alloc, paged)?.as_str() != text {
        said.push_str(" and another text")?;
    }
    Ok(said)
}

/// `content NUMBER LANGUAGE TEXT`: the octets of the page of this number.
fn content(alloc: Global, rest: &str) -> Result<String, Fail> {
    let (number, rest) = rest.split_once(' ').unwrap_or((rest, ""));
    let (language, text) = rest.split_once(' ').unwrap_or((rest, ""));
    let place = number.parse::<usize>()?.wrapping_sub(1);
    let paged = paginate(alloc, text, language)?;
    match paged.pages.get(place) {
        Some(content) => Ok(digits_of(alloc, content.octets.as_slice())?),
        None => Err(Fail::new("no such page")),
    }
}

/// `faults`: what the faults of a text are called.
fn faults(alloc: Global) -> Result<String, AllocError> {
    let place = 12;
    let (language, character) = (TextFault::BadLanguage, TextFault::BadCharacter { place });
    let (empty, pages, memory) = (
        TextFault::Empty,
        TextFault::TooManyPages,
        TextFault::Refused,
    );
    format!(in alloc; "{language}; {empty}; {character}; {pages}; {memory}; {Refused}")
}
