//! A table of texts, as CSV, in memory.

ghost use Rattle.std.specs.Prelude.{◌≡◌, ℕ, List, [], ◌++◌, None, Some, map, position, IfOk, OnOk};
ghost use Rattle.std.specs.Option.{option_copied};
ghost use Rattle.std.specs.Str.{chars};
ghost use Rattle.cbs_page.specs.Text.{is_bad};
ghost use Rattle.alert_book.specs.Book.{sending_of};
ghost use Rattle.book_texts.specs.Cost.{IsCostOf};
ghost use Rattle.book_texts.specs.TextsOutput.{character_text, coding_text, has_bad, header_line, line, number_text};
ghost use Rattle.book_texts.specs.TextsOutput.{text_line, unless_bad, IsCutFor, IsLineOf};

use crate::cost::{TextCost, cost_of_text, first_forcing, place_of_forcing};
use crate::fit::cut_for;
use alert_book::{Action, Order, Sending};
use cbs_page::Alphabet;
use csv::{Writer, WriterBuilder};
use itoa::Buffer;
use std::alloc::{AllocError, Global};

/// The lines of texts, after the line of the columns' names.
#[derive(Drop)]
pub struct Table {
    writer: Writer<Vec<u8>>,
}

/// What an order has cells send, if it does.
fn sending_of(order: &Order) -> Option<&Sending>
    ensures { option_copied result ≡ sending_of order.now.action }
{
    match &order.action {
        Action::Write(sending) => Some(sending),
        Action::Update { sending, .. } => Some(sending),
        Action::Stop(_) => None,
    }
}

/// The name of an alphabet.
fn coding_text(alphabet: Alphabet) -> &'static str
    ensures { result.now ≡ coding_text alphabet }
{
    match alphabet {
        Alphabet::Gsm => "GSM 7-bit",
        Alphabet::Ucs2 => "UCS-2",
    }
}

/// The place of the first character that can't be sent.
fn bad_place(text: &str) -> Option<usize>
    ensures { result ≡ position is_bad (chars text.now) }
{
    text.chars().position(is_bad)
}

/// Whether a text has a character that can't be sent.
fn has_bad(text: &str) -> bool
    ensures { result ≡ has_bad (chars text.now) }
{
    bad_place(text).is_some()
}

/// Whether a character can't be sent: a control character other than LF, or one above U+FFFF.
fn is_bad(character: char) -> bool
    ensures { result ≡ is_bad character }
{
    (character < ' ' && character != '\n') || character > '\u{FFFF}'
}

/// A number, unless the text can't be sent whatever its length.
fn unless_bad(text: &str, number: usize) -> Option<usize>
    ensures { result ≡ unless_bad (chars text.now) number }
{
    if has_bad(text) { None } else { Some(number) }
}

/// The same of the number of characters to which it is cut.
fn cut_unless_bad(text: &str, cut: Option<usize>) -> Option<usize>
    ensures { (n : ℕ) → cut ≡ Some n → result ≡ unless_bad (chars text.now) n }
{
    unless_bad(text, cut?)
}

/// To how many characters a text is cut for a number of pages, if one is asked for.
fn cut_of_text(text: &str, pages: Option<u16>) -> Option<usize>
    ensures { IsCutFor pages (chars text.now) result }
{
    match pages {
        Some(pages) => Some(cut_for(text, u64::from(pages))),
        None => None,
    }
}

/// The digits of a number, if there is one.
fn number_text(buffer: &mut Buffer, number: Option<usize>) -> &str
    ensures { result.now ≡ number_text number }
{
    match number {
        Some(number) => buffer.format(number),
        None => "",
    }
}

/// A character by itself, if there is one.
fn character_text(buffer: &mut [u8; 4], character: Option<char>) -> &str
    ensures { result.now ≡ character_text character }
{
    match character {
        Some(character) => character.encode_utf8(buffer),
        None => "",
    }
}

impl Table {
    ghost use Rattle.book_texts.specs.TextsSteps.{IsTable};

    /// A table of no texts.
    ///
    /// # Errors
    ///
    /// Out of memory.
    pub fn new(alloc: Global, pages: Option<u16>) -> Result<Table, AllocError>
        ensures { IfOk result (λ table. IsTable table (header_line pages)) }
    {
        match pages {
            None => Table::with_names(alloc),
            Some(_) => Table::with_all_names(alloc),
        }
    }

    /// A table of no texts, without the last column.
    fn with_names(alloc: Global) -> Result<Table, AllocError>
        ensures { IfOk result (λ table. IsTable table (header_line None)) }
    {
        let mut table = Table::empty(alloc);
        table.push_line(&[
            b"row",
            b"name",
            b"lang",
            b"coding",
            b"characters",
            b"pages",
            b"room",
            b"first_ucs2",
            b"place",
        ])?;
        Ok(table)
    }

    /// A table of no texts, with the last column.
    fn with_all_names(alloc: Global) -> Result<Table, AllocError>
        ensures { IfOk result (λ table. (pages : ℕ) → IsTable table (header_line (Some pages))) }
    {
        let mut table = Table::empty(alloc);
        table.push_line(&[
            b"row",
            b"name",
            b"lang",
            b"coding",
            b"characters",
            b"pages",
            b"room",
            b"first_ucs2",
            b"place",
            b"fits",
        ])?;
        Ok(table)
    }

    /// A table with no line.
    fn empty(alloc: Global) -> Table
        ensures { IsTable result [] }
    {
        Table {
            writer: WriterBuilder::new().from_writer(Vec::new(alloc)),
        }
    }

    /// Appends the line of an order, if it sends a text.
    ///
    /// # Errors
    ///
    /// Out of memory.
    pub fn push_order(&mut self, order: &Order, pages: Option<u16>) -> Result<(), AllocError>
        ensures { OnOk result ((octets : List ℕ) → IsTable self.old octets → (line : List ℕ)
            × IsLineOf pages (sending_of order.now.action) order.now line × IsTable self.new (octets ++ line)) }
    {
        match sending_of(order) {
            Some(sending) => {
                let text = sending.text.text.as_str();
                let cost = cost_of_text(text);
                let cut = cut_of_text(text, pages);
                self.push_text(order, sending, cost, coding_text(cost.alphabet), cut)
            }
            None => Ok(()),
        }
    }

    /// Appends the line of an order's text, which costs this, is sent in the alphabet of this name, and is cut to this.
    fn push_text<'a>(
        &mut self,
        order: &'a Order,
        sending: &'a Sending,
        cost: TextCost,
        coding: &'a str,
        cut: Option<usize>,
    ) -> Result<(), AllocError>
        requires { coding.now ≡ coding_text cost.alphabet }
        ensures { OnOk result ((octets : List ℕ) → IsTable self.old octets
            → IsTable self.new (octets ++ text_line order.now sending.now cost cut)) }
    {
        let text = sending.text.text.as_str();
        let mut forcing = [0; 4];
        let mut row = Buffer::new();
        let mut characters = Buffer::new();
        let mut pages = Buffer::new();
        let mut room = Buffer::new();
        let mut place = Buffer::new();
        let mut fits = Buffer::new();
        let fields: [&[u8]; 10] = [
            row.format(order.row).as_bytes(),
            order.name.text.as_bytes(),
            sending.language.text.as_bytes(),
            coding.as_bytes(),
            characters.format(cost.characters).as_bytes(),
            number_text(&mut pages, unless_bad(text, cost.pages)).as_bytes(),
            number_text(&mut room, unless_bad(text, cost.room)).as_bytes(),
            character_text(&mut forcing, first_forcing(text)).as_bytes(),
            number_text(&mut place, place_of_forcing(text)).as_bytes(),
            number_text(&mut fits, cut_unless_bad(text, cut)).as_bytes(),
        ];
        match cut {
            None => self.push_line(&fields[..9]),
            Some(_) => self.push_line(&fields),
        }
    }

    /// Appends a line. A writer to memory fails only if out of memory.
    fn push_line(&mut self, fields: &[&[u8]]) -> Result<(), AllocError>
        ensures { OnOk result ((octets : List ℕ) → IsTable self.old octets
            → IsTable self.new (octets ++ line (map (λ f. f.now) fields.now))) }
    {
        match self.writer.write_fields(fields) {
            Ok(()) => Ok(()),
            Err(_) => Err(AllocError),
        }
    }

    /// The table's octets.
    ///
    /// # Errors
    ///
    /// Out of memory.
    pub fn into_octets(self) -> Result<Vec<u8>, AllocError>
        ensures { IfOk result (λ octets. (text : List ℕ) → IsTable self text → octets.items ≡ text) }
    {
        match self.writer.into_inner() {
            Ok(octets) => Ok(octets),
            Err(_) => Err(AllocError),
        }
    }
}
