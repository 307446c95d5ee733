//! A page as it is made.

ghost use Rattle.std.specs.Prelude.{◌≡◌, ◌++◌, [], OnOk};
ghost use Rattle.std.specs.Fmt.{decimal};
ghost use Rattle.hex.specs.Hex.{encode_lower};
ghost use Rattle.chart.specs.Escape.{escaped, escaped_octet};
ghost use Rattle.chart.specs.Words.{word_by};

use crate::word::{Word, Wording, word_in};
use std::alloc::{AllocError, Global};
use std::marker::Model;

/// The octets of a page. What isn't fixed gets into it as a number, or as a text whose characters mean nothing in a
/// page. In clauses it is its octets.
#[derive(Drop)]
pub struct Page {
    alloc: Global,
    octets: Vec<u8>,
}

impl Model for Page {
    ghost use Rattle.std.specs.Prelude.{List, ℕ};

    ghost Value = { List ℕ };

    ghost view = { λ page. page.octets.items };
}

impl Page {
    /// Nothing yet.
    pub fn new(alloc: Global) -> Page
        ensures { result ≡ [] }
    {
        Page {
            alloc,
            octets: Vec::new(alloc),
        }
    }

    /// The octets so far.
    pub fn octets(&self) -> &[u8]
        ensures { result.now ≡ self.now }
    {
        &self.octets
    }

    /// Appends what is fixed, as tags are.
    pub fn markup(&mut self, markup: &'static str) -> Result<(), AllocError>
        ensures { OnOk result (self.new ≡ self.old ++ markup.now) }
    {
        self.octets.extend_from_slice(markup.as_bytes())
    }

    /// Appends a word.
    pub fn word(&mut self, wording: Wording, word: Word) -> Result<(), AllocError>
        ensures { OnOk result (self.new ≡ self.old ++ word_by wording word) }
    {
        self.octets
            .extend_from_slice(word_in(wording.language, word).as_bytes())
    }

    /// Appends all of another page.
    pub fn page(&mut self, other: &Page) -> Result<(), AllocError>
        ensures { OnOk result (self.new ≡ self.old ++ other.now) }
    {
        self.octets.extend_from_slice(&other.octets)
    }

    /// The octets, which are the caller's from now on.
    pub fn into_octets(self) -> Vec<u8>
        ensures { result.items ≡ self }
    {
        let Page { octets, .. } = self;
        octets
    }

    /// Appends a text, so that a reader of the page sees it as it is.
    pub fn text(&mut self, text: &str) -> Result<(), AllocError>
        ensures { OnOk result (self.new ≡ self.old ++ escaped text.now) }
    {
        push_escaped(&mut self.octets, text.as_bytes())
    }

    /// The same of the octets of one.
    pub fn text_octets(&mut self, text: &[u8]) -> Result<(), AllocError>
        ensures { OnOk result (self.new ≡ self.old ++ escaped text.now) }
    {
        push_escaped(&mut self.octets, text)
    }

    /// Appends a number.
    pub fn number(&mut self, number: u64) -> Result<(), AllocError>
        ensures { OnOk result (self.new ≡ self.old ++ decimal number) }
    {
        let digits = number.to_string(self.alloc)?;
        self.octets.extend_from_slice(digits.as_bytes())
    }

    /// Appends octets in hexadecimal digits.
    pub fn digits(&mut self, octets: &[u8]) -> Result<(), AllocError>
        ensures { OnOk result (self.new ≡ self.old ++ encode_lower octets.now) }
    {
        let digits = hex::encode(self.alloc, octets)?;
        self.octets.extend_from_slice(digits.as_bytes())
    }
}

/// Appends an octet of a text.
fn push_octet(page: &mut Vec<u8>, octet: u8) -> Result<(), AllocError>
    ensures { OnOk result (page.new.items ≡ page.old.items ++ escaped_octet octet) }
{
    match octet {
        b'&' => page.extend_from_slice(b"&amp;"),
        b'<' => page.extend_from_slice(b"&lt;"),
        b'>' => page.extend_from_slice(b"&gt;"),
        b'"' => page.extend_from_slice(b"&quot;"),
        b'\'' => page.extend_from_slice(b"&#39;"),
        _ => Ok(page.push(octet)?),
    }
}

/// Appends a text, so that a reader of the page sees it as it is.
fn push_escaped(page: &mut Vec<u8>, text: &[u8]) -> Result<(), AllocError>
    ensures { OnOk result (page.new.items ≡ page.old.items ++ escaped text.now) }
{
    for octet in text {
        push_octet(page, *octet)?;
    }
    Ok(())
}
