//! How much of a text fits a number of pages.

ghost use Rattle.std.specs.Prelude.{◌≡◌, ◌<◌, ◌≤◌, ◌+◌, ◌↔◌, ℕ, List, [], ◌∷◌, ◌++◌, true};
ghost use Rattle.std.specs.Str.{chars};
ghost use Rattle.book_texts.specs.Fit.{is_gap, FitsIn, IsCut};
ghost use Rattle.book_texts.specs.FitSteps.{best_with, length_of_best, most_codes, AreFew, HasFilled, HasTaken};

use cbs_page::Alphabet;
use gsm_alphabet::encode_char;

/// How far pages are filled in an alphabet: how many there are, one at least, and how many codes the last one has.
#[derive(Clone, Copy)]
pub struct Pages {
    /// The alphabet.
    pub alphabet: Alphabet,
    /// How many pages there are.
    pub count: u64,
    /// How many codes the last one has.
    pub used: usize,
}

/// The front of a text, as far as it was taken: its pages in each alphabet.
#[derive(Clone, Copy)]
pub struct Front {
    /// How many characters it has.
    pub characters: usize,
    /// Whether GSM 7-bit has each of them.
    pub is_gsm: bool,
    /// Its pages in GSM 7-bit.
    pub gsm: Pages,
    /// Its pages in UCS-2.
    pub ucs2: Pages,
}

/// The fronts that were seen so far: how many characters the longest has that fits, and the longest of those that fit
/// and end before a gap.
#[derive(Clone, Copy)]
pub struct Best {
    /// The longest that fits.
    pub fitting: usize,
    /// The longest that fits and ends before a gap; 0 if none does.
    pub whole: usize,
}

impl Pages {
    /// A page on which nothing stands.
    fn new(alphabet: Alphabet) -> Pages
        ensures filled { HasFilled [] result }
        ensures same { result.alphabet ≡ alphabet }
        ensures few { result.count ≡ 1 }
        ensures within { result.used ≤ most_codes }
    {
        Pages {
            alphabet,
            count: 1,
            used: 0,
        }
    }

    /// The pages with one character more.
    fn with(self, character: char) -> Pages
        requires few { self.count < 18446744073709551615 }
        requires within { self.used ≤ most_codes }
        ensures filled { (front : List ℕ) → HasFilled front self → HasFilled (front ++ character ∷ []) result }
        ensures same { result.alphabet ≡ self.alphabet }
        ensures few { result.count ≤ self.count + 1 }
        ensures within { result.used ≤ most_codes }
    {
        let cost = self.alphabet.cost(character);
        if self.used + cost <= self.alphabet.capacity() {
            Pages {
                used: self.used + cost,
                ..self
            }
        } else {
            Pages {
                count: self.count + 1,
                used: cost,
                ..self
            }
        }
    }
}

impl Front {
    /// No character.
    fn new() -> Front
        ensures taken { HasTaken [] result }
        ensures few { AreFew 0 result }
    {
        Front {
            characters: 0,
            is_gsm: true,
            gsm: Pages::new(Alphabet::Gsm),
            ucs2: Pages::new(Alphabet::Ucs2),
        }
    }

    /// The front with one character more.
    fn with(self, character: char) -> Front
        requires few { AreFew self.characters self }
        requires short { self.characters < 9223372036854775807 }
        ensures taken { (text : List ℕ) → HasTaken text self → HasTaken (text ++ character ∷ []) result }
        ensures few { AreFew result.characters result }
        ensures characters { result.characters ≡ self.characters + 1 }
    {
        Front {
            characters: self.characters + 1,
            is_gsm: self.is_gsm && encode_char(character).is_some(),
            gsm: self.gsm.with(character),
            ucs2: self.ucs2.with(character),
        }
    }

    /// Whether the front takes this many pages at most.
    fn fits(&self, pages: u64) -> bool
        ensures { (text : List ℕ) → HasTaken text self.now → (result ≡ true) ↔ FitsIn pages text }
    {
        if self.characters == 0 {
            return true;
        }
        if self.is_gsm {
            self.gsm.count <= pages
        } else {
            self.ucs2.count <= pages
        }
    }
}

impl Best {
    /// With the front of this length, which fits or doesn't, and ends before a gap or doesn't.
    fn with(self, length: usize, fits: bool, ends: bool) -> Best
        ensures { result ≡ best_with self length fits ends }
    {
        Best {
            fitting: if fits { length } else { self.fitting },
            whole: if fits && ends { length } else { self.whole },
        }
    }

    /// The length to which the text is cut.
    fn length(self) -> usize
        ensures { result ≡ length_of_best self }
    {
        if self.whole > 0 {
            self.whole
        } else {
            self.fitting
        }
    }
}

/// Of how many characters the front of a text is to which it is cut for this many pages: the longest that fits and ends
/// before a space or LF, or with the text. If no such front has a character, it is the longest that fits.
pub fn cut_for(text: &str, pages: u64) -> usize
    ensures { IsCut pages (chars text.now) result }
{
    let mut front = Front::new();
    let mut best = Best {
        fitting: 0,
        whole: 0,
    };
    for character in text.chars() {
        best = best.with(front.characters, front.fits(pages), is_gap(character));
        front = front.with(character);
    }
    best.with(front.characters, front.fits(pages), true)
        .length()
}

/// Whether a character stands between words.
fn is_gap(character: char) -> bool
    ensures { result ≡ is_gap character }
{
    character == ' ' || character == '\n'
}
