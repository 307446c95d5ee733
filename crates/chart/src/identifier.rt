//! What message identifiers mean.

ghost use Rattle.std.specs.Prelude.{◌≡◌, ◌++◌, OnOk};
ghost use Rattle.chart.specs.Identifier.{bracketed, identifier_meaning, is_additional, kind_in, kind_of};
ghost use Rattle.chart.specs.Identifier.{language_words, meaning_text};

use crate::english::english_kind;
use crate::german::german_kind;
use crate::page::Page;
use crate::word::{Language, Word, word_in};
use std::alloc::AllocError;

/// What comes before the words.
pub const MEANING: &str = " (";

/// What comes after them.
pub const MEANING_END: &str = ")";

/// The warning that an identifier of the first language means, in words; nothing of another number.
fn kind_in(language: Language, id: u16) -> &'static str
    ensures { result.now ≡ kind_in language id }
{
    match language {
        Language::English => english_kind(id),
        Language::German => german_kind(id),
    }
}

/// The identifier of the same warning in the first language.
fn kind_of(id: u16) -> u16
    ensures { result ≡ kind_of id }
{
    match id {
        4383..=4395 => id - 13,
        4397 => 4396,
        4399 => 4398,
        _ => id,
    }
}

/// Whether an identifier is one of an additional language.
fn is_additional(id: u16) -> bool
    ensures { result ≡ is_additional id }
{
    kind_of(id) != id
}

/// What is said of an additional language.
fn language_words(language: Language, is_additional: bool) -> &'static str
    ensures { result.now ≡ language_words language is_additional }
{
    if is_additional {
        word_in(language, Word::Additional)
    } else {
        ""
    }
}

/// Appends what an identifier means.
#[tactic(auto, unfolding(crate::specs::Identifier::identifier_meaning))]
fn push_identifier_meaning(page: &mut Page, language: Language, id: u16) -> Result<(), AllocError>
    ensures { OnOk result (page.new ≡ page.old ++ identifier_meaning language id) }
{
    page.markup(kind_in(language, kind_of(id)))?;
    page.markup(language_words(language, is_additional(id)))
}

/// Appends the same in brackets.
#[tactic(auto, unfolding(crate::specs::Identifier::bracketed))]
fn push_bracketed(page: &mut Page, language: Language, id: u16) -> Result<(), AllocError>
    ensures { OnOk result (page.new ≡ page.old ++ bracketed language id) }
{
    page.markup(MEANING)?;
    push_identifier_meaning(page, language, id)?;
    page.markup(MEANING_END)
}

/// Appends what an identifier means in brackets, if it means something.
#[tactic(auto, unfolding(crate::specs::Identifier::meaning_text))]
pub(crate) fn push_meaning(page: &mut Page, language: Language, id: u16) -> Result<(), AllocError>
    ensures { OnOk result (page.new ≡ page.old ++ meaning_text language id) }
{
    if kind_in(language, kind_of(id)).is_empty() {
        return Ok(());
    }
    push_bracketed(page, language, id)
}
