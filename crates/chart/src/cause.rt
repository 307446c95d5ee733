//! Causes in words, with their numbers.

ghost use Rattle.std.specs.Prelude.{◌≡◌, ◌++◌, OnOk};
ghost use Rattle.chart.specs.Causes.{cause_in, cause_text};

use crate::german::german_cause;
use crate::page::Page;
use crate::word::Language;
use report::cause_words;
use std::alloc::AllocError;

/// What comes before a cause's number.
pub const NUMBER: &str = " (";

/// What comes after it.
pub const NUMBER_END: &str = ")";

/// A cause in words: in English those of a report.
fn cause_in(language: Language, number: u8) -> &'static str
    ensures { result.now ≡ cause_in language number }
{
    match language {
        Language::English => cause_words(number),
        Language::German => german_cause(number),
    }
}

/// Appends a cause in words, and its number.
#[tactic(auto, unfolding(crate::specs::Causes::cause_text))]
pub(crate) fn push_cause(page: &mut Page, language: Language, number: u8) -> Result<(), AllocError>
    ensures { OnOk result (page.new ≡ page.old ++ cause_text language number) }
{
    page.markup(cause_in(language, number))?;
    page.markup(NUMBER)?;
    page.digits(&[number])?;
    page.markup(NUMBER_END)
}
