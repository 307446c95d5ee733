//! Octets of fields.

ghost use Rattle.std.specs.Prelude.{◌≡◌, ◌≤◌, ◌==◌, ◌&&◌, drop, length, position, IfOk};
ghost use Rattle.std.specs.List.{after_first, before_first, position_or_len};
ghost use Rattle.plan.specs.PlanText.{trimmed, without_front};

use std::alloc::{AllocError, Global};
use std::marker::Model;

/// The octets of a field.
#[derive(Debug, Drop)]
pub(crate) struct Octets {
    pub(crate) list: Vec<u8>,
}

impl Model for Octets {
    ghost use Rattle.std.specs.Prelude.{ℕ, List};

    ghost Value = { List ℕ };

    ghost view = { λ octets. octets.list.items };
}

/// Texts, one after the other.
#[derive(Debug, Drop)]
pub(crate) struct Texts {
    pub(crate) list: Vec<Octets>,
}

impl Model for Texts {
    ghost use Rattle.std.specs.Prelude.{ℕ, List};

    ghost Value = { List (List ℕ) };

    ghost view = { λ texts. texts.list.items };
}

/// A copy of octets.
pub(crate) fn copy_of(alloc: Global, octets: &[u8]) -> Result<Octets, AllocError>
    ensures { IfOk result (λ copy. copy ≡ octets.now) }
{
    let list = Vec::from_slice(alloc, octets)?;
    Ok(Octets { list })
}

/// The octets.
pub(crate) fn octets_of(octets: &Octets) -> &[u8]
    ensures { result.now ≡ octets.now }
{
    &octets.list
}

/// The texts.
pub(crate) fn texts_of(texts: &Texts) -> &[Octets]
    ensures { result.now ≡ texts.now }
{
    &texts.list
}

/// A text without the white space in front.
pub(crate) fn without_front(text: &[u8]) -> &[u8]
    ensures { result.now ≡ without_front text.now }
{
    text.trim_ascii_start()
}

/// A text without the white space round it.
pub(crate) fn trimmed(text: &[u8]) -> &[u8]
    ensures { result.now ≡ trimmed text.now }
{
    text.trim_ascii()
}

/// Where an octet is first.
fn position_of(text: &[u8], octet: u8) -> Option<usize>
    ensures { result ≡ position (λ other. other == octet) text.now }
{
    text.iter().position(|other| *other == octet)
}

/// How many octets stand before the first that is this one, or all.
pub(crate) fn place_of(text: &[u8], octet: u8) -> usize
    ensures value { result ≡ position_or_len (λ other. other == octet) text.now }
    ensures bound { result ≤ length text.now }
{
    match position_of(text, octet) {
        Some(place) => place,
        None => text.len(),
    }
}

/// What stands before the first of an octet.
pub(crate) fn before_first(text: &[u8], octet: u8) -> &[u8]
    ensures { result.now ≡ before_first (λ other. other == octet) text.now }
{
    &text[..place_of(text, octet)]
}

/// What stands behind the first of an octet.
pub(crate) fn after_first(text: &[u8], octet: u8) -> &[u8]
    ensures { result.now ≡ after_first (λ other. other == octet) text.now }
{
    let place = place_of(text, octet);
    if place < text.len() {
        &text[place + 1..]
    } else {
        &[]
    }
}
