//! An input of another kind than the command takes, as a tape in place of a capture: it is named by its first octets.

ghost use Rattle.std.specs.Prelude.{◌≡◌, map};
ghost use Rattle.gsmtap.specs.File.{is_magic, is_pcapng};
ghost use Rattle.warnc_cli.specs.Mistaken.{file_mistaken, is_of_kind, kind_of, kind_ordered, kind_taken};
ghost use Rattle.warnc_cli.specs.Mistaken.{looks_like_book, looks_like_capture, looks_like_tapes, mistaken_for, unlike};

use crate::command::is_given;
use byteorder::{BigEndian, ByteOrder, LittleEndian};
use gsmtap::file::is_pcapng;
use std::convert::AsStr;
use std::fmt;

/// How many octets of an input are looked at.
pub const FRONT: usize = 9;

/// A kind of input.
#[derive(Clone, Copy, Debug, PartialEq, Eq)]
pub enum Kind {
    /// An alert book, or that of a network.
    Book,
    /// A capture file, in the classic format or in pcapng.
    Capture,
    /// Tapes.
    Tapes,
}

/// An input that looks like one of another kind.
#[derive(Clone, Copy, Debug, PartialEq, Eq)]
pub enum Mistaken {
    /// What the command reads looks like this.
    Input(Kind),
    /// The book of `verify` does.
    Book(Kind),
    /// The file of orders of `verify` does.
    Orders(Kind),
}

impl fmt::Display for Kind {
    fn fmt<W: fmt::Write>(&self, f: &mut fmt::Formatter<W>) -> fmt::Result {
        f.write_str(match self {
            Kind::Book => "a book: warnc compile makes tapes of it",
            Kind::Capture => "a capture: warnc tape makes a tape of it",
            Kind::Tapes => "tapes: warnc read shows them",
        })
    }
}

impl fmt::Display for Mistaken {
    fn fmt<W: fmt::Write>(&self, f: &mut fmt::Formatter<W>) -> fmt::Result {
        match self {
            Mistaken::Input(kind) => write!(f, "the input looks like {kind}"),
            Mistaken::Book(kind) => write!(f, "the book looks like {kind}"),
            Mistaken::Orders(Kind::Capture) => {
                f.write_str("the orders look like a capture: warnc orders writes those in it")
            }
            Mistaken::Orders(kind) => write!(f, "the orders look like {kind}"),
        }
    }
}

/// What the words' command is given that looks like another kind of input than it takes, if the file beside the input
/// or the input does, by the first octets of each: at most [`FRONT`] are looked at.
pub fn mistaken_for<S: AsStr>(words: &[S], file: &[u8], input: &[u8]) -> Option<Mistaken>
    ensures { result ≡ mistaken_for (map S.text words.now) file.now input.now }
{
    if let Some(mistaken) = file_mistaken(words, file) {
        return Some(mistaken);
    }
    let command = words.get(1)?;
    let taken = kind_taken(words, command.as_str())?;
    let kind = unlike(taken, input)?;
    Some(Mistaken::Input(kind))
}

/// What the file beside the input is, if it looks like another kind than the words take: orders look like no kind.
fn file_mistaken<S: AsStr>(words: &[S], file: &[u8]) -> Option<Mistaken>
    ensures { result ≡ file_mistaken (map S.text words.now) file.now }
{
    if is_given(words, "--orders") {
        let kind = kind_of(file)?;
        return Some(Mistaken::Orders(kind));
    }
    let kind = unlike(Kind::Book, file)?;
    Some(Mistaken::Book(kind))
}

/// Which kind of input `orders` takes: a book where the words give the number of slots of its run.
fn kind_ordered(runs: bool) -> Kind
    ensures { result ≡ kind_ordered runs }
{
    if runs { Kind::Book } else { Kind::Capture }
}

/// Which kind of input a command takes, if it takes one of these.
fn kind_taken<S: AsStr>(words: &[S], command: &str) -> Option<Kind>
    ensures { result ≡ kind_taken (map S.text words.now) command.now }
{
    match command {
        "page" => None,
        "tape" | "cells" => Some(Kind::Capture),
        "orders" => Some(kind_ordered(is_given(words, "--slots"))),
        "read" | "whole" | "pcap" | "verify" => Some(Kind::Tapes),
        _ => Some(Kind::Book),
    }
}

/// The kind that an input looks like, if it isn't the one that is taken.
fn unlike(taken: Kind, front: &[u8]) -> Option<Kind>
    ensures { result ≡ unlike taken front.now }
{
    match kind_of(front) {
        Some(kind) if !is_of_kind(kind, taken) => Some(kind),
        _ => None,
    }
}

/// Whether two kinds are one.
fn is_of_kind(a: Kind, b: Kind) -> bool
    ensures { result ≡ is_of_kind a b }
{
    a == b
}

/// The kind that an input looks like.
fn kind_of(front: &[u8]) -> Option<Kind>
    ensures { result ≡ kind_of front.now }
{
    if looks_like_capture(front) {
        Some(Kind::Capture)
    } else if looks_like_book(front) {
        Some(Kind::Book)
    } else if looks_like_tapes(front) {
        Some(Kind::Tapes)
    } else {
        None
    }
}

/// Whether an input begins with the magic number of a capture file, in either order of octets, or as pcapng does.
fn looks_like_capture(front: &[u8]) -> bool
    ensures { result ≡ looks_like_capture front.now }
{
    is_pcapng(front)
        || front.len() >= 4
            && (is_magic(BigEndian::read_u32(front)) || is_magic(LittleEndian::read_u32(front)))
}

/// Whether this is the magic number of a classic capture file.
fn is_magic(number: u32) -> bool
    ensures { result ≡ is_magic number }
{
    number == 0xA1B2_C3D4 || number == 0xA1B2_3C4D
}

/// Whether an input begins with the row of a cell.
fn looks_like_book(front: &[u8]) -> bool
    ensures { result ≡ looks_like_book front.now }
{
    front.starts_with(b"cell,")
}

/// Whether an input begins with the header of a tape of 1 to 65,535 slots, and then with a block that begins a page or
/// is idle.
fn looks_like_tapes(front: &[u8]) -> bool
    ensures { result ≡ looks_like_tapes front.now }
{
    front.len() >= FRONT
        && front[4] == 0
        && front[5] == 0
        && (front[8] == 0x20 || front[8] == 0x30 || front[8] == 0x2F)
}
