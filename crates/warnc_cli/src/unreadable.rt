//! A book that can't be read.

ghost use Rattle.std.specs.Prelude.{IsErr, None};
ghost use Rattle.std.specs.Io.{ReadsAtMost};
ghost use Rattle.std.specs.Io.KnownBytes.{ReadConsumes};

use std::io;
use std::io::{Error, ErrorKind, Read};

/// A reader that stands for a book that isn't there or can't be opened: each read of it fails.
#[derive(Drop)]
pub struct Unreadable;

impl Read for Unreadable {
    ghost remaining = { λ _. None };

    fn read(&mut self, buffer: &mut [u8]) -> io::Result<usize>
        ensures bound { ReadsAtMost result buffer.new }
        ensures bytes { ReadConsumes None None result buffer.new }
        ensures fails { IsErr result }
    {
        Err(Error::from(ErrorKind::NotFound))
    }
}
