//! Ends that pass octets through, for what is said of a mistaken input: a reader that keeps the first octets, and a
//! writer of faults that keeps a line open.

ghost use Rattle.std.specs.Prelude.{◌≡◌, ◌++◌, [], None, take};

use crate::mistaken::{FRONT, Mistaken};
use arrayvec::ArrayVec;
use std::io;
use std::io::{Read, Write};

/// A reader that keeps the first octets that it reads.
#[derive(Drop)]
pub(crate) struct Noted<R> {
    reader: R,
    front: ArrayVec<u8, FRONT>,
}

impl<R> Noted<R> {
    ghost use Rattle.warnc_cli.specs.Ends.{front_noted, noted_reader};

    /// A reader of the reader's octets.
    pub(crate) fn new(reader: R) -> Self
        ensures reader { noted_reader result ≡ reader }
        ensures nothing { front_noted result ≡ [] }
    {
        Noted {
            reader,
            front: ArrayVec::new(),
        }
    }

    /// The first octets that were read, at most nine.
    pub(crate) fn front(&self) -> &[u8]
        ensures { result.now ≡ front_noted self.now }
    {
        self.front.as_slice()
    }

    /// Keeps some octets more, while there is room.
    fn note(&mut self, octets: &[u8])
        ensures reader { noted_reader self.new ≡ noted_reader self.old }
        ensures noted { front_noted self.new ≡ take 9 (front_noted self.old ++ octets.now) }
    {
        let room = self.front.remaining_capacity();
        let more = &octets[..octets.len().min(room)];
        let _fits = self.front.try_extend_from_slice(more);
    }
}

impl<R: Read> Read for Noted<R> {
    ghost use Rattle.warnc_cli.specs.Ends.{noted_reader};

    ghost remaining = { λ noted. R.remaining (noted_reader noted) };

    fn read(&mut self, buffer: &mut [u8]) -> io::Result<usize> {
        let count = self.reader.read(buffer)?;
        self.note(&buffer[..count]);
        Ok(count)
    }
}

/// A writer of faults that keeps a line feed at their end back, so that more can be said on the last line.
#[derive(Drop)]
pub(crate) struct OpenLine<W> {
    writer: W,
    is_open: bool,
}

impl<W> OpenLine<W> {
    /// A writer to the writer.
    pub(crate) fn new(writer: W) -> Self {
        OpenLine {
            writer,
            is_open: false,
        }
    }
}

impl<W: Write> OpenLine<W> {
    /// Says what is mistaken, if anything is, and ends the line. What the writer doesn't take changes nothing.
    pub(crate) fn end(&mut self, mistaken: Option<Mistaken>) {
        if !self.is_open {
            return;
        }
        self.is_open = false;
        let _ = match mistaken {
            Some(mistaken) => writeln!(self.writer, " ({mistaken})"),
            None => self.writer.write_all(b"\n"),
        };
    }
}

impl<W: Write> Write for OpenLine<W> {
    ghost contents = { λ _. None };

    fn write(&mut self, octets: &[u8]) -> io::Result<usize> {
        if self.is_open {
            self.writer.write_all(b"\n")?;
            self.is_open = false;
        }
        match octets {
            [b'\n'] => {
                self.is_open = true;
                Ok(1)
            }
            [line @ .., b'\n'] => self.writer.write(line),
            _ => self.writer.write(octets),
        }
    }

    fn flush(&mut self) -> io::Result<()> {
        self.writer.flush()
    }
}
