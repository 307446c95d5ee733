//! Ends that pass octets through and report them to the progress.

ghost use Rattle.std.specs.Prelude.{◌≡◌};

use crate::Progress;
use std::io;
use std::io::{Read, Write};
use std::sync::Wait;

/// A reader whose octets are counted: each read is one of the reader inside.
#[derive(Drop)]
pub struct CountedReader<'a, E, R> {
    progress: &'a Progress<E>,
    reader: R,
}

impl<'a, E, R> CountedReader<'a, E, R> {
    ghost use Rattle.progress.specs.Ends.{counted_reader};

    /// A reader of the reader's octets.
    pub fn new(progress: &'a Progress<E>, reader: R) -> Self
        ensures { counted_reader result ≡ reader }
    {
        CountedReader { progress, reader }
    }
}

impl<E, R: Read> Read for CountedReader<'_, E, R> {
    ghost use Rattle.progress.specs.Ends.{counted_reader};

    ghost remaining = { λ counted. R.remaining (counted_reader counted) };

    fn read(&mut self, buffer: &mut [u8]) -> io::Result<usize> {
        let count = self.reader.read(buffer)?;
        self.progress.add_read(count);
        Ok(count)
    }
}

/// A writer whose octets are counted: each write is one of the writer inside.
#[derive(Drop)]
pub struct CountedWriter<'a, E, W> {
    progress: &'a Progress<E>,
    writer: W,
}

impl<'a, E, W> CountedWriter<'a, E, W> {
    ghost use Rattle.progress.specs.Ends.{counted_writer};

    /// A writer to the writer.
    pub fn new(progress: &'a Progress<E>, writer: W) -> Self
        ensures { counted_writer result ≡ writer }
    {
        CountedWriter { progress, writer }
    }
}

impl<E, W: Write> Write for CountedWriter<'_, E, W> {
    ghost use Rattle.progress.specs.Ends.{counted_writer};

    ghost contents = { λ counted. W.contents (counted_writer counted) };

    fn write(&mut self, octets: &[u8]) -> io::Result<usize> {
        let count = self.writer.write(octets)?;
        self.progress.add_written(count);
        Ok(count)
    }

    fn flush(&mut self) -> io::Result<()> {
        self.writer.flush()
    }
}

/// A writer that leads to the same screen: the progress ends before the first write, and each write is one of the
/// writer inside.
#[derive(Drop)]
pub struct EndingWriter<'a, T, E, W> {
    rt: &'a T,
    progress: &'a Progress<E>,
    writer: W,
}

impl<'a, T, E, W> EndingWriter<'a, T, E, W> {
    ghost use Rattle.progress.specs.Ends.{ending_writer};

    /// A writer to the writer.
    pub fn new(rt: &'a T, progress: &'a Progress<E>, writer: W) -> Self
        ensures { ending_writer result ≡ writer }
    {
        EndingWriter {
            rt,
            progress,
            writer,
        }
    }
}

impl<T: Wait, E: Write, W: Write> Write for EndingWriter<'_, T, E, W> {
    ghost use Rattle.progress.specs.Ends.{ending_writer};

    ghost contents = { λ ending. W.contents (ending_writer ending) };

    fn write(&mut self, octets: &[u8]) -> io::Result<usize> {
        self.progress.end(self.rt);
        self.writer.write(octets)
    }

    fn flush(&mut self) -> io::Result<()> {
        self.writer.flush()
    }
}
