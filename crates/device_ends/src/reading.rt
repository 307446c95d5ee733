//! A reader whose failure is sticky.

ghost use Rattle.std.specs.Prelude.{◌≡◌, false, true, is_err};
ghost use Rattle.std.specs.Io.{ReadsAtMost};
ghost use Rattle.std.specs.Io.KnownBytes.{ReadConsumes};

use crate::Failed;
use std::io::Read;

/// The octets of a reader, and whether it has failed.
///
/// Any error of the reader sets [`failed`](Source::failed) for good, and nothing else does.
#[derive(Drop)]
pub struct Source<R> {
    reader: R,
    failed: bool,
}

impl<R> Source<R> {
    ghost use Rattle.device_ends.specs.Source.{reader_of, source_failed};

    /// A source of the reader's octets, which has not failed.
    pub fn new(reader: R) -> Self
        ensures reader { reader_of result ≡ reader }
        ensures not_failed { source_failed result ≡ false }
    {
        Source {
            reader,
            failed: false,
        }
    }

    /// Whether a read of the reader has failed.
    pub fn failed(&self) -> bool
        ensures { result ≡ source_failed self.now }
    {
        self.failed
    }
}

impl<R: Read> Source<R> {
    ghost use Rattle.device_ends.specs.Source.{reader_of, source_failed};

    /// Reads some octets into the front of the buffer, by one read of the reader, and returns how
    /// many: 0 only at the end, or for an empty buffer.
    ///
    /// # Errors
    ///
    /// [`Failed`] if the reader returns an error, and from then on, with no further read.
    pub fn read(&mut self, buffer: &mut [u8]) -> Result<usize, Failed>
        ensures bound { ReadsAtMost result buffer.new }
        ensures octets { ReadConsumes (R.remaining (reader_of self.old))
            (R.remaining (reader_of self.new)) result buffer.new }

        ensures failed { source_failed self.new ≡ is_err result }

        // A source that has failed reads nothing more, and stays failed.
        ensures failed_stays { source_failed self.old ≡ true → self.new ≡ self.old }
        ensures untouched { source_failed self.old ≡ true → buffer.new ≡ buffer.old }
    {
        if self.failed {
            return Err(Failed);
        }
        match self.reader.read(buffer) {
            Ok(count) => Ok(count),
            Err(_) => {
                self.failed = true;
                Err(Failed)
            }
        }
    }
}
