//! A writer whose failure is sticky.

ghost use Rattle.std.specs.Prelude.{◌≡◌, ◌<◌, false, true, is_err, length, IfOk};
ghost use Rattle.std.specs.Io.{WritesAtMost};
ghost use Rattle.std.specs.Io.KnownBytes.{WriteAppends};

use crate::Failed;
use std::io::Write;

/// A writer that takes octets, and whether it has failed.
///
/// Any error of the writer, and a write of one octet or more that takes none, sets
/// [`failed`](Sink::failed) for good, and nothing else does.
#[derive(Drop)]
pub struct Sink<W> {
    writer: W,
    failed: bool,
}

impl<W> Sink<W> {
    ghost use Rattle.device_ends.specs.Sink.{sink_failed, writer_of};

    /// A sink over the writer, which has not failed.
    pub fn new(writer: W) -> Self
        ensures writer { writer_of result ≡ writer }
        ensures not_failed { sink_failed result ≡ false }
    {
        Sink {
            writer,
            failed: false,
        }
    }

    /// Whether a write has failed.
    pub fn failed(&self) -> bool
        ensures { result ≡ sink_failed self.now }
    {
        self.failed
    }
}

impl<W: Write> Sink<W> {
    ghost use Rattle.device_ends.specs.Sink.{sink_failed, writer_of};

    /// Writes a front of the octets, by one write of the writer, and returns how many: at least one
    /// if there is one.
    ///
    /// # Errors
    ///
    /// [`Failed`] if the writer returns an error or takes none of one octet or more, and
    /// from then on, with no further write. What a failed call was given is not written.
    pub fn write(&mut self, octets: &[u8]) -> Result<usize, Failed>
        ensures bound { WritesAtMost result octets.now }
        ensures octets { WriteAppends (W.contents (writer_of self.old))
            (W.contents (writer_of self.new)) result octets.now }
        ensures takes { IfOk result (λ count. 0 < length octets.now → 0 < count) }

        ensures failed { sink_failed self.new ≡ is_err result }

        // A sink that has failed writes nothing more, and stays failed.
        ensures failed_stays { sink_failed self.old ≡ true → self.new ≡ self.old }
    {
        if self.failed {
            return Err(Failed);
        }
        match self.writer.write(octets) {
            Ok(count) if count > 0 || octets.is_empty() => Ok(count),
            Ok(_) | Err(_) => {
                self.failed = true;
                Err(Failed)
            }
        }
    }
}
