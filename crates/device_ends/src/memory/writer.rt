//! A writer of octets into memory.

ghost use Rattle.std.specs.Prelude.{◌≡◌, ◌<◌, ◌++◌, [], length, min, take, None, Some, IfOk, IsErr, IsOk, OnErr};
ghost use Rattle.std.specs.Io.{WritesAtMost};
ghost use Rattle.std.specs.Io.KnownBytes.{Keeps, WriteAppends};
ghost use Rattle.device_ends.specs.Calls.{after_one_call};

use super::calls::count_call;
use std::alloc::Global;
use std::io;
use std::io::Write;

/// A writer of octets into memory, which takes a set number of them per call, and fails once it has
/// been called a set number of times.
#[derive(Drop)]
pub struct MemoryWriter {
    octets: Vec<u8>,
    per_call: usize,
    calls: Option<usize>,
}

impl MemoryWriter {
    ghost use Rattle.device_ends.specs.MemoryWriter.{octets_taken, writes_left, octets_per_write};

    /// A writer that has taken nothing, and takes at most `per_call` octets a call. After `calls`
    /// calls each further one fails; at `None` none does, unless out of memory.
    pub fn new(alloc: Global, per_call: usize, calls: Option<usize>) -> Self
        ensures octets { octets_taken result ≡ [] }
        ensures per_call { octets_per_write result ≡ per_call }
        ensures calls { writes_left result ≡ calls }
    {
        MemoryWriter {
            octets: Vec::new(alloc),
            per_call,
            calls,
        }
    }

    /// The octets that were taken so far.
    pub fn contents(&self) -> &[u8]
        ensures { result.now ≡ octets_taken self.now }
    {
        self.octets.as_slice()
    }
}

impl Write for MemoryWriter {
    ghost use Rattle.device_ends.specs.MemoryWriter.{octets_taken, writes_left, octets_per_write};

    ghost contents = { λ writer. Some (octets_taken writer) };

    fn write(&mut self, octets: &[u8]) -> io::Result<usize>
        ensures bound { WritesAtMost result octets.now }
        ensures bytes { WriteAppends (Some (octets_taken self.old)) (Some (octets_taken self.new)) result octets.now }

        ensures fails { writes_left self.old ≡ Some 0 → IsErr result }
        ensures count { IfOk result (λ count. count ≡ min (octets_per_write self.old) (length octets.now)) }
        ensures taken { IfOk result (λ count. octets_taken self.new ≡ octets_taken self.old ++ take count octets.now) }
        ensures err { OnErr result (octets_taken self.new ≡ octets_taken self.old) }

        ensures calls { writes_left self.new ≡ after_one_call (writes_left self.old) }
        ensures per_call { octets_per_write self.new ≡ octets_per_write self.old }
    {
        count_call(&mut self.calls)?;
        let count = self.per_call.min(octets.len());
        self.octets.extend_from_slice(&octets[..count])?;
        Ok(count)
    }

    fn flush(&mut self) -> io::Result<()>
        ensures bytes { Keeps (Some (octets_taken self.old)) (Some (octets_taken self.new)) }
        ensures ok { IsOk result }
        ensures stays { self.new ≡ self.old }
    {
        Ok(())
    }
}
