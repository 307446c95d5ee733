//! A reader of octets in memory.

ghost use Rattle.std.specs.Prelude.{◌≡◌, ◌↔◌, ◌<◌, ◌++◌, drop, length, min, take, None, Some, IfOk, IsErr, OnErr};
ghost use Rattle.std.specs.Io.{ReadsAtMost};
ghost use Rattle.std.specs.Io.KnownBytes.{ReadConsumes};
ghost use Rattle.device_ends.specs.Calls.{after_one_call};

use super::calls::count_call;
use std::io;
use std::io::Read;

/// A reader of octets in memory, which gives a set number of them per call, and fails once it has
/// been called a set number of times.
#[derive(Drop)]
pub struct MemoryReader<'a> {
    octets: &'a [u8],
    per_call: usize,
    calls: Option<usize>,
    ghost gives: { 0 < per_call },
}

impl<'a> MemoryReader<'a> {
    ghost use Rattle.device_ends.specs.MemoryReader.{octets_left, reads_left, octets_per_read};

    /// A reader of the octets, `per_call` of them a call, at least one. After `calls` calls each
    /// further one fails; at `None` none does.
    pub fn new(octets: &'a [u8], per_call: usize, calls: Option<usize>) -> Self
        requires { 0 < per_call }
        ensures octets { octets_left result ≡ octets.now }
        ensures per_call { octets_per_read result ≡ per_call }
        ensures calls { reads_left result ≡ calls }
    {
        MemoryReader {
            octets,
            per_call,
            calls,
        }
    }

    /// The octets that are left.
    pub fn rest(&self) -> &'a [u8]
        ensures { result.now ≡ octets_left self.now }
    {
        self.octets
    }
}

impl Read for MemoryReader<'_> {
    ghost use Rattle.device_ends.specs.MemoryReader.{octets_left, reads_left, octets_per_read};

    ghost remaining = { λ reader. Some (octets_left reader) };

    fn read(&mut self, buffer: &mut [u8]) -> io::Result<usize>
        ensures bound { ReadsAtMost result buffer.new }
        ensures bytes { ReadConsumes (Some (octets_left self.old)) (Some (octets_left self.new)) result buffer.new }

        ensures fails { IsErr result ↔ (reads_left self.old ≡ Some 0) }
        ensures count { IfOk result (λ count. count
            ≡ min (octets_per_read self.old) (min (length buffer.old) (length (octets_left self.old)))) }
        ensures given { IfOk result (λ count.
            buffer.new ≡ take count (octets_left self.old) ++ drop count buffer.old) }
        ensures rest { IfOk result (λ count. octets_left self.new ≡ drop count (octets_left self.old)) }
        ensures err { OnErr result (octets_left self.new ≡ octets_left self.old) }
        ensures untouched { OnErr result (buffer.new ≡ buffer.old) }

        ensures calls { reads_left self.new ≡ after_one_call (reads_left self.old) }
        ensures per_call { octets_per_read self.new ≡ octets_per_read self.old }
    {
        count_call(&mut self.calls)?;
        let count = self.per_call.min(buffer.len()).min(self.octets.len());
        let (given, rest) = self.octets.split_at(count);
        buffer[..count].copy_from_slice(given);
        self.octets = rest;
        Ok(count)
    }
}
