//! Whole transfers: all octets of a slice to a sink, all octets of a source up to a limit.

ghost use Rattle.std.specs.Prelude.{◌≡◌, ◌+◌, ◌<◌, ◌≤◌, ℕ, List, ◌++◌, false, true, is_err, length, take, vec_len};
ghost use Rattle.std.specs.Prelude.{IfOk, IfSome, OnErr, OnOk};
ghost use Rattle.std.specs.Io.KnownBytes.{Appends, Consumes, IsAtEnd, Keeps};
ghost use Rattle.device_ends.specs.Moves.{AppendsFront, ConsumesSome, ReadsUpTo};
ghost use Rattle.device_ends.specs.ReadFault.{reports_device};
ghost use Rattle.device_ends.specs.Sink.{sink_failed, writer_of};
ghost use Rattle.device_ends.specs.Source.{reader_of, source_failed};
ghost use Rattle.device_ends.specs.Stream.{Reads};
ghost use Rattle.device_ends.specs.TransferSteps.{Moved};

use crate::fault::ReadFault;
use crate::{Failed, Sink, Source};
use std::alloc::Global;
use std::io::{Read, Write};

/// How many octets a piece of [`read_up_to`] has at most.
const PIECE: usize = 4096;

/// Writes octets until all are out or the sink has failed, and returns how many are out.
pub fn write_front<W: Write>(sink: &mut Sink<W>, octets: &[u8]) -> usize
    ensures bound { result ≤ length octets.now }
    ensures octets { Appends (W.contents (writer_of sink.old)) (W.contents (writer_of sink.new))
        (take result octets.now) }
    ensures whole { sink_failed sink.new ≡ false → result ≡ length octets.now }
    ensures front { sink_failed sink.new ≡ true → 0 < length octets.now → result < length octets.now }
    ensures failed_stays { sink_failed sink.old ≡ true → sink.new ≡ sink.old }
{
    let mut out = 0;
    while out < octets.len() {
        match sink.write(&octets[out..]) {
            Ok(count) => out += count,
            Err(Failed) => return out,
        }
    }
    out
}

/// Writes all octets.
///
/// # Errors
///
/// [`Failed`] if the sink has failed; then a front of them was written.
pub fn write_all<W: Write>(sink: &mut Sink<W>, octets: &[u8]) -> Result<(), Failed>
    ensures ok { OnOk result (Appends (W.contents (writer_of sink.old))
        (W.contents (writer_of sink.new)) octets.now) }
    ensures err { OnErr result (AppendsFront (W.contents (writer_of sink.old))
        (W.contents (writer_of sink.new)) octets.now) }
    ensures failed { sink_failed sink.new ≡ is_err result }
    ensures failed_stays { sink_failed sink.old ≡ true → sink.new ≡ sink.old }
{
    write_front(sink, octets);
    if sink.failed() { Err(Failed) } else { Ok(()) }
}

/// Reads to the end, but stops once it has `limit + 1` octets: so the input was longer than `limit`
/// exactly if more than `limit` octets are returned.
///
/// # Errors
///
/// [`ReadFault::Device`] exactly if the source has failed, and [`ReadFault::Refused`] if out of memory. After either,
/// at most `limit` octets were read and are gone.
pub fn read_up_to<R: Read>(
    source: &mut Source<R>,
    alloc: Global,
    limit: usize,
) -> Result<Vec<u8>, ReadFault>
    requires { limit < usize.MAX }
    ensures reads { IfOk result (λ octets. Reads R.remaining (λ old new. ReadsUpTo old new octets.items limit)
        source.old source.new) }
    ensures value { IfOk result (λ octets. IfSome (R.remaining (reader_of source.old))
        (λ left. octets.items ≡ take (limit + 1) left)) }
    ensures err { OnErr result (ConsumesSome (R.remaining (reader_of source.old))
        (R.remaining (reader_of source.new)) limit) }

    // At any reader.
    ensures bound { IfOk result (λ octets. vec_len octets ≤ limit + 1) }
    ensures failed { source_failed source.new ≡ reports_device result }
    ensures failed_stays { source_failed source.old ≡ true → source.new ≡ source.old }
{
    let most = limit + 1;
    let mut octets = Vec::new(alloc);
    while octets.len() < most {
        if read_piece(source, &mut octets, most)? == 0 {
            return Ok(octets);
        }
    }
    Ok(octets)
}

/// One read onto the end of the octets, up to `most` in all. Returns how many: 0 only at the end.
fn read_piece<R: Read>(
    source: &mut Source<R>,
    octets: &mut Vec<u8>,
    most: usize,
) -> Result<usize, ReadFault>
    requires { vec_len octets.old < most }
    ensures ok { OnOk result (Moved (R.remaining (reader_of source.old))
        (R.remaining (reader_of source.new)) octets.old.items octets.new.items) }
    ensures count { IfOk result (λ count. vec_len octets.new ≡ vec_len octets.old + count) }
    ensures bound { OnOk result (vec_len octets.new ≤ most) }
    ensures end { IfOk result (λ count. count ≡ 0 → IsAtEnd (R.remaining (reader_of source.new))) }
    ensures err { OnErr result (Keeps (R.remaining (reader_of source.old))
        (R.remaining (reader_of source.new))) }
    ensures failed { source_failed source.new ≡ reports_device result }
    ensures failed_stays { source_failed source.old ≡ true → source.new ≡ source.old }
{
    if source.failed() {
        return Err(ReadFault::Device);
    }
    let mut piece = [0; PIECE];
    let room = (most - octets.len()).min(PIECE);
    octets.reserve(room)?;
    let count = source.read(&mut piece[..room])?;
    octets.extend_from_slice(&piece[..count])?;
    Ok(count)
}
