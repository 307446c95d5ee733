//! Octets of a source: a buffer full, and whether there are more.

ghost use Rattle.std.specs.Prelude.{◌≡◌, ◌<◌, ◌≤◌, false, is_err, length, take, IfErr, IfOk};
ghost use Rattle.std.specs.Io.KnownBytes.{Consumes, IsAtEnd};
ghost use Rattle.device_ends.specs.Source.{reader_of, source_failed};
ghost use Rattle.device_ends.specs.Stream.{Reads};
ghost use Rattle.handset.specs.TapeSteps.{ReadsFewer};

use device_ends::{Failed, Source};
use std::io::Read;

/// Reads onto the front of a buffer until it is full or the input ends, and returns how many octets these are.
///
/// # Errors
///
/// `Failed` if the reader fails, now or earlier.
pub fn read_front<R: Read>(source: &mut Source<R>, buffer: &mut [u8]) -> Result<usize, Failed>
    requires { source_failed source.old ≡ false }
    ensures bound { IfOk result (λ count. count ≤ length buffer.old) }
    ensures octets { IfOk result (λ count. Reads R.remaining (λ old new. Consumes old new (take count buffer.new))
        source.old source.new) }
    ensures end { IfOk result (λ count. count < length buffer.old → IsAtEnd (R.remaining (reader_of source.new))) }
    ensures stopped { IfErr result (λ _. Reads R.remaining (λ old new. ReadsFewer old new (length buffer.old))
        source.old source.new) }
    ensures failed { source_failed source.new ≡ is_err result }
{
    let mut filled = 0;
    while filled < buffer.len() {
        let count = source.read(&mut buffer[filled..])?;
        if count == 0 {
            return Ok(filled);
        }
        filled += count;
    }
    Ok(filled)
}
