//! Devices that fail at their first call alone.

ghost use Rattle.std.specs.Prelude.{◌≡◌, ◌<◌, IfOk};

use std::io;
use std::io::{Read, Write};

/// A device whose first call fails, and which would take or give one octet after that.
#[derive(Drop)]
pub struct FailsOnce {
    /// How often it was called.
    pub calls: usize,
}

impl FailsOnce {
    fn call(&mut self) -> io::Result<usize>
        ensures { IfOk result (λ count. count ≡ 1) }
    {
        self.calls = self.calls.saturating_add(1);
        if self.calls == 1 {
            Err(io::Error::from(io::ErrorKind::Interrupted))
        } else {
            Ok(1)
        }
    }
}

impl Read for FailsOnce {
    fn read(&mut self, buffer: &mut [u8]) -> io::Result<usize> {
        let count = self.call()?;
        match buffer {
            [first, ..] => {
                *first = b'x';
                Ok(count)
            }
            [] => Ok(0),
        }
    }
}

impl Write for FailsOnce {
    fn write(&mut self, octets: &[u8]) -> io::Result<usize> {
        let count = self.call()?;
        Ok(count.min(octets.len()))
    }

    fn flush(&mut self) -> io::Result<()> {
        Ok(())
    }
}

/// A device that takes nothing at its first call, and all that it is given after that.
#[derive(Drop)]
pub struct TakesNothingOnce {
    /// How often it was called.
    pub calls: usize,
}

impl Write for TakesNothingOnce {
    fn write(&mut self, octets: &[u8]) -> io::Result<usize> {
        self.calls = self.calls.saturating_add(1);
        Ok(if self.calls == 1 { 0 } else { octets.len() })
    }

    fn flush(&mut self) -> io::Result<()> {
        Ok(())
    }
}
