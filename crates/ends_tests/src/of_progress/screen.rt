//! Screens for tests.

use std::io;
use std::io::{Read, Write};
use std::sync::atomic::{AtomicU64, Ordering};

/// A screen that counts the octets that are written to it.
#[derive(Clone, Copy)]
pub struct Screen<'a> {
    pub written: &'a AtomicU64,
}

impl Write for Screen<'_> {
    fn write(&mut self, octets: &[u8]) -> io::Result<usize> {
        self.written
            .fetch_add(octets.len() as u64, Ordering::SeqCst);
        Ok(octets.len())
    }

    fn flush(&mut self) -> io::Result<()> {
        Ok(())
    }
}

/// A device that is interrupted at each call.
#[derive(Clone, Copy)]
pub struct Interrupted;

impl Read for Interrupted {
    fn read(&mut self, _buffer: &mut [u8]) -> io::Result<usize> {
        Err(io::Error::from(io::ErrorKind::Interrupted))
    }
}

impl Write for Interrupted {
    fn write(&mut self, _octets: &[u8]) -> io::Result<usize> {
        Err(io::Error::from(io::ErrorKind::Interrupted))
    }

    fn flush(&mut self) -> io::Result<()> {
        Err(io::Error::from(io::ErrorKind::Interrupted))
    }
}
