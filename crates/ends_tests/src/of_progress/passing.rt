//! Octets and errors through the ends.

use crate::of_progress::screen::{Interrupted, Screen};
use progress::{CountedReader, CountedWriter, EndingWriter, Progress};
use std::io;
use std::io::{Read, Write};
use std::sync::atomic::{AtomicU64, Ordering};
use std::time::Duration;

/// Whether a call was interrupted.
fn is_interrupted<T: Drop>(outcome: io::Result<T>) -> bool {
    match outcome {
        Ok(_) => false,
        Err(error) => error.kind() == io::ErrorKind::Interrupted,
    }
}

/// The count that a call returned, or 0.
fn count_of(outcome: io::Result<usize>) -> usize {
    match outcome {
        Ok(count) => count,
        Err(_) => 0,
    }
}

#[test]
fn octets_pass(rt: HostRuntime) {
    let written = AtomicU64::new(0);
    let progress = Progress::new(Screen { written: &written });
    let mut given = [0; 4];
    let mut taken = [0; 4];
    let read = CountedReader::new(&progress, b"broadcast".as_slice()).read(&mut given);
    let wrote = CountedWriter::new(&progress, taken.as_mut_slice()).write(b"warning");
    assert!(rt; count_of(read) == 4 && given.starts_with(b"broa"));
    assert!(rt; count_of(wrote) == 4 && taken.starts_with(b"warn"));
}

#[test]
fn octets_are_counted(rt: HostRuntime) {
    let mut room = [0; 72];
    let progress = Progress::new(room.as_mut_slice());
    let mut reader = CountedReader::new(&progress, io::repeat(0));
    let mut writer = CountedWriter::new(&progress, io::sink());
    for _ in 0..1000 {
        let _ = reader.read(&mut [0; 128]);
        let _ = writer.write(&[0; 256]);
    }
    progress.draw(&rt, Duration::from_secs(1));
    drop(progress);
    assert!(rt; room.starts_with(b"\rwarnc: 0.1 MB read, 0 cells done, 0.2 MB written, 1 s"));
}

#[test]
fn errors_pass(rt: HostRuntime) {
    let written = AtomicU64::new(0);
    let progress = Progress::new(Screen { written: &written });
    let mut counted = CountedWriter::new(&progress, Interrupted);
    let mut ending = EndingWriter::new(&rt, &progress, Interrupted);
    let read = CountedReader::new(&progress, Interrupted).read(&mut [0; 4]);
    assert!(rt; is_interrupted(read));
    assert!(rt; is_interrupted(counted.write(b"warning")) && is_interrupted(counted.flush()));
    assert!(rt; is_interrupted(ending.write(b"warning")) && is_interrupted(ending.flush()));
}

#[test]
fn a_write_to_the_same_screen_ends_the_line(rt: HostRuntime) {
    let written = AtomicU64::new(0);
    let progress = Progress::new(Screen { written: &written });
    assert!(rt; progress.draw(&rt, Duration::from_secs(1)));
    let mut faults = EndingWriter::new(&rt, &progress, Screen { written: &written });
    let _ = faults.write(b"warnc: read failed\n");
    assert!(rt; !progress.draw(&rt, Duration::from_secs(2)));
    assert_eq!(rt; written.load(Ordering::SeqCst), 54 + 80 + 19);
}
