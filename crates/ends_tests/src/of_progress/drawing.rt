//! The text of the line, and when it is drawn and wiped.

use crate::of_progress::screen::Screen;
use progress::{Line, Progress, watched};
use std::sync::atomic::{AtomicU64, Ordering};
use std::thread;
use std::time::Duration;

#[test]
fn counts_as_text(rt: HostRuntime) {
    let cases = [
        (
            0,
            0,
            99_999,
            1,
            "\rwarnc: 0.0 MB read, 0 cells done, 0.0 MB written, 1 s",
        ),
        (
            3_299_999,
            64,
            12_000_000,
            14,
            "\rwarnc: 3.2 MB read, 64 cells done, 12.0 MB written, 14 s",
        ),
        (
            1_999_999_999,
            7,
            100_000,
            3600,
            "\rwarnc: 1999.9 MB read, 7 cells done, 0.1 MB written, 3600 s",
        ),
    ];
    for (read, cells, written, seconds, text) in cases {
        let mut room = [0; 72];
        let mut line = Line::new(room.as_mut_slice());
        let _ = line.draw(read, cells, written, Duration::from_secs(seconds));
        assert!(rt; room.starts_with(text.as_bytes()), "{text}");
    }
}

#[test]
fn nothing_in_the_first_second_and_after_the_end(rt: HostRuntime) {
    let written = AtomicU64::new(0);
    let progress = Progress::new(Screen { written: &written });
    // A line has 54 octets, and 80 wipe it.
    let steps = [(999, 0), (1000, 54), (2000, 108)];
    for (elapsed, octets) in steps {
        assert!(rt; progress.draw(&rt, Duration::from_millis(elapsed)));
        assert_eq!(rt; written.load(Ordering::SeqCst), octets);
    }
    progress.end(&rt);
    assert!(rt; !progress.draw(&rt, Duration::from_secs(3)));
    assert_eq!(rt; written.load(Ordering::SeqCst), 188);
}

#[test]
fn cells_are_counted(rt: HostRuntime) {
    let mut room = [0; 72];
    let progress = Progress::new(room.as_mut_slice());
    for _ in 0..3 {
        progress.add_cell(&rt);
    }
    progress.draw(&rt, Duration::from_secs(2));
    drop(progress);
    assert!(rt; room.starts_with(b"\rwarnc: 0.0 MB read, 3 cells done, 0.0 MB written, 2 s"));
}

#[test]
fn a_thread_draws_while_the_work_goes_on(rt: HostRuntime) {
    let written = AtomicU64::new(0);
    let progress = Progress::new(Screen { written: &written });
    let drawn = watched(&rt, &progress, || {
        for _ in 0..2000 {
            if written.load(Ordering::SeqCst) > 0 {
                return true;
            }
            thread::sleep(&rt, Duration::from_millis(10));
        }
        false
    });
    assert!(rt; drawn);
}
