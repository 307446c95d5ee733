//! Tests of the times of slots: the texts are those of `date -u` and of Python's datetime, which counts in fractions.

use slot_times::{Start, slot_time};

/// Whether there is a start of so many microseconds, and a slot then has this time.
fn has_time(microseconds: u64, slot: u32, time: &str) -> bool {
    match Start::new(microseconds) {
        Some(start) => slot_time(start, slot).as_slice() == time.as_bytes(),
        None => false,
    }
}

#[test]
fn slots_have_the_times_of_other_programs(rt: HostRuntime) {
    let cases = [
        (0, 0, "1970-01-01T00:00:00.000Z"),
        (0, 1, "1970-01-01T00:00:01.883Z"),
        (0, 13, "1970-01-01T00:00:24.480Z"),
        (1_795_977_000_000_000, 0, "2026-11-29T18:30:00.000Z"),
        (1_795_977_000_000_000, 1, "2026-11-29T18:30:01.883Z"),
        (1_795_977_000_000_000, 13, "2026-11-29T18:30:24.480Z"),
        (1_795_977_000_000_000, 65_535, "2026-12-01T04:46:47.446Z"),
    ];
    for (microseconds, slot, time) in cases {
        assert!(rt;
            has_time(microseconds, slot, time),
            "{microseconds} {slot} {time}"
        );
    }
}

#[test]
fn times_are_cut_to_the_millisecond(rt: HostRuntime) {
    let cases = [
        (999, 0, "1970-01-01T00:00:00.000Z"),
        (1_000, 0, "1970-01-01T00:00:00.001Z"),
        (1_795_977_000_000_923, 1, "2026-11-29T18:30:01.883Z"),
        (1_795_977_000_000_924, 1, "2026-11-29T18:30:01.884Z"),
        (1_798_761_599_999_999, 0, "2026-12-31T23:59:59.999Z"),
        (1_798_761_598_116_923, 1, "2026-12-31T23:59:59.999Z"),
        (1_798_761_598_116_924, 1, "2027-01-01T00:00:00.000Z"),
    ];
    for (microseconds, slot, time) in cases {
        assert!(rt;
            has_time(microseconds, slot, time),
            "{microseconds} {slot} {time}"
        );
    }
}

#[test]
fn dates_are_those_of_the_calendar(rt: HostRuntime) {
    let cases = [
        (946_684_799_000_000, 0, "1999-12-31T23:59:59.000Z"),
        (946_684_799_000_000, 1, "2000-01-01T00:00:00.883Z"),
        (951_782_399_000_000, 1, "2000-02-29T00:00:00.883Z"),
        (951_868_800_000_000, 0, "2000-03-01T00:00:00.000Z"),
        (1_709_164_800_000_000, 0, "2024-02-29T00:00:00.000Z"),
        (1_709_251_200_000_000, 0, "2024-03-01T00:00:00.000Z"),
        (4_107_542_398_000_000, 0, "2100-02-28T23:59:58.000Z"),
        (4_107_542_398_117_000, 1, "2100-03-01T00:00:00.000Z"),
        (4_291_747_199_999_999, 0, "2105-12-31T23:59:59.999Z"),
        (4_291_747_199_999_999, 1, "2106-01-01T00:00:01.883Z"),
        (0, 4_294_967_295, "2226-04-17T06:16:38.584Z"),
        (
            4_291_747_199_999_999,
            4_294_967_295,
            "2362-04-17T06:16:38.584Z",
        ),
    ];
    for (microseconds, slot, time) in cases {
        assert!(rt;
            has_time(microseconds, slot, time),
            "{microseconds} {slot} {time}"
        );
    }
}

#[test]
fn starts_end_with_2105(rt: HostRuntime) {
    let last = Start::new(4_291_747_199_999_999).map(|start| start.microseconds);
    assert_eq!(rt; last, Some(4_291_747_199_999_999));
    assert!(rt; Start::new(4_291_747_200_000_000).is_none());
    assert!(rt; Start::new(u64::MAX).is_none());
}
