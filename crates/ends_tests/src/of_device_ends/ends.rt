//! Ends over memory with a set number of octets and of calls, and over devices that fail at their first call alone.
//!
//! A row says what is done, an arrow, and the answers, one word each. `reader N CALLS SIZE ..` reads the text into
//! buffers of these sizes, from a reader that gives N octets a call and fails after so many calls (`-`: never): the
//! answers are what each read gave (`-`: no octets), and how many octets are left. `writer N CALLS STEP ..` writes:
//! `write:OCTETS` by one write and `front:OCTETS` as far as it goes, whose answers are numbers of octets, and
//! `all:OCTETS` all of them, whose answer is `ok`; the last word is what the writer has taken. The answer of a call
//! that failed is `failed`, and after each call the end has to say whether it failed.
//!
//! `fails-once SIZE ..` reads from a device whose first call fails, `fails-once-writing STEP ..` writes to one, and
//! `takes-nothing-once STEP ..` to one that takes nothing at its first call: the last word is the number of calls.
//!
//! `up_to LIMIT CALLS` reads the text up to a limit, 4 octets a call: the octets, and how many are left. `many LIMIT`
//! reads 10,000 octets: how many are read.

use crate::of_device_ends::devices::{FailsOnce, TakesNothingOnce};
use device_ends::memory::{MemoryReader, MemoryWriter};
use device_ends::{Failed, ReadFault, Sink, Source, read_up_to, write_all, write_front};
use std::alloc::{AllocError, Global};
use std::io::{Read, Write};
use std::process::Abort;
use test_support::{Row, Words};

const TEXT: &[u8] = b"broadcast";

const READS: &str = "
# In pieces.
reader 4 - 6 6 6 6 -> broa dcas t - 0

# It fails at each call.
reader 3 0 8 8 -> failed failed 9
reader 3 1 8 8 8 -> bro failed failed 6
reader 3 2 8 8 8 8 -> bro adc failed failed 3

# A sound device fails at no length.
reader 18446744073709551615 - 0 -> - 9
reader 18446744073709551615 - 1 -> b 8
reader 18446744073709551615 - 2 -> br 7
reader 18446744073709551615 - 3 -> bro 6
reader 18446744073709551615 - 4 -> broa 5
reader 18446744073709551615 - 5 -> broad 4
reader 18446744073709551615 - 6 -> broadc 3
reader 18446744073709551615 - 7 -> broadca 2
reader 18446744073709551615 - 8 -> broadcas 1
reader 18446744073709551615 - 9 -> broadcast 0
reader 18446744073709551615 - 10 -> broadcast 0

# A failed end calls its device no more.
fails-once 1 1 1 -> failed failed failed 1
";

const WRITES: &str = "
# It fails at each call.
writer 4 0 write:broadcast write:broadcast -> failed failed -
writer 4 1 write:broadcast write:broadcast write:broadcast -> 4 failed failed broa
writer 4 2 write:broadcast write:broadcast write:broadcast write:broadcast -> 4 4 failed failed broabroa

# A write that takes nothing fails.
writer 0 - write: write:x -> 0 failed -

# A sound device fails at no length.
writer 18446744073709551615 - write: -> 0 -
writer 18446744073709551615 - write:b -> 1 b
writer 18446744073709551615 - write:br -> 2 br
writer 18446744073709551615 - write:bro -> 3 bro
writer 18446744073709551615 - write:broa -> 4 broa
writer 18446744073709551615 - write:broad -> 5 broad
writer 18446744073709551615 - write:broadc -> 6 broadc
writer 18446744073709551615 - write:broadca -> 7 broadca
writer 18446744073709551615 - write:broadcas -> 8 broadcas
writer 18446744073709551615 - write:broadcast -> 9 broadcast

# All, or a front.
writer 2 - all:broadcast all:! -> ok ok broadcast!
writer 2 0 front:broadcast all:broadcast -> 0 failed -
writer 2 1 front:broadcast all:broadcast -> 2 failed br
writer 2 2 front:broadcast all:broadcast -> 4 failed broa
writer 2 3 front:broadcast all:broadcast -> 6 failed broadc
writer 2 4 front:broadcast all:broadcast -> 8 failed broadcas

# A failed end calls its device no more, and what took nothing is not tried again.
fails-once-writing write:broadcast write:broadcast write:broadcast all: -> failed failed failed failed 1
takes-nothing-once write:broadcast write:broadcast -> failed failed 1
";

/// The text has 9 octets, 4 a call: a fourth call finds its end, and none is made past the limit.
const WHOLE_READS: &str = "
up_to 9 4 -> broadcast 0
up_to 9 3 -> Device
up_to 10 4 -> broadcast 0
up_to 10 3 -> Device
up_to 8 3 -> broadcast 0
up_to 8 2 -> Device
up_to 7 2 -> broadcas 1
up_to 7 1 -> Device
up_to 0 1 -> b 8
up_to 0 0 -> Device

# Many pieces.
many 9999 -> 10000
many 10000 -> 10000
many 9998 -> 9999
";

/// The octets that a word says, `-` for none.
fn octets_of(word: &str) -> &[u8] {
    match word {
        "-" => b"",
        octets => octets.as_bytes(),
    }
}

/// The number that a word says, if it says one.
fn number_of(word: &str) -> Option<usize> {
    word.parse::<usize>().ok()
}

/// Whether a read into a buffer of so many octets gives what is wanted.
fn is_read<R: Read>(source: &mut Source<R>, size: usize, wanted: &str) -> bool {
    let mut buffer = [0; 10];
    match source.read(&mut buffer[..size.min(10)]) {
        Ok(count) => !source.failed() && &buffer[..count] == octets_of(wanted),
        Err(Failed) => source.failed() && wanted == "failed",
    }
}

/// Whether reads into buffers of these sizes give what is wanted.
fn are_read<R: Read>(source: &mut Source<R>, sizes: &mut Words, wanted: &mut Words) -> bool {
    for _ in 0..5 {
        let Some(size) = number_of(sizes.word()) else {
            return true;
        };
        if !is_read(source, size, wanted.word()) {
            return false;
        }
    }
    false
}

/// Whether a step of writing returns what is wanted.
fn is_written<W: Write>(sink: &mut Sink<W>, step: &str, wanted: &str) -> bool {
    let (verb, octets) = step.split_once(':').unwrap_or((step, ""));
    let octets = octets.as_bytes();
    match verb {
        "front" => Some(write_front(sink, octets)) == number_of(wanted),
        "all" => match write_all(sink, octets) {
            Ok(()) => !sink.failed() && wanted == "ok",
            Err(Failed) => sink.failed() && wanted == "failed",
        },
        "write" => match sink.write(octets) {
            Ok(count) => !sink.failed() && Some(count) == number_of(wanted),
            Err(Failed) => sink.failed() && wanted == "failed",
        },
        _ => false,
    }
}

/// Whether the steps of writing return what is wanted.
fn are_written<W: Write>(sink: &mut Sink<W>, steps: &mut Words, wanted: &mut Words) -> bool {
    for _ in 0..5 {
        let step = steps.word();
        if step.is_empty() {
            return true;
        }
        if !is_written(sink, step, wanted.word()) {
            return false;
        }
    }
    false
}

/// How many octets a device moves a call, and after how many calls it fails, as two words say.
fn pace_of(words: &mut Words) -> Option<(usize, Option<usize>)> {
    let per_call = number_of(words.word())?;
    match words.word() {
        "-" => Some((per_call, None)),
        calls => Some((per_call, Some(number_of(calls)?))),
    }
}

/// `reader N CALLS SIZE ..`
fn is_reader_right(words: &mut Words, wanted: &mut Words) -> bool {
    let Some((per_call, calls)) = pace_of(words) else {
        return false;
    };
    let mut reader = MemoryReader::new(TEXT, per_call.max(1), calls);
    are_read(&mut Source::new(&mut reader), words, wanted)
        && Some(reader.rest().len()) == number_of(wanted.word())
}

/// `writer N CALLS STEP ..`
fn is_writer_right(alloc: Global, words: &mut Words, wanted: &mut Words) -> bool {
    let Some((per_call, calls)) = pace_of(words) else {
        return false;
    };
    let mut writer = MemoryWriter::new(alloc, per_call, calls);
    are_written(&mut Sink::new(&mut writer), words, wanted)
        && writer.contents() == octets_of(wanted.word())
}

/// `fails-once SIZE ..`
fn is_failing_reader_right(words: &mut Words, wanted: &mut Words) -> bool {
    let mut device = FailsOnce { calls: 0 };
    are_read(&mut Source::new(&mut device), words, wanted)
        && Some(device.calls) == number_of(wanted.word())
}

/// `fails-once-writing STEP ..`
fn is_failing_writer_right(words: &mut Words, wanted: &mut Words) -> bool {
    let mut device = FailsOnce { calls: 0 };
    are_written(&mut Sink::new(&mut device), words, wanted)
        && Some(device.calls) == number_of(wanted.word())
}

/// `takes-nothing-once STEP ..`
fn is_idle_writer_right(words: &mut Words, wanted: &mut Words) -> bool {
    let mut device = TakesNothingOnce { calls: 0 };
    are_written(&mut Sink::new(&mut device), words, wanted)
        && Some(device.calls) == number_of(wanted.word())
}

/// `up_to LIMIT CALLS`
fn is_whole_read(alloc: Global, words: &mut Words, wanted: &mut Words) -> bool {
    let (Ok(limit), Ok(calls)) = (words.word().parse::<u16>(), words.word().parse::<usize>()) else {
        return false;
    };
    let mut reader = MemoryReader::new(TEXT, 4, Some(calls));
    match read_up_to(&mut Source::new(&mut reader), alloc, usize::from(limit)) {
        Ok(octets) => {
            octets.as_slice() == octets_of(wanted.word())
                && Some(reader.rest().len()) == number_of(wanted.word())
        }
        Err(ReadFault::Device) => wanted.word() == "Device",
        Err(ReadFault::Refused) => false,
    }
}

/// `many LIMIT`
fn are_many_read(alloc: Global, words: &mut Words, wanted: &mut Words) -> bool {
    let Ok(limit) = words.word().parse::<u16>() else {
        return false;
    };
    let input = [b'7'; 10_000];
    let mut source = Source::new(MemoryReader::new(&input, usize::MAX, None));
    match read_up_to(&mut source, alloc, usize::from(limit)) {
        Ok(octets) => !source.failed() && Some(octets.len()) == number_of(wanted.word()),
        Err(_) => false,
    }
}

/// Whether what comes of an action is wanted, and no word more.
fn is_right(alloc: Global, words: &mut Words, wanted: &mut Words) -> bool {
    let is_right = match words.word() {
        "reader" => is_reader_right(words, wanted),
        "writer" => is_writer_right(alloc, words, wanted),
        "fails-once" => is_failing_reader_right(words, wanted),
        "fails-once-writing" => is_failing_writer_right(words, wanted),
        "takes-nothing-once" => is_idle_writer_right(words, wanted),
        "up_to" => is_whole_read(alloc, words, wanted),
        "many" => are_many_read(alloc, words, wanted),
        _ => false,
    };
    is_right && wanted.word().is_empty()
}

/// Expects what the rows of a table say, which are so many.
fn expect_rows(rt: &impl Abort, alloc: Global, table: &str, count: u16) {
    let mut rows = 0_u16;
    for line in table.split('\n') {
        if let Some(row) = Row::of(line) {
            let (mut words, mut wanted) = (Words::of(row.action), Words::of(row.wanted));
            assert!(rt; is_right(alloc, &mut words, &mut wanted), "{line}");
            rows = rows.saturating_add(1);
        }
    }
    assert_eq!(rt; rows, count);
}

#[test]
fn sources_read_until_they_fail(rt: HostRuntime) {
    expect_rows(&rt, rt.alloc(), READS, 16);
}

#[test]
fn sinks_write_until_they_fail(rt: HostRuntime) {
    expect_rows(&rt, rt.alloc(), WRITES, 22);
}

#[test]
fn whole_inputs_are_read_up_to_a_limit(rt: HostRuntime) {
    expect_rows(&rt, rt.alloc(), WHOLE_READS, 13);
}

/// The texts of the faults.
fn texts_of_faults(alloc: Global) -> Result<String, AllocError> {
    format!(in alloc; "{Failed}; {}; {}", ReadFault::Device, ReadFault::Refused)
}

#[test]
fn faults_have_texts(rt: HostRuntime) -> Result<(), AllocError> {
    let texts = texts_of_faults(rt.alloc())?;
    assert_eq!(rt;
        texts.as_str(),
        "device failed; device failed; memory refused"
    );
    Ok(())
}
