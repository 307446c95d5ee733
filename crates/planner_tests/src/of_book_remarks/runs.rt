//! How tests have books remarked.

use alert_book::Extent;
use book_remarks::{RemarkFault, remark_stream};
use device_ends::memory::{MemoryReader, MemoryWriter};
use device_ends::{Sink, Source};
use slot_times::Start;
use std::alloc::{AllocError, AllocGlobal};
use std::sync::Wait;
use std::thread::Threads;

/// How a book is remarked: as a book, as a network book or for a group of one; in runs of how many slots, with which
/// time of slot 0, whether there are to be no remarks, how many octets a read gives and a write takes at most, one at
/// least, and after how many calls each end fails, if it does.
#[derive(Clone, Copy)]
pub struct Manner {
    /// What is looked at.
    pub what: Extent,
    /// How many slots a run has.
    pub slots: u16,
    /// When slot 0 begins, if remarks have times.
    pub start: Option<Start>,
    /// Whether there are to be no remarks.
    pub strict: bool,
    /// How many octets a call moves at most.
    pub most: usize,
    /// How many reads there are before one fails.
    pub reads: Option<usize>,
    /// How many writes there are before one fails.
    pub writes: Option<usize>,
}

/// What comes of it.
#[derive(Drop)]
pub struct Outcome {
    /// The fault, if there is one.
    pub fault: Option<RemarkFault>,
    /// What was written.
    pub text: Vec<u8>,
    /// Whether the source has failed.
    pub unread: bool,
    /// Whether the sink has failed.
    pub unwritten: bool,
}

/// Has octets remarked.
pub fn outcome_of<T: AllocGlobal + Threads + Wait + Sync>(
    rt: &T,
    octets: &[u8],
    manner: Manner,
) -> Result<Outcome, AllocError> {
    let most = manner.most.max(1);
    let mut reader = MemoryReader::new(octets, most, manner.reads);
    let mut writer = MemoryWriter::new(rt.alloc(), most, manner.writes);
    let mut source = Source::new(&mut reader);
    let mut sink = Sink::new(&mut writer);
    let fault = remark_stream(
        rt,
        &mut source,
        &mut sink,
        manner.what,
        manner.slots,
        manner.start,
        manner.strict,
    )
    .err();
    let (unread, unwritten) = (source.failed(), sink.failed());
    Ok(Outcome {
        fault,
        text: Vec::from_slice(rt.alloc(), writer.contents())?,
        unread,
        unwritten,
    })
}
