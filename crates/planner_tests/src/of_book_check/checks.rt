//! How tests check books.

use alert_book::Extent;
use book_check::{CheckFault, check_stream};
use device_ends::memory::{MemoryReader, MemoryWriter};
use device_ends::{Sink, Source};
use std::alloc::{AllocError, Global};

/// What the ends of a check are: how many octets a read gives and a write takes at most, one at least, and after how
/// many calls each fails, if it does.
#[derive(Clone, Copy)]
pub struct Ends {
    /// How many octets a call moves at most.
    pub most: usize,
    /// How many reads there are before one fails.
    pub reads: Option<usize>,
    /// How many writes there are before one fails.
    pub writes: Option<usize>,
}

impl Ends {
    /// Ends that don't fail, and move many octets.
    pub const WHOLE: Ends = Ends {
        most: 65_536,
        reads: None,
        writes: None,
    };
}

/// What comes of a check.
#[derive(Drop)]
pub struct Outcome {
    /// The fault; None if the book is clean.
    pub fault: Option<CheckFault>,
    /// What was written.
    pub text: Vec<u8>,
    /// Whether the source has failed.
    pub unread: bool,
    /// Whether the sink has failed.
    pub unwritten: bool,
    /// How many octets are not read.
    pub left: usize,
}

/// Checks octets.
pub fn outcome_of(
    alloc: Global,
    what: Extent,
    octets: &[u8],
    ends: Ends,
) -> Result<Outcome, AllocError> {
    let most = ends.most.max(1);
    let mut reader = MemoryReader::new(octets, most, ends.reads);
    let mut writer = MemoryWriter::new(alloc, most, ends.writes);
    let mut source = Source::new(&mut reader);
    let mut sink = Sink::new(&mut writer);
    let fault = check_stream(alloc, what, &mut source, &mut sink).err();
    let (unread, unwritten) = (source.failed(), sink.failed());
    Ok(Outcome {
        fault,
        text: Vec::from_slice(alloc, writer.contents())?,
        unread,
        unwritten,
        left: reader.rest().len(),
    })
}
