//! A reader and a writer over memory, for tests: with a set number of octets per call and a set
//! number of calls before a failure.

mod calls;
mod reader;
mod writer;

pub use reader::MemoryReader;
pub use writer::MemoryWriter;
