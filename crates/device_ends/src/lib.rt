//! Readers and writers whose failure is sticky.
//!
//! A [`Source`] gives the octets of a [`std::io::Read`] and a [`Sink`] takes those of a
//! [`std::io::Write`]. Once either returns [`Failed`] it has failed for good, and gives or takes
//! nothing more: so a caller that was given a fault elsewhere can still see whether the device
//! was to blame. [`memory`] has a reader and a writer over memory for tests.
#![tactic(auto)]

mod failed;
mod fault;
pub mod memory;
mod reading;
mod transfer;
mod writing;

pub use failed::Failed;
pub use fault::ReadFault;
pub use reading::Source;
pub use transfer::{read_up_to, write_all, write_front};
pub use writing::Sink;
