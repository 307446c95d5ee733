//! The engine of the command `verify`: a book of alerts, and tapes of its cells, to what the tapes have otherwise than
//! the book's orders asked.
//!
//! [`verify_stream`] has the cells carry out what the book orders, as `compile` does, reads the tapes, which may come
//! from anybody, and writes a row for each difference. Which differences there are is said by definitions of the
//! book's run and of the tapes alone (`AreRows` of verification).
#![tactic(auto)]

pub mod fault;
mod judge;
mod laws;
mod side_by_side;
pub mod verify;

pub use fault::VerifyFault;
pub use laws::verify_laws;
pub use verify::{verify_octets, verify_stream};
