//! The engine of the command `verify --orders`: an orders file and tapes, to what the tape of a cell has otherwise than
//! the cell was ordered and answered.
//!
//! [`verify_orders_stream`] reads both and writes a row for each difference. Which differences there are is said by
//! definitions of the rows and of the tape's blocks alone (`AreOrderDifferences` of order_verdict). [`VerdictTerms`]
//! says how the tape is judged.
#![tactic(auto)]

pub mod fault;
pub mod terms;
pub mod verify;

pub use fault::VerifyOrdersFault;
pub use terms::VerdictTerms;
pub use verify::verify_orders_stream;
