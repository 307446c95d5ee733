//! What programs in C call: a text to its pages, a page to its octets, blocks and text, and tapes to the table of what
//! phones show. `include/warnc.h` says the same in the words of C.
//!
//! Each call takes whatever C hands over, so none has a `requires`. It answers with a number of [`status`], and where
//! that isn't [`status::OK`], what it would have put stays as it was.
#![tactic(auto)]

mod output;
pub mod page;
pub mod paging;
pub mod runs;
pub mod status;
pub mod tapes;
pub mod verdict;
