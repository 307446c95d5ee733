//! Help for warnc_cli_tests: the lines of its tables, and the bench on which commands run between memory and memory.
//! Nothing of the program uses it.
#![tactic(auto)]

mod attempts;
mod bench;
mod octets;
mod rows;
mod shortage;

pub use bench::{Bench, runs};
pub use octets::{Sheet, Written};
pub use rows::count_rows;
