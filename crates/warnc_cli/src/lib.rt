//! The commands of `warnc`: which words are a command line, and a run on them between a reader and a writer. The
//! program gives it the words and the ends of its process.
#![tactic(auto)]

mod command;
mod ends;
pub mod mistaken;
mod options;
pub mod run;
mod start;
pub mod status;
mod unreadable;

pub use command::book_file;
pub use unreadable::Unreadable;
