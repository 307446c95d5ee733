//! Sessions of a book over plain data: the check whether passes are those of its sessions, and the run of a book whose
//! one session is served by cells at hand.
//!
//! Several sessions may work at a desk at once, each of a part of a book and with a pass. Afterwards
//! [`check_sessions`] serves each session again, in one thread and over plain data: what the cells answered is read
//! off the notes of its pass. So each of its orders was noted, once and in its order, and no others.
//!
//! A session that is alone needs no desk: [`run_alone`] has each cell answer as it is asked, and nothing is noted.
#![tactic(auto)]

pub mod alone;
mod answers;
mod notes;
mod said;
mod session;
pub mod sessions;

pub use alone::run_alone;
pub use sessions::check_sessions;
