//! Whether the tape of a cell keeps what the cell was asked to broadcast.
//!
//! [`differences`] compares the record of a cell's run with the blocks of a tape, which may come from any sender, and
//! lists what isn't as it was asked. `specs/Difference.antt` says which differences these are.
#![tactic(auto)]

mod again;
mod asked;
mod broadcasts;
mod came;
mod cell;
mod detail;
mod difference;
mod explained;
mod findings;
mod judged;
mod judgement;
mod lines;
mod lost;
mod names;
mod not_ordered;
mod page_fields;
mod pages;
mod row;
mod sent;
mod shift;
mod text;
mod timed;

pub use again::push_again_differences;
pub use asked::Asked;
pub use broadcasts::push_broadcast_differences;
pub use cell::differences;
pub use detail::{Detail, TableLayout};
pub use difference::{Difference, Kind};
pub use findings::{Findings, Table};
pub use judged::JudgedPage;
pub use judgement::Judgement;
pub use pages::push_first;
pub use row::{Finding, Row};
pub use text::{kind_text, text_of};
