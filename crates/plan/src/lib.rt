//! The engine of the command `plan`: what people have, as a spreadsheet writes it, to a book.
//!
//! [`plan_stream`] reads a plan and writes the book that it is, or the book that its rows come to. What is written is a
//! book, and by definitions of octets alone the one of the plan. A plan is CSV as a book is, but that
//!
//! - columns are separated by the first comma, semicolon or tab that stands neither in quotes nor in a comment;
//! - empty rows give no row of the book, nor do comments, whose first field begins with `#`, nor headings: the first
//!   other row, if its first field is none of `cell`, `write`, `update`, `stop` and `area`, and no field of it begins
//!   with a digit;
//! - white space round fields is dropped, but of TEXT, and so are empty fields behind the last column;
//! - capitals count as small letters in the first field, LANG, CATEGORY and SCOPE;
//! - AT and PERIOD may be times, as `0:30:00`, `90 s`, `15 min` or `2 h`, which are rounded up to slots, and of PERIOD
//!   to one slot at least;
//! - SCOPE may be `immediate`, `plmn`, `area` or `cell` (0 to 3), and CATEGORY `high`, `background` or `normal` (0 to
//!   2);
//! - CELLS may have commas, semicolons and more white space between cells, ranges as `4021-101..112`, and areas' names;
//! - a row `area`, NAME, CELLS gives no row, and names a set of cells for all rows; the first of a name counts;
//! - cells that rows name and no row declares are declared in front, in the order in which they are named first.
//!
//! What isn't understood stays as it is, so that it is told as a fault of the book, with the row of the plan.
#![tactic(auto)]

mod book;
mod cells;
pub mod fault;
mod number;
mod octets;
pub mod plan;
mod records;
mod rows;
mod says;
mod text;
mod time;

pub use fault::{PlanFault, PlanRowFault};
pub use plan::plan_stream;
