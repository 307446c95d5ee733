//! What is remarked of a book without a fault: orders that do nothing, or not in each of their cells, late ones,
//! refused ones, and cells that get nothing.
//!
//! [`remarks_of`] finds them, by the rows of a book and the records of its run: what became of each order in each cell
//! (`marks_from`) is read of the cells' logs. [`run_text_of`] is their text, with how full each cell gets.
//! [`remark_stream`] is the engine of `check --slots`, from a reader to a writer.
#![tactic(auto)]

mod check;
pub mod fault;
mod laws;
mod mark;
pub mod remarks;
pub mod says;
mod table;
mod text;

pub use check::remark_stream;
pub use fault::RemarkFault;
pub use laws::remark_laws;
pub use mark::Mark;
pub use remarks::{Remark, remarks_of};
pub use says::{CellMark, Says};
pub use text::{run_text_of, text_of};
