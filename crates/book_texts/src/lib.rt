//! What the texts of a book cost: the command `texts`, from a reader to a writer.
//!
//! [`cost_of_text`] says how many pages a text takes and what room the last one has, [`first_forcing`] which character
//! has it sent in UCS-2, and [`pages_without_forcing`] what it would take without such characters. [`texts_stream`]
//! writes a line of that for each text of a book, also for those that can't be sent.
#![tactic(auto)]

mod cost;
mod fit;
mod laws;
mod table;
mod texts;

pub use cost::{
    TextCost, cost_of_text, first_forcing, forcing_count, pages_needed, pages_without_forcing,
    place_of_forcing,
};
pub use fit::cut_for;
pub use laws::texts_laws;
pub use texts::{TextsFault, texts_stream};
