//! Pages in fewer blocks than four: a cell's broadcast channel may send a page in as few blocks as its text needs (3GPP
//! TS 44.012, 3.3). A slot with such a page is completed to the four blocks of a page that shows what came, and a
//! handset reads it as any other: [`completed_slot`] and [`completed_blocks`] do this, and [`show`] says what the slots
//! of a tape show so. [`page_of_slot`] has the octets that came.
#![tactic(auto)]

mod laws;
mod page;
mod pages;
mod phone;
mod slot;

pub use laws::short_page_laws;
pub use pages::Pages;
pub use phone::show;
pub use slot::{completed_blocks, completed_slot, page_of_slot};
