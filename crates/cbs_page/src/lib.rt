//! Pages of cell broadcast messages (3GPP TS 23.041, clause 9.4.1).
//!
//! `paginate` cuts a text into the pages that carry it, in the first alphabet that has all its characters; `page_bytes`
//! and `read_page` are the 88 octets of a page, both ways; `page_text` is the text that a page shows, and
//! `push_page_text` puts it behind another. The texts of a text's pages, joined, are the text.
#![tactic(auto)]

pub mod coding;
pub mod content;
mod cost;
mod laws;
pub mod octets;
mod pages;
pub mod paging;
mod plain;
pub mod serial;
mod spelling;
pub mod text;

pub use coding::{Alphabet, Dcs, language_dcs};
pub use content::Content;
pub use laws::{paging_laws, text_laws};
pub use octets::{PAGE_OCTETS, PageView, page_bytes, read_page};
pub use paging::{MAX_PAGES, Paged, TextFault, paginate};
pub use serial::Serial;
pub use text::{Refused, page_text, push_page_text};
