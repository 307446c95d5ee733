//! The engines of `warnc`'s commands, from a reader to a writer: each reads all of its input, and writes nothing before
//! all of its output is made.
//!
//! [`page::page_stream`] makes the blocks of a text's pages or a table of them, [`read::read_stream`] the table of what
//! tapes show, [`slots::slots_stream`] that of which page they send in which slot, and [`whole::whole_stream`] tapes
//! with four blocks of each page. What is written for which input, and which fault
//! comes of which, is said by definitions of octets alone.
#![tactic(auto)]

mod air_table;
mod laws;
pub mod page;
mod pages;
pub mod read;
pub mod slots;
pub mod table;
pub mod whole;

pub use laws::{read_laws, whole_laws};
