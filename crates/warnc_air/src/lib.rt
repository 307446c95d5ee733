//! The engines of `warnc`'s commands about captures, from a reader to a writer: each reads all of its input, and writes
//! nothing before all of its output is made. [`tape`], [`all`], [`cells`] and [`orders`] don't keep the capture that
//! they read.
//!
//! [`pcap::pcap_stream`] makes the capture of tapes, [`tape::tape_stream`] the tape of a capture,
//! [`all::all_tapes_stream`] the tapes of all cells of a table, [`cells::cells_stream`] a table of who sends in a
//! capture, and [`orders::orders_stream`] what a cell was asked over a link. What is written for which input, and which
//! fault comes of which, is said by definitions of octets alone.
#![tactic(auto)]

pub mod all;
pub mod cell_table;
pub mod cells;
pub mod orders;
pub mod pcap;
mod reading;
pub mod tape;
