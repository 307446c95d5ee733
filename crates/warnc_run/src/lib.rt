//! The engine of all commands over a book, from a reader to a writer: which books are run, how, and what is made of
//! them.
//!
//! [`run_product`] reads a book, or a network book for one of its groups or for all, has the cells of a desk carry out
//! what its sessions order, each in a thread of its own, settles the desk, and writes what is to be made of the cells'
//! records: their tapes, the report of what became of each order, or their chart. Several workers play the cells and
//! hand on their pages, of which the tapes are put together while the desk is open, and compared with the records when
//! it is settled; one worker hands on nothing: each tape is made of its record when it is written.
//! [`live_stream`] and [`compile_stream`] are that for the tapes of a book, [`run_book`] gives the records, and
//! [`run_with_book`] and [`run_group`] give them with the book or with that of a group.
//! [`run_strictly`] writes only of a run in which every order was done. A [`Watch`] is told of each cell that is done.
//!
//! What was written is said by definitions of the book's octets alone (`IsMadeBy`), which know of no worker: which
//! orders each cell answered, at which slot, and what a handset shows that reads its tape.
#![tactic(auto)]

mod alone;
mod apart;
mod book;
mod fault;
mod finish;
mod groups;
mod laws;
mod live;
mod network;
mod octets;
mod output;
mod parts;
mod pieces;
pub mod product;
mod read;
mod records;
mod run;
mod session;
mod sessions;
mod settled;
pub mod strict;
mod tapes;
mod text;
mod watch;
mod workers;

pub use fault::RunFault;
pub use groups::groups_stream;
pub use laws::{first_shown_law, output_laws, report_column_laws, whole_laws};
pub use live::{compile_stream, live_stream};
pub use octets::{product_alone, run_octets};
pub use product::{Product, ProductFault, run_product};
pub use records::{RanBook, run_book, run_group, run_with_book};
pub use run::{BookRun, Books, Run, Sessions, Workers};
pub use strict::{StrictFault, run_strictly};
pub use watch::Watch;
