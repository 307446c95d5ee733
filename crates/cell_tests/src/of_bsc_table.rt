//! Tests of `bsc_table`'s book as tables of lines: worked runs with their answers and airs, each refusal in its place,
//! both sides of each limit, and which messages are orders.

mod messages;
mod orders_vectors;
mod runs;
mod runs_table;
mod told;
