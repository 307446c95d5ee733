//! Tests of `alert_book` on network books by its public calls, as tables of lines: the books of groups with the
//! messages of their sessions, faults, the edges of each bound, and refused memory.
#![tactic(auto)]

#[cfg(test)]
mod bounds;
#[cfg(test)]
mod groups;
#[cfg(test)]
mod memory;
#[cfg(test)]
mod networks_table;
#[cfg(test)]
#[cfg(test)]
mod served;
