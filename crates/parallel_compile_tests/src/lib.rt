//! Tests of `parallel_compile` by its public calls, so that it isn't proved twice, as tables of lines: pieces in and
//! out of order, tapes by several workers and tapes that are streamed, workers at the gate, and refused memory.
#![tactic(auto)]

#[cfg(test)]
mod beside;
#[cfg(test)]
mod desks;
#[cfg(test)]
mod gate;
#[cfg(test)]
mod memory;
#[cfg(test)]
mod records;
#[cfg(test)]
mod streams;
#[cfg(test)]
mod table;
#[cfg(test)]
mod tapes;
