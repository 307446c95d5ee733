//! Tests of `warnc_run` by its public calls, as tables of lines: books compiled to tapes by one session or by
//! several, and what a handset shows of them.
#![tactic(auto)]

#[cfg(test)]
mod bench;
#[cfg(test)]
mod books;
#[cfg(test)]
mod ends;
#[cfg(test)]
mod gate;
#[cfg(test)]
#[cfg(test)]
mod rows;
#[cfg(test)]
mod scarce;
#[cfg(test)]
mod tapes;
