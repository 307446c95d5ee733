//! Tests of `warnc`'s commands by runs between memory and memory, as tables of lines: worked rows of each command,
//! refused words, ends that fail, and refused memory.
#![tactic(auto)]

#[cfg(test)]
mod books;
#[cfg(test)]
mod captures;
#[cfg(test)]
mod charts;
#[cfg(test)]
mod checks;
#[cfg(test)]
mod groups;
#[cfg(test)]
mod links;
#[cfg(test)]
mod loads;
#[cfg(test)]
mod malformed;
#[cfg(test)]
mod malformed_table;
#[cfg(test)]
mod mistaken;
#[cfg(test)]
mod orders;
#[cfg(test)]
mod page;
#[cfg(test)]
mod read;
#[cfg(test)]
mod rows;
#[cfg(test)]
mod scarce;
#[cfg(test)]
mod strict;
#[cfg(test)]
mod verify;
#[cfg(test)]
mod verify_orders;
#[cfg(test)]
mod whole;
#[cfg(test)]
mod words;
