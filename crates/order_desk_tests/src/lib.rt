//! Tests of `order_desk` by its public calls: replies worked by hand, cells, worked runs at a desk, orders at once,
//! settlements, and refused memory.
#![tactic(auto)]

#[cfg(test)]
mod desks;
#[cfg(test)]
mod ends;
#[cfg(test)]
mod lines;
#[cfg(test)]
mod meeting;
#[cfg(test)]
mod memory;
#[cfg(test)]
mod replies;
#[cfg(test)]
mod run;
#[cfg(test)]
mod settlements;
#[cfg(test)]
mod table;
