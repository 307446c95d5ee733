//! Tests of `book_check`, `book_remarks`, `book_texts` and `plan`; in one crate, so that their libraries are read once.
#![tactic(auto)]

#[cfg(test)]
mod octets;
#[cfg(test)]
mod of_book_check;
#[cfg(test)]
mod of_book_remarks;
#[cfg(test)]
mod of_book_texts;
#[cfg(test)]
mod of_plan;
