//! Tests of `alert_book` by its public calls, most of them as tables of lines: books with the line of each fault,
//! sessions by octets and without them, books whose many texts several threads pack, and refused memory.
#![tactic(auto)]

#[cfg(test)]
mod books;
#[cfg(test)]
mod books_table;
#[cfg(test)]
mod long_books;
#[cfg(test)]
mod malformed;
#[cfg(test)]
mod malformed_table;
#[cfg(test)]
mod memory;
#[cfg(test)]
mod octets;
#[cfg(test)]
mod reading;
#[cfg(test)]
#[cfg(test)]
mod sessions;
