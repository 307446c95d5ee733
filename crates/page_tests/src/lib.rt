//! Tests of `gsm_alphabet`, `septets`, `ucs2_text` and `cbs_page` on values from outside them, as tables of lines.
#![tactic(auto)]

#[cfg(test)]
mod codes;
#[cfg(test)]
mod codes_tables;
#[cfg(test)]
mod pages;
#[cfg(test)]
mod pages_tables;
#[cfg(test)]
mod table;
