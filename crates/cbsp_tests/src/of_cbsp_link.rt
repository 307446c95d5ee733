//! Tests of `cbsp_link` on values from outside it, as tables of lines: octets of libosmogsm and of captures of real
//! equipment with what they say, each refusal, and refused memory.

mod captured;
mod libosmogsm;
mod memory;
mod refusals;
mod said;
mod table;
