//! Tests of `gsmtap` by its public calls, as tables of lines: worked octets, which `tools/capture_reference.py` made,
//! captures as others make them, and captures that are at fault.

mod bench;
mod captures;
mod memory;
mod pcapng;
mod tapes;
mod together;
