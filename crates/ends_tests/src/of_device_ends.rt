//! Tests of `device_ends` by its public calls, so that it isn't proved twice.

mod devices;
mod ends;
