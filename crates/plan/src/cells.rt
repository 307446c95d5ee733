//! Cells in a plan: lists, ranges and areas.

pub(crate) mod area;
pub(crate) mod field;
pub(crate) mod new;
pub(crate) mod parts;
pub(crate) mod range;
