//! Tests of `device_ends`, `progress`, `slot_times` and `tickets`; in one crate, so that their libraries are read once.
#![tactic(auto)]

#[cfg(test)]
mod of_device_ends;
#[cfg(test)]
mod of_progress;
#[cfg(test)]
mod of_slot_times;
#[cfg(test)]
mod of_tickets;
