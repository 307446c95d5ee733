//! Times on the clock for slots: what people plan in, beside what cells count in.
//!
//! [`Start`] says when slot 0 begins, and [`slot_time`] is the text of the time at which a slot begins.
//! `specs/SlotTime.antt` says which text that is, and `specs/Calendar.antt` which day a date is.
#![tactic(auto)]

mod start;
mod text;

pub use start::Start;
pub use text::slot_time;
