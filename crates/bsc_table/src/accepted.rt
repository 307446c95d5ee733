//! What a cell's book keeps of the messages that it accepted.

ghost use Rattle.std.specs.Prelude.{◌≡◌, ◌<◌, ◌≤◌, ◌==◌, if◌then◌else◌, Some, None, IfSome};
ghost use Rattle.std.specs.Option.{option_map};
ghost use Rattle.admission.specs.declared.measure.TheConstants.{SCALE};
ghost use Rattle.admission.specs.Load.{load_of};
ghost use Rattle.admission.specs.Reservation.{natural_end, end_of_stopped};
ghost use Rattle.scheduler.specs.Follows.{message_from};
ghost use Rattle.bsc_table.specs.Record.{is_live, state_at, claim_of};
ghost use Rattle.bsc_table.specs.Handover.{ahead_of, place_before};
ghost use Rattle.bsc_table.specs.declared.accepted.TheConstants.{LATEST_START};
ghost use Rattle.bsc_table.specs.Accepted.{accepted_of};
ghost use Rattle.bsc_table.specs.BookSteps.{accepted_stopped, place_found, stopped_end};

use crate::command::Category;
use crate::entry::State;
use cbs_page::Serial;
use scheduler::Item;

/// No message starts as late as this slot. One that waits starts at the end of the period in which another was stopped:
/// with a slot and a period of 16 bits at `0xFFFF + 0xFFFE` at most, so that the end of its broadcasts has room in 32
/// bits.
const LATEST_START: u32 = 0x1_FFFE;

/// A message that was accepted.
//
// It has 32 octets: its fields leave few gaps, and a load that is reserved has room in 32 bits.
#[derive(Clone, Copy, Debug, PartialEq, Eq)]
pub struct AcceptedMessage {
    /// The message identifier.
    pub id: u16,
    /// The serial number.
    pub serial: Serial,
    /// Its place in the log.
    pub entry: u16,
    /// The slot at which it was accepted.
    pub accepted: u16,
    /// The number of the message behind which it waits up to its start. None where it started at once.
    pub behind: Option<u16>,
    /// The load that it reserves up to its start, in parts of `SCALE`.
    pub excess: u32,
    /// The slot from which it is broadcast.
    pub start: u32,
    /// Its pages, from 1 to 15.
    pub pages: u8,
    /// The repetition period in slots, from 1 to 1,024.
    pub period: u16,
    /// The broadcasts requested; 0 where it stands until it is stopped.
    pub broadcasts: u16,
    /// Its category.
    pub category: Category,
    /// The slot before which it was stopped, if it was.
    pub stop: Option<u16>,
}

/// A place at which a message may take over: behind another one, up to the end of that one's reservation.
#[derive(Clone, Copy)]
pub struct Place {
    /// The number of the message behind which it waits.
    pub behind: u16,
    /// The slot at which it starts.
    pub start: u32,
    /// The load that it reserves until then, in parts of `SCALE`: what its own has over that one's, or 0.
    pub excess: u64,
}

impl AcceptedMessage {
    /// The message in the form that `Plan::add` takes.
    pub fn item(&self) -> Item
        ensures { message_from result ≡ record ((accepted_of self.now).message) { stop = None } }
    {
        Item {
            entry: self.entry,
            start: self.start,
            pages: self.pages,
            period: self.period,
            broadcasts: self.broadcasts,
            rank: self.category.rank(),
        }
    }

    /// Its load, in parts of `SCALE`.
    pub fn load(&self) -> u64
        requires { 0 < self.now.period }
        ensures { result ≡ load_of self.now.pages self.now.period }
    {
        admission::load(self.pages, self.period)
    }

    /// The slot at which the periods of its requested broadcasts end. None where it stands until it is stopped.
    pub fn natural_end(&self) -> Option<u32>
        requires { self.now.start < LATEST_START }
        ensures { result ≡ natural_end self.now.start self.now.period self.now.broadcasts }
    {
        if self.broadcasts == 0 {
            return None;
        }
        Some(self.start + u32::from(self.broadcasts) * u32::from(self.period))
    }

    /// The slot up to which its load stays reserved if it is stopped at `slot`: the end of the period in which that
    /// is, and `slot` itself where it hasn't started by then.
    pub fn end_if_stopped(&self, slot: u16) -> u32
        requires { 0 < self.now.period }
        ensures end { result ≡ end_of_stopped self.now.start self.now.period slot }
        ensures soon { result < LATEST_START }
    {
        let start = self.start.min(u32::from(slot));
        let periods = (u32::from(slot) - start).div_ceil(u32::from(self.period));
        start + u32::from(self.period) * periods
    }

    /// Its number, where a stop at `slot` would end its reservation there and then: on the boundary of its period.
    pub fn leaving_at(&self, slot: u16) -> Option<u16>
        requires { 0 < self.now.period }
        ensures { result ≡ (if end_of_stopped self.now.start self.now.period slot == slot then Some self.now.entry
            else None) }
    {
        if self.end_if_stopped(slot) == u32::from(slot) {
            Some(self.entry)
        } else {
            None
        }
    }

    /// Whether it is live at `slot`: it wasn't stopped, and hasn't run out.
    pub fn is_live(&self, slot: u16) -> bool
        ensures { result ≡ is_live slot (accepted_of self.now).message }
    {
        let periods = u64::from(self.broadcasts) * u64::from(self.period);
        self.stop.is_none()
            && (self.broadcasts == 0 || u64::from(slot) < u64::from(self.start) + periods)
    }

    /// How it stands before `slot`.
    pub fn state(&self, slot: u16) -> State
        ensures { result ≡ state_at slot (accepted_of self.now).message }
    {
        match self.stop {
            Some(slot) => State::Stopped { slot },
            None if self.is_live(slot) => State::Standing,
            None => State::RanOut,
        }
    }

    /// The number of the message that stands before one that replaces this one at `slot`: this one, where it has
    /// started; else the one behind which it waits.
    pub fn ahead_at(&self, slot: u16) -> Option<u16>
        ensures { result ≡ ahead_of slot (claim_of (accepted_of self.now)) }
    {
        if self.start <= u32::from(slot) {
            Some(self.entry)
        } else {
            self.behind
        }
    }

    /// The place behind this message for one of that load that is accepted at `slot`, where this one was stopped and is
    /// reserved beyond that slot.
    pub fn place_behind(&self, slot: u16, load: u64) -> Option<Place>
        requires { 0 < self.now.period }
        ensures place { option_map place_found result
            ≡ place_before slot load (claim_of (accepted_of self.now)) (stopped_end self.now) }
        ensures soon { IfSome result (λ place. place.start < LATEST_START) }
    {
        let start = self.end_if_stopped(self.stop?);
        if start <= u32::from(slot) {
            return None;
        }
        Some(Place {
            behind: self.entry,
            start,
            excess: load.saturating_sub(self.load()),
        })
    }

    /// The message, where it waits at that place, at which its excess is reserved.
    pub fn waiting_at(self, place: Place) -> AcceptedMessage
        requires { place.excess ≤ SCALE }
        ensures { result ≡ record self { behind = Some place.behind; excess = place.excess; start = place.start } }
    {
        AcceptedMessage {
            behind: Some(place.behind),
            excess: place.excess as u32,
            start: place.start,
            ..self
        }
    }

    /// The message, stopped before `slot` where its number is this one.
    pub fn stopped_if(self, entry: u16, slot: u16) -> AcceptedMessage
        ensures { result ≡ accepted_stopped entry slot self }
    {
        if self.entry == entry {
            AcceptedMessage {
                stop: Some(slot),
                ..self
            }
        } else {
            self
        }
    }
}
