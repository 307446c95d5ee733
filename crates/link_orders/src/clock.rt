//! The clock of a tape: when it begins, by the blocks of the air.

ghost use Rattle.std.specs.Prelude.{◌≡◌, ◌+◌, ◌++◌, ◌<◌, ◌≤◌, ◌^◌, ◌⊎◌, [], IfErr, IfSome, OnOk, Ok, Err, None};
ghost use Rattle.gsmtap.specs.PieceSteps.{packet_of};
ghost use Rattle.gsmtap.specs.TapeSteps.{last_slot};
ghost use Rattle.link_orders.specs.Clock.{IsMedian, begin_by, begins_by, clock_packet, ticks_if, ticks_at};
ghost use Rattle.link_orders.specs.Clock.{not_clocked, slot_at, slots_before, with_frame};
ghost use Rattle.link_orders.specs.Steps.{IsUnclocked, clocked_of};

use gsmtap::file::link_numbered;
use gsmtap::{AirFaultKind, Captured, Sender, Track, followed, latest, place_in, sent_in, slot_in};
use std::alloc::{AllocError, Global};

/// How many ticks a microsecond has.
const MICROSECOND: u64 = 13;

/// How many ticks a frame lasts: 120/26 ms.
const FRAME: u64 = 60_000;

/// How many frames a slot has.
const FRAMES: u64 = 408;

/// How many ticks a slot lasts.
pub(crate) const SLOT: u64 = 24_480_000;

/// How many ticks 1970 begins after the first one: 131,072 slots.
pub(crate) const EPOCH: u64 = 3_208_642_560_000;

/// How many slots a tape may have, and one more.
const SLOTS: u64 = 65_536;

/// What blocks of the air say of when their tape begins.
#[derive(Drop)]
pub struct SlotClock {
    pub(crate) track: Option<Track>,
    pub(crate) begins: Vec<u64>,
}

impl SlotClock {
    /// No block came.
    pub(crate) fn new(alloc: Global) -> SlotClock
        ensures { clocked_of result ≡ not_clocked }
    {
        SlotClock {
            track: None,
            begins: Vec::new(alloc),
        }
    }

    /// Takes the block that a packet carries, if it does.
    #[tactic(auto, unfolding(crate::specs::Clock::clock_packet))]
    pub(crate) fn take(&mut self, from: Sender, packet: &Captured) -> Result<(), AirFaultKind>
        requires { last_slot self.old.track < 2 ^ 60 }
        ensures taken { OnOk result (clock_packet from (clocked_of self.old) (packet_of packet.now)
            ≡ Ok (clocked_of self.new)) }
        ensures bound { OnOk result (last_slot self.new.track ≤ last_slot self.old.track + 3328) }
        ensures fault { IfErr result (IsUnclocked from (clocked_of self.old) (packet_of packet.now)) }
    {
        let Some(link) = link_numbered(packet.link) else {
            return Err(AirFaultKind::OtherLink(packet.link));
        };
        match sent_in(link, from, packet.octets) {
            Some(sent) => self.take_block(packet.time, sent.frame),
            None => Ok(()),
        }
    }

    /// Takes a block, by the time of its packet and the number of its first frame.
    #[tactic(auto, unfolding(crate::specs::Clock::with_frame))]
    fn take_block(&mut self, time: Option<u64>, frame: u32) -> Result<(), AirFaultKind>
        requires { last_slot self.old.track < 2 ^ 60 }
        ensures taken { OnOk result (with_frame (clocked_of self.old) time frame ≡ Ok (clocked_of self.new)) }
        ensures bound { OnOk result (last_slot self.new.track ≤ last_slot self.old.track + 3328) }
        ensures fault { IfErr result (λ why. (why ≡ AirFaultKind.Refused)
            ⊎ ((why ≡ AirFaultKind.StepsBack) × (with_frame (clocked_of self.old) time frame ≡ Err why))) }
    {
        if place_in(frame) >= 4 {
            return Ok(());
        }
        let Some(there) = followed(self.track, slot_in(frame)) else {
            return Err(AirFaultKind::StepsBack);
        };
        let Ok(()) = self.note(time, there.slot, frame) else {
            return Err(AirFaultKind::Refused);
        };
        self.track = Some(latest(self.track, there));
        Ok(())
    }

    /// Notes when the tape begins by a block in this slot.
    fn note(&mut self, time: Option<u64>, slot: u64, frame: u32) -> Result<(), AllocError>
        ensures begins { OnOk result (self.new.begins.items ≡ self.old.begins.items ++ begins_by time slot frame) }
        ensures track { self.new.track ≡ self.old.track }
    {
        let Some(time) = time else {
            return Ok(());
        };
        if slot < SLOTS {
            self.begins.push(begin_by(time, slot, frame))?;
        }
        Ok(())
    }
}

/// When something came, of which this is the time in nanoseconds from 1970-01-01T00:00:00Z on.
fn ticks_at(time: u64) -> u64
    ensures { result ≡ ticks_at time }
{
    MICROSECOND * (time / 1000) + EPOCH
}

/// The same of a time that may not be known.
pub(crate) fn ticks_if(time: Option<u64>) -> u64
    ensures { result ≡ ticks_if time }
{
    match time {
        Some(time) => ticks_at(time),
        None => EPOCH,
    }
}

/// When the tape begins by a block that stands in this slot and has this number of its first frame.
fn begin_by(time: u64, slot: u64, frame: u32) -> u64
    requires { slot < SLOTS }
    ensures { result ≡ begin_by time slot frame }
{
    let frames = FRAMES * slot + u64::from(frame) % FRAMES;
    ticks_at(time).saturating_sub(FRAME * frames)
}

/// The middle one of numbers in rising order; none of none.
pub(crate) fn median(begins: Vec<u64>) -> Option<u64>
    ensures median { IfSome result (IsMedian begins.items) }
    ensures none { result ≡ None → begins.items ≡ [] }
{
    let mut sorted = begins;
    sorted.sort_unstable();
    sorted.get(sorted.len() / 2).copied()
}

/// In which slot something comes.
pub(crate) fn slot_at(begin: u64, mark: u64) -> u64
    ensures { result ≡ slot_at begin mark }
{
    mark.saturating_sub(begin) / SLOT
}

/// How many slots before the tape something comes, rounded up.
pub(crate) fn slots_before(begin: u64, mark: u64) -> u64
    ensures value { result ≡ slots_before begin mark }
    ensures bound { result < 1099511627776 }
{
    begin.saturating_sub(mark).div_ceil(SLOT)
}
