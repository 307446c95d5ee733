//! The messages that a cell accepted, as its log says.

ghost use Rattle.std.specs.Prelude.{◌≡◌, ◌<◌, ◌≤◌, ℕ, List, length, All, IfOk, IfSome, OnOk};
ghost use Rattle.std.specs.Prelude.{find, map};
ghost use Rattle.std.specs.Option.{option_map, option_to_list};
ghost use Rattle.admission.specs.Reservation.{end_of_stopped};
ghost use Rattle.bsc_table.specs.Claim.{end_of, own_load, reserves};
ghost use Rattle.bsc_table.specs.Handover.{ahead_of, numbered};
ghost use Rattle.bsc_table.specs.Orders.{IsWellFormed};
ghost use Rattle.bsc_table.specs.Record.{accepted_after, accepted_in, added_by, predecessor_of, claim_of, claims_of};
ghost use Rattle.bsc_table.specs.Record.{excess_beyond, is_background_category, is_of_pair, is_stop_of, replaced_in};
ghost use Rattle.bsc_table.specs.Record.{start_of};
ghost use Rattle.chart.specs.Kept.{accepted_kept, all_kept, kept_stopped, stops, HavePeriods};

use bsc_table::{Answer, Category, Command, Entry};
use cbs_page::Serial;
use std::alloc::{AllocError, Global};

/// A message that a cell accepted.
#[derive(Clone, Copy, Debug, PartialEq, Eq)]
pub struct KeptMessage {
    /// The message identifier.
    pub id: u16,
    /// The serial number.
    pub serial: u16,
    /// Its place in the log.
    pub entry: u16,
    /// The slot at which it was accepted.
    pub accepted: u16,
    /// The number of the message behind which it waits up to its start. None where it started at once.
    pub behind: Option<u16>,
    /// The load that it reserves up to its start, in parts of `SCALE`.
    pub excess: u64,
    /// The slot from which it is broadcast.
    pub start: u32,
    /// Its pages, from 1 to 15.
    pub pages: u8,
    /// The repetition period in slots, from 1 to 1,024.
    pub period: u16,
    /// The broadcasts requested; 0 where it stands until it is stopped.
    pub broadcasts: u16,
    /// Its category.
    pub category: Category,
    /// The slot before which it was stopped, if it was.
    pub stop: Option<u16>,
}

/// Whether a category reserves nothing.
fn is_background(category: Category) -> bool
    ensures { result ≡ is_background_category category }
{
    match category {
        Category::High | Category::Normal => false,
        Category::Background => true,
    }
}

/// The slot from which a write's message stands, if the answer accepts it.
fn start_of(answer: Answer) -> Option<u32>
    ensures { result ≡ start_of answer }
{
    match answer {
        Answer::Started { slot } => Some(u32::from(slot)),
        Answer::Replaced { slot, .. } => Some(slot),
        _ => None,
    }
}

/// Whether an entry stopped the message of a pair.
fn is_stop_of(id: u16, serial: u16, entry: &Entry) -> bool
    ensures { result ≡ is_stop_of id serial entry.now }
{
    match &entry.command {
        Command::Kill {
            id: of,
            serial: stopped,
        } => {
            matches!(entry.answer, Answer::Stopped { .. })
                && id == *of
                && serial == stopped.number()
        }
        Command::Write {
            id: of,
            replaces: Some(stopped),
            ..
        } => {
            matches!(entry.answer, Answer::Replaced { .. })
                && id == *of
                && serial == stopped.number()
        }
        _ => false,
    }
}

impl KeptMessage {
    /// Its load, in parts of `SCALE`.
    pub fn load(&self) -> u64
        requires { 0 < self.now.period }
        ensures { result ≡ own_load (accepted_kept self.now).message }
    {
        admission::load(self.pages, self.period)
    }

    /// Whether it reserves anything.
    pub fn reserves(&self) -> bool
        ensures { result ≡ reserves (claim_of (accepted_kept self.now)) }
    {
        !is_background(self.category)
    }

    /// The first slot after its reservation. None where that has no end.
    pub fn end(&self) -> Option<u64>
        requires { 0 < self.now.period }
        ensures { result ≡ end_of (accepted_kept self.now).message }
    {
        let start = u64::from(self.start);
        let period = u64::from(self.period);
        match self.stop {
            None if self.broadcasts == 0 => None,
            None => Some(start + u64::from(self.broadcasts) * period),
            Some(stop) => Some(end_of_stopped(start, period, u64::from(stop))),
        }
    }

    /// Whether this is its pair.
    fn is_of_pair(&self, id: u16, serial: u16) -> bool
        ensures { result ≡ is_of_pair id serial (accepted_kept self.now) }
    {
        self.id == id && self.serial == serial
    }

    /// The message after one more entry.
    fn stopped_by(self, entry: &Entry) -> KeptMessage
        ensures { result ≡ kept_stopped entry.now self }
    {
        if self.stop.is_none() && is_stop_of(self.id, self.serial, entry) {
            KeptMessage {
                stop: Some(entry.slot),
                ..self
            }
        } else {
            self
        }
    }

    /// The number of the message that stands before one that replaces this one at `slot`.
    fn ahead_at(&self, slot: u16) -> Option<u16>
        ensures { result ≡ ahead_of slot (claim_of (accepted_kept self.now)) }
    {
        if self.start <= u32::from(slot) {
            Some(self.entry)
        } else {
            self.behind
        }
    }
}

/// Where the reservation of a message ends that is stopped at a slot.
fn end_of_stopped(start: u64, period: u64, stop: u64) -> u64
    requires period { 0 < period }
    requires short { period < 65536 }
    requires soon { stop < 65536 }
    ensures { result ≡ end_of_stopped start period stop }
{
    let start = start.min(stop);
    start + period * (stop - start).div_ceil(period)
}

/// The message of a pair.
pub fn named(all: &[KeptMessage], id: u16, serial: u16) -> Option<KeptMessage>
    ensures message { option_map accepted_kept result ≡ find (is_of_pair id serial) (all_kept all.now) }
    ensures period { HavePeriods all.now → IfSome result (λ k. 0 < k.period) }
{
    for kept in all {
        if kept.is_of_pair(id, serial) {
            return Some(*kept);
        }
    }
    None
}

/// The number of the message behind which one waits that was accepted at `slot` with that start, in place of the one
/// that it replaces.
fn behind_of(
    all: &[KeptMessage],
    slot: u16,
    start: u32,
    id: u16,
    replaces: Option<Serial>,
) -> Option<u16>
    ensures { result ≡ predecessor_of slot start (replaced_in (all_kept all.now) id replaces) }
{
    let Some(serial) = replaces else {
        return None;
    };
    let old = named(all, id, serial.number())?;
    if start == u32::from(slot) {
        None
    } else {
        old.ahead_at(slot)
    }
}

/// What a load has over that of the message behind which it waits; 0 where there is none.
fn excess_over(all: &[KeptMessage], behind: Option<u16>, load: u64) -> u64
    requires { HavePeriods all.now }
    ensures { result ≡ excess_beyond load (numbered behind (claims_of (all_kept all.now))) }
{
    let Some(entry) = behind else {
        return 0;
    };
    for kept in all {
        if kept.reserves() && kept.entry == entry {
            return load.saturating_sub(kept.load());
        }
    }
    0
}

/// The message that an entry adds to those before.
fn added_by(all: &[KeptMessage], place: u16, entry: &Entry) -> Option<KeptMessage>
    requires periods { HavePeriods all.now }
    requires formed { IsWellFormed entry.now.command }
    ensures added { option_to_list (option_map accepted_kept result)
        ≡ added_by (all_kept all.now) place entry.now.slot (start_of entry.now.answer) entry.now.command }
    ensures period { IfSome result (λ k. 0 < k.period) }
{
    let start = start_of(entry.answer)?;
    match &entry.command {
        Command::Write {
            id,
            serial,
            replaces,
            category,
            period,
            broadcasts,
            contents,
            ..
        } => {
            let behind = behind_of(all, entry.slot, start, *id, *replaces);
            let pages = contents.as_slice().len() as u8;
            Some(KeptMessage {
                id: *id,
                serial: serial.number(),
                entry: place,
                accepted: entry.slot,
                behind,
                excess: excess_over(all, behind, admission::load(pages, *period)),
                start,
                pages,
                period: *period,
                broadcasts: *broadcasts,
                category: *category,
                stop: None,
            })
        }
        _ => None,
    }
}

/// Whether an answer says that a message was stopped.
fn stops(answer: Answer) -> bool
    ensures { result ≡ stops answer }
{
    match answer {
        Answer::Replaced { .. } | Answer::Stopped { .. } => true,
        Answer::Started { .. }
        | Answer::Told { .. }
        | Answer::Unknown
        | Answer::Cause(_)
        | Answer::Refused => false,
    }
}

/// Stops the messages that an entry stops. Most entries of a long log stop none, so their answers are looked at first.
fn stop_by(all: &mut Vec<KeptMessage>, entry: &Entry)
    ensures { all.new.items ≡ map (kept_stopped entry.now) all.old.items }
{
    if !stops(entry.answer) {
        return;
    }
    for place in 0..all.len() {
        all[place] = all[place].stopped_by(entry);
    }
}

/// Takes one more entry, at this place of the log.
fn add_entry(all: &mut Vec<KeptMessage>, place: u16, entry: &Entry) -> Result<(), AllocError>
    requires periods { HavePeriods all.old.items }
    requires formed { IsWellFormed entry.now.command }
    ensures all { OnOk result (all_kept all.new.items ≡ accepted_after (all_kept all.old.items) place entry.now) }
    ensures periods { OnOk result (HavePeriods all.new.items) }
{
    let added = added_by(all, place, entry);
    stop_by(all, entry);
    if let Some(added) = added {
        all.push(added)?;
    }
    Ok(())
}

/// The messages that a log accepted, in the order of their numbers. The only error is out of memory.
pub fn accepted_in(alloc: Global, log: &[Entry]) -> Result<Vec<KeptMessage>, AllocError>
    requires few { length log.now ≤ 4096 }
    requires formed { All (λ e. IsWellFormed e.command) log.now }
    ensures all { IfOk result (λ all. all_kept all.items ≡ accepted_in log.now) }
    ensures periods { IfOk result (λ all. HavePeriods all.items) }
{
    let mut all = Vec::new(alloc);
    for (place, entry) in log.iter().enumerate() {
        add_entry(&mut all, place as u16, entry)?;
    }
    Ok(all)
}
