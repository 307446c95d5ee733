//! The messages that a cell accepted.

ghost use Rattle.std.specs.Prelude.{◌≡◌, length, map, IfOk};
ghost use Rattle.std.specs.Option.{option_to_list};
ghost use Rattle.bsc_table.specs.Record.{is_stop_of, start_of, is_background_category};
ghost use Rattle.verification.specs.Asked.{asked_of_entry, asked_of_log, stop_among, is_page_of};
ghost use Rattle.verification.specs.Kept.{asked_kept};
ghost use Rattle.verification.specs.Difference.{is_over, is_past_stop};

use bsc_table::{Answer, Category, Command, Entry};
use cbs_page::{Dcs, PageView, Serial};
use cbsp_wire::Contents;
use std::alloc::{AllocError, Global};

/// A message that a cell accepted.
#[derive(Clone, Copy)]
pub struct Asked<'a> {
    /// The message identifier.
    pub id: u16,
    /// The number of its serial number.
    pub serial: u16,
    /// The data coding of its pages.
    pub dcs: Dcs,
    /// What its pages hold, in page order.
    pub contents: &'a Contents,
    /// The slot from which it stands.
    pub start: u32,
    /// Its period in slots.
    pub period: u16,
    /// How many broadcasts were requested; 0 if it stands until it is stopped.
    pub broadcasts: u16,
    /// The slot before which it was stopped, if it was.
    pub stop: Option<u16>,
    /// Whether it is a background message.
    pub background: bool,
}

/// Whether an entry stops the message of this identifier and serial number.
fn is_stop_of(entry: &Entry, id: u16, serial: Serial) -> bool
    ensures { result ≡ is_stop_of id serial entry.now }
{
    match &entry.command {
        Command::Kill {
            id: of_id,
            serial: of_serial,
        } => match entry.answer {
            Answer::Stopped { .. } => id == *of_id && serial.number() == of_serial.number(),
            _ => false,
        },
        Command::Write {
            id: of_id,
            replaces,
            ..
        } => match (entry.answer, replaces) {
            (Answer::Replaced { .. }, Some(of_serial)) => {
                id == *of_id && serial.number() == of_serial.number()
            }
            _ => false,
        },
        Command::Status { .. } => false,
    }
}

/// The slot of the first of some entries that stops the message of this identifier and serial number.
fn stop_among(later: &[Entry], id: u16, serial: Serial) -> Option<u16>
    ensures { result ≡ stop_among later.now id serial }
{
    for entry in later {
        if is_stop_of(entry, id, serial) {
            return Some(entry.slot);
        }
    }
    None
}

/// The slot from which a message stands that was accepted with this answer.
fn start_of(answer: Answer) -> Option<u32>
    ensures { result ≡ start_of answer }
{
    match answer {
        Answer::Started { slot } => Some(u32::from(slot)),
        Answer::Replaced { slot, .. } => Some(slot),
        Answer::Stopped { .. }
        | Answer::Told { .. }
        | Answer::Unknown
        | Answer::Cause(_)
        | Answer::Refused => None,
    }
}

/// Whether messages of a category are background messages.
fn is_background(category: Category) -> bool
    ensures { result ≡ is_background_category category }
{
    match category {
        Category::High | Category::Normal => false,
        Category::Background => true,
    }
}

impl<'a> Asked<'a> {
    /// The message that an entry of a log accepts, if it does, by the entries that come later.
    pub fn of(entry: &'a Entry, later: &[Entry]) -> Option<Asked<'a>>
        ensures { map asked_kept (option_to_list result) ≡ asked_of_entry entry.now later.now }
    {
        let start = start_of(entry.answer)?;
        match &entry.command {
            Command::Write {
                id,
                serial,
                category,
                period,
                broadcasts,
                dcs,
                contents,
                ..
            } => Some(Asked {
                id: *id,
                serial: serial.number(),
                dcs: *dcs,
                contents,
                start,
                period: *period,
                broadcasts: *broadcasts,
                stop: stop_among(later, *id, *serial),
                background: is_background(*category),
            }),
            Command::Kill { .. } => None,
            Command::Status { .. } => None,
        }
    }

    /// Whether a page has its identifier and serial number.
    pub fn has_name_of(&self, page: &PageView) -> bool
        ensures { result ≡ is_page_of (asked_kept self.now) page.now }
    {
        page.id == self.id && page.serial.number() == self.serial
    }

    /// How many pages it has.
    pub fn pages(&self) -> usize
        ensures { result ≡ length self.now.contents.now }
    {
        self.contents.as_slice().len()
    }

    /// Whether it is stopped at a slot.
    pub fn is_stopped(&self, slot: usize) -> bool
        ensures { result ≡ is_past_stop self.now.stop slot }
    {
        match self.stop {
            Some(stop) => usize::from(stop) <= slot,
            None => false,
        }
    }

    /// Whether the periods of its requested broadcasts are over at a slot.
    pub fn is_over(&self, slot: usize) -> bool
        ensures { result ≡ is_over (asked_kept self.now) slot }
    {
        let end = u64::from(self.start) + u64::from(self.broadcasts) * u64::from(self.period);
        self.broadcasts != 0 && end <= slot as u64
    }
}

/// The messages that a cell accepted, in the order of its log.
///
/// # Errors
///
/// Out of memory.
pub fn asked_messages<'a>(alloc: Global, log: &'a [Entry]) -> Result<Vec<Asked<'a>>, AllocError>
    ensures { IfOk result (λ asked. map asked_kept asked.items ≡ asked_of_log log.now) }
{
    let mut messages = Vec::new(alloc);
    for place in 0..log.len() {
        if let Some(asked) = Asked::of(&log[place], &log[place + 1..]) {
            messages.push(asked)?;
        }
    }
    Ok(messages)
}
