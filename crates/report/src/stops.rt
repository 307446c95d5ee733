//! The slots at which messages were stopped.

ghost use Rattle.std.specs.Prelude.{◌≡◌, ◌<◌, ◌∷◌, [], ℕ, List, None, IfOk, OnOk, length, slice_index_or};
ghost use Rattle.bsc_table.specs.declared.entry.Entry.{Entry};
ghost use Rattle.report.specs.RowSteps.{AreStops, stop_at, stop_of_command, stopped_pair};

use bsc_table::{Answer, Command, Entry};
use std::alloc::{AllocError, AllocFailed, Global};
use std::collections::HashMap;
use std::marker::Model;

/// The pair of the message that an entry stops, if it stops one.
fn stopped_pair(entry: &Entry) -> Option<(u16, u16)>
    ensures { result ≡ stopped_pair entry.now }
{
    match &entry.command {
        Command::Kill { id, serial } => match entry.answer {
            Answer::Stopped { .. } => Some((*id, serial.number())),
            _ => None,
        },
        Command::Write { id, replaces, .. } => match (entry.answer, replaces) {
            (Answer::Replaced { .. }, Some(serial)) => Some((*id, serial.number())),
            _ => None,
        },
        Command::Status { .. } => None,
    }
}

/// The first stop of each message in some entries, by its identifier and serial number. In clauses these are the
/// entries of its map.
#[derive(Drop)]
struct Stops {
    by_pair: HashMap<(u16, u16), u16>,
}

impl Model for Stops {
    ghost use Rattle.std.specs.Prelude.{List, ℕ};
    ghost use Rattle.report.specs.RowSteps.{Pair};

    ghost Value = { List (Pair × ℕ) };

    ghost view = { λ stops. stops.by_pair.entries };
}

impl Stops {
    /// Those of no entries, with room for this many.
    fn with_room(alloc: Global, stops: usize) -> Result<Stops, AllocError>
        ensures { IfOk result (λ stops. AreStops stops []) }
    {
        Ok(Stops {
            by_pair: HashMap::with_capacity(alloc, stops)?,
        })
    }

    /// The stop of the message of a command, if it is a write and its message was stopped. Most logs stop few messages,
    /// so that mostly there is none to look for.
    fn of(&self, command: &Command) -> Option<u16>
        ensures { (later : List Entry) → AreStops self.now later → result ≡ stop_of_command later command.now }
    {
        if self.by_pair.is_empty() {
            return None;
        }
        match command {
            Command::Write { id, serial, .. } => self.by_pair.get(&(*id, serial.number())).copied(),
            Command::Kill { .. } => None,
            Command::Status { .. } => None,
        }
    }

    /// Adds an entry that comes before the others. The only error is out of memory.
    fn add(&mut self, entry: &Entry) -> Result<(), AllocFailed<((u16, u16), u16)>>
        ensures { OnOk result ((later : List Entry) → AreStops self.old later
            → AreStops self.new (entry.now ∷ later)) }
    {
        if let Some(pair) = stopped_pair(entry) {
            self.by_pair.insert(pair, entry.slot)?;
        }
        Ok(())
    }
}

/// The slot at which the message of each write was stopped, if it was, by the write's place in the log.
pub(crate) fn stops_of(alloc: Global, log: &[Entry]) -> Result<Vec<Option<u16>>, AllocError>
    ensures places { IfOk result (λ stops. length stops.items ≡ length log.now) }
    ensures each { IfOk result (λ stops. (place : ℕ) → place < length log.now
        → slice_index_or stops.items place None ≡ stop_at log.now place) }
{
    let mut stops = vec![in alloc; None; log.len()]?;
    let mut seen = Stops::with_room(alloc, log.len())?;
    let mut place = log.len();
    // From the last entry on: so `seen` has the first of the stops that come after an entry.
    while place > 0 {
        place -= 1;
        let entry = &log[place];
        stops[place] = seen.of(&entry.command);
        seen.add(entry)?;
    }
    Ok(stops)
}
