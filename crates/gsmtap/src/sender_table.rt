//! Who sends in a capture file, and what, packet by packet.

ghost use Rattle.std.specs.Prelude.{◌≡◌, ◌+◌, ◌<◌, ◌^◌, ◌++◌, ◌∷◌, [], ℕ, List, length, map, IfErr, IfOk, OnOk};
ghost use Rattle.std.specs.Prelude.{Ok, Err};
ghost use Rattle.gsmtap.specs.Heard.{IsHeardFault};
ghost use Rattle.gsmtap.specs.PieceSteps.{packet_of};
ghost use Rattle.gsmtap.specs.Senders.{AreRowsIn, HaveAll, HaveAllOfSome};
ghost use Rattle.gsmtap.specs.SendersSteps.{AllCanListen, CanListen, Hear, HaveHeard, IsFirstHeard};
ghost use Rattle.gsmtap.specs.SendersSteps.{AreRowsOf, HearsPacket, HearsSome, IsCarriedFor, IsHeardAgain, IsRowOf};
ghost use Rattle.gsmtap.specs.SendersSteps.{IsListenerFor, IsUnheardPacket, place_among};
ghost use Rattle.gsmtap.specs.TapeOfCapture.{after_sent};
ghost use Rattle.gsmtap.specs.Track.{Known};

use crate::carried::{Carried, wanted_of};
use crate::fault::{AirFault, AirFaultKind};
use crate::file::link_numbered;
use crate::frontier::take_all;
use crate::heard::{Heard, count_again, is_station};
use crate::listener::Listener;
use crate::pieces::Captured;
use crate::taker::TakesPackets;
use crate::tap::{Sent, Station, sent_in, station_in};
use crate::tape::{fault_at, opened};
use std::alloc::{AllocError, Global};

/// A row of the table of who sends in a capture file.
#[derive(Drop, Debug)]
pub struct SenderRow {
    /// The sender, and where the file has its blocks.
    pub heard: Heard,
    /// When the first of its packets came, in nanoseconds from 1970-01-01T00:00:00Z on, if the file says it: pcapng has
    /// packets without a time, and clocks that count from another time or not in decimal parts of a second.
    pub first_time: Option<u64>,
    /// When the last one came.
    pub last_time: Option<u64>,
    /// What its blocks carry, if they make a tape. They make none if one differs or steps back.
    pub carried: Option<Carried>,
}

/// A sender, as far as it was heard.
#[derive(Drop)]
pub struct SenderState {
    heard: Heard,
    first_time: Option<u64>,
    last_time: Option<u64>,
    listener: Option<Listener>,
}

impl SenderState {
    /// A sender whose first block came in the packet of this number.
    fn new(
        alloc: Global,
        number: u64,
        station: Station,
        time: Option<u64>,
        sent: Option<Sent>,
    ) -> Result<SenderState, AllocError>
        ensures { IfOk result (IsFirstHeard number station time sent) }
    {
        let mut sender = SenderState {
            heard: Heard {
                station,
                blocks: 1,
                first: number,
                last: number,
            },
            first_time: time,
            last_time: time,
            listener: Some(Listener::new(alloc)),
        };
        sender.listen(sent)?;
        Ok(sender)
    }

    /// Takes one block more, in the packet of this number.
    fn hear(&mut self, number: u64, time: Option<u64>, sent: Option<Sent>) -> Result<(), AllocError>
        requires { CanListen self.old.listener }
        ensures { OnOk result (IsHeardAgain number time sent self.old self.new) }
    {
        count_again(&mut self.heard, number);
        self.last_time = time;
        self.listen(sent)
    }

    /// Listens to one block more, as long as the blocks make a tape.
    fn listen(&mut self, sent: Option<Sent>) -> Result<(), AllocError>
        requires { CanListen self.old.listener }
        ensures listens { OnOk result ((known : Known) → IsListenerFor self.old.listener (Ok known) →
            IsListenerFor self.new.listener (after_sent known sent)) }
        ensures gone { OnOk result ((why : AirFaultKind) → IsListenerFor self.old.listener (Err why) →
            IsListenerFor self.new.listener (Err why)) }
        ensures heard { self.new.heard ≡ self.old.heard }
        ensures first_time { self.new.first_time ≡ self.old.first_time }
        ensures last_time { self.new.last_time ≡ self.old.last_time }
    {
        let Some(sent) = sent else {
            return Ok(());
        };
        let Some(listener) = &mut self.listener else {
            return Ok(());
        };
        match listener.hear(&sent) {
            Ok(()) => Ok(()),
            Err(AirFaultKind::Refused) => Err(AllocError),
            Err(_) => {
                self.listener = None;
                Ok(())
            }
        }
    }

    /// The row of the sender.
    fn row(self) -> Result<SenderRow, AllocError>
        requires { CanListen self.listener }
        ensures { IfOk result (IsRowOf self) }
    {
        let SenderState {
            heard,
            first_time,
            last_time,
            listener,
        } = self;
        let carried = carried_by(listener)?;
        Ok(SenderRow {
            heard,
            first_time,
            last_time,
            carried,
        })
    }
}

/// What a sender's blocks carry, if they make a tape.
fn carried_by(listener: Option<Listener>) -> Result<Option<Carried>, AllocError>
    requires { CanListen listener }
    ensures { IfOk result (IsCarriedFor listener) }
{
    match listener {
        Some(listener) => Ok(Some(listener.carried()?)),
        None => Ok(None),
    }
}

/// Who sends in the packets that came so far.
#[derive(Drop)]
pub struct SenderTable {
    alloc: Global,
    list: Vec<SenderState>,
}

impl SenderTable {
    /// No packet came.
    pub fn new(alloc: Global) -> SenderTable
        ensures { HaveHeard [] result.list.items }
    {
        SenderTable {
            alloc,
            list: Vec::new(alloc),
        }
    }

    /// Takes the packet of this number, from 1 on.
    fn hear_packet(&mut self, number: u64, packet: &Captured) -> Result<(), AirFault>
        requires { HearsSome number self.old.list.items }
        ensures heard { OnOk result (HearsPacket number (packet_of packet.now) self.old.list.items
            self.new.list.items) }
        ensures fault { IfErr result (IsUnheardPacket number (packet_of packet.now)) }
    {
        let Some(link) = link_numbered(packet.link) else {
            return Err(fault_at(number, AirFaultKind::OtherLink(packet.link)));
        };
        let Some(station) = station_in(link, packet.octets) else {
            return Ok(());
        };
        let sent = sent_in(link, wanted_of(station).from, packet.octets);
        self.hear_block(number, station, packet.time, sent)?;
        Ok(())
    }

    /// Takes a block of a sender, in the packet of this number.
    fn hear_block(
        &mut self,
        number: u64,
        station: Station,
        time: Option<u64>,
        sent: Option<Sent>,
    ) -> Result<(), AllocError>
        requires { AllCanListen self.old.list.items }
        ensures { OnOk result (Hear number station time sent self.old.list.items self.new.list.items) }
    {
        match place_among(&self.list, station) {
            Some(place) => self.list[place].hear(number, time, sent),
            None => {
                let sender = SenderState::new(self.alloc, number, station, time, sent)?;
                self.list.push(sender)?;
                Ok(())
            }
        }
    }

    /// The rows of senders that have all packets of a file of less than 2^48 octets.
    ///
    /// # Errors
    ///
    /// Returns the error of the memory.
    pub fn rows(self) -> Result<Vec<SenderRow>, AllocError>
        requires { HaveAllOfSome self }
        ensures { IfOk result (λ rows. (input : List ℕ) → HaveAll input self → AreRowsIn input rows.items) }
    {
        rows_of(self.alloc, self.list)
    }
}

impl TakesPackets for SenderTable {
    ghost use Rattle.std.specs.Prelude.{List, Option};
    ghost use Rattle.gsmtap.specs.Heard.{for_hearing};
    ghost use Rattle.gsmtap.specs.Senders.{SendersHave};
    ghost use Rattle.gsmtap.specs.declared.tap.Station.{Station};

    ghost Given = { Unit {0} };

    ghost State = { List (Option Station) };

    ghost taking = { λ _. for_hearing };

    ghost HasTaken = { λ _. SendersHave };

    fn take(&mut self, before: u64, packet: &Captured) -> Result<(), AirFault> {
        self.hear_packet(before + 1, packet)
    }
}

/// The rows of senders.
fn rows_of(alloc: Global, senders: Vec<SenderState>) -> Result<Vec<SenderRow>, AllocError>
    requires { AllCanListen senders.items }
    ensures { IfOk result (λ rows. AreRowsOf senders.items rows.items) }
{
    let mut rows = Vec::new(alloc);
    for sender in senders {
        rows.push(sender.row()?)?;
    }
    Ok(rows)
}

/// Who sends blocks of a cell broadcast channel in a capture file, in the order of their first ones, and what they
/// carry. Blocks are marked as such, or as those of the SDCCH in whose place the channel stands; those of the extended
/// channel are passed over.
///
/// # Errors
///
/// Returns the fault of the first packet or block that has one, or of the file's begin, which is packet 0, and out of
/// memory.
pub fn senders_of_capture(alloc: Global, input: &[u8]) -> Result<Vec<SenderRow>, AirFault>
    requires { length input.now < 2 ^ 48 }
    ensures rows { IfOk result (λ rows. AreRowsIn input.now rows.items) }
    ensures fault { IfErr result (IsHeardFault input.now) }
{
    let (reader, octets) = match opened(alloc, input) {
        Ok(opened) => opened,
        Err(kind) => return Err(fault_at(0, kind)),
    };
    let senders = match take_all(reader, octets, SenderTable::new(alloc)) {
        Ok(senders) => senders,
        Err(fault) => return Err(fault),
    };
    match senders.rows() {
        Ok(rows) => Ok(rows),
        Err(AllocError) => Err(fault_at(0, AirFaultKind::Refused)),
    }
}

/// The place of a sender, if it is there.
fn place_among(senders: &[SenderState], station: Station) -> Option<usize>
    ensures { result ≡ place_among station senders.now }
{
    senders
        .iter()
        .position(|one| is_station(station, one.heard.station))
}
