//! Sessions: the messages that the rows of a book's alerts give, one after the other, by the replies so far.

ghost use Rattle.std.specs.Prelude.{◌≡◌, ◌<◌, ℕ, IfOk, OnErr, OnOk, Option, Some};
ghost use Rattle.std.specs.Option.{option_copied};
ghost use Rattle.alert_book.specs.Session.{due_requests, next_requests, orders_from, outcome_in, session_of};
ghost use Rattle.alert_book.specs.Session.{IsGiven, IsReply, Standing};
ghost use Rattle.alert_book.specs.SessionSteps.{live_by, live_with, requests_in, AreBelievedWith};
ghost use Rattle.alert_book.specs.SendableSteps.{IsSendable};
ghost use Rattle.alert_book.specs.Stands.{left_in, Advances, HavePlaces, StandsFor, Stays};
ghost use Rattle.alert_book.specs.AdvancingSteps.{due_with, first_in, requests_with, HasAdvanced};
ghost use Rattle.alert_book.specs.VersionSteps.{has_place, KeepsVersions};
ghost use Rattle.cbsp_wire.specs.declared.message.Cell.{Cell};
ghost use Rattle.cbsp_wire.specs.declared.message.Message.{Message};

use crate::book::Book;
use crate::book::order::Order;
use crate::session::live_versions::LiveVersions;
use crate::session::request::{Refused, Request, requests_of};
use crate::session::versions::Versions;
use cbs_page::Paged;
use cbsp_wire::{Message, WireFault, read, write};
use reply_outcome::{Outcome, cells_asked, outcome_of};
use std::alloc::Global;
use std::collections::VecDeque;
use std::marker::Model;

pub(crate) mod alert_versions;
pub(crate) mod live_versions;
pub(crate) mod outcome;
pub(crate) mod request;
pub(crate) mod versions;

/// A session of a part of a book: the orders of its alerts, as messages.
///
/// In clauses a session stands for a state of the definition (`StandsFor`).
#[derive(Drop)]
pub struct Session<'a> {
    alloc: Global,
    book: &'a Book,
    part: u16,
    parts: u16,
    place: usize,
    versions: Versions,
    sent: Option<Request>,
    row: u32,
    due: VecDeque<Request>,
}

impl<'a> Model for Session<'a> {
    ghost use Rattle.alert_book.specs.Stands.{HavePlaces, SessionState};
    ghost use Rattle.std.specs.Prelude.{◌<◌};

    ghost Value = { SessionState };

    ghost view = { λ s. record {
      versions = s.versions;
      sent = s.sent;
      row = s.row;
      due = s.due.items;
      book = s.book.now;
      part = s.part;
      parts = s.parts;
      place = s.place;
    } };

    ghost invariant = { λ s. (0 < s.parts) × HavePlaces s.versions s.sent };
}

impl<'a> Session<'a> {
    /// The session of part `part` of a book that is served in `parts` parts, 1 to 64: of the alerts whose number, from
    /// 0 in the order of their first rows, leaves it when divided by `parts`.
    ///
    /// # Errors
    ///
    /// None so far: it takes no memory.
    pub fn new(alloc: Global, book: &'a Book, part: u16, parts: u16) -> Result<Session<'a>, Refused>
        requires { part < parts }
        ensures { IfOk result (λ session. StandsFor session (session_of book.now part parts)) }
    {
        Ok(Session {
            alloc,
            book,
            part,
            parts,
            place: 0,
            versions: Versions::new(alloc),
            sent: None,
            row: 0,
            due: VecDeque::new(alloc),
        })
    }

    /// The next request: its slot, and the octets of its message, 1,547 at most; None after the last one. `last` is the
    /// reply to the request before, None if there was none.
    ///
    /// # Errors
    ///
    /// `Refused` if out of memory. The session then stands where it stood, and may be asked again.
    pub fn next(&mut self, last: Option<&[u8]>) -> Result<Option<(u16, Vec<u8>)>, Refused>
        ensures next { OnOk result ((reply : Option Message) × IsReply (option_copied last.entry) reply
            × Advances reply self.old self.new) }
        ensures given { OnOk result (IfOk result (λ given. IsGiven self.new.sent given)) }
        ensures refused { OnErr result (Stays self.old self.new) }
    {
        let reply = reply_in(self.alloc, last)?;
        let outcome = outcome_in(self.alloc, &self.sent, reply)?;
        let found = self.found(&outcome)?;
        let given = prepare(self.alloc, &mut self.versions, first_due(&found, &self.due))?;
        self.advance(&outcome, found);
        Ok(given)
    }

    /// Goes on to the next request ([`Session::sent`]) as [`Session::next`] does, by what the reply to the request
    /// before says in place of its octets: None if there was none, or none to that request. For checks: no octets are
    /// written or read.
    ///
    /// # Errors
    ///
    /// `Refused` if out of memory. The session then stands where it stood, and may be asked again.
    pub fn go_on(&mut self, said: Option<Outcome>) -> Result<(), Refused>
        ensures next { OnOk result ((reply : Option Message) → said ≡ outcome_in self.old.sent reply
            → Advances reply self.old self.new) }
        ensures refused { OnErr result (Stays self.old self.new) }
    {
        let found = self.found(&said)?;
        make_places_if(&mut self.versions, first_due(&found, &self.due))?;
        self.advance(&said, found);
        Ok(())
    }

    /// The request that was given last, whose reply is to come; None before the first one and after the last.
    pub fn sent(&self) -> Option<&Request>
        ensures { option_copied result ≡ self.now.sent }
    {
        self.sent.as_ref()
    }

    /// Keeps what the reply to the last request says, and takes the next one as sent, for whose versions there are
    /// places.
    fn advance(&mut self, outcome: &Option<Outcome>, found: Option<NextRequests>)
        requires { HavePlaces self.old.versions (first_in (due_with self.old found).0) }
        ensures { HasAdvanced self.old self.new outcome.now (due_with self.old found) }
    {
        keep(&mut self.versions, &self.sent, outcome);
        if let Some(found) = found {
            self.due = found.requests;
            self.place = found.place;
        }
        self.sent = self.due.pop_front();
        if let Some(request) = &self.sent {
            self.row = request.row;
        }
    }

    /// The requests of the next row that gives some, after what a reply says; none where requests of the row under way
    /// are still due.
    fn found(&self, outcome: &Option<Outcome>) -> Result<Option<NextRequests>, Refused>
        ensures { IfOk result (λ found. due_requests (live_with self.now.versions self.now.sent outcome.now)
            self.now.due (left_in self.now) ≡ due_with self.now found) }
    {
        if !self.due.is_empty() {
            return Ok(None);
        }
        let live = LiveVersions {
            versions: &self.versions,
            sent: &self.sent,
            outcome,
        };
        let found = next_requests(
            self.alloc, &live, self.book, self.part, self.parts, self.place,
        )?;
        Ok(Some(found))
    }

    /// The row that gave the last request, from 1; 0 before the first.
    pub fn row(&self) -> u32
        ensures { (standing : Standing) → StandsFor self.now standing → result ≡ standing.row }
    {
        self.row
    }
}

/// The requests of a row, and the place of the order after it.
#[derive(Drop)]
struct NextRequests {
    requests: VecDeque<Request>,
    place: usize,
}

/// The first of the requests that were found, or else of those that are due.
fn first_due<'a>(found: &'a Option<NextRequests>, due: &'a VecDeque<Request>) -> Option<&'a Request>
    ensures { option_copied result ≡ first_in (requests_with found.now due.now.items) }
{
    match found {
        Some(found) => found.requests.front(),
        None => due.front(),
    }
}

/// What a reply's octets mean, if there are any and they mean something.
fn reply_in(alloc: Global, last: Option<&[u8]>) -> Result<Option<Message>, Refused>
    ensures { IfOk result (λ reply. IsReply (option_copied last.entry) reply) }
{
    let Some(octets) = last else {
        return Ok(None);
    };
    match read(alloc, octets) {
        Ok(reply) => Ok(Some(reply)),
        Err(WireFault::Refused) => Err(Refused),
        Err(_) => Ok(None),
    }
}

/// What the reply to the request that was sent last says, if there is one and it is one to that request.
fn outcome_in(
    alloc: Global,
    sent: &Option<Request>,
    reply: Option<Message>,
) -> Result<Option<Outcome>, Refused>
    ensures { IfOk result (λ outcome. outcome ≡ outcome_in sent.now reply) }
{
    match (sent, reply) {
        (Some(request), Some(reply)) => outcome_of(alloc, &request.message, reply),
        _ => Ok(None),
    }
}

/// The requests that a row gives, if its order is of this part.
fn requests_in(
    alloc: Global,
    live: &LiveVersions<'_>,
    order: &Order,
    paged: &Option<Paged>,
    part: u16,
    parts: u16,
) -> Result<VecDeque<Request>, Refused>
    requires some_part { 0 < parts }
    requires sendable { IsSendable order.now }
    ensures { IfOk result (λ requests.
        requests.items ≡ requests_in (live_by live.now) part parts order.now paged.now) }
{
    if order.number % parts == part {
        requests_of(alloc, live, order, paged)
    } else {
        Ok(VecDeque::new(alloc))
    }
}

/// The requests of the first order of a part, from this place on, that gives one; no requests if none does.
fn next_requests(
    alloc: Global,
    live: &LiveVersions<'_>,
    book: &Book,
    part: u16,
    parts: u16,
    from: usize,
) -> Result<NextRequests, Refused>
    requires { 0 < parts }
    ensures { IfOk result (λ found. next_requests (live_by live.now) (orders_from book.now part parts from)
        ≡ (found.requests.items, orders_from book.now part parts found.place)) }
{
    let orders = book.orders();
    let pages = book.pages();
    for place in from..orders.len() {
        let requests = requests_in(alloc, live, &orders[place], &pages[place], part, parts)?;
        if !requests.is_empty() {
            return Ok(NextRequests {
                requests,
                place: place + 1,
            });
        }
    }
    Ok(NextRequests {
        requests: VecDeque::new(alloc),
        place: orders.len(),
    })
}

/// Makes places for the versions in the cells that a request asks.
fn make_places(versions: &mut Versions, request: &Request) -> Result<(), Refused>
    ensures keeps { KeepsVersions versions.old versions.new }
    ensures made { OnOk result (HavePlaces versions.new (Some request.now)) }
{
    for (place, cell) in cells_asked(&request.message).iter().enumerate() {
        versions.make_place(request.number, *cell, place)?;
    }
    Ok(())
}

/// The same if there is a request.
fn make_places_if(versions: &mut Versions, next: Option<&Request>) -> Result<(), Refused>
    ensures keeps { KeepsVersions versions.old versions.new }
    ensures made { OnOk result (HavePlaces versions.new (option_copied next.entry)) }
{
    match next {
        Some(request) => make_places(versions, request),
        None => Ok(()),
    }
}

/// Keeps what the reply to a request says.
fn keep(versions: &mut Versions, sent: &Option<Request>, outcome: &Option<Outcome>)
    requires { HavePlaces versions.old sent.now }
    ensures believed { AreBelievedWith versions.old versions.new sent.now outcome.now }
    ensures places { (number : ℕ) (cell : Cell) → has_place versions.new number cell ≡ has_place versions.old number
        cell }
{
    let (Some(request), Some(outcome)) = (sent, outcome) else {
        return;
    };
    for (place, cell) in cells_asked(&request.message).iter().enumerate() {
        versions.set_said(request, outcome, *cell, place);
    }
}

/// What a session gives with its next request, if there is one, after making places for its versions.
fn prepare(
    alloc: Global,
    versions: &mut Versions,
    next: Option<&Request>,
) -> Result<Option<(u16, Vec<u8>)>, Refused>
    ensures keeps { KeepsVersions versions.old versions.new }
    ensures made { OnOk result (HavePlaces versions.new (option_copied next.entry)) }
    ensures given { IfOk result (λ given. IsGiven (option_copied next.entry) given) }
{
    let Some(request) = next else {
        return Ok(None);
    };
    let Ok(octets) = write(alloc, &request.message) else {
        return Err(Refused);
    };
    make_places(versions, request)?;
    Ok(Some((request.at, octets)))
}
