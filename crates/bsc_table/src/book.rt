//! The book of a cell: a legal history at all times.

ghost use Rattle.std.specs.Prelude.{◌≡◌, ◌≢◌, ◌⊎◌, Some, None, IfSome, true, false, ◌+◌, ◌<◌, ◌≤◌, ◌==◌, [], ◌∷◌};
ghost use Rattle.std.specs.Prelude.{◌++◌, length, map, filter, if◌then◌else◌, IfOk, IfErr, OnOk, OnErr, min, vec_len};
ghost use Rattle.std.specs.Prelude.{vec_capacity};
ghost use Rattle.std.specs.List.{All, Any, Contains, find};
ghost use Rattle.std.specs.Option.{MatchOption, option_map};
ghost use Rattle.scheduler.specs.Completed.{completed};
ghost use Rattle.scheduler.specs.Follows.{next_slot};
ghost use Rattle.bsc_table.specs.declared.entry.Answer.TheVariants as answers;
ghost use Rattle.bsc_table.specs.declared.command.Command.TheVariants as commands;
ghost use Rattle.cbsp_wire.specs.declared.cause.TheConstants.{BSC_MEMORY_EXCEEDED};
ghost use Rattle.bsc_table.specs.declared.accepted.TheConstants.{LATEST_START};
ghost use Rattle.bsc_table.specs.Claim.{stop_claims, is_claimed_at};
ghost use Rattle.admission.specs.Load.{load_of};
ghost use Rattle.bsc_table.specs.Record.{Record, accepted_in, is_of_pair, is_background_category, place_after};
ghost use Rattle.bsc_table.specs.Record.{message_named};
ghost use Rattle.bsc_table.specs.Record.{claim_of, claims_in};
ghost use Rattle.bsc_table.specs.Answer.{status_of, status_answer, answer_to_write, before_end};
ghost use Rattle.bsc_table.specs.Answer.{answer_of, answer_to_replacement};
ghost use Rattle.bsc_table.specs.Orders.{IsWellFormed};
ghost use Rattle.bsc_table.specs.Legal.{IsLegal};
ghost use Rattle.bsc_table.specs.Promised.{IsServed, IsBounded};
ghost use Rattle.bsc_table.specs.Transitions.{opened, entry_by, with_entry, answered_with, IsPlayedUpTo};
ghost use Rattle.bsc_table.specs.Transitions.{Ask, IsStep, Play};
ghost use Rattle.bsc_table.specs.Accepted.{accepted_of};
ghost use Rattle.bsc_table.specs.Book.{air_pairs, reservation_for};
ghost use Rattle.bsc_table.specs.BookSteps.{AreAired, IsNotLive, IsLiveAs, IsLiveIn, IsNextEntry, IsStop, IsStart};
ghost use Rattle.bsc_table.specs.BookSteps.{IsReplacement, IsOffered, IsRoom, IsLater, IsAsked, IsAnswered};
ghost use Rattle.bsc_table.specs.BookSteps.{IsWriteOf, IsWriteInPlaceOf, message_kept, cause_of, left_by, place_found};
ghost use Rattle.bsc_table.specs.BookSteps.{right_answer, HasRoomFor};
ghost use Rattle.bsc_table.specs.Refusals.{is_accepting};
ghost use Rattle.admission.specs.Reservation.{end_of_stopped};
ghost use Rattle.admission.specs.Waiting.{behind_of};
ghost use Rattle.admission.specs.Table.{ends_at, passed, max_reserved};

use crate::accepted::{AcceptedMessage, Place};
use crate::command::{Command, Refused};
use crate::entry::{Aired, Answer, Entry, SlotRange, State};
use crate::record::CellRecord;
use crate::table::{BEHIND_ALL, Kept, Table};
use admission::{Budget, NoRoom};
use cbs_page::Serial;
use cbsp_wire::{Cell, cause};
use scheduler::Plan;
use std::alloc::Global;
use std::marker::Model;

/// How many entries a log has room for (own).
const MAX_ENTRIES: usize = 4096;

/// The book of a cell: the log of its commands with their answers, and what each played slot aired.
///
/// In clauses it is its record. That is a legal history at all times: `clock`, `apply` and `play` say so (`legal`).
#[derive(Drop)]
pub struct CellBook {
    cell: Cell,
    slots: u16,
    clock: u16,
    log: Vec<Entry>,
    air: Vec<Option<Aired>>,
    accepted: Table,
    plan: Plan,
    budget: Budget,
}

impl Model for CellBook {
    ghost use Rattle.bsc_table.specs.Record.{Record};

    ghost Value = { Record };

    ghost use Rattle.bsc_table.specs.Book.{record_of, IsCellBook};

    ghost view = { record_of };

    ghost invariant = { IsCellBook };
}

impl CellBook {
    /// A book of `cell` for a run of `slots` slots, at most 65,535, with no entry and at slot 0.
    ///
    /// # Errors
    ///
    /// `Refused` if out of memory, which a run of no slots doesn't take.
    pub fn open(alloc: Global, cell: Cell, slots: u16) -> Result<CellBook, Refused>
        ensures opened { IfOk result (λ book. book ≡ opened cell slots) }
        ensures refused { IfErr result (λ refused. 0 < slots) }
    {
        let air = Vec::with_capacity(alloc, usize::from(slots))?;
        Ok(CellBook {
            cell,
            slots,
            clock: 0,
            log: Vec::new(alloc),
            air,
            accepted: Table::new(alloc),
            plan: Plan::new(alloc),
            budget: Budget::new(),
        })
    }

    /// The cell.
    pub fn cell(&self) -> Cell
        ensures { result ≡ self.now.cell }
    {
        self.cell
    }

    /// How many slots its run has.
    pub fn slots(&self) -> u16
        ensures { result ≡ self.now.slots }
    {
        self.slots
    }

    /// How many slots were played: the slot that is aired next.
    pub fn clock(&self) -> u16
        ensures clock { result ≡ self.now.clock }
        ensures within { result ≤ self.now.slots }
        ensures legal { IsLegal self.now }
        ensures served { IsServed self.now }
        ensures bounded { IsBounded self.now }
    {
        self.clock
    }

    /// The commands that were answered, in order.
    pub fn log(&self) -> &[Entry]
        ensures { result.now ≡ self.now.log }
    {
        self.log.as_slice()
    }

    /// What each played slot aired.
    pub fn air(&self) -> &[Option<Aired>]
        ensures { air_pairs result.now ≡ self.now.air }
    {
        self.air.as_slice()
    }

    /// How many broadcasts of a message were completed before the clock's slot, and how it stands there. None where the
    /// message was never accepted. No memory is taken, and there is no entry.
    pub fn status(&self, id: u16, serial: Serial) -> Option<(u16, State)>
        ensures { result ≡ status_of self.now.air self.now.clock (message_named id serial self.now.log) }
    {
        let Ok(kept) = self.named(BEHIND_ALL, id, serial) else {
            return None;
        };
        Some((
            self.completed(&kept.message),
            kept.message.state(self.clock),
        ))
    }

    /// Answers a command at the slot that is aired next, and enters it with its answer. The first of these that applies
    /// is the answer (the causes are those of 3GPP TS 48.049, 8.2, Cause; when each applies is own):
    ///
    /// - cause 08 where the log has 4,096 entries;
    /// - to a status, `Told` where the message was accepted, else `Unknown`;
    /// - cause 0A where all slots of the run are played;
    /// - cause 02 where the message to stop or to replace isn't live;
    /// - to a kill, `Stopped`;
    /// - cause 0D where a message of the pair was accepted before;
    /// - `Started`, or `Replaced`, where the new message is background, which reserves nothing;
    /// - cause 07 where 64 messages are reserved, the one to replace being stopped;
    /// - `Started`, or `Replaced` where one is replaced, where the load fits beside those that are then reserved;
    /// - `Replaced` at a later slot if the message can take over from its predecessor, the message that it replaces or,
    ///   if that one is itself waiting, the message that that one waits for: it starts where the reservation of the
    ///   predecessor ends, and until then the excess of its load over the predecessor's load fits beside the loads that
    ///   are reserved;
    /// - else cause 06.
    ///
    /// Each answer but cause 08 has an entry, which is the only trace of a refusal. Where it is out of memory for what
    /// an answer takes, the answer is `Refused` instead, and the book is as it was. The command is one that `orders_of`
    /// gives of a message that was read, or a status.
    pub fn apply(&mut self, command: &Command) -> Answer
        requires { IsWellFormed command.now }
        ensures answered { (result ≡ answers.Refused)
            ⊎ (result ≡ answer_of self.old.slots self.old.log self.old.air self.old.clock command.now) }
        ensures entered { self.new ≡ answered_with command.now result self.old }
        ensures step { IsStep (Ask command.now) self.old self.new }
        ensures legal { IsLegal self.new }

        // A full log takes no memory to say so.
        ensures full { 4096 ≤ length self.old.log → result ≡ answers.Cause BSC_MEMORY_EXCEEDED }
    {
        if self.log.len() >= MAX_ENTRIES {
            return Answer::Cause(cause::BSC_MEMORY_EXCEEDED);
        }
        match self.answer(command) {
            Ok(answer) => answer,
            Err(Refused) => Answer::Refused,
        }
    }

    /// Plays `k` slots, or those up to the run's end, and returns which they were. No memory is taken.
    pub fn play(&mut self, k: u16) -> SlotRange
        ensures range { result ≡ record { from = self.old.clock; to = min (self.old.clock + k) self.old.slots } }
        ensures played { IsPlayedUpTo (min (self.old.clock + k) self.old.slots) self.old self.new }
        ensures step { IsStep (Play k) self.old self.new }
        ensures legal { IsLegal self.new }
        ensures served { IsServed self.new }
        ensures bounded { IsBounded self.new }
    {
        let from = self.clock;
        let to = from + k.min(self.slots - from);
        self.play_up_to(to);
        SlotRange {
            from,
            to: self.clock(),
        }
    }

    /// The record of the run, all of whose slots were played. No memory is taken.
    pub fn finish(self) -> CellRecord
        requires { self.clock ≡ self.slots }
        ensures same { result ≡ self }
        ensures served { IsServed result }
        ensures bounded { IsBounded result }
    {
        let CellBook {
            cell,
            slots,
            log,
            air,
            ..
        } = self;
        CellRecord::of(cell, slots, log, air)
    }

    /// Answers a command, and enters it with its answer.
    fn answer(&mut self, command: &Command) -> Result<Answer, Refused>
        requires { IsAsked self.old command.now }
        ensures { IsAnswered self.old command.now self.new result }
    {
        match command {
            Command::Status { id, serial } => {
                let answer = self.answer_to_status(*id, *serial);
                self.note(command, answer)
            }
            Command::Kill { id, serial } => self.kill(command, *id, *serial),
            Command::Write {
                id,
                serial,
                replaces,
                category,
                period,
                broadcasts,
                contents,
                ..
            } => {
                let new = AcceptedMessage {
                    id: *id,
                    serial: *serial,
                    entry: self.log.len() as u16,
                    accepted: self.clock,
                    behind: None,
                    excess: 0,
                    start: u32::from(self.clock),
                    pages: contents.as_slice().len() as u8,
                    period: *period,
                    broadcasts: *broadcasts,
                    category: *category,
                    stop: None,
                };
                self.write(command, &new, *replaces)
            }
        }
    }

    /// The answer to a status.
    fn answer_to_status(&self, id: u16, serial: Serial) -> Answer
        ensures right { result ≡ status_answer self.now.air self.now.clock (message_named id serial self.now.log) }
        ensures noted { is_accepting result ≡ false }
    {
        match self.status(id, serial) {
            None => Answer::Unknown,
            Some((completed, state)) => Answer::Told { completed, state },
        }
    }

    /// Answers a kill.
    fn kill(&mut self, command: &Command, id: u16, serial: Serial) -> Result<Answer, Refused>
        requires asked { IsAsked self.old command.now }
        requires kill { command.now ≡ commands.Kill id serial }
        ensures { IsAnswered self.old command.now self.new result }
    {
        if self.is_over() {
            return self.note(
                command,
                Answer::Cause(cause::CELL_BROADCAST_NOT_OPERATIONAL),
            );
        }
        match self.live(id, serial) {
            None => self.note(
                command,
                Answer::Cause(cause::MESSAGE_REFERENCE_NOT_IDENTIFIED),
            ),
            Some(kept) => self.stop(command, &kept),
        }
    }

    /// Answers a write.
    fn write(
        &mut self,
        command: &Command,
        new: &AcceptedMessage,
        replaces: Option<Serial>,
    ) -> Result<Answer, Refused>
        requires asked { IsAsked self.old command.now }
        requires offered { IsOffered self.old (accepted_of new.now) }
        requires write { IsWriteOf (accepted_of new.now) replaces command.now }
        requires right { right_answer self.old command.now
            ≡ before_end self.old.slots self.old.clock (answer_to_write self.old.log self.old.air self.old.clock
            new.now.id new.now.serial replaces new.now.category (load_of new.now.pages new.now.period)) }
        ensures { IsAnswered self.old command.now self.new result }
    {
        if self.is_over() {
            return self.note(
                command,
                Answer::Cause(cause::CELL_BROADCAST_NOT_OPERATIONAL),
            );
        }
        match replaces {
            None => self.write_new(command, new),
            Some(replaced) => self.write_in_place(command, new, replaced),
        }
    }

    /// Answers a write in the place of no message before the run's end.
    fn write_new(&mut self, command: &Command, new: &AcceptedMessage) -> Result<Answer, Refused>
        requires asked { IsAsked self.old command.now }
        requires offered { IsOffered self.old (accepted_of new.now) }
        requires write { IsWriteOf (accepted_of new.now) None command.now }
        requires right { right_answer self.old command.now
            ≡ answer_to_write self.old.log self.old.air self.old.clock new.now.id new.now.serial None new.now.category
            (load_of new.now.pages new.now.period) }
        ensures { IsAnswered self.old command.now self.new result }
    {
        let Err(gap) = self.named(BEHIND_ALL, new.id, new.serial) else {
            return self.note(
                command,
                Answer::Cause(cause::MESSAGE_REFERENCE_ALREADY_USED),
            );
        };
        if new.category.is_background() {
            return self.start(command, new, gap);
        }
        match self.room(new.load()) {
            Ok(()) => self.start(command, new, gap),
            Err(full) => self.note(command, Answer::Cause(cause_of(full))),
        }
    }

    /// Answers a write in the place of the message of this serial number before the run's end.
    fn write_in_place(
        &mut self,
        command: &Command,
        new: &AcceptedMessage,
        replaced: Serial,
    ) -> Result<Answer, Refused>
        requires asked { IsAsked self.old command.now }
        requires offered { IsOffered self.old (accepted_of new.now) }
        requires write { IsWriteOf (accepted_of new.now) (Some replaced) command.now }
        requires right { right_answer self.old command.now
            ≡ answer_to_write self.old.log self.old.air self.old.clock new.now.id new.now.serial (Some replaced)
            new.now.category (load_of new.now.pages new.now.period) }
        ensures { IsAnswered self.old command.now self.new result }
    {
        let Some(kept) = self.live(new.id, replaced) else {
            return self.note(
                command,
                Answer::Cause(cause::MESSAGE_REFERENCE_NOT_IDENTIFIED),
            );
        };
        // The next serial number goes right behind the replaced one's.
        match self.named(kept.at.saturating_add(1), new.id, new.serial) {
            Ok(_) => self.note(
                command,
                Answer::Cause(cause::MESSAGE_REFERENCE_ALREADY_USED),
            ),
            Err(gap) => self.take_over(command, &kept, new, gap),
        }
    }

    /// Answers a write in the place of a live message, where its pair is free and goes to the gap.
    fn take_over(
        &mut self,
        command: &Command,
        old: &Kept,
        new: &AcceptedMessage,
        gap: usize,
    ) -> Result<Answer, Refused>
        requires asked { IsAsked self.old command.now }
        requires live { IsLiveIn self.old (accepted_of old.now.message) }
        requires offered { IsOffered self.old (accepted_of new.now) }
        requires write { IsWriteInPlaceOf self.old (accepted_of old.now.message) (accepted_of new.now) command.now }
        requires right { right_answer self.old command.now
            ≡ answer_to_replacement self.old.log self.old.air self.old.clock new.now.category
            (load_of new.now.pages new.now.period) (accepted_of old.now.message) }
        ensures { IsAnswered self.old command.now self.new result }
    {
        if new.category.is_background() {
            return self.replace(command, old, new, gap);
        }
        match self.room_without(&old.message, new.load()) {
            Ok(()) => self.replace(command, old, new, gap),
            Err(NoRoom::Table) => { self.note(command, Answer::Cause(cause::CELL_MEMORY_EXCEEDED)) }
            Err(NoRoom::Load) => match self.later_place(old, new.load()) {
                None => self.note(command, Answer::Cause(cause::BSC_CAPACITY_EXCEEDED)),
                Some(place) => self.replace(command, old, &new.waiting_at(place), gap),
            },
        }
    }

    /// The entry of a command with its answer, which is to come next.
    fn entry(&self, command: &Command, answer: Answer) -> Result<Entry, Refused>
        ensures { IfOk result (λ entry. entry ≡ entry_by self.now command.now answer) }
    {
        Ok(Entry {
            command: command.copy(*self.log.allocator())?,
            slot: self.clock,
            answer,
        })
    }

    /// Enters a command with an answer that stops and starts nothing.
    //
    // Inlined, so that the answer isn't written to the stack and read again at once in larger parts, for which a
    // processor has to wait.
    #[inline(always)]
    fn note(&mut self, command: &Command, answer: Answer) -> Result<Answer, Refused>
        requires asked { IsAsked self.old command.now }
        requires right { right_answer self.old command.now ≡ answer }
        requires noted { is_accepting answer ≡ false }
        ensures { IsAnswered self.old command.now self.new result }
    {
        let entry = self.entry(command, answer)?;
        self.enter_alone(entry)?;
        Ok(answer)
    }

    /// Enters a command that stops a message.
    fn stop(&mut self, command: &Command, old: &Kept) -> Result<Answer, Refused>
        requires asked { IsAsked self.old command.now }
        requires right { right_answer self.old command.now
            ≡ answers.Stopped (completed (accepted_of old.now.message).message self.old.air self.old.clock) }
        requires stop { IsStop self.old
            (entry_by self.old command.now
            (answers.Stopped (completed (accepted_of old.now.message).message self.old.air self.old.clock)))
            (accepted_of old.now.message) }
        ensures { IsAnswered self.old command.now self.new result }
    {
        let answer = Answer::Stopped {
            completed: self.completed(&old.message),
        };
        let entry = self.entry(command, answer)?;
        self.enter_stop(entry, old)?;
        Ok(answer)
    }

    /// Enters a command that starts a message, whose pair goes to the gap.
    fn start(
        &mut self,
        command: &Command,
        new: &AcceptedMessage,
        gap: usize,
    ) -> Result<Answer, Refused>
        requires asked { IsAsked self.old command.now }
        requires right { right_answer self.old command.now ≡ answers.Started new.now.accepted }
        requires start { IsStart self.old (entry_by self.old command.now (answers.Started new.now.accepted))
            (accepted_of new.now) }
        ensures { IsAnswered self.old command.now self.new result }
    {
        let answer = Answer::Started { slot: new.accepted };
        let entry = self.entry(command, answer)?;
        self.enter_new(entry, new, gap)?;
        Ok(answer)
    }

    /// Enters a command that stops a message and starts one in its place, whose pair goes to the gap.
    fn replace(
        &mut self,
        command: &Command,
        old: &Kept,
        new: &AcceptedMessage,
        gap: usize,
    ) -> Result<Answer, Refused>
        requires asked { IsAsked self.old command.now }
        requires right { right_answer self.old command.now
            ≡ answers.Replaced new.now.start
            (completed (accepted_of old.now.message).message self.old.air self.old.clock) }
        requires replacement { IsReplacement self.old
            (entry_by self.old command.now
            (answers.Replaced new.now.start
            (completed (accepted_of old.now.message).message self.old.air self.old.clock)))
            (accepted_of old.now.message) (accepted_of new.now) }
        requires soon { new.now.start < LATEST_START }
        ensures { IsAnswered self.old command.now self.new result }
    {
        let answer = Answer::Replaced {
            slot: u32::from(new.start),
            completed: self.completed(&old.message),
        };
        let entry = self.entry(command, answer)?;
        self.enter_replacement(entry, old, new, gap)?;
        Ok(answer)
    }

    /// Enters an entry that stops and starts nothing.
    fn enter_alone(&mut self, entry: Entry) -> Result<(), Refused>
        requires next { IsNextEntry self.old entry }
        requires noted { is_accepting entry.answer ≡ false }
        ensures entered { OnOk result (self.new ≡ with_entry entry self.old) }
        ensures refused { OnErr result (self.new ≡ self.old) }
    {
        self.log.reserve(1)?;
        self.log.push_reserved(entry);
        Ok(())
    }

    /// Enters an entry that stops a message.
    fn enter_stop(&mut self, entry: Entry, old: &Kept) -> Result<(), Refused>
        requires next { IsNextEntry self.old entry }
        requires stop { IsStop self.old entry (accepted_of old.now.message) }
        ensures entered { OnOk result (self.new ≡ with_entry entry self.old) }
        ensures refused { OnErr result (self.new ≡ self.old) }
    {
        self.log.reserve(1)?;
        let message = &old.message;
        self.accepted.stop(old.place, message.entry, self.clock);
        let _ = self.plan.stop(message.entry, self.clock);
        release(&mut self.budget, message, self.clock);
        self.log.push_reserved(entry);
        Ok(())
    }

    /// Enters an entry that starts a message, whose pair goes to the gap.
    fn enter_new(&mut self, entry: Entry, new: &AcceptedMessage, gap: usize) -> Result<(), Refused>
        requires next { IsNextEntry self.old entry }
        requires start { IsStart self.old entry (accepted_of new.now) }
        ensures entered { OnOk result (self.new ≡ with_entry entry self.old) }
        ensures refused { OnErr result (self.new ≡ self.old) }
    {
        self.log.reserve(1)?;
        self.accepted.reserve()?;
        self.plan.add(new.item())?;
        reserve_for(&mut self.budget, new, self.clock);
        self.accepted.push(gap, *new);
        self.log.push_reserved(entry);
        Ok(())
    }

    /// Enters an entry that stops a message and starts one in its place, whose pair goes to the gap.
    fn enter_replacement(
        &mut self,
        entry: Entry,
        old: &Kept,
        new: &AcceptedMessage,
        gap: usize,
    ) -> Result<(), Refused>
        requires next { IsNextEntry self.old entry }
        requires replacement { IsReplacement self.old entry (accepted_of old.now.message) (accepted_of new.now) }
        requires soon { new.now.start < LATEST_START }
        ensures entered { OnOk result (self.new ≡ with_entry entry self.old) }
        ensures refused { OnErr result (self.new ≡ self.old) }
    {
        self.log.reserve(1)?;
        self.accepted.reserve()?;
        self.plan.add(new.item())?;
        let message = &old.message;
        self.accepted.stop(old.place, message.entry, self.clock);
        let _ = self.plan.stop(message.entry, self.clock);
        release(&mut self.budget, message, self.clock);
        reserve_for(&mut self.budget, new, self.clock);
        self.accepted.push(gap, *new);
        self.log.push_reserved(entry);
        Ok(())
    }

    /// The accepted message with this identifier and serial number, or else where to insert the pair. The search
    /// starts at `near`.
    fn named(&self, near: usize, id: u16, serial: Serial) -> Result<Kept, usize>
        ensures { message_kept result ≡ find (is_of_pair id serial) (accepted_in self.now.log) }
    {
        self.accepted.named(near, id, serial)
    }

    /// How many broadcasts of a message were completed before the clock's slot.
    fn completed(&self, message: &AcceptedMessage) -> u16
        requires { Contains (accepted_in self.now.log) (accepted_of message.now) }
        ensures { result ≡ completed (accepted_of message.now).message self.now.air self.now.clock }
    {
        self.plan.done(message.entry)
    }

    /// The message of a pair, if it is live.
    fn live(&self, id: u16, serial: Serial) -> Option<Kept>
        ensures { MatchOption result
            (IsNotLive self.now.clock (message_named id serial self.now.log))
            (λ kept. IsLiveAs self.now.clock id serial self.now.log (accepted_of kept.message)) }
    {
        match self.named(BEHIND_ALL, id, serial) {
            Ok(kept) if kept.message.is_live(self.clock) => Some(kept),
            _ => None,
        }
    }

    /// Whether a load has room.
    fn room(&self, load: u64) -> Result<(), NoRoom>
        ensures { IsRoom (claims_in self.now.log) self.now.clock load result }
    {
        self.budget.fits(load, None)
    }

    /// Whether a load has room, where a live message counts as stopped.
    fn room_without(&self, old: &AcceptedMessage, load: u64) -> Result<(), NoRoom>
        requires { IsLiveIn self.now (accepted_of old.now) }
        ensures { IsRoom (stop_claims old.now.entry self.now.clock (claims_in self.now.log)) self.now.clock load
            result }
    {
        self.budget.fits(load, old.leaving_at(self.clock))
    }

    /// The place at which a message of this load may take over from a live one, where there is room for its excess.
    fn later_place(&self, old: &Kept, load: u64) -> Option<Place>
        requires live { IsLiveIn self.now (accepted_of old.now.message) }
        requires room { length (filter (is_claimed_at self.now.clock)
            (left_by self.now (accepted_of old.now.message))) < max_reserved }
        ensures { IsLater self.now (accepted_of old.now.message) load result }
    {
        let place = self.place_after(old, load)?;
        match self.room_behind(&old.message, load, place) {
            Ok(()) => Some(place),
            Err(_) => None,
        }
    }

    /// The place at which a message of this load may take over from a live one: behind that one, where it has started,
    /// else behind the one behind which it waits.
    fn place_after(&self, old: &Kept, load: u64) -> Option<Place>
        requires { IsLiveIn self.now (accepted_of old.now.message) }
        ensures place { option_map place_found result
            ≡ place_after (left_by self.now (accepted_of old.now.message)) self.now.clock
            (accepted_of old.now.message) load }
        ensures soon { IfSome result (λ place. place.start < LATEST_START) }
    {
        if old.message.category.is_background() {
            return None;
        }
        let entry = old.message.ahead_at(self.clock)?;
        let ahead = self.accepted.reserved(old.place, entry)?;
        let stopped = ahead.stopped_if(old.message.entry, self.clock);
        stopped.place_behind(self.clock, load)
    }

    /// Whether there is room for what a load has over that of the message behind which it is to wait, where a live
    /// message counts as stopped.
    fn room_behind(&self, old: &AcceptedMessage, load: u64, place: Place) -> Result<(), NoRoom>
        requires live { IsLiveIn self.now (accepted_of old.now) }
        requires place { place_after (left_by self.now (accepted_of old.now)) self.now.clock (accepted_of old.now) load
            ≡ Some (place_found place) }
        ensures { IsRoom (left_by self.now (accepted_of old.now)) self.now.clock place.excess result }
    {
        self.budget
            .fits_behind(load, place.behind, old.leaving_at(self.clock))
    }

    /// Whether all slots of the run are played.
    fn is_over(&self) -> bool
        ensures { result ≡ (self.now.clock == self.now.slots) }
    {
        let end = self.slots;
        end == self.clock
    }

    /// Plays the slots before `to`.
    fn play_up_to(&mut self, to: u16)
        requires ahead { self.old.clock ≤ to }
        requires within { to ≤ self.old.slots }
        ensures { IsPlayedUpTo to self.old self.new }
    {
        air_slots(&mut self.plan, &mut self.air, self.clock, to);
        self.clock = to;
        self.budget.pass_slot(to);
    }
}

/// Gives the reservation of a message that is stopped at `slot` its end, unless it is background, which has none. None
/// waits behind a message that is stopped now.
fn release(budget: &mut Budget, old: &AcceptedMessage, slot: u16)
    requires period { 0 < old.now.period }
    requires reserved { is_background_category old.now.category ≡ false
        → Any (λ h. h.entry ≡ old.now.entry) budget.old }
    requires free { is_background_category old.now.category ≡ false
        → All (λ h. behind_of h ≢ Some old.now.entry) budget.old }
    ensures { budget.new ≡ (if is_background_category old.now.category then budget.old
        else passed slot (ends_at old.now.entry (end_of_stopped old.now.start old.now.period slot) budget.old)) }
{
    if old.category.is_background() {
        return;
    }
    budget.release_at(old.entry, old.end_if_stopped(slot));
    budget.pass_slot(slot);
}

/// Reserves what a message takes that was accepted at `slot`: its load from now on, or, where it waits behind another
/// one, its excess up to its start and its load from there on; nothing where it is background.
fn reserve_for(budget: &mut Budget, new: &AcceptedMessage, slot: u16)
    requires period { 0 < new.now.period }
    requires soon { new.now.start < LATEST_START }
    requires standing { new.now.stop ≡ None }
    requires unreserved { All (λ h. h.entry ≢ new.now.entry) budget.old }
    requires room { is_background_category new.now.category ≡ false
        → HasRoomFor slot budget.old (claim_of (accepted_of new.now)) new.now.behind }
    ensures { budget.new ≡ (if is_background_category new.now.category then budget.old
        else budget.old ++ reservation_for slot (claim_of (accepted_of new.now)) ∷ []) }
{
    if new.category.is_background() {
        return;
    }
    let end = new.natural_end();
    let _ = match new.behind {
        None => budget.reserve(new.entry, new.load(), end),
        Some(behind) => budget.reserve_behind(new.entry, new.load(), behind, new.start, end),
    };
}

/// The cause of a refusal for want of room.
fn cause_of(full: NoRoom) -> u8
    ensures { result ≡ cause_of full }
{
    match full {
        NoRoom::Table => cause::CELL_MEMORY_EXCEEDED,
        NoRoom::Load => cause::BSC_CAPACITY_EXCEEDED,
    }
}

/// Adds what a slot airs, where there is room for it.
fn push_aired(air: &mut Vec<Option<Aired>>, used: Option<(u16, u8)>)
    requires { vec_len air.old < vec_capacity air.old }
    ensures aired { air_pairs air.new.items ≡ air_pairs air.old.items ++ used ∷ [] }
    ensures places { vec_len air.new ≡ vec_len air.old + 1 }
    ensures room { vec_capacity air.old ≤ vec_capacity air.new }
{
    let aired = match used {
        None => None,
        Some((entry, page)) => Some(Aired { entry, page }),
    };
    air.push_reserved(aired);
}

/// Adds what the slots from `from` up to, and without, `to` air by a plan, where there is room for it.
fn air_slots(plan: &mut Plan, air: &mut Vec<Option<Aired>>, from: u16, to: u16)
    requires asked { from ≡ next_slot plan.old }
    requires ahead { from ≤ to }
    requires places { vec_len air.old ≡ from }
    requires room { to ≤ vec_capacity air.old }
    ensures aired { AreAired to plan.old plan.new (air_pairs air.old.items) (air_pairs air.new.items) }
    ensures places { vec_len air.new ≡ to }
    ensures room { vec_capacity air.old ≤ vec_capacity air.new }
{
    let mut slot = from;
    while slot < to {
        push_aired(air, plan.next(slot));
        slot += 1;
    }
}
