//! The table of the messages that a cell accepted. A message is found by its number, and by its pair of an identifier
//! and a serial number, in as many steps as the number of messages has binary digits; in a step or two if it stands
//! where it is looked for first. What a search finds says where that is for the next one.

ghost use Rattle.std.specs.Prelude.{◌≡◌, ◌↔◌, ℕ, ◌<◌, ◌==◌, ◌&&◌, ◌++◌, ◌∷◌, [], false, true, Some, None, All, OnOk};
ghost use Rattle.std.specs.Prelude.{◌≢◌, ◌≤◌, ◌-◌, length, map, take, slice_index_or, vec_len, vec_capacity};
ghost use Rattle.std.specs.List.{find, insert, HoldsAt};
ghost use Rattle.bsc_table.specs.declared.table.Pair.{Pair};
ghost use Rattle.std.specs.declared.cmp.Ordering.TheVariants.{Less};
ghost use Rattle.std.specs.Option.{option_map};
ghost use Rattle.scheduler.specs.Air.{layer};
ghost use Rattle.bsc_table.specs.Record.{is_of_pair};
ghost use Rattle.bsc_table.specs.Accepted.{accepted_of};
ghost use Rattle.bsc_table.specs.BookSteps.{message_kept, stop_numbered};
ghost use Rattle.bsc_table.specs.Table.{AreRisingMessages, AreRisingPairs, ArePartedAt, IsGapFor, IsPairFound};
ghost use Rattle.bsc_table.specs.Table.{IsPlaceFound, compare_pairs, pair_kept};

use crate::accepted::AcceptedMessage;
use crate::command::Refused;
use cbs_page::Serial;
use std::alloc::Global;
use std::marker::Model;

/// The pair of a message, with the place of the message in the table.
//
// It has 8 octets, which are copied as one word: of copies of 6 octets LLVM makes no memmove (`put_first`).
#[derive(Clone, Copy)]
pub struct Pair {
    id: u16,
    serial: u16,
    place: u32,
}

/// A place behind all pairs. A search for which no nearer place is known looks here first, since a new pair is mostly
/// greater than those before it.
pub const BEHIND_ALL: usize = usize::MAX;

/// How many pairs at the end are looked at first for a pair.
const NEAR: usize = 64;

/// A message of the table, and where it is kept. No clause says where: it tells a later search where to look first.
#[derive(Clone, Copy, Debug, PartialEq, Eq)]
pub struct Kept {
    /// The message.
    pub message: AcceptedMessage,
    /// Its place among the messages.
    pub place: usize,
    /// The place of its pair among the pairs in order.
    pub at: usize,
}

/// The accepted messages in the order of their numbers, and their pairs in order beside them.
///
/// In clauses it is the messages, and for how many more there is room.
#[derive(Drop)]
pub struct Table {
    messages: Vec<AcceptedMessage>,
    by_pair: Vec<Pair>,
}

impl Model for Table {
    ghost use Rattle.bsc_table.specs.Accepted.{TableState};

    ghost Value = { TableState };

    ghost use Rattle.bsc_table.specs.Table.{state_of, IsTable};

    ghost view = { state_of };

    ghost invariant = { IsTable };
}

impl Table {
    /// A table of no message. It takes no memory.
    pub fn new(alloc: Global) -> Table
        ensures { result.all ≡ [] }
    {
        Table {
            messages: Vec::new(alloc),
            by_pair: Vec::new(alloc),
        }
    }

    /// Takes room for one more message.
    ///
    /// # Errors
    ///
    /// `Refused` if out of memory.
    pub fn reserve(&mut self) -> Result<(), Refused>
        ensures same { self.new.all ≡ self.old.all }
        ensures room { OnOk result (0 < self.new.room) }
    {
        self.messages.reserve(1)?;
        self.by_pair.reserve(1)?;
        Ok(())
    }

    /// Adds a message, for which there is room. Its number is above the others, and none of them has its pair, whose
    /// place is looked for at `near` first.
    pub fn push(&mut self, near: usize, new: AcceptedMessage)
        requires room { 0 < self.old.room }
        requires few { length self.old.all < 65536 }
        requires rising { All (λ a. a.message.entry < new.entry) self.old.all }
        requires apart { All (λ a. is_of_pair a.id a.serial (accepted_of new) ≡ false) self.old.all }
        ensures { self.new.all ≡ self.old.all ++ accepted_of new ∷ [] }
    {
        let pair = Pair {
            id: new.id,
            serial: new.serial.number(),
            place: self.messages.len() as u32,
        };
        if let Err(at) = search(self.by_pair.as_slice(), near, new.id, new.serial) {
            insert_at(&mut self.by_pair, at, pair);
            self.messages.push_reserved(new);
        }
    }

    /// The message of a pair, which is looked for at `near` first.
    ///
    /// # Errors
    ///
    /// Where there is none, the place at which the pair would go.
    pub fn named(&self, near: usize, id: u16, serial: Serial) -> Result<Kept, usize>
        ensures { message_kept result ≡ find (is_of_pair id serial) self.now.all }
    {
        match search(self.by_pair.as_slice(), near, id, serial) {
            Ok(at) => {
                let place = self.by_pair[at].place as usize;
                Ok(Kept {
                    message: self.messages[place],
                    place,
                    at,
                })
            }
            Err(gap) => Err(gap),
        }
    }

    /// The message of a number that reserves, if there is one: that isn't background. It is looked for at `near` first.
    pub fn reserved(&self, near: usize, entry: u16) -> Option<AcceptedMessage>
        ensures { option_map accepted_of result
            ≡ find (λ a. (a.message.entry == entry) && (layer a.message == 0)) self.now.all }
    {
        let at = place_of(self.messages.as_slice(), near, entry)?;
        let message = self.messages[at];
        if message.category.is_background() {
            None
        } else {
            Some(message)
        }
    }

    /// Stops the message of this number before `slot`, if there is one. It is looked for at `near` first.
    pub fn stop(&mut self, near: usize, entry: u16, slot: u16)
        ensures all { self.new.all ≡ map (stop_numbered entry slot) self.old.all }
        ensures room { self.new.room ≡ self.old.room }
    {
        if let Some(at) = place_of(self.messages.as_slice(), near, entry) {
            self.messages[at] = self.messages[at].stopped_if(entry, slot);
        }
    }
}

/// Puts a pair first, and moves the others up over the last.
//
// LLVM makes a memmove of it where it isn't inlined, as the pairs then stand at no offset.
#[inline(never)]
fn put_first(pairs: &mut [Pair], pair: Pair)
    requires { 0 < length pairs.old }
    ensures { pairs.new ≡ pair ∷ take (length pairs.old - 1) pairs.old }
{
    let last = pairs.len() - 1;
    pairs.copy_within(0..last, 1);
    pairs[0] = pair;
}

/// Puts a pair at a place, for which there is room. `Vec::insert` moves those behind it in a loop, which takes twice as
/// many instructions as a memmove.
fn insert_at(pairs: &mut Vec<Pair>, at: usize, pair: Pair)
    requires within { at ≤ vec_len pairs.old }
    requires room { vec_len pairs.old < vec_capacity pairs.old }
    ensures { pairs.new.items ≡ insert pairs.old.items at pair }
{
    pairs.push_reserved(pair);
    put_first(&mut pairs.as_mut_slice()[at..], pair);
}

/// Whether a pair comes before that of an identifier and a serial number.
fn is_before(pair: &Pair, id: u16, serial: u16) -> bool
    ensures { (result ≡ true) ↔ (compare_pairs (pair_kept pair.now) (id, serial) ≡ Less) }
{
    pair.id < id || (pair.id == id && pair.serial < serial)
}

/// A place up to which all pairs are lesser: one near the end, if that can be seen there, since most of those that are
/// looked for were added of late; else the first.
fn near_end(pairs: &[Pair], id: u16, serial: u16) -> usize
    requires { AreRisingPairs pairs.now }
    ensures within { result ≤ length pairs.now }
    ensures before { (k : ℕ) (d : Pair) → k < result
        → compare_pairs (pair_kept (slice_index_or pairs.now k d)) (id, serial) ≡ Less }
{
    let near = pairs.len().saturating_sub(NEAR);
    if are_lesser_before(pairs, near, id, serial) {
        near
    } else {
        0
    }
}

/// Where a pair would go among others in order: the lesser ones stand before it. `binary_search_by_key` compares
/// tuples, and takes nearly twice as many instructions.
fn gap_for(pairs: &[Pair], id: u16, serial: u16) -> usize
    requires { AreRisingPairs pairs.now }
    ensures { ArePartedAt (id, serial) pairs.now result }
{
    let mut low = near_end(pairs, id, serial);
    let mut high = pairs.len();
    while low < high {
        let middle = low + (high - low) / 2;
        if is_before(&pairs[middle], id, serial) {
            low = middle + 1;
        } else {
            high = middle;
        }
    }
    low
}

/// Whether the pair of an identifier and a serial number stands at a place.
fn stands_at(pairs: &[Pair], at: usize, id: u16, serial: u16) -> bool
    ensures there { result ≡ true → (at < length pairs.now) × HoldsAt (λ p. pair_kept p ≡ (id, serial)) pairs.now at }
    ensures apart { result ≡ false → (d : Pair) → at < length pairs.now
        → pair_kept (slice_index_or pairs.now at d) ≡ (id, serial) → ⊥ }
{
    match pairs.get(at) {
        Some(pair) => pair.id == id && pair.serial == serial,
        None => false,
    }
}

/// Whether all pairs before a place are lesser: the last of them is, if there is one.
fn are_lesser_before(pairs: &[Pair], at: usize, id: u16, serial: u16) -> bool
    requires rising { AreRisingPairs pairs.now }
    requires within { at ≤ length pairs.now }
    ensures { result ≡ true → (k : ℕ) (d : Pair) → k < at
        → compare_pairs (pair_kept (slice_index_or pairs.now k d)) (id, serial) ≡ Less }
{
    if at == 0 {
        true
    } else {
        is_before(&pairs[at - 1], id, serial)
    }
}

/// Whether no pair from a place on is lesser: the one at the place isn't, if there is one.
fn is_none_lesser_from(pairs: &[Pair], at: usize, id: u16, serial: u16) -> bool
    requires { AreRisingPairs pairs.now }
    ensures { result ≡ true → (k : ℕ) (d : Pair) → at ≤ k → k < length pairs.now
        → compare_pairs (pair_kept (slice_index_or pairs.now k d)) (id, serial) ≢ Less }
{
    if at < pairs.len() {
        !is_before(&pairs[at], id, serial)
    } else {
        true
    }
}

/// Where a pair would go among others in order: at the place that is near, if it goes there, which two steps tell.
fn gap_near(pairs: &[Pair], near: usize, id: u16, serial: u16) -> usize
    requires { AreRisingPairs pairs.now }
    ensures { ArePartedAt (id, serial) pairs.now result }
{
    let near = near.min(pairs.len());
    if are_lesser_before(pairs, near, id, serial) && is_none_lesser_from(pairs, near, id, serial) {
        near
    } else {
        gap_for(pairs, id, serial)
    }
}

/// Where a pair stands among others in order, or where it would go. The place that is near is looked at first.
fn search(pairs: &[Pair], near: usize, id: u16, serial: Serial) -> Result<usize, usize>
    requires { AreRisingPairs pairs.now }
    ensures { IsPairFound (id, serial) pairs.now result }
{
    let serial = serial.number();
    let at = gap_near(pairs, near, id, serial);
    if stands_at(pairs, at, id, serial) {
        Ok(at)
    } else {
        Err(at)
    }
}

/// Whether the message of a number stands at a place.
fn is_at(messages: &[AcceptedMessage], place: usize, entry: u16) -> bool
    ensures { result ≡ true → IsPlaceFound entry messages.now (Some place) }
{
    match messages.get(place) {
        Some(message) => message.entry == entry,
        None => false,
    }
}

/// The place of the message of a number, if there is one, by a search.
fn place_by_search(messages: &[AcceptedMessage], entry: u16) -> Option<usize>
    requires { AreRisingMessages messages.now }
    ensures { IsPlaceFound entry messages.now result }
{
    match messages.binary_search_by_key(&entry, |message| message.entry) {
        Ok(at) => Some(at),
        Err(_) => None,
    }
}

/// The place of the message of a number, if there is one. The place that is near is looked at first.
fn place_of(messages: &[AcceptedMessage], near: usize, entry: u16) -> Option<usize>
    requires { AreRisingMessages messages.now }
    ensures { IsPlaceFound entry messages.now result }
{
    if is_at(messages, near, entry) {
        Some(near)
    } else {
        place_by_search(messages, entry)
    }
}
