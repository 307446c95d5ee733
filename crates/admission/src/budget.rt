//! The table of the loads that are reserved in a cell.

ghost use Rattle.std.specs.Prelude.{◌≡◌, ◌≢◌, ℕ, ◌==◌, ◌≤◌, Some, None, List, [], length, ◌∷◌, ◌++◌, sum_by, take, All};
ghost use Rattle.std.specs.Prelude.{Any, nat_lt};
ghost use Rattle.std.specs.Prelude.{OnOk, OnErr, MatchBool};
ghost use Rattle.std.specs.Option.{option_map};
ghost use Rattle.admission.specs.Table.{room_answer_for, room_answer, remaining_without, load_for, excess_over};
ghost use Rattle.admission.specs.Table.{ends_at};
ghost use Rattle.admission.specs.Table.{ends_if, passed, IsAdmitted};
ghost use Rattle.std.specs.List.{list_all};
ghost use Rattle.admission.specs.TableSteps.{HasPlace, goes_on, stays_at};
ghost use Rattle.admission.specs.Waiting.{IsWhether, behind_of, held_now, held_at, started_at};
ghost use Rattle.admission.specs.Reservation.{is_before_end};
ghost use Rattle.admission.specs.Table.{max_reserved};

use crate::measure::SCALE;
use arrayvec::ArrayVec;
use std::marker::Model;

/// How many messages may be reserved in a cell at once (own).
const MAX_RESERVED: usize = 64;

/// One reservation of a budget: the load that is reserved for a log entry, up to, and without, the slot at which it
/// ends.
///
/// A reservation may wait behind another: up to its start it holds its excess alone, from there on its whole load.
#[derive(Clone, Copy, Debug, Default, PartialEq, Eq)]
pub struct Held {
    /// The number of the log entry.
    pub entry: u16,
    /// The load, in parts of `SCALE`.
    pub load: u64,
    /// The slot at which the reservation ends. `None` is a reservation with no end yet.
    pub end: Option<u32>,
    /// What the reservation waits for. `None` is a reservation that has started.
    pub waits: Option<Waits>,
}

/// What a reservation waits for, and what it holds until then.
#[derive(Clone, Copy, Debug, Default, PartialEq, Eq)]
pub struct Waits {
    /// The number of the log entry behind which it waits.
    pub behind: u16,
    /// The slot at which it starts, where the one before it ends.
    pub start: u32,
    /// The load that it holds up to, and without, that slot, in parts of `SCALE`.
    pub excess: u64,
}

impl Held {
    /// What the reservation holds now, in parts of `SCALE`: its excess while it waits, else its whole load.
    fn now(&self) -> u64
        ensures { result ≡ held_now self.now }
    {
        match self.waits {
            None => self.load,
            Some(waits) => waits.excess,
        }
    }
}

/// Why a load was not admitted.
#[derive(Clone, Copy, Debug, PartialEq, Eq)]
pub enum NoRoom {
    /// 64 messages are reserved already. It is reported before `Load`.
    Table,
    /// What is held now and the new load would be more than `SCALE`.
    Load,
}

/// The loads that are reserved in a cell, in the order in which they were reserved.
///
/// A contract sees a budget as the list of its reservations. Each entry stands in it once, there are at most 64
/// reservations, and what they hold sums to at most `SCALE`, now and at each slot. A reservation that waits, waits
/// behind one that has started and ends where it starts, and no two wait behind the same one. The slots of `pass_slot`
/// may come in any order.
///
/// A third of a cell's slots fits three times: after `reserve(entry, load(1, 3), None)` for three entries,
/// `fits(1, None)` answers `Err(NoRoom::Load)`. Where entry 2 then ends at slot 6,
/// `reserve_behind(3, load(1, 3), 2, 6, None)` has room all the same: entry 3 holds nothing up to slot 6, and a third
/// from there on.
#[derive(Drop)]
pub struct Budget {
    table: ArrayVec<Held, 64>,
}

impl Model for Budget {
    ghost use Rattle.std.specs.Prelude.{List};
    ghost use Rattle.admission.specs.declared.budget.Held.{Held};
    ghost use Rattle.admission.specs.Table.{IsAdmitted};

    ghost Value = { List Held };

    ghost view = { λ b. b.table.items };

    ghost invariant = { λ b. IsAdmitted b.table.items };
}

impl Budget {
    /// A budget with nothing reserved.
    pub fn new() -> Self
        ensures { result ≡ [] }
    {
        Budget {
            table: ArrayVec::new(),
        }
    }

    /// Whether `load` could be reserved now, as if the entry `leaving` were gone. It changes nothing.
    ///
    /// # Errors
    ///
    /// `NoRoom` if it couldn't.
    pub fn fits(&self, load: u64, leaving: Option<u16>) -> Result<(), NoRoom>
        ensures { result ≡ room_answer_for (remaining_without leaving self.now) load }
    {
        match leaving {
            None => room(self.table.len(), total(self.table.as_slice()), load),
            Some(entry) => {
                let others = total_without(self.table.as_slice(), entry);
                room(places_without(self.table.as_slice(), entry), others, load)
            }
        }
    }

    /// Whether the excess of `load` over the load of the entry `behind` fits now, with the entry `leaving` left out:
    /// then `load` could wait behind that entry. It changes nothing. The entry `behind` is reserved and has started.
    ///
    /// # Errors
    ///
    /// `NoRoom` if it couldn't.
    pub fn fits_behind(&self, load: u64, behind: u16, leaving: Option<u16>) -> Result<(), NoRoom>
        requires { Any (λ h. (h.entry ≡ behind) × (h.waits ≡ None)) self.now }
        ensures { result ≡ room_answer_for (remaining_without leaving self.now) (excess_over behind load self.now) }
    {
        let excess = excess_over(self.table.as_slice(), behind, load);
        self.fits(excess, leaving)
    }

    /// Reserves `load` for `entry` up to, and without, the slot `until`. The entry is not reserved yet.
    ///
    /// # Errors
    ///
    /// `NoRoom` if there is no room for it; nothing changes then.
    pub fn reserve(&mut self, entry: u16, load: u64, until: Option<u32>) -> Result<(), NoRoom>
        requires { All (λ h. h.entry ≢ entry) self.old }
        ensures answer { result ≡ room_answer_for self.old load }
        ensures reserved { OnOk result
            (self.new ≡ self.old ++ record { entry = entry; load = load; end = until; waits = None } ∷ []) }
        ensures refused { OnErr result (self.new ≡ self.old) }
    {
        self.add(Held {
            entry,
            load,
            end: until,
            waits: None,
        })
    }

    /// Reserves `load` for `entry` up to, and without, the slot `until`, where it waits behind the entry `behind` up to
    /// the slot `start`: until then it holds what its load has over that one's, or nothing where that is no less; from
    /// then on it holds its load.
    ///
    /// The entry is not reserved yet. The entry `behind` is reserved, has started and ends at `start`, and no entry
    /// waits behind it.
    ///
    /// # Errors
    ///
    /// `NoRoom` if there is no room for it; nothing changes then.
    pub fn reserve_behind(
        &mut self,
        entry: u16,
        load: u64,
        behind: u16,
        start: u32,
        until: Option<u32>,
    ) -> Result<(), NoRoom>
        requires new { All (λ h. h.entry ≢ entry) self.old }
        requires ends { Any (λ h. (h.entry ≡ behind) × (h.waits ≡ None) × (h.end ≡ Some start)) self.old }
        requires free { All (λ h. behind_of h ≢ Some behind) self.old }
        ensures answer { result ≡ room_answer_for self.old (excess_over behind load self.old) }
        ensures reserved { OnOk result
            (self.new ≡ self.old ++ record {
              entry = entry;
              load = load;
              end = until;
              waits = Some (record { behind = behind; start = start; excess = excess_over behind load self.old });
            } ∷ []) }
        ensures refused { OnErr result (self.new ≡ self.old) }
    {
        let excess = excess_over(self.table.as_slice(), behind, load);
        self.add(Held {
            entry,
            load,
            end: until,
            waits: Some(Waits {
                behind,
                start,
                excess,
            }),
        })
    }

    /// Lets the reservation of `entry` end at `slot`: it is counted up to, and without, that slot. The entry is
    /// reserved, and no entry waits behind it.
    pub fn release_at(&mut self, entry: u16, slot: u32)
        requires reserved { Any (λ h. h.entry ≡ entry) self.old }
        requires free { All (λ h. behind_of h ≢ Some entry) self.old }
        ensures { self.new ≡ ends_at entry slot self.old }
    {
        end_at(self.table.as_mut_slice(), entry, slot);
    }

    /// Drops what ended by `slot`, and lets what waits start where its start is no later. A reservation that ends at a
    /// slot is not counted at that slot, and one that starts at a slot holds its whole load there.
    pub fn pass_slot(&mut self, slot: u16)
        ensures { self.new ≡ passed slot self.old }
    {
        // At most slots nothing ends or starts, and then the table isn't written.
        if !passes_unchanged(self.table.as_slice(), slot) {
            let remaining = keep_remaining(self.table.as_mut_slice(), slot);
            self.table.truncate(remaining);
        }
    }

    /// The sum of what the reservations hold now, in parts of `SCALE`.
    pub fn reserved(&self) -> u64
        ensures sum { result ≡ sum_by held_now self.now }
        ensures admitted { IsAdmitted self.now }
        ensures at_most_whole { result ≤ SCALE }

        // At no slot is more held than now.
        ensures at_every_slot { (slot : ℕ) → sum_by (held_at slot) self.now ≤ result }
    {
        total(self.table.as_slice())
    }

    /// Whether a load is reserved for `entry`, as `reserve` and `release_at` ask.
    pub fn is_reserved(&self, entry: u16) -> bool
        ensures { IsWhether result (λ h. h.entry ≡ entry) self.now }
    {
        self.table.iter().any(|held| held.entry == entry)
    }

    /// Whether a load is reserved for `entry` and has started, as `fits_behind` asks of the one behind which to wait.
    pub fn has_started(&self, entry: u16) -> bool
        ensures { IsWhether result (λ h. (h.entry ≡ entry) × (h.waits ≡ None)) self.now }
    {
        self.table
            .iter()
            .any(|held| held.entry == entry && held.waits.is_none())
    }

    /// Whether a load is reserved for `entry`, has started and ends at `slot`, as `reserve_behind` asks of the one
    /// behind which to wait.
    pub fn hands_over_at(&self, entry: u16, slot: u32) -> bool
        ensures { IsWhether result (λ h. (h.entry ≡ entry) × (h.waits ≡ None) × (h.end ≡ Some slot)) self.now }
    {
        self.table.iter().any(|held| held.entry == entry
            && held.waits.is_none()
            && held.end == Some(slot))
    }

    /// Whether an entry waits behind `entry`, as `reserve_behind` and `release_at` ask.
    pub fn is_awaited(&self, entry: u16) -> bool
        ensures { IsWhether result (λ h. behind_of h ≡ Some entry) self.now }
    {
        self.table.iter().any(|held| is_behind(held.waits, entry))
    }

    /// Adds a reservation, where there is room for what it holds now.
    fn add(&mut self, held: Held) -> Result<(), NoRoom>
        requires new { All (λ h. h.entry ≢ held.entry) self.old }
        requires handed { HasPlace held.load held.waits self.old }
        ensures answer { result ≡ room_answer_for self.old (held_now held) }
        ensures added { OnOk result (self.new ≡ self.old ++ held ∷ []) }
        ensures refused { OnErr result (self.new ≡ self.old) }
    {
        room(self.table.len(), total(self.table.as_slice()), held.now())?;
        self.table.push(held);
        Ok(())
    }
}

impl Default for Budget {
    ghost is_default = { λ b. b ≡ [] };

    fn default() -> Self {
        Budget::new()
    }
}

/// Whether what waits so waits behind `entry`.
fn is_behind(waits: Option<Waits>, entry: u16) -> bool
    ensures { MatchBool result (option_map (λ w. w.behind) waits ≡ Some entry)
        (option_map (λ w. w.behind) waits ≢ Some entry) }
{
    match waits {
        None => false,
        Some(waits) => waits.behind == entry,
    }
}

/// What a load has over the one that is reserved for `entry`, or 0.
fn excess_over(table: &[Held], entry: u16, load: u64) -> u64
    ensures { result ≡ excess_over entry load table.now }
{
    load.saturating_sub(load_for(table, entry))
}

/// The load that is reserved for `entry`, or 0.
fn load_for(table: &[Held], entry: u16) -> u64
    ensures { result ≡ load_for entry table.now }
{
    for held in table {
        if held.entry == entry {
            return held.load;
        }
    }
    0
}

/// The sum of what the reservations of a table hold now.
fn total(table: &[Held]) -> u64
    requires { sum_by held_now table.now ≤ SCALE }
    ensures { result ≡ sum_by held_now table.now }
{
    table.iter().map(|held| held.now()).sum()
}

/// The sum of what the others of a table hold now.
fn total_without(table: &[Held], entry: u16) -> u64
    requires { sum_by held_now table.now ≤ SCALE }
    ensures sum { result ≡ sum_by held_now (remaining_without (Some entry) table.now) }
    ensures at_most_whole { result ≤ SCALE }
{
    table
        .iter()
        .filter(|held| held.entry != entry)
        .map(|held| held.now())
        .sum()
}

/// How many others stand in a table.
fn count_without(table: &[Held], entry: u16) -> usize
    ensures { result ≡ length (remaining_without (Some entry) table.now) }
{
    table.iter().filter(|held| held.entry != entry).count()
}

/// How many others stand in a table that is full; of one that isn't, whose others aren't counted, as many as there are.
fn places_without(table: &[Held], entry: u16) -> usize
    ensures { nat_lt result max_reserved
        ≡ nat_lt (length (remaining_without (Some entry) table.now)) max_reserved }
{
    let places = table.len();
    if places < MAX_RESERVED {
        places
    } else {
        count_without(table, entry)
    }
}

/// Whether a load has room beside `places` reserved messages that hold `sum`.
fn room(places: usize, sum: u64, load: u64) -> Result<(), NoRoom>
    requires { sum ≤ SCALE }
    ensures { result ≡ room_answer places sum load }
{
    if places >= MAX_RESERVED {
        return Err(NoRoom::Table);
    }
    if load > SCALE - sum {
        return Err(NoRoom::Load);
    }
    Ok(())
}

/// Lets the reservation of `entry` end at `slot`.
fn end_at(table: &mut [Held], entry: u16, slot: u32)
    ensures { table.new ≡ ends_at entry slot table.old }
{
    for held in table.iter_mut() {
        end_if(held, entry, slot);
    }
}

/// Lets a reservation end at `slot` if it is of `entry`. Others aren't written.
fn end_if(held: &mut Held, entry: u16, slot: u32)
    ensures { held.new ≡ ends_if (held.old.entry == entry) slot held.old }
{
    if held.entry == entry {
        held.end = Some(slot);
    }
}

/// Whether no reservation of a table has ended by `slot`, or starts.
fn passes_unchanged(table: &[Held], slot: u16) -> bool
    ensures { result ≡ list_all (stays_at slot) table.now }
{
    table.iter().all(|held| is_counted(held.end, slot) && goes_on(held.waits, slot))
}

/// Whether what is waited for, if anything is, is waited for at `slot` too.
fn goes_on(waits: Option<Waits>, slot: u16) -> bool
    ensures { result ≡ goes_on slot waits }
{
    match waits {
        None => true,
        Some(waits) => u32::from(slot) < waits.start,
    }
}

/// Puts the reservations of a table that are still counted at `slot`, as they are there, in front, and says how many
/// they are.
fn keep_remaining(table: &mut [Held], slot: u16) -> usize
    ensures within { result ≤ length table.old }
    ensures remaining { take result table.new ≡ passed slot table.old }
{
    let mut kept = 0;
    for place in 0..table.len() {
        if is_counted(table[place].end, slot) {
            table[kept] = table[place];
            start(&mut table[kept], slot);
            kept += 1;
        }
    }
    kept
}

/// Lets a reservation wait no more, where it starts by `slot`. Others aren't written.
fn start(held: &mut Held, slot: u16)
    ensures { held.new ≡ started_at slot held.old }
{
    if !goes_on(held.waits, slot) {
        held.waits = None;
    }
}

/// Whether a reservation that ends at `end` is counted at `slot`.
fn is_counted(end: Option<u32>, slot: u16) -> bool
    ensures { result ≡ is_before_end slot end }
{
    match end {
        None => true,
        Some(end) => u32::from(slot) < end,
    }
}
