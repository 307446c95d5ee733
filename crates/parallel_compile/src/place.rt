//! Places for the tapes of pieces.

ghost use Rattle.std.specs.Prelude.{◌≡◌, ◌≢◌, Option, Some, None, ℕ, List, All, IfErr, IfOk, map, set, true, false};
ghost use Rattle.std.specs.Prelude.{length, replicate};
ghost use Rattle.std.specs.List.{slice_get};
ghost use Rattle.parallel_compile.specs.declared.fault.CompileFault.TheVariants as faults;
ghost use Rattle.parallel_compile.specs.Gathered.{piece_numbers};
ghost use Rattle.order_desk.specs.SettleSteps.{IsLeastFailing, lesser as lesser_of};
ghost use Rattle.parallel_compile.specs.Places.{ArePut};

use crate::fault::CompileFault;
use cbch_blocks::Tape;
use std::alloc::Global;

/// Places that are all free.
pub(crate) fn free_places(alloc: Global, n: usize) -> Result<Vec<Option<Tape>>, CompileFault>
    ensures ok { IfOk result (λ places. places.items ≡ replicate n None) }
    ensures err { IfErr result (λ fault. fault ≡ faults.Refused) }
{
    let mut places = Vec::with_capacity(alloc, n)?;
    for _ in 0..n {
        places.push(None)?;
    }
    Ok(places)
}

/// Puts a tape in a place, if there is that place and it's free, and reports whether it did.
fn put(places: &mut Vec<Option<Tape>>, index: u64, tape: Tape) -> bool
    ensures put { result ≡ true → (slice_get places.old.items index ≡ Some None)
        × (places.new.items ≡ set places.old.items index (Some tape)) }
    ensures left { result ≡ false → (slice_get places.old.items index ≢ Some None)
        × (places.new.items ≡ places.old.items) }
{
    let place = index as usize;
    if place < places.len() && places[place].is_none() {
        places[place] = Some(tape);
        true
    } else {
        false
    }
}

/// The lesser of two numbers that there may be.
pub(crate) fn lesser(one: Option<u64>, other: Option<u64>) -> Option<u64>
    ensures { result ≡ lesser_of one other }
{
    match (one, other) {
        (Some(one), Some(other)) => Some(one.min(other)),
        (Some(one), None) => Some(one),
        (None, other) => other,
    }
}

/// Puts the tapes of pieces in the places of their numbers, which are free. Returns the least number of a piece that
/// found no such place, or no free one.
pub(crate) fn put_all(places: &mut Vec<Option<Tape>>, pieces: Vec<(u64, Tape)>) -> Option<u64>
    requires { places.old.items ≡ replicate (length places.old.items) None }
    ensures { ArePut (length places.old.items) pieces.items places.new.items result }
{
    let mut spoilt = None;
    for piece in pieces {
        let (index, tape) = piece;
        if !put(places, index, tape) {
            spoilt = lesser(spoilt, Some(index));
        }
    }
    spoilt
}

/// The least place that is free.
pub(crate) fn first_free(places: &[Option<Tape>]) -> Option<u64>
    ensures { IsLeastFailing (λ x. slice_get places.now x ≢ Some None) result }
{
    for place in 0..places.len() {
        if places[place].is_none() {
            return Some(place as u64);
        }
    }
    None
}

/// The tapes of places of which none is free.
pub(crate) fn unwrap_all(
    alloc: Global,
    places: Vec<Option<Tape>>,
) -> Result<Vec<Tape>, CompileFault>
    requires { All (λ place. place ≢ None) places.items }
    ensures ok { IfOk result (λ tapes. places.items ≡ map Some tapes.items) }
    ensures err { IfErr result (λ fault. fault ≡ faults.Refused) }
{
    let mut tapes = Vec::with_capacity(alloc, places.len())?;
    for place in places {
        if let Some(tape) = place {
            tapes.push(tape)?;
        }
    }
    Ok(tapes)
}
