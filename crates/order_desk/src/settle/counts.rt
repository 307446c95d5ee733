//! How often places were noted: the numbers of a log's entries, and played slots.

ghost use Rattle.std.specs.Prelude.{◌≡◌, ◌⊎◌, ℕ, ◌+◌, ◌<◌, ◌≤◌, min, length, IfOk, replicate, slice_index_or};
ghost use Rattle.order_desk.specs.SettleSteps.{IsLeastFailing};

use std::alloc::{AllocError, Global};

/// So many places, none of which was noted.
pub(crate) fn none_counted(alloc: Global, places: usize) -> Result<Vec<u8>, AllocError>
    ensures { IfOk result (λ times. times.items ≡ replicate places 0) }
{
    Ok(vec![in alloc; 0u8; places]?)
}

/// Counts one more, up to 255, at each place from one up to, and without, another.
pub(crate) fn count(times: &mut [u8], from: usize, to: usize)
    ensures places { length times.new ≡ length times.old }
    ensures inside { (place : ℕ) → place < length times.old → from ≤ place → place < to
        → slice_index_or times.new place 0 ≡ min (slice_index_or times.old place 0 + 1) 255 }
    ensures outside { (place : ℕ) → place < length times.old → (place < from) ⊎ (to ≤ place)
        → slice_index_or times.new place 0 ≡ slice_index_or times.old place 0 }
{
    let end = to.min(times.len());
    for place in from..end {
        times[place] = times[place].saturating_add(1);
    }
}

/// The least place that wasn't counted once.
pub(crate) fn first_not_once(times: &[u8]) -> Option<u16>
    requires { length times.now ≤ 65535 }
    ensures { IsLeastFailing (λ place. place < length times.now → slice_index_or times.now place 0 ≡ 1) result }
{
    match times.iter().position(|times| *times != 1) {
        Some(place) => Some(place as u16),
        None => None,
    }
}
