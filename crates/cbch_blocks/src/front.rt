//! Octets that begin with others.

ghost use Rattle.std.specs.Prelude.{◌≡◌, ◌↔◌, ◌++◌, ℕ, List, IsTrue, MatchOption};

/// Whether octets are the same.
fn are_same(one: &[u8], other: &[u8]) -> bool
    ensures { IsTrue result ↔ (one.now ≡ other.now) }
{
    one == other
}

/// The octets after a front, if they begin with it.
pub(crate) fn strip_front<'a>(octets: &'a [u8], front: &[u8]) -> Option<&'a [u8]>
    ensures { MatchOption result ((rest : List ℕ) → octets.now ≡ front.now ++ rest → ⊥)
        (λ rest. octets.now ≡ front.now ++ rest.now) }
{
    let (own, rest) = octets.split_at_checked(front.len())?;
    if are_same(own, front) {
        Some(rest)
    } else {
        None
    }
}
