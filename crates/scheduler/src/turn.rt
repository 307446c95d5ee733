//! Which of two messages is served first, and when they are to be looked at again.

ghost use Rattle.std.specs.Prelude.{◌≡◌, ◌≢◌, ◌==◌, ◌%◌, if◌then◌else◌, MatchBool, Some, None};
ghost use Rattle.scheduler.specs.QueueSteps.{joined, no_turn, nothing_ahead, turn_number};

/// No turn, which comes last. A turn has 50 bits.
const NO_TURN: u64 = u64::MAX;

/// The turn of a message with a pending broadcast as one number, of which the lesser comes first: by layer (0, or 1
/// for background), then by the slot before which the broadcast is to be completed, then by class (0 for high, else 1),
/// then by the message's number.
pub fn turn_number(layer: u8, due: u32, class: u8, entry: u16) -> u64
    ensures { result ≡ turn_number layer due class entry }
{
    let in_layer = u64::from(due) * 2 + u64::from(class);
    (u64::from(layer) * 0x2_0000_0000 + in_layer) * 0x1_0000 + u64::from(entry)
}

/// What is ahead of some messages: the first turn among those with a pending broadcast, and the first slot at which
/// one of them is to be looked at again.
#[derive(Clone, Copy)]
pub struct First {
    /// The first turn, as one number; 2^64 - 1 where no message has a pending broadcast.
    pub first: u64,
    /// The first slot at which a pending broadcast is due, or a further one is released.
    pub wake: u32,
}

impl First {
    /// What is ahead of no message.
    pub fn nothing() -> First
        ensures { result ≡ nothing_ahead }
    {
        First {
            first: NO_TURN,
            wake: u32::MAX,
        }
    }

    /// What is ahead of these and of others.
    pub fn joined(self, other: First) -> First
        ensures { result ≡ joined self other }
    {
        First {
            first: self.first.min(other.first),
            wake: self.wake.min(other.wake),
        }
    }

    /// Whether the same is ahead of others.
    pub fn is(self, other: First) -> bool
        ensures { MatchBool result (self ≡ other) (self ≢ other) }
    {
        self.first == other.first && self.wake == other.wake
    }
}

/// The number of the message that has this turn, where it is one.
pub fn entry_of(turn: u64) -> Option<u16>
    ensures { result ≡ (if turn == no_turn then None else Some (turn % 65536)) }
{
    if turn == NO_TURN {
        None
    } else {
        Some((turn % 0x1_0000) as u16)
    }
}
