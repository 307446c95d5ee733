//! Laws of reading: over lists of blocks, and over octets of tapes, alone.

ghost use Rattle.handset.specs.Laws.{ShownAreTheComplete, OnePageShowsOne, CompleteIsWhole, WholeIsTheLeastCount};
ghost use Rattle.handset.specs.Laws.{TextIsTheMessages};
ghost use Rattle.handset.specs.Laws.{MadeAreRecordings, RecordingsAreOne, RecordingsAreRead};
ghost use Rattle.handset.specs.Laws.{TapeIsOneKind, TapeHasKind, TapesAreOneKind, TapesHaveKind, MadeAreTapes};

/// Laws of what a list of blocks shows. It does nothing: its contract is the statement.
///
/// Shown is each message that its pages make complete, once, and no other. A message is complete exactly if a whole
/// broadcast of it was read. If all pages of a name are pages of one message that was sent, its whole broadcasts are
/// the least count of its pages, and its text is theirs.
pub fn reading_laws()
    ensures shown_are_the_complete { ShownAreTheComplete }
    ensures one_page_shows_one { OnePageShowsOne }
    ensures complete_is_whole { CompleteIsWhole }
    ensures whole_is_the_least_count { WholeIsTheLeastCount }
    ensures text_is_the_messages { TextIsTheMessages }
{}

/// Laws of tapes. It does nothing: its contract is the statement.
///
/// Each input is of exactly one kind (readable, short or long), read as one tape and as tapes up to the end, and its
/// readings are unique. The octets that are made of a cell, a number of slots and blocks are a tape that says and
/// shows these.
pub fn tape_laws()
    ensures tape { TapeIsOneKind }
    ensures tape_kinds { TapeHasKind }
    ensures tapes { TapesAreOneKind }
    ensures tapes_kinds { TapesHaveKind }
    ensures made { MadeAreTapes }
{}

/// Laws of what tapes hold. It does nothing: its contract is the statement.
///
/// What the tapes of an input hold is unique, and a handset reads it. The octets that are made of a cell, a number of
/// slots and blocks hold these.
pub fn recording_laws()
    ensures one { RecordingsAreOne }
    ensures read { RecordingsAreRead }
    ensures made { MadeAreRecordings }
{}
