//! Laws of streams, over their definitions alone.

ghost use Rattle.link_streams.specs.Laws.{StreamIsWhatCameFirst};

/// What a stream is, whatever order its segments came in. It does nothing: its contract is the statement.
///
/// The messages of a direction, with what has begun after them, are the octets from its first place on, up to the first
/// gap: of those with one place the first that came. So it is for up to 256 segments within 2^25 octets, of which none
/// can be dropped for want of room.
pub fn stream_laws()
    ensures { StreamIsWhatCameFirst }
{}
