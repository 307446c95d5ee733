//! Laws of captures, over their definitions alone.

ghost use Rattle.gsmtap.specs.Laws.{CaptureHasTheTape, CaptureOfNoSlotHasNoBlock, FaultIsOfOne, SilentIsOne};

/// What comes back of a capture. It does nothing: its contract is the statement.
///
/// The tape of the capture of a tape with all its slots is the tape, for each cell, channel and number of slots from 1;
/// of a tape without a slot the capture has no block.
pub fn capture_laws()
    ensures tape { CaptureHasTheTape }
    ensures none { CaptureOfNoSlotHasNoBlock }
{}

/// What is at fault where many tapes are made of a capture. It does nothing: its contract is the statement.
///
/// A fault of tapes that are made together is the fault that one of them has alone, and a tape of which no packet has a
/// block has none alone.
pub fn tapes_laws()
    ensures fault { FaultIsOfOne }
    ensures silent { SilentIsOne }
{}
