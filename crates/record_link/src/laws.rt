//! A law of the definitions alone, which the contract of `run_link` cites.

ghost use Rattle.record_link.specs.Laws.{NoneIsLeftOut};

/// States, as its contract, that each order of a run and each answer is a message that is written, so that nothing is
/// left out of the link. It does nothing.
pub fn whole_link_law()
    // All commands of a record are well-formed (`IsLegal` of bsc_table).
    ensures { NoneIsLeftOut }
{}
