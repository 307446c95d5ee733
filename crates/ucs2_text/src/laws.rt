//! Laws of UCS-2 text, over its definitions alone.

ghost use Rattle.ucs2_text.specs.Laws.{UnitsComeBack, OctetsComeBack, PutsWholePages, ReadsWholePages};
ghost use Rattle.ucs2_text.specs.Laws.{CharactersComeBack, UnitsShowScalars};

/// Laws of UCS-2 text, over every list of units or octets. It does nothing: its contract is the statement. Proofs cite
/// the lemmas of `proofs/Ucs2Laws.antt`.
pub fn ucs2_laws()
    ensures units_come_back { UnitsComeBack }
    ensures octets_come_back { OctetsComeBack }
    ensures puts_whole_pages { PutsWholePages }
    ensures reads_whole_pages { ReadsWholePages }
    ensures characters_come_back { CharactersComeBack }
    ensures units_show_scalars { UnitsShowScalars }
{}
