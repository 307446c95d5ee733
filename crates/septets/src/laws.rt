//! Laws of packing, over its definitions alone.

ghost use Rattle.septets.specs.Laws.{PackingIsUnique, SpareBitsAreIgnored, UnpackingGivesBack, UnpackingIsBitwise};

/// Laws of packing, over every list of septets or octets: packing is unique, and unpacking gives back what was packed.
/// It does nothing: its contract is the statement.
pub fn packing_laws()
    ensures unique { PackingIsUnique }
    ensures gives_back { UnpackingGivesBack }
    ensures bitwise { UnpackingIsBitwise }
    ensures spare { SpareBitsAreIgnored }
{}
