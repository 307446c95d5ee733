//! Laws of the definitions alone, which the contracts of `read` and `write` cite.

ghost use Rattle.cbsp_wire.specs.Laws.{OneMeaning, MeantIsFaultless, FaultlessIsMeant, WrittenIsMeant};
ghost use Rattle.cbsp_wire.specs.Laws.{WritableExactlyIfMeant, WrittenIsReadBack};
ghost use Rattle.cbsp_wire.specs.Laws.{MandatoryTestIsExact, ValidityTestIsExact};

/// States, as its contract, that octets mean one message at most, and which messages have octets. It does nothing.
pub fn meaning_law()
    // What octets mean is one message, and they mean something exactly if they have no fault.
    ensures one_value { OneMeaning }
    ensures no_fault { MeantIsFaultless }
    ensures some_value { FaultlessIsMeant }

    // A message that some octets mean is what the octets written of it mean, and nothing else is.
    ensures written { WrittenIsMeant }
    ensures round_trip { WrittenIsReadBack }

    // A message is writable exactly if some octets mean it.
    ensures writable { WritableExactlyIfMeant }

    // The tests for the causes 05 and 01 are exact.
    ensures mandatory_test { MandatoryTestIsExact }
    ensures validity_test { ValidityTestIsExact }
{}
