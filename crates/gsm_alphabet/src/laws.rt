//! Laws of the alphabet, over its definitions alone.

ghost use Rattle.gsm_alphabet.specs.Laws.{TextBeginsWithCharacter, TextBeginsWithCharacters, TextComesBack};
ghost use Rattle.gsm_alphabet.specs.Laws.{TakesOneOrTwo, SeptetsAreSmall, OnlyReturnTakesReturn};
ghost use Rattle.gsm_alphabet.specs.Laws.{ShowsBasicScalars, HasBasicScalars, EntriesAreCodes};

/// Laws of the alphabet, over every character and every septet list. It does nothing: its contract is the statement.
/// Proofs cite the lemmas of `proofs/AlphabetLaws.antt`.
pub fn alphabet_laws()
    ensures text_begins { TextBeginsWithCharacter }
    ensures texts_begin { TextBeginsWithCharacters }
    ensures text_comes_back { TextComesBack }
    ensures one_or_two_septets { TakesOneOrTwo }
    ensures septets_are_small { SeptetsAreSmall }
    ensures only_return_takes_return { OnlyReturnTakesReturn }
    ensures shows_basic_scalars { ShowsBasicScalars }
    ensures has_basic_scalars { HasBasicScalars }
    ensures entries_are_codes { EntriesAreCodes }
{}
