//! Laws over the definitions of `verify`.

ghost use Rattle.warnc_verify.specs.Laws.{CompiledDiffersNowhere, VerdictsExclude, VerifiedIsOne};

/// States, as its contract, what is so of a book and of tapes whoever judges them. Own rules, of no standard.
///
/// Does nothing: its contract is the law, and its body names the laws that carry it.
pub fn verify_laws()
    // The rows of a book and of tapes are one list, and so is their table; so tapes that have a difference from a book
    // aren't verified by it.
    ensures verified_is_one { VerifiedIsOne }
    ensures verdicts_exclude { VerdictsExclude }

    // The tapes that are compiled of a book have nothing that differs from what its orders asked.
    ensures compiled_differs_nowhere { CompiledDiffersNowhere }
{
    alert_book::book_laws();
    book_runs::one_run_law();
    book_runs::session_laws();
    handset::recording_laws();
    verification_laws::verification_laws();
}
