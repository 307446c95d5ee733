//! Laws of remarks.

ghost use Rattle.book_remarks.specs.Laws.{RemarkedAreClean, RemarksAreOne, UnremarkedAreKept, UntimedLacksTimes};

/// Where nothing is remarked, each cell did what each order that names it orders, and no later than at its slot, and
/// sent the last page of the order's message. For a number of slots octets have one table of remarks, as a book, as a
/// network book and for each of its groups, and if they have one, no row has a fault. The table of a book without times
/// is the one with times with their column left out. It does nothing: its contract is the law, and its body names the
/// laws that carry it.
pub fn remark_laws()
    ensures kept { UnremarkedAreKept }
    ensures one { RemarksAreOne }
    ensures clean { RemarkedAreClean }
    ensures times { UntimedLacksTimes }
{
    alert_book::book_laws();
    alert_book::network_laws();
    book_check::check_laws();
    book_runs::one_run_law();
    book_runs::session_laws();
}
