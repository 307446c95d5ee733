//! Laws of paging, over its definitions alone.

ghost use Rattle.cbs_page.specs.Laws.{PagedTextsComeBack, PagingIsUnique, SentTextHasNoFault, SentTextIsOne};
ghost use Rattle.cbs_page.specs.Laws.{TextFaultIsOne};

/// Laws of paging, over every text: it has one list of pages at most, so what `paginate` returns, and whether that is
/// too many, is determined. It does nothing: its contract is the statement.
pub fn paging_laws()
    ensures { PagingIsUnique }
{}

/// Laws of texts as they are sent, by the definitions alone: the texts that the pages show in their data coding,
/// joined, are the text (3GPP TS 23.038, clauses 5 and 6); and a text has one data coding and one list of contents, or
/// one fault. It does nothing: its contract is the statement.
pub fn text_laws()
    ensures comes_back { PagedTextsComeBack }
    ensures sent_is_one { SentTextIsOne }
    ensures sent_has_no_fault { SentTextHasNoFault }
    ensures fault_is_one { TextFaultIsOne }
{}
