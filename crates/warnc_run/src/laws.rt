//! Laws of what is written.

ghost use Rattle.warnc_run.specs.FirstShown.{FirstShownIsThePhones};
ghost use Rattle.warnc_run.specs.OneOutput.{OutputIsOne};
ghost use Rattle.warnc_run.specs.ReportColumns.{PlainReportIsCut, UntimedReportIsCut};
ghost use Rattle.warnc_run.specs.Whole.{NetworkTapesAreOfOneRun};

/// States, as its contract, that what is written of a run with one session is a function of the octets that were read
/// and of the number of slots. With more sessions, in which order they come to a cell is chance, and the tapes may
/// differ. Does nothing: its body names the laws that carry it.
pub fn output_laws()
    // Tapes, reports and charts, of a book, of a group and of a network, are the same whatever the number of workers,
    // the machine and the day.
    ensures { OutputIsOne }
{
    alert_book::book_laws();
    alert_book::network_laws();
    book_runs::one_run_law();
    book_runs::session_laws();
}

/// States, as its contract, that the tapes of a network's groups are those of one run of all its cells. Does nothing:
/// its body names the laws that carry it.
pub fn whole_laws()
    ensures { NetworkTapesAreOfOneRun }
{
    alert_book::network_laws();
    book_runs::networks_law();
    book_runs::session_laws();
}

/// States, as its contract, that the plain report of a book, or of a group, is its full report with the order's two
/// columns, and those after the next eight, left out, and its report without times the one with times with these left
/// out. Does nothing: its body names the laws that carry it.
pub fn report_column_laws()
    ensures columns { PlainReportIsCut }
    ensures times { UntimedReportIsCut }
{
    alert_book::book_laws();
    book_runs::one_run_law();
    book_runs::session_laws();
    report::report_laws();
}

/// States, as its contract, that the slot after which a report says that a message is shown first is the first after
/// whose blocks a handset shows it. Does nothing: its body names the law that carries it.
pub fn first_shown_law()
    ensures { FirstShownIsThePhones }
{
    composition::composition_laws();
}
