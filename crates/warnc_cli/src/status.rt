//! The statuses of a run, and which fault ends one with which status.

ghost use Rattle.std.specs.Prelude.{◌≡◌, ℕ};
ghost use Rattle.warnc_cli.specs.Status.{status_of_book_fault, status_of_check_fault, status_of_page_fault};
ghost use Rattle.warnc_cli.specs.Status.{status_of_orders_fault, status_of_pcap_fault, status_of_plan_fault};
ghost use Rattle.warnc_cli.specs.Status.{status_of_strict_fault};
ghost use Rattle.warnc_cli.specs.Status.{status_of_product_fault, status_of_read_fault, status_of_remark_fault};
ghost use Rattle.warnc_cli.specs.Status.{status_of_run_fault};
ghost use Rattle.warnc_cli.specs.Status.{status_of_tape_fault, status_of_tapes_fault, status_of_texts_fault};
ghost use Rattle.warnc_cli.specs.Status.{status_of_tapes_of_all, status_of_verify_fault};
ghost use Rattle.warnc_cli.specs.Status.{status_of_verify_orders_fault};

use alert_book::{BookFault, BookFaultKind};
use book_check::CheckFault;
use book_remarks::RemarkFault;
use book_texts::TextsFault;
use cbs_page::TextFault;
use handset::TapeFault;
use order_desk::{DeskFault, SettleFault};
use parallel_compile::CompileFault;
use plan::PlanFault;
use std::fmt::Display;
use std::io::Write;
use warnc_air::all::AllTapesFault;
use warnc_air::orders::OrdersCommandFault;
use warnc_air::pcap::PcapFault;
use warnc_air::tape::TapeCommandFault;
use warnc_inspect::page::PageFault;
use warnc_inspect::read::ReadCommandFault;
use warnc_run::{ProductFault, RunFault, StrictFault};
use warnc_verdict::VerifyOrdersFault;
use warnc_verify::VerifyFault;

/// All was done, or help was written.
pub const DONE: u8 = 0;

/// The input is refused, or has a difference or a fault.
pub const REFUSED_INPUT: u8 = 1;

/// The words are no command line.
pub const USAGE: u8 = 2;

/// A device failed.
pub const DEVICE: u8 = 3;

/// Out of memory.
pub const MEMORY: u8 = 4;

/// A fault that ends a run: its text is the line that reports it.
pub(crate) trait Fault: Display {
    /// The status of each fault.
    ghost status_of: { Self → ℕ };

    /// The status of a run that ends with this fault.
    fn status(&self) -> u8
        ensures { result ≡ status_of self.now };
}

/// Reports the fault that ends a run by a line for `faults`, and returns the status of the run. What `faults` doesn't
/// take changes nothing.
pub(crate) fn failed<E: Fault, F: Write>(fault: &E, faults: &mut F) -> u8
    ensures { result ≡ E.status_of fault.now }
{
    let _ = writeln!(faults, "warnc: {fault}");
    fault.status()
}

/// Whether a fault of `tape` of all cells is one of the table.
fn is_of_table(fault: &AllTapesFault) -> bool {
    matches!(
        fault,
        AllTapesFault::TableReadFailed
            | AllTapesFault::TableTooLong
            | AllTapesFault::Table(_)
            | AllTapesFault::NoBlock(_)
    )
}

/// Reports a fault of `tape` of all cells: one of the table is named by its file, since the capture is another input.
pub(crate) fn failed_with_table<F: Write>(fault: &AllTapesFault, file: &str, faults: &mut F) -> u8
    ensures { result ≡ status_of_tapes_of_all fault.now }
{
    if is_of_table(fault) {
        let _ = writeln!(faults, "warnc: {file}: {fault}");
        return fault.status();
    }
    failed(fault, faults)
}

/// Reports a fault of `verify`: a book that couldn't be read is named by its file, since the tapes are another input.
pub(crate) fn failed_with_book<F: Write>(fault: &VerifyFault, file: &str, faults: &mut F) -> u8
    ensures { result ≡ status_of_verify_fault fault.now }
{
    match *fault {
        VerifyFault::Run(
            RunFault::Book(
                BookFault {
                    row: 0,
                    kind: BookFaultKind::ReadFailed,
                },
            ),
        ) => {
            let _ = writeln!(faults, "warnc: {file}: {fault}");
            DEVICE
        }
        _ => failed(fault, faults),
    }
}

/// Whether a fault of `verify` of orders is one of their file.
fn is_of_orders(fault: &VerifyOrdersFault) -> bool {
    matches!(
        fault,
        VerifyOrdersFault::Unread | VerifyOrdersFault::TooLong | VerifyOrdersFault::Orders(_)
    )
}

/// Reports a fault of `verify` of orders: one of their file is named by it, since the tapes are another input.
pub(crate) fn failed_with_orders<F: Write>(
    fault: &VerifyOrdersFault,
    file: &str,
    faults: &mut F,
) -> u8
    ensures { result ≡ status_of_verify_orders_fault fault.now }
{
    if !is_of_orders(fault) {
        return failed(fault, faults);
    }
    let status = fault.status();
    let _ = writeln!(faults, "warnc: {file}: {fault}");
    status
}

impl Fault for PageFault {
    ghost status_of = { status_of_page_fault };

    fn status(&self) -> u8 {
        match *self {
            PageFault::TooLong | PageFault::NotUtf8 => REFUSED_INPUT,
            PageFault::Text(TextFault::Refused) | PageFault::Refused => MEMORY,
            PageFault::Text(_) => REFUSED_INPUT,
            PageFault::ReadFailed | PageFault::WriteFailed => DEVICE,
        }
    }
}

impl Fault for ReadCommandFault {
    ghost status_of = { status_of_read_fault };

    fn status(&self) -> u8 {
        match *self {
            ReadCommandFault::Short | ReadCommandFault::Long => REFUSED_INPUT,
            ReadCommandFault::ReadFailed | ReadCommandFault::WriteFailed => DEVICE,
            ReadCommandFault::Refused => MEMORY,
        }
    }
}

impl Fault for PcapFault {
    ghost status_of = { status_of_pcap_fault };

    fn status(&self) -> u8 {
        match *self {
            PcapFault::Short | PcapFault::Long => REFUSED_INPUT,
            PcapFault::ReadFailed | PcapFault::WriteFailed => DEVICE,
            PcapFault::Refused => MEMORY,
        }
    }
}

impl Fault for TapeCommandFault {
    ghost status_of = { status_of_tape_fault };

    fn status(&self) -> u8 {
        match *self {
            TapeCommandFault::TooLong | TapeCommandFault::Air(_) => REFUSED_INPUT,
            TapeCommandFault::ReadFailed | TapeCommandFault::WriteFailed => DEVICE,
            TapeCommandFault::Refused => MEMORY,
        }
    }
}

impl Fault for OrdersCommandFault {
    ghost status_of = { status_of_orders_fault };

    fn status(&self) -> u8 {
        match *self {
            OrdersCommandFault::TooLong | OrdersCommandFault::Air(_) => REFUSED_INPUT,
            OrdersCommandFault::NoTime(_) | OrdersCommandFault::Early { .. } => REFUSED_INPUT,
            OrdersCommandFault::ReadFailed | OrdersCommandFault::WriteFailed => DEVICE,
            OrdersCommandFault::Refused => MEMORY,
        }
    }
}

impl Fault for AllTapesFault {
    ghost status_of = { status_of_tapes_of_all };

    fn status(&self) -> u8 {
        match *self {
            AllTapesFault::TableTooLong | AllTapesFault::Table(_) => REFUSED_INPUT,
            AllTapesFault::TooLong | AllTapesFault::Air(_) => REFUSED_INPUT,
            AllTapesFault::NoBlock(_) => REFUSED_INPUT,
            AllTapesFault::TableReadFailed | AllTapesFault::ReadFailed => DEVICE,
            AllTapesFault::WriteFailed => DEVICE,
            AllTapesFault::Refused => MEMORY,
        }
    }
}

impl Fault for CheckFault {
    ghost status_of = { status_of_check_fault };

    fn status(&self) -> u8 {
        match *self {
            CheckFault::Faults(_) | CheckFault::NoGroup(_) | CheckFault::TooLong => REFUSED_INPUT,
            CheckFault::ReadFailed | CheckFault::WriteFailed => DEVICE,
            CheckFault::Refused => MEMORY,
        }
    }
}

impl Fault for RemarkFault {
    ghost status_of = { status_of_remark_fault };

    fn status(&self) -> u8 {
        match *self {
            RemarkFault::Faults(_) | RemarkFault::NoGroup(_) => REFUSED_INPUT,
            RemarkFault::TooLong | RemarkFault::Run(_) | RemarkFault::Remarks(_) => REFUSED_INPUT,
            RemarkFault::ReadFailed | RemarkFault::WriteFailed => DEVICE,
            RemarkFault::Refused => MEMORY,
        }
    }
}

impl Fault for PlanFault {
    ghost status_of = { status_of_plan_fault };

    fn status(&self) -> u8 {
        match *self {
            PlanFault::TooLong | PlanFault::Row(_) => REFUSED_INPUT,
            PlanFault::ReadFailed | PlanFault::WriteFailed => DEVICE,
            PlanFault::Refused => MEMORY,
        }
    }
}

impl Fault for TextsFault {
    ghost status_of = { status_of_texts_fault };

    fn status(&self) -> u8 {
        match *self {
            TextsFault::TooLong | TextsFault::Row(_) | TextsFault::NoGroup(_) => REFUSED_INPUT,
            TextsFault::ReadFailed | TextsFault::WriteFailed => DEVICE,
            TextsFault::Refused => MEMORY,
        }
    }
}

impl Fault for RunFault {
    ghost status_of = { status_of_run_fault };

    fn status(&self) -> u8 {
        match *self {
            RunFault::Book(fault) => status_of_book(fault),
            RunFault::NoGroup(_) => REFUSED_INPUT,
            RunFault::Write(_) => DEVICE,
            RunFault::Desk(DeskFault::Memory { .. }) => MEMORY,
            RunFault::Settle(SettleFault::Refused) => MEMORY,
            RunFault::Compile(CompileFault::Refused) | RunFault::Refused => MEMORY,
            RunFault::Desk(_) | RunFault::Settle(_) | RunFault::Compile(_) => REFUSED_INPUT,
        }
    }
}

impl Fault for ProductFault {
    ghost status_of = { status_of_product_fault };

    fn status(&self) -> u8 {
        match *self {
            ProductFault::Run(fault) | ProductFault::Group { fault, .. } => fault.status(),
            ProductFault::WriteFailed => DEVICE,
        }
    }
}

impl Fault for StrictFault {
    ghost status_of = { status_of_strict_fault };

    fn status(&self) -> u8 {
        match *self {
            StrictFault::Product(fault) => fault.status(),
            StrictFault::Undone { .. } => REFUSED_INPUT,
        }
    }
}

impl Fault for TapeFault {
    ghost status_of = { status_of_tapes_fault };

    fn status(&self) -> u8 {
        match *self {
            TapeFault::Short | TapeFault::Long => REFUSED_INPUT,
            TapeFault::ReadFailed => DEVICE,
            TapeFault::Refused => MEMORY,
        }
    }
}

impl Fault for VerifyFault {
    ghost status_of = { status_of_verify_fault };

    fn status(&self) -> u8 {
        match *self {
            VerifyFault::Run(fault) => fault.status(),
            VerifyFault::Tapes(fault) => fault.status(),
            VerifyFault::Differences(_) => REFUSED_INPUT,
            VerifyFault::Refused => MEMORY,
            VerifyFault::WriteFailed => DEVICE,
        }
    }
}

impl Fault for VerifyOrdersFault {
    ghost status_of = { status_of_verify_orders_fault };

    fn status(&self) -> u8 {
        match *self {
            VerifyOrdersFault::TooLong | VerifyOrdersFault::Orders(_) => REFUSED_INPUT,
            VerifyOrdersFault::Tapes(fault) => fault.status(),
            VerifyOrdersFault::Differences(_) => REFUSED_INPUT,
            VerifyOrdersFault::Unread | VerifyOrdersFault::WriteFailed => DEVICE,
            VerifyOrdersFault::Refused => MEMORY,
        }
    }
}

/// The status of a fault of a book.
fn status_of_book(fault: BookFault) -> u8
    ensures { result ≡ status_of_book_fault fault }
{
    match fault.kind {
        BookFaultKind::ReadFailed if fault.row == 0 => DEVICE,
        BookFaultKind::Refused | BookFaultKind::Text(TextFault::Refused) => MEMORY,
        _ => REFUSED_INPUT,
    }
}
