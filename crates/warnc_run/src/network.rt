//! A network book to the parts of all its groups.

ghost use Rattle.std.specs.Prelude.{◌≡◌, ◌↔◌, ◌≤◌, false, true, IfErr, IfOk, IsErrOf, IsTrue, OnOk};
ghost use Rattle.device_ends.specs.Moves.{ReadsUpTo};
ghost use Rattle.device_ends.specs.Source.{reader_of, source_failed};
ghost use Rattle.alert_book.specs.Book.{unread};
ghost use Rattle.alert_book.specs.Network.{RefusesNetwork};
ghost use Rattle.warnc_run.specs.Engine.{IsEngineAtEnds};
ghost use Rattle.warnc_run.specs.Made.{IsMade, IsUnmade};
ghost use Rattle.warnc_run.specs.Network.{IsNetworkFault, IsOfNetwork};

use crate::fault::RunFault;
use crate::parts::write_groups;
use crate::product::{Product, ProductFault};
use crate::run::{Run, Sessions};
use alert_book::{BookFault, BookFaultKind, MAX_NETWORK, Network};
use device_ends::{ReadFault, Sink, Source, read_up_to};
use std::alloc::{AllocGlobal, Global};
use std::io::{Read, Write};
use std::sync::Wait;
use std::thread::Threads;

/// A network whose groups are run, each by itself and by one worker.
#[derive(Clone, Copy)]
pub(crate) struct NetworkRun<'a> {
    pub(crate) network: &'a Network,
    pub(crate) groups: u16,
    pub(crate) made: Product,
    pub(crate) slots: u16,
    pub(crate) sessions: Sessions,
    pub(crate) ghost few_groups: { groups ≤ 65535 },
    pub(crate) ghost few_slots: { slots ≤ 65535 },
}

/// Reads a network book, runs the book of each of its groups by itself and by one worker, as many of them side by side
/// as there are workers, and writes the parts of the groups in their order, a few at a time: the tapes of as many
/// groups as there are workers, or the texts of eight times as many.
///
/// # Errors
///
/// Those that [`run_product`](crate::run_product) names for a network.
pub(crate) fn write_network<T: AllocGlobal + Threads + Wait + Sync, R: Read, W: Write>(
    rt: &T,
    source: &mut Source<R>,
    sink: &mut Sink<W>,
    run: &Run,
    made: Product,
) -> Result<(), ProductFault>
    ensures ok { IsMade result R.remaining W.contents (IsOfNetwork made run.now.slots run.now.sessions.number)
        source.old
        source.new sink.old sink.new }
    ensures err { IsUnmade result R.remaining W.contents (IsNetworkFault made run.now.slots run.now.sessions.number)
        source.old source.new sink.old sink.new }

    // At any reader and any writer.
    ensures any_ends { IsEngineAtEnds result W.contents source.old source.new sink.old sink.new }
{
    let octets = match octets_of_network(rt.alloc(), source) {
        Ok(octets) => octets,
        Err(fault) => return Err(ProductFault::Run(RunFault::Book(fault))),
    };
    let network = match Network::read(rt, &octets) {
        Ok(network) => network,
        Err(fault) => return Err(ProductFault::Run(RunFault::Book(fault))),
    };
    drop(octets);
    if sink.failed() {
        return Err(ProductFault::WriteFailed);
    }
    let runs = NetworkRun {
        network: &network,
        groups: network.groups(),
        made,
        slots: run.slots,
        sessions: run.sessions,
    };
    write_groups(rt, &runs, run.workers, sink)
}

/// Reads octets to their end, or one more than a network book may have.
fn octets_of_network<R: Read>(alloc: Global, source: &mut Source<R>) -> Result<Vec<u8>, BookFault>
    ensures ok { IfOk result (λ octets. ReadsUpTo (R.remaining (reader_of source.old))
        (R.remaining (reader_of source.new)) octets.items 67108864) }
    ensures err { IfErr result (λ fault. RefusesNetwork (R.remaining (reader_of source.old))
        (R.remaining (reader_of source.new)) 0 fault) }
    ensures device { IsErrOf result unread ↔ IsTrue (source_failed source.new) }
    ensures not_failed { OnOk result (source_failed source.new ≡ false) }
    ensures failed_stays { source_failed source.old ≡ true → source.new ≡ source.old }
{
    match read_up_to(source, alloc, MAX_NETWORK) {
        Ok(octets) => Ok(octets),
        Err(ReadFault::Device) => Err(fault_of_all(BookFaultKind::ReadFailed)),
        Err(ReadFault::Refused) => Err(fault_of_all(BookFaultKind::Refused)),
    }
}

/// A fault that is no row's.
fn fault_of_all(kind: BookFaultKind) -> BookFault
    ensures row { result.row ≡ 0 }
    ensures kind { result.kind ≡ kind }
{
    BookFault { row: 0, kind }
}
