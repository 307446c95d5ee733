//! The command `groups`: a network book to the number of its groups.

ghost use Rattle.std.specs.Prelude.{◌≡◌, IfErr, IfOk, OnOk, string_bytes};
ghost use Rattle.device_ends.specs.Stream.{Between, FaultBetween};
ghost use Rattle.warnc_run.specs.Engine.{IsEngineAtEnds};
ghost use Rattle.warnc_run.specs.Groups.{group_line, IsGroupCount, IsGroupsFault};
ghost use Rattle.warnc_run.specs.Made.{Makes};

use crate::fault::RunFault;
use crate::product::ProductFault;
use alert_book::count_groups;
use device_ends::{Failed, Sink, Source, write_all};
use std::alloc::{AllocError, AllocGlobal, Global};
use std::io::{Read, Write};
use std::thread::Threads;

/// Reads a network book, and writes a line with the number of its groups, 1 to 1,024, in decimal digits.
///
/// # Errors
///
/// [`ProductFault::Run`] with [`RunFault::Book`] or [`RunFault::Refused`], with nothing written, and
/// [`ProductFault::WriteFailed`] with a front of the line.
pub fn groups_stream<T: AllocGlobal + Threads + Sync, R: Read, W: Write>(
    rt: &T,
    source: &mut Source<R>,
    sink: &mut Sink<W>,
) -> Result<(), ProductFault>
    ensures ok { OnOk result (Between R.remaining W.contents (Makes IsGroupCount) source.old source.new sink.old
        sink.new) }
    ensures err { IfErr result (FaultBetween R.remaining W.contents IsGroupsFault source.old source.new sink.old
        sink.new) }

    // At any reader and any writer.
    ensures any_ends { IsEngineAtEnds result W.contents source.old source.new sink.old sink.new }
{
    let groups = match count_groups(rt, source) {
        Ok(groups) => groups,
        Err(fault) => return Err(ProductFault::Run(RunFault::Book(fault))),
    };
    let Ok(line) = line_of(rt.alloc(), groups) else {
        return Err(ProductFault::Run(RunFault::Refused));
    };
    match write_all(sink, line.as_bytes()) {
        Ok(()) => Ok(()),
        Err(Failed) => Err(ProductFault::WriteFailed),
    }
}

/// The line of a number of groups.
fn line_of(alloc: Global, groups: u16) -> Result<String, AllocError>
    ensures { IfOk result (λ line. string_bytes line ≡ group_line groups) }
{
    let mut line = groups.to_string(alloc)?;
    line.push_str("\n")?;
    Ok(line)
}
