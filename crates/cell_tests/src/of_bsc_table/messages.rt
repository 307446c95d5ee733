//! Which messages of the warning centre are orders, and of what, as a table.

use crate::of_bsc_table::runs_table::expect_rows;
use crate::of_bsc_table::told::put_cell;
use bsc_table::{Category, Command, Refused, orders_of};
use cbs_page::{Content, Dcs, Serial};
use cbsp_wire::{Cell, Cells, Contents, Counts, Message, WireFault, read};
use std::alloc::{AllocError, Global};
use std::fmt::Write;
use std::test::Fail;
use test_support::{Drought, Words};

/// `order MESSAGE` is what a message comes to: the cells and the command, or the cause in hexadecimal. After `copy` the
/// command is a copy, and after `scarce copy` one that is made without any memory. `write CHANNEL CATEGORY` is a
/// message to write to cells 1-2 and 1-1, `kill CHANNEL` one to kill, and `killed CHANNEL` the reply to that; `-` is no
/// channel or no category.
const ORDERS: &str = "
# A write is an order to its cells, in their order.
order write - - -> 1-2 1-1 write 4370 0011 for 0010 normal every 7 times 5 dcs 01 both pages
copy write - - -> 1-2 1-1 write 4370 0011 for 0010 normal every 7 times 5 dcs 01 both pages
# So is a kill.
order kill 0 -> 1-2 1-1 kill 4370 0010
# A copy needs no memory: that of a write shares its pages.
scarce copy write - - -> 1-2 1-1 write 4370 0011 for 0010 normal every 7 times 5 dcs 01 both pages
scarce copy kill 0 -> 1-2 1-1 kill 4370 0010
# A category is known by its value.
order write 0 0 -> 1-2 1-1 write 4370 0011 for 0010 high every 7 times 5 dcs 01 both pages
order write 0 2 -> 1-2 1-1 write 4370 0011 for 0010 normal every 7 times 5 dcs 01 both pages
order write 0 1 -> 1-2 1-1 write 4370 0011 for 0010 background every 7 times 5 dcs 01 both pages
# An unknown category is refused before the extended channel is.
order write - 3 -> cause 01
order write 1 2 -> cause 0C
order write 1 1 -> cause 0C
order write 1 3 -> cause 01
order kill 1 -> cause 0C
# A reply is no order.
order killed 1 -> cause 04
";

/// A page.
const PAGE: Content = Content {
    used: 3,
    octets: [0x0D; 82],
};

/// The cells of each message.
fn cells(alloc: Global) -> Result<Cells, AllocError> {
    let list = [Cell { lac: 1, ci: 2 }, Cell { lac: 1, ci: 1 }];
    Ok(Cells {
        list: Vec::from_slice(alloc, list.as_slice())?,
    })
}

/// The next word, as the value of an element that may be absent.
fn element(words: &mut Words<'_>) -> Result<Option<u8>, Fail> {
    match words.word() {
        "-" => Ok(None),
        value => Ok(Some(value.parse::<u8>()?)),
    }
}

/// A message to write two pages.
fn message_to_write(
    alloc: Global,
    channel: Option<u8>,
    category: Option<u8>,
) -> Result<Message, Fail> {
    let contents = Contents::new(Vec::from_slice(alloc, [PAGE, PAGE].as_slice())?)?;
    Ok(Message::Write {
        id: 4370,
        new_serial: Serial::of(0x0011),
        old_serial: Some(Serial::of(0x0010)),
        cells: cells(alloc)?,
        channel,
        category,
        period: 7,
        broadcasts: 5,
        dcs: Dcs(0x01),
        contents,
    })
}

/// A message to kill.
fn message_to_kill(alloc: Global, channel: Option<u8>) -> Result<Message, Fail> {
    Ok(Message::Kill {
        id: 4370,
        old_serial: Serial::of(0x0010),
        cells: cells(alloc)?,
        channel,
    })
}

/// The reply to it.
fn reply_to_kill(alloc: Global, channel: Option<u8>) -> Result<Message, Fail> {
    Ok(Message::KillDone {
        id: 4370,
        old_serial: Serial::of(0x0010),
        completed: Counts {
            list: Vec::new(alloc),
        },
        cells: cells(alloc)?,
        channel,
    })
}

/// The message that words say.
fn message_of(alloc: Global, words: &mut Words<'_>) -> Result<Message, Fail> {
    match words.word() {
        "write" => {
            let channel = element(words)?;
            message_to_write(alloc, channel, element(words)?)
        }
        "kill" => message_to_kill(alloc, element(words)?),
        "killed" => reply_to_kill(alloc, element(words)?),
        _ => Err(Fail::new("no such message")),
    }
}

/// A category's name.
fn name_of(category: Category) -> &'static str {
    match category {
        Category::High => "high",
        Category::Normal => "normal",
        Category::Background => "background",
    }
}

/// What pages are.
fn pages_told(contents: &Contents) -> &'static str {
    if contents.as_slice() == [PAGE, PAGE].as_slice() {
        "both pages"
    } else {
        "other pages"
    }
}

/// The serial number of the message that a write replaces.
fn replaced(serial: Option<Serial>) -> u16 {
    match serial {
        Some(serial) => serial.number(),
        None => 0,
    }
}

/// Puts what a command does, and to which message.
fn put_named(told: &mut String, verb: &str, id: u16, serial: Serial) -> Result<(), AllocError> {
    write!(told, "{verb} {id} {:04X}", serial.number())
}

/// Puts how a write asks for a broadcast.
fn put_pace(
    told: &mut String,
    replaces: Option<Serial>,
    category: Category,
    period: u16,
    broadcasts: u16,
) -> Result<(), AllocError> {
    let (old, name) = (replaced(replaces), name_of(category));
    write!(
        told,
        " for {old:04X} {name} every {period} times {broadcasts}"
    )
}

/// Puts the pages of a write.
fn put_pages(told: &mut String, dcs: Dcs, contents: &Contents) -> Result<(), AllocError> {
    write!(told, " dcs {:02X} {}", dcs.0, pages_told(contents))
}

/// Puts what a command asks for.
fn put_command(told: &mut String, command: &Command) -> Result<(), AllocError> {
    match command {
        Command::Write {
            id,
            serial,
            replaces,
            category,
            period,
            broadcasts,
            dcs,
            contents,
        } => {
            put_named(told, "write", *id, *serial)?;
            put_pace(told, *replaces, *category, *period, *broadcasts)?;
            put_pages(told, *dcs, contents)
        }
        Command::Kill { id, serial } => put_named(told, "kill", *id, *serial),
        Command::Status { id, serial } => put_named(told, "status", *id, *serial),
    }
}

/// Puts the cells and the command of an order.
fn put_order(told: &mut String, cells: &[Cell], command: &Command) -> Result<(), AllocError> {
    for cell in cells {
        put_cell(told, *cell)?;
        told.push(' ')?;
    }
    put_command(told, command)
}

/// Puts the cells and the command of a message, or the cause for which it is refused.
fn put_ordered(told: &mut String, message: Message) -> Result<(), AllocError> {
    match orders_of(message) {
        Ok((cells, command)) => {
            let done = put_order(told, &cells, &command);
            drop(command);
            done
        }
        Err(cause) => write!(told, "cause {cause:02X}"),
    }
}

/// `order MESSAGE`: the cells and the command of a message, or the cause for which it is refused.
pub fn put_order_of(alloc: Global, told: &mut String, words: &mut Words<'_>) -> Result<(), Fail> {
    let message = message_of(alloc, words)?;
    Ok(put_ordered(told, message)?)
}

/// A copy of a command, where memory can be scarce.
fn copied_in(alloc: Global, drought: &mut Drought, command: &Command) -> Result<Command, Refused> {
    drought.begin(alloc);
    let outcome = command.copy(alloc);
    drought.end();
    outcome
}

/// Puts the cells of an order, and a copy of its command.
fn put_copy(
    alloc: Global,
    told: &mut String,
    drought: &mut Drought,
    cells: &[Cell],
    command: &Command,
) -> Result<Result<(), AllocError>, Refused> {
    let copy = copied_in(alloc, drought, command)?;
    let done = put_order(told, cells, &copy);
    drop(copy);
    Ok(done)
}

/// `copy MESSAGE`: the cells and the command of a message, by a copy of the command.
pub fn put_copy_of(
    alloc: Global,
    told: &mut String,
    drought: &mut Drought,
    words: &mut Words<'_>,
) -> Result<(), Fail> {
    match orders_of(message_of(alloc, words)?) {
        Ok((cells, command)) => {
            let done = put_copy(alloc, told, drought, &cells, &command);
            drop(command);
            Ok(done??)
        }
        Err(_cause) => Err(Fail::new("no order")),
    }
}

/// Puts the octets of cells, of location area and cell identity.
fn put_cells(told: &mut String, cells: &[Cell]) -> Result<(), AllocError> {
    for cell in cells {
        write!(told, "{:04x}{:04x}", cell.lac, cell.ci)?;
    }
    Ok(())
}

/// Puts the octets of the cells that a message's order names, or the cause for which it is refused.
fn put_cells_of(told: &mut String, message: Message) -> Result<(), AllocError> {
    match orders_of(message) {
        Ok((cells, command)) => {
            drop(command);
            put_cells(told, &cells)
        }
        Err(cause) => write!(told, "{cause:02x}"),
    }
}

/// `octets DIGITS`: the same of a message's octets.
pub fn put_cells_in(
    alloc: Global,
    told: &mut String,
    octets: &[u8],
) -> Result<Result<(), AllocError>, WireFault> {
    let message = read(alloc, octets)?;
    Ok(put_cells_of(told, message))
}

#[test]
fn messages_are_orders_or_have_a_cause(rt: HostRuntime) -> Result<(), Fail> {
    expect_rows(&rt, rt.alloc(), ORDERS, 14)
}
