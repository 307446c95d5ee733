//! The command line as clap is told of it: which commands and options there are, and what their help says.

use cbs_page::MAX_PAGES;
use clap::builder::ValueParser;
use clap::{Arg, ArgAction, Command, value_parser};
use parallel_compile::MAX_WORKERS;
use std::alloc::{AllocError, Global};

/// The version of the program, and on a line of its own what `rt version` says of the toolchain that proved it.
const VERSION: &str = "1.23.2\nrattle-kit-13b logic dac8208d650f15bf";

/// The words for the channel that packets name.
const CHANNEL_TYPES: &[&str] = &["cbch", "sdcch"];

/// The words for the languages of a page.
const LANGUAGES: &[&str] = &["en", "de"];

/// The columns of a book, at the end of the program's help. docs/formats.md says all of it.
const COLUMNS: &str = concat!(
    "A book is CSV, a row for each cell and then one for each order:\n",
    "  cell,LAC,CI\n",
    "  write,AT,NAME,ID,SCOPE,CODE,LANG,CATEGORY,PERIOD,BROADCASTS,CELLS,TEXT\n",
    "  update,AT,NAME,LANG,CATEGORY,PERIOD,BROADCASTS,CELLS,TEXT\n",
    "  stop,AT,NAME,CELLS\n",
    "LAC, CI, AT (a slot), ID, BROADCASTS (0: until it is stopped) 0 to 65535\n",
    "SCOPE 0 to 3, CODE 0 to 1023, PERIOD (in slots) 1 to 1024\n",
    "CATEGORY 0 high, 1 background, 2 normal; LANG as page's --lang\n",
    "CELLS * for all cells so far, or names as 1-1 1-2",
);

/// The program's command line. Its commands are listed in this order.
pub(crate) fn warnc<'a>(alloc: Global) -> Result<Command<'a>, AllocError> {
    let command = Command::new(alloc, "warnc")
        .about(
            "Compiles cell broadcast warnings to the blocks that cells send,\nand reads them as handsets do",
        )
        .after_help(COLUMNS)
        .version(VERSION)
        .subcommand_required(true)
        .arg_required_else_help(true);
    let command = with_plans(alloc, command)?;
    let command = with_runs(alloc, command)?;
    let command = with_tapes(alloc, command)?;
    let command = with_captures(alloc, command)?;
    with_networks(alloc, command)
}

/// Adds the commands on plans and books: each function adds a few, since what is given back where one can't be added
/// grows with those before it.
fn with_plans<'a>(alloc: Global, command: Command<'a>) -> Result<Command<'a>, AllocError> {
    command
        .subcommand(plan(alloc))?
        .subcommand(check(alloc)?)?
        .subcommand(texts(alloc)?)
}

/// Adds those that run a book.
fn with_runs<'a>(alloc: Global, command: Command<'a>) -> Result<Command<'a>, AllocError> {
    command
        .subcommand(compile(alloc)?)?
        .subcommand(report(alloc)?)?
        .subcommand(chart(alloc)?)?
        .subcommand(load(alloc)?)
}

/// Adds those on tapes, and those on a text and on sessions.
fn with_tapes<'a>(alloc: Global, command: Command<'a>) -> Result<Command<'a>, AllocError> {
    command
        .subcommand(read(alloc)?)?
        .subcommand(verify(alloc)?)?
        .subcommand(page(alloc)?)?
        .subcommand(live(alloc)?)
}

/// Adds those on captures.
fn with_captures<'a>(alloc: Global, command: Command<'a>) -> Result<Command<'a>, AllocError> {
    command
        .subcommand(pcap(alloc)?)?
        .subcommand(cells(alloc))?
        .subcommand(tape(alloc)?)?
        .subcommand(orders(alloc)?)
}

/// Adds the last three.
fn with_networks<'a>(alloc: Global, command: Command<'a>) -> Result<Command<'a>, AllocError> {
    command
        .subcommand(link(alloc)?)?
        .subcommand(whole(alloc))?
        .subcommand(groups(alloc))
}

/// The command line of `compile`.
fn compile<'a>(alloc: Global) -> Result<Command<'a>, AllocError> {
    Command::new(alloc, "compile")
        .about("Reads a book of alerts, as CSV, and writes the tapes of its cells")
        .after_help("Example: warnc compile --slots 4096 --workers 4 < book.csv > tapes")
        .arg(slots(alloc))?
        .arg(group(alloc))?
        .arg(network(alloc)?)?
        .arg(all_done(alloc)?)?
        .arg(workers(alloc))
}

/// The command line of `report`.
fn report<'a>(alloc: Global) -> Result<Command<'a>, AllocError> {
    Command::new(alloc, "report")
        .about(
            "Reads a book of alerts, as CSV, and writes what became of each order\nin each cell, as CSV",
        )
        .after_help("Example: warnc report --slots 4096 < book.csv")
        .arg(slots(alloc))?
        .arg(group(alloc))?
        .arg(network(alloc)?)?
        .arg(full(alloc))?
        .arg(clock(alloc))?
        .arg(workers(alloc))
}

/// The command line of `chart`.
fn chart<'a>(alloc: Global) -> Result<Command<'a>, AllocError> {
    Command::new(alloc, "chart")
        .about(
            "Reads a book of alerts, as CSV, and writes what became of them in\neach cell as a page to look at",
        )
        .after_help("Example: warnc chart --slots 4096 < book.csv > chart.html")
        .arg(slots(alloc))?
        .arg(group(alloc))?
        .arg(network(alloc)?)?
        .arg(charted_cell(alloc))?
        .arg(charted_from(alloc))?
        .arg(charted_to(alloc))?
        .arg(charted_language(alloc))?
        .arg(charted_clock(alloc))?
        .arg(tables(alloc)?)?
        .arg(all_done(alloc)?)?
        .arg(workers(alloc))
}

/// The command line of `load`.
fn load<'a>(alloc: Global) -> Result<Command<'a>, AllocError> {
    Command::new(alloc, "load")
        .about(
            "Reads a book of alerts, as CSV, and writes how full each cell is from\nwhich slot on, as CSV",
        )
        .after_help("Example: warnc load --slots 4096 < book.csv")
        .arg(slots(alloc))?
        .arg(group(alloc))?
        .arg(network(alloc)?)?
        .arg(differing_clock(alloc))?
        .arg(workers(alloc))
}

/// The command line of `read`.
fn read<'a>(alloc: Global) -> Result<Command<'a>, AllocError> {
    Command::new(alloc, "read")
        .about("Reads tapes of blocks and writes a table of what a handset shows of\nthem, as CSV")
        .after_help("Example: warnc read --short < tapes")
        .arg(short(alloc))?
        .arg(pages_by_slot(alloc))
}

/// The command line of `verify`.
fn verify<'a>(alloc: Global) -> Result<Command<'a>, AllocError> {
    let command = Command::new(alloc, "verify")
        .about(
            "Reads tapes, also of another sender's, and writes what they have\notherwise than a book of alerts asks, or than orders ask of a cell, as\nCSV",
        )
        .after_help(
            "Examples: warnc verify --slots 4096 --book book.csv < tapes\n          warnc verify --orders orders.csv --cell 1-1 --delay 4 < tapes",
        );
    let command = by_book(alloc, command)?;
    by_orders(alloc, command)
}

/// Adds the options of `verify` by a book.
fn by_book<'a>(alloc: Global, command: Command<'a>) -> Result<Command<'a>, AllocError> {
    command
        .arg(book(alloc)?)?
        .arg(verified_slots(alloc)?)?
        .arg(short(alloc))?
        .arg(explain(alloc))?
        .arg(differing_clock(alloc))?
        .arg(group(alloc))?
        .arg(workers(alloc))
}

/// Adds those of `verify` by the orders of a cell.
fn by_orders<'a>(alloc: Global, command: Command<'a>) -> Result<Command<'a>, AllocError> {
    command
        .arg(judging_orders(alloc)?)?
        .arg(judged_cell(alloc)?)?
        .arg(delay(alloc)?)?
        .arg(lag(alloc)?)
}

/// The command line of `check`.
fn check<'a>(alloc: Global) -> Result<Command<'a>, AllocError> {
    Command::new(alloc, "check")
        .about(
            "Reads a book of alerts, as CSV, and writes every row that has a\nfault, its column, and what is wanted there, as CSV",
        )
        .after_help("Example: warnc check --slots 4096 < book.csv")
        .arg(checked_slots(alloc))?
        .arg(checked_group(alloc))?
        .arg(checked_network(alloc)?)?
        .arg(checked_clock(alloc)?)?
        .arg(strict(alloc)?)
}

/// The command line of `plan`.
fn plan<'a>(alloc: Global) -> Command<'a> {
    Command::new(alloc, "plan")
        .about(
            "Reads a plan of alerts, as spreadsheets write it, and writes the book\nthat it comes to, as CSV",
        )
        .after_help("Example: warnc plan < plan.csv > book.csv")
}

/// The command line of `texts`.
fn texts<'a>(alloc: Global) -> Result<Command<'a>, AllocError> {
    Command::new(alloc, "texts")
        .about(
            "Reads a book of alerts, as CSV, and writes what each text of it\ncosts: its coding, its pages, and what forces UCS-2, as CSV",
        )
        .after_help("Example: warnc texts --pages 2 < book.csv")
        .arg(pages(alloc))?
        .arg(group(alloc))?
        .arg(whole_network(alloc)?)
}

/// The command line of `page`.
fn page<'a>(alloc: Global) -> Result<Command<'a>, AllocError> {
    Command::new(alloc, "page")
        .about(
            "Reads a text and writes the blocks of its pages, then what a handset\nshows of them, or a table of the pages",
        )
        .after_help(
            "Example: echo 'Move now' |\n  warnc page --lang en --id 4370 --scope 0 --code 1 --update 0",
        )
        .arg(language(alloc))?
        .arg(id(alloc))?
        .arg(scope(alloc))?
        .arg(code(alloc))?
        .arg(update(alloc))?
        .arg(page_table(alloc))
}

/// The command line of `live`.
fn live<'a>(alloc: Global) -> Result<Command<'a>, AllocError> {
    Command::new(alloc, "live")
        .about(
            "Does what compile does, with the book's alerts shared by sessions\nthat order side by side",
        )
        .after_help(
            "Example:\n  warnc live --slots 4096 --sessions 4 --workers 4 < book.csv > tapes",
        )
        .arg(slots(alloc))?
        .arg(group(alloc))?
        .arg(network(alloc)?)?
        .arg(all_done(alloc)?)?
        .arg(sessions(alloc))?
        .arg(workers(alloc))
}

/// The command line of `pcap`.
fn pcap<'a>(alloc: Global) -> Result<Command<'a>, AllocError> {
    Command::new(alloc, "pcap")
        .about(
            "Reads tapes of blocks and writes them as a capture file, a GSMTAP\npacket for each block",
        )
        .after_help("Example: warnc pcap --used < tapes > air.pcap")
        .arg(used(alloc))?
        .arg(channel(alloc))?
        .arg(start(alloc))
}

/// The command line of `cells`.
fn cells<'a>(alloc: Global) -> Command<'a> {
    Command::new(alloc, "cells")
        .about(
            "Reads a capture file of GSMTAP packets over IPv4, and writes a table of\nwho sends cell broadcasts in it, and which, as CSV",
        )
        .after_help("Example: warnc cells < air.pcap")
}

/// The command line of `tape`.
fn tape<'a>(alloc: Global) -> Result<Command<'a>, AllocError> {
    Command::new(alloc, "tape")
        .about(
            "Reads a capture file of GSMTAP packets over IPv4, also of another\nprogram's making, and writes a tape of it, or one of each cell",
        )
        .after_help(
            "Examples: warnc tape --cell 1-1 < air.pcap > tape\n          warnc tape --all --cells cells.csv < air.pcap > tapes",
        )
        .arg(cell(alloc)?)?
        .arg(all(alloc)?)?
        .arg(table(alloc)?)?
        .arg(tape_slots(alloc))?
        .arg(first_slot(alloc))?
        .arg(from(alloc))?
        .arg(arfcn(alloc))?
        .arg(channel_type(alloc))
}

/// The command line of `orders`.
fn orders<'a>(alloc: Global) -> Result<Command<'a>, AllocError> {
    let command = Command::new(alloc, "orders")
        .about(
            "Reads a capture file of the link between a cell broadcast centre and\na base station controller, or a book of alerts, and writes what one\ncell was ordered, as CSV",
        )
        .after_help(
            "Examples: warnc orders --cell 1-1 < link.pcap > orders.csv\n          warnc orders --cell 1-1 --slots 4096 < book.csv > orders.csv",
        )
        .arg(ordered_cell(alloc))?;
    let command = of_capture(alloc, command)?;
    of_run(alloc, command)
}

/// Adds the options of `orders` of a capture.
fn of_capture<'a>(alloc: Global, command: Command<'a>) -> Result<Command<'a>, AllocError> {
    command
        .arg(controller(alloc))?
        .arg(ordered_first_slot(alloc))?
        .arg(from(alloc))?
        .arg(arfcn(alloc))?
        .arg(channel_type(alloc))?
        .arg(packets(alloc))
}

/// Adds those of `orders` of a book.
fn of_run<'a>(alloc: Global, command: Command<'a>) -> Result<Command<'a>, AllocError> {
    command
        .arg(ordered_slots(alloc)?)?
        .arg(group(alloc).requires_arg("slots")?)?
        .arg(workers(alloc).requires_arg("slots")?)
}

/// The command line of `link`.
fn link<'a>(alloc: Global) -> Result<Command<'a>, AllocError> {
    Command::new(alloc, "link")
        .about(
            "Reads a book of alerts, as CSV, and writes what its cells are ordered\nand answer as a capture file of the link between a cell broadcast centre\nand a base station controller",
        )
        .after_help("Example: warnc link --slots 4096 < book.csv > link.pcap")
        .arg(slots(alloc))?
        .arg(link_start(alloc))?
        .arg(workers(alloc))
}

/// The command line of `whole`.
fn whole<'a>(alloc: Global) -> Command<'a> {
    Command::new(alloc, "whole")
        .about(
            "Reads tapes, and writes them with four blocks of each page, also of\none that was sent in fewer, for programs that read no shorter ones",
        )
        .after_help("Example: warnc whole < air > tapes")
}

/// The command line of `groups`.
fn groups<'a>(alloc: Global) -> Command<'a> {
    Command::new(alloc, "groups")
        .about("Reads a network book, and writes how many groups of 64 cells it has")
        .after_help("Example: warnc groups < network.csv")
}

/// The option of the number of slots.
fn slots<'a>(alloc: Global) -> Arg<'a> {
    option(
        alloc,
        "slots",
        "SLOTS",
        "How many slots each cell's run has, 1 to 65535,\neach 1.883 s",
    )
    .value_parser(value_parser!(u16).range(1..=65535))
}

/// The option of the group of a network book.
fn group<'a>(alloc: Global) -> Arg<'a> {
    optional(
        alloc,
        "group",
        "GROUP",
        "Takes the book for a network book, and of it the\ngroup of this number, 0 to 65535",
    )
    .value_parser(value_parser!(u16))
}

/// The option of all groups of a network book.
fn network<'a>(alloc: Global) -> Result<Arg<'a>, AllocError> {
    flag(
        alloc,
        "network",
        "Takes the book for a network book, and writes what\n--group writes of each of its groups, in order",
    )
    .conflicts_with("group")
}

/// The option of the group of a network book that is checked.
fn checked_group<'a>(alloc: Global) -> Arg<'a> {
    optional(
        alloc,
        "group",
        "GROUP",
        "Takes the book for a network book, which is to have\nthe group of this number, 0 to 65535: with --slots runs\nthat group",
    )
    .value_parser(value_parser!(u16))
}

/// The option of a network book that is checked.
fn checked_network<'a>(alloc: Global) -> Result<Arg<'a>, AllocError> {
    flag(
        alloc,
        "network",
        "Takes the book for a network book: with --slots runs\neach of its groups, in order",
    )
    .conflicts_with("group")
}

/// The option of a network book as a whole.
fn whole_network<'a>(alloc: Global) -> Result<Arg<'a>, AllocError> {
    flag(alloc, "network", "Takes the book for a network book").conflicts_with("group")
}

/// The option by which every order is to be done.
fn all_done<'a>(alloc: Global) -> Result<Arg<'a>, AllocError> {
    flag(
        alloc,
        "strict",
        "Writes nothing and ends with 1 if a cell refuses an\norder or an order does nothing",
    )
    .conflicts_with("network")
}

/// The option of the number of workers.
fn workers<'a>(alloc: Global) -> Arg<'a> {
    threads(
        alloc,
        "workers",
        "WORKERS",
        "How many workers play cells and make tapes, or run\ngroups, side by side, 1 to 64 [1]",
    )
}

/// The option of the number of sessions.
fn sessions<'a>(alloc: Global) -> Arg<'a> {
    threads(
        alloc,
        "sessions",
        "SESSIONS",
        "How many sessions order side by side, 1 to 64 [1]",
    )
}

/// The option of the one cell that is drawn.
fn charted_cell<'a>(alloc: Global) -> Arg<'a> {
    optional(
        alloc,
        "cell",
        "LAC-CI",
        "Draws this cell alone, as 1-2; all if it isn't given",
    )
}

/// The option of the first slot that is drawn.
fn charted_from<'a>(alloc: Global) -> Arg<'a> {
    optional(alloc, "from", "SLOT", "Draws the run from this slot on [0]").value_parser(
        value_parser!(u16),
    )
}

/// The option of the slot before which the drawing ends.
fn charted_to<'a>(alloc: Global) -> Arg<'a> {
    optional(alloc, "to", "SLOT", "Draws it up to this slot [SLOTS]").value_parser(value_parser!(
        u16
    ))
}

/// The option of the language of a page.
fn charted_language<'a>(alloc: Global) -> Arg<'a> {
    optional(
        alloc,
        "lang",
        "LANGUAGE",
        "The language of the page: en or de [en]",
    )
    .value_parser(ValueParser::Names(LANGUAGES))
    .hide_possible_values(true)
}

/// The option of the tables in front of a chart.
fn tables<'a>(alloc: Global) -> Result<Arg<'a>, AllocError> {
    flag(
        alloc,
        "tables",
        "Writes in front of the page what report --full and\nload write: before each of the three is a line with\nits name and its number of octets",
    )
    .conflicts_with("network")
}

/// The option of the number of slots of a run that is checked.
fn checked_slots<'a>(alloc: Global) -> Arg<'a> {
    optional(
        alloc,
        "slots",
        "SLOTS",
        "Runs a book without a fault for this many slots,\n1 to 65535, and writes what is remarked of the run\nand how full each cell gets",
    )
    .value_parser(value_parser!(u16).range(1..=65535))
}

/// The option by which there are to be no remarks.
fn strict<'a>(alloc: Global) -> Result<Arg<'a>, AllocError> {
    flag(
        alloc,
        "strict",
        "Ends with 1 if there is a remark, as with a fault",
    )
    .requires_arg("slots")
}

/// The option of the file of a book.
fn book<'a>(alloc: Global) -> Result<Arg<'a>, AllocError> {
    optional(
        alloc,
        "book",
        "FILE",
        "The file of the book; the tapes are the input",
    )
    .required_unless_present("orders")
}

/// The option of the number of slots of a run that is verified.
fn verified_slots<'a>(alloc: Global) -> Result<Arg<'a>, AllocError> {
    optional(
        alloc,
        "slots",
        "SLOTS",
        "How many slots each cell's run has, or the tape that\nis judged by orders, 1 to 65535, each 1.883 s",
    )
    .value_parser(value_parser!(u16).range(1..=65535))
    .required_unless_present("orders")
}

/// The option of the file of orders by which a tape is judged.
fn judging_orders<'a>(alloc: Global) -> Result<Arg<'a>, AllocError> {
    let orders = optional(
        alloc,
        "orders",
        "FILE",
        "The file of what one cell was ordered and answered,\nas the command orders writes it, in place of a book",
    )
    .requires_arg("cell")?;
    beside_no_book(orders)
}

/// The option of the cell whose tape is judged by orders.
fn judged_cell<'a>(alloc: Global) -> Result<Arg<'a>, AllocError> {
    let cell = optional(
        alloc,
        "cell",
        "LAC-CI",
        "The cell that was ordered so, as 1-2: its first tape\nis judged",
    )
    .requires_arg("orders")?;
    beside_no_book(cell)
}

/// The option of the delay of what was ordered.
fn delay<'a>(alloc: Global) -> Result<Arg<'a>, AllocError> {
    let delay = optional(
        alloc,
        "delay",
        "SLOTS",
        "By how many slots all comes later on the air than\nits answer, 0 to 65535 [0]",
    )
    .value_parser(value_parser!(u16))
    .requires_arg("orders")?;
    beside_no_book(delay)
}

/// The option by which it is told how late messages come.
fn lag<'a>(alloc: Global) -> Result<Arg<'a>, AllocError> {
    let lag = flag(
        alloc,
        "lag",
        "Says on standard error by how many slots each\nmessage comes and ends later than its answers,\nby which --delay is chosen",
    )
    .requires_arg("orders")?;
    beside_no_book(lag)
}

/// An option that stands in place of a book and what goes with it. clap doesn't ask for a required option where one
/// that it excludes is given: so each option of orders excludes those of a book itself.
fn beside_no_book<'a>(arg: Arg<'a>) -> Result<Arg<'a>, AllocError> {
    arg.conflicts_with_all(&["book", "short", "explain", "start", "group", "workers"])
}

/// The option of the text's language.
fn language<'a>(alloc: Global) -> Arg<'a> {
    option(
        alloc,
        "lang",
        "LANGUAGE",
        "The text's language: de, en, it, fr, es, nl, sv, da,\npt, fi, no, el, tr, hu, pl, und, cs, he, ar, ru or is",
    )
}

/// The option of the number of pages.
fn pages<'a>(alloc: Global) -> Arg<'a> {
    optional(
        alloc,
        "pages",
        "PAGES",
        "Writes, too, to how many characters each text is cut\nso that it takes at most this many pages, 1 to 15",
    )
    .value_parser(value_parser!(u16).range(1..=MAX_PAGES as i64))
}

/// The option of the message identifier.
fn id<'a>(alloc: Global) -> Arg<'a> {
    option(alloc, "id", "ID", "The message identifier, 0 to 65535").value_parser(value_parser!(u16))
}

/// The option of the geographical scope.
fn scope<'a>(alloc: Global) -> Arg<'a> {
    option(alloc, "scope", "SCOPE", "The geographical scope, 0 to 3").value_parser(value_parser!(
        u8
    ).range(0..=3))
}

/// The option of the message code.
fn code<'a>(alloc: Global) -> Arg<'a> {
    option(alloc, "code", "CODE", "The message code, 0 to 1023").value_parser(value_parser!(
        u16
    ).range(0..=1023))
}

/// The option of the update number.
fn update<'a>(alloc: Global) -> Arg<'a> {
    option(alloc, "update", "UPDATE", "The update number, 0 to 15").value_parser(value_parser!(
        u8
    ).range(0..=15))
}

/// The option of pages of fewer blocks.
fn short<'a>(alloc: Global) -> Arg<'a> {
    flag(
        alloc,
        "short",
        "Reads pages of one to three blocks, too, as networks\nsend that cut a page after its text",
    )
}

/// The option of a table of slots.
fn pages_by_slot<'a>(alloc: Global) -> Arg<'a> {
    flag(
        alloc,
        "slots",
        "Writes which page is sent in which slot, in place of\nwhat is shown",
    )
}

/// The option of a table of a text's pages.
fn page_table<'a>(alloc: Global) -> Arg<'a> {
    flag(
        alloc,
        "explain",
        "Writes a table of the pages, as CSV: what the octets of\neach are, and the text that it shows by itself",
    )
}

/// The option of what was expected and what came.
fn explain<'a>(alloc: Global) -> Arg<'a> {
    flag(
        alloc,
        "explain",
        "Adds columns: what was expected and what came. All\nbroadcasts that are lost in a row have one row, and a\nrow says by how many slots all pages are off",
    )
}

/// The option that leaves idle slots out of a capture.
fn used<'a>(alloc: Global) -> Arg<'a> {
    flag(alloc, "used", "Leaves out slots in which no page is sent")
}

/// The option of all columns of a report.
fn full<'a>(alloc: Global) -> Arg<'a> {
    flag(
        alloc,
        "full",
        "Adds columns: row and name of the order, when a\nphone shows it first, pages, period, share of the\nchannel, cause in words",
    )
}

/// The option of the time at which a run begins.
fn clock<'a>(alloc: Global) -> Arg<'a> {
    optional(
        alloc,
        "start",
        "TIME",
        "When slot 0 begins, as 2026-11-28T20:00:00Z: adds\ncolumns of the times, in UTC, of the slots",
    )
}

/// The option of the time at which a run that is drawn begins.
fn charted_clock<'a>(alloc: Global) -> Arg<'a> {
    optional(
        alloc,
        "start",
        "TIME",
        "When slot 0 begins, as 2026-11-28T20:00:00Z: times\nare then those of the day, in UTC",
    )
}

/// The option of the time at which a run that is verified begins.
fn differing_clock<'a>(alloc: Global) -> Arg<'a> {
    optional(
        alloc,
        "start",
        "TIME",
        "When slot 0 begins, as 2026-11-28T20:00:00Z: adds a\ncolumn of the time, in UTC, of each slot",
    )
}

/// The option of the time at which a run that is checked begins.
fn checked_clock<'a>(alloc: Global) -> Result<Arg<'a>, AllocError> {
    optional(
        alloc,
        "start",
        "TIME",
        "When slot 0 begins, as 2026-11-28T20:00:00Z: adds a\ncolumn of the time, in UTC, of each slot",
    )
    .requires_arg("slots")
}

/// The option of the channel that a capture names.
fn channel<'a>(alloc: Global) -> Arg<'a> {
    optional(
        alloc,
        "channel",
        "CHANNEL",
        "The CBCH that the packets name: 51 for that beside\nSDCCH/4, 52 for that beside SDCCH/8 [51]",
    )
    .value_parser(value_parser!(u16).range(51..=52))
}

/// The option of the time at which a capture begins.
fn start<'a>(alloc: Global) -> Arg<'a> {
    optional(
        alloc,
        "start",
        "TIME",
        "When the first slot begins, as 2026-11-28T20:00:00Z,\nso that the capture can be merged with others [1970]",
    )
}

/// The option of the time at which the capture of a link begins.
fn link_start<'a>(alloc: Global) -> Arg<'a> {
    optional(
        alloc,
        "start",
        "TIME",
        "When slot 0 begins, as 2026-11-28T20:00:00Z, so that\nthe capture can be merged with that of the air [1970]",
    )
}

/// The option of the cell that a tape names.
fn cell<'a>(alloc: Global) -> Result<Arg<'a>, AllocError> {
    optional(
        alloc,
        "cell",
        "LAC-CI",
        "The cell that the tape names, as 1-2: its location\narea code and its cell identity, 0 to 65535 each",
    )
    .required_unless_present("cells")
}

/// The option of the tapes of all cells.
fn all<'a>(alloc: Global) -> Result<Arg<'a>, AllocError> {
    flag(
        alloc,
        "all",
        "Writes the tapes of all cells of --cells, which\nsays so alone, too",
    )
    .requires_arg("cells")?
    .conflicts_with("cell")
}

/// The option of the table of cells.
fn table<'a>(alloc: Global) -> Result<Arg<'a>, AllocError> {
    optional(
        alloc,
        "cells",
        "FILE",
        "The file of a table of cells, as CSV: the columns\nlac,ci,arfcn or lac,ci,source or lac,ci,source,arfcn,\nand a row for each tape",
    )
    .conflicts_with("cell")?
    .conflicts_with("from")?
    .conflicts_with("arfcn")
}

/// The option of the number of a tape's slots.
fn tape_slots<'a>(alloc: Global) -> Arg<'a> {
    optional(
        alloc,
        "slots",
        "SLOTS",
        "How many slots the tape has, 1 to 65535, of 1.883 s;\nup to the last block if it isn't given",
    )
    .value_parser(value_parser!(u16).range(1..=65535))
}

/// The option of the slot in which the first block stands.
fn first_slot<'a>(alloc: Global) -> Arg<'a> {
    optional(
        alloc,
        "first-slot",
        "SLOT",
        "The slot of the tape in which the first block stands,\n0 to 65535; 0 if it isn't given",
    )
    .value_parser(value_parser!(u16))
}

/// The option of the cell whose orders are wanted.
fn ordered_cell<'a>(alloc: Global) -> Arg<'a> {
    option(
        alloc,
        "cell",
        "LAC-CI",
        "The cell whose orders are wanted, as 1-2: its\nlocation area code and its cell identity, 0 to 65535\neach",
    )
}

/// An option of the orders of a book's run, which those of a capture don't go with.
fn without_capture<'a>(slots: Arg<'a>) -> Result<Arg<'a>, AllocError> {
    slots.conflicts_with_all(&["bsc", "first-slot", "from", "arfcn", "channel", "packets"])
}

/// The option of the number of slots of a run whose orders are wanted.
fn ordered_slots<'a>(alloc: Global) -> Result<Arg<'a>, AllocError> {
    let arg = optional(
        alloc,
        "slots",
        "SLOTS",
        "Takes the input for a book, and runs it for this many\nslots, 1 to 65535: the orders are those of its run",
    )
    .value_parser(value_parser!(u16).range(1..=65535));
    without_capture(arg)
}

/// The option of the controller's address.
fn controller<'a>(alloc: Global) -> Arg<'a> {
    optional(
        alloc,
        "bsc",
        "IPV4",
        "Takes the messages of the controller of this IPv4\naddress alone, as 127.0.0.1; all if it isn't given",
    )
}

/// The option of the slot in which the first block of the air stands.
fn ordered_first_slot<'a>(alloc: Global) -> Arg<'a> {
    optional(
        alloc,
        "first-slot",
        "SLOT",
        "The slot in which the first block stands, or the\nfirst message to the cell if there is no block, 0 to\n65535; 0 if it isn't given",
    )
    .value_parser(value_parser!(u16))
}

/// The option of packets and their times.
fn packets<'a>(alloc: Global) -> Arg<'a> {
    flag(
        alloc,
        "packets",
        "Begins each line with the number of the packet of the\nanswer, or of the order if none came, and with the\ntime at which it came, in seconds from 1970 on",
    )
}

/// The option of the address that packets come from.
fn from<'a>(alloc: Global) -> Arg<'a> {
    optional(
        alloc,
        "from",
        "IPV4",
        "Takes the packets from this IPv4 address alone, as\n127.0.0.1; all if it isn't given",
    )
}

/// The option of the radio channel that packets name.
fn arfcn<'a>(alloc: Global) -> Arg<'a> {
    optional(
        alloc,
        "arfcn",
        "ARFCN",
        "Takes the packets of this radio channel alone, 0 to\n1023; all if it isn't given",
    )
    .value_parser(value_parser!(u16).range(0..=1023))
}

/// The option of the channel that packets name for a cell broadcast channel.
fn channel_type<'a>(alloc: Global) -> Arg<'a> {
    optional(
        alloc,
        "channel",
        "CHANNEL",
        "The channel that packets name, by its own type or,\nas receivers do that know none, SDCCH: cbch or\nsdcch [cbch]",
    )
    .value_parser(ValueParser::Names(CHANNEL_TYPES))
    .hide_possible_values(true)
}

/// An option `--name` without a value.
fn flag<'a>(alloc: Global, name: &'a str, help: &'a str) -> Arg<'a> {
    Arg::new(alloc, name)
        .long(name)
        .help(help)
        .action(ArgAction::SetTrue)
}

/// A required option `--name`.
fn option<'a>(alloc: Global, name: &'a str, value: &'a str, help: &'a str) -> Arg<'a> {
    optional(alloc, name, value, help).required(true)
}

/// An option `--name` that needn't be given.
fn optional<'a>(alloc: Global, name: &'a str, value: &'a str, help: &'a str) -> Arg<'a> {
    Arg::new(alloc, name)
        .long(name)
        .value_name(value)
        .help(help)
}

/// An option `--name` of a number of threads, which needn't be given.
fn threads<'a>(alloc: Global, name: &'a str, value: &'a str, help: &'a str) -> Arg<'a> {
    optional(alloc, name, value, help).value_parser(value_parser!(u16).range(
        1..=MAX_WORKERS as i64,
    ))
}
