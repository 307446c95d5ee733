//! What words mean that the command line takes ([`options`](crate::options)).

ghost use Rattle.std.specs.Prelude.{◌≡◌, ◌<◌, ◌∷◌, ◌++◌, ◌⊎◌, false, true, IfOk, IfSome, OnSome, Some, codes, map};
ghost use Rattle.std.specs.Prelude.{slice_get};
ghost use Rattle.warnc_cli.specs.CommandLine.{asks_for_text, begins_with, is_given, is_text_word, GivesNumber};
ghost use Rattle.warnc_cli.specs.CommandLine.{GivesChannel, GivesChannelType, GivesSlots, GivesThreads, GivesValue};
ghost use Rattle.warnc_cli.specs.CommandLine.{GivesAddress, GivesArfcn, GivesCell, GivesDelay, GivesEdge, GivesFile};
ghost use Rattle.warnc_cli.specs.CommandLine.{GivesFirstSlot, GivesLanguage, GivesPart, GivesSlotStart, GivesView};
ghost use Rattle.warnc_cli.specs.CommandLine.{GivesWanted, IsAddress, IsCell};
ghost use Rattle.warnc_cli.specs.CommandLine.{columns_given, slots_given, GivesBooks, GivesExtent, GivesOrigin};
ghost use Rattle.warnc_cli.specs.CommandLine.{detail_given, form_given, pages_given, GivesPages, GivesProduct};
ghost use Rattle.warnc_cli.specs.CommandLine.{GivesTableLayout, GivesTapeSlots, GivesTerms, GivesVerifiedFile};
ghost use Rattle.warnc_cli.specs.CommandLine.{IsNumber};
ghost use Rattle.warnc_cli.specs.Tasks.{IsTaskOf};

use crate::options::warnc;
use crate::start::{slot_start_in, start_in};
use alert_book::{Extent, Origin};
use cbs_page::Serial;
use cbsp_wire::Cell;
use chart::{Language, Part, View, Wording};
use clap::{Command, Error};
use gsmtap::{Channel, ChannelType, Sender, Settings, Slots, Wanted};
use link_orders::OrdersWanted;
use report::{Columns, Layout};
use short_pages::Pages;
use std::alloc::Global;
use std::convert::AsStr;
use verification::{Detail, TableLayout};
use warnc_air::all::AllWanted;
use warnc_inspect::page::PageForm;
use warnc_run::{BookRun, Books, Product, Run, Sessions, Workers};
use warnc_verdict::VerdictTerms;

/// What the words ask for.
#[derive(Clone, Copy, Debug, PartialEq, Eq)]
pub enum Task<'a> {
    /// `page`.
    Page {
        /// The word of the text's language.
        language: &'a str,
        /// The message identifier (3GPP TS 23.041, clause 9.4.1.2.2).
        id: u16,
        /// The serial number (3GPP TS 23.041, clause 9.4.1.2.1).
        serial: Serial,
        /// What is written of the pages.
        form: PageForm,
    },
    /// `read`.
    Read(Pages),
    /// `read` of slots.
    ReadSlots(Pages),
    /// `whole`.
    Whole,
    /// `pcap`.
    Pcap(Settings),
    /// `cells`.
    Cells,
    /// `tape`.
    Tape(Wanted),
    /// `tape` of all cells of a table.
    Tapes {
        /// Which tapes are wanted.
        wanted: AllWanted,
        /// The name of the table's file.
        file: &'a str,
    },
    /// `orders` of a capture.
    Orders {
        /// Whose orders are wanted, and by which clock.
        wanted: OrdersWanted,
        /// Whether each line begins with a packet and its time.
        packets: bool,
    },
    /// `groups`.
    Groups,
    /// `check` of the rows alone.
    Check {
        /// What is checked.
        what: Extent,
    },
    /// `check` of the rows and of a run.
    Remark {
        /// What is checked and run.
        what: Extent,
        /// How many slots each cell's run has, at least 1.
        slots: u16,
        /// When slot 0 begins, if times are wanted.
        start: Option<slot_times::Start>,
        /// Whether there are to be no remarks.
        strict: bool,
    },
    /// `plan`.
    Plan,
    /// `texts`.
    Texts {
        /// Whose texts are wanted.
        what: Extent,
        /// For how many pages each text is cut.
        pages: Option<u16>,
    },
    /// `compile`, `live`, `report`, `chart`, `load`, `link`, or `orders` of a book.
    Make {
        /// Which books are run, and how.
        run: Run,
        /// What is made of the run.
        made: Product,
    },
    /// `compile`, `live` or `chart` of one book, if every order was done.
    Strict {
        /// How the book is run.
        run: BookRun,
        /// What is made of the run.
        made: Product,
    },
    /// `verify`.
    Verify {
        /// A book, or the group of a network book.
        origin: Origin,
        /// How many slots each cell's run has, at least 1.
        slots: u16,
        /// Which pages of the tapes are read.
        pages: Pages,
        /// How the table of differences is laid out.
        layout: TableLayout,
        /// The name of the book's file.
        file: &'a str,
        /// How many workers play the cells.
        workers: Workers,
    },
    /// `verify` of the orders of a cell.
    VerifyOrders {
        /// The cell whose tape is judged.
        cell: Cell,
        /// How the tape is judged, and what else is told.
        terms: VerdictTerms,
        /// The name of the orders' file.
        file: &'a str,
    },
}

/// What the words ask for. clap judges the words; what they give is then looked up in the words themselves, since the
/// contracts of clap don't reach into a subcommand. None comes of words that clap takes only where a cell isn't two
/// numbers or an address isn't four octets, which clap doesn't judge.
///
/// # Errors
///
/// The text that clap has for the words: help, the version, or what is wrong with them.
pub fn task_of<'a, S: AsStr>(alloc: Global, words: &'a [S]) -> Result<Option<Task<'a>>, Error>
    ensures { IfOk result (λ order. IfSome order (IsTaskOf (map S.text words.now))) }
{
    let command: Command<'a> = warnc(alloc)?;
    let _matches = command.try_get_matches_from(words)?;
    Ok(task_in(words))
}

/// What words ask for that clap has taken.
fn task_in<'a, S: AsStr>(words: &'a [S]) -> Option<Task<'a>>
    ensures { IfSome result (IsTaskOf (map S.text words.now)) }
{
    let command = words.get(1)?;
    match command.as_str() {
        "page" => page_in(words),
        "read" => Some(read_in(words)),
        "whole" => Some(Task::Whole),
        "pcap" => Some(Task::Pcap(Settings {
            channel: channel_in(words)?,
            slots: captured_slots(words),
            start: start_in(words)?,
        })),
        "cells" => Some(Task::Cells),
        "tape" => tape_in(words),
        "orders" => orders_in(words),
        "groups" => Some(Task::Groups),
        "check" => check_in(words),
        "plan" => Some(Task::Plan),
        "texts" => Some(Task::Texts {
            what: extent_in(words)?,
            pages: pages_in(words)?,
        }),
        "compile" => run_in(words, Product::Tapes, Sessions { number: 1 }),
        "live" => run_in(words, Product::Tapes, sessions_in(words)?),
        "report" => run_in(
            words,
            Product::Report(layout_in(words)?),
            Sessions { number: 1 },
        ),
        "chart" => run_in(words, charted_in(words)?, Sessions { number: 1 }),
        "load" => run_in(
            words,
            Product::Loads(slot_start_in(words)?),
            Sessions { number: 1 },
        ),
        "link" => run_in(
            words,
            Product::Link(start_in(words)?),
            Sessions { number: 1 },
        ),
        "verify" => verify_in(words),
        _ => None,
    }
}

/// What `chart` is to make: the chart, or the tables in front of it, too.
fn charted_in<S: AsStr>(words: &[S]) -> Option<Product>
    requires { slice_get (map S.text words.now) 1 ≡ Some (codes "chart") }
    ensures { IfSome result (λ made. GivesProduct (map S.text words.now) made 1) }
{
    let view = view_in(words)?;
    if is_given(words, "--tables") {
        Some(Product::Tables(view))
    } else {
        Some(Product::Chart(view))
    }
}

/// What the words ask to be made of the run of a book, with this many sessions.
fn run_in<'a, S: AsStr>(words: &'a [S], made: Product, sessions: Sessions) -> Option<Task<'a>>
    requires { GivesProduct (map S.text words.now) made sessions.number }
    ensures { IfSome result (IsTaskOf (map S.text words.now)) }
{
    if is_given(words, "--strict") {
        return strict_run_in(words, made, sessions);
    }
    Some(Task::Make {
        run: Run {
            books: books_in(words)?,
            slots: slots_in(words)?,
            sessions,
            workers: workers_in(words)?,
        },
        made,
    })
}

/// What they ask to be made of the run of one book if every order was done: clap takes no network with that.
fn strict_run_in<'a, S: AsStr>(
    words: &'a [S],
    made: Product,
    sessions: Sessions,
) -> Option<Task<'a>>
    requires given { is_given (map S.text words.now) (codes "--strict") ≡ true }
    requires made { GivesProduct (map S.text words.now) made sessions.number }
    ensures { IfSome result (IsTaskOf (map S.text words.now)) }
{
    if is_given(words, "--network") {
        return None;
    }
    Some(Task::Strict {
        run: BookRun {
            origin: origin_in(words)?,
            slots: slots_in(words)?,
            sessions,
            workers: workers_in(words)?,
        },
        made,
    })
}

/// The `tape` that the words ask for: of one cell, or of all cells of a table.
fn tape_in<'a, S: AsStr>(words: &'a [S]) -> Option<Task<'a>>
    requires { slice_get (map S.text words.now) 1 ≡ Some (codes "tape") }
    ensures { IfSome result (IsTaskOf (map S.text words.now)) }
{
    if is_given(words, "--cells") {
        return tapes_in(words);
    }
    Some(Task::Tape(Wanted {
        cell: cell_in(words)?,
        slots: tape_slots_in(words)?,
        first_slot: first_slot_in(words)?,
        from: Sender {
            address: address_in(words, "--from")?,
            arfcn: arfcn_in(words)?,
            channel: channel_type_in(words)?,
        },
    }))
}

/// The `tape` of all cells of a table that the words ask for.
fn tapes_in<'a, S: AsStr>(words: &'a [S]) -> Option<Task<'a>>
    requires command { slice_get (map S.text words.now) 1 ≡ Some (codes "tape") }
    requires given { is_given (map S.text words.now) (codes "--cells") ≡ true }
    ensures { IfSome result (IsTaskOf (map S.text words.now)) }
{
    let slots = tape_slots_in(words)?;
    Some(Task::Tapes {
        wanted: AllWanted {
            slots,
            first_slot: first_slot_in(words)?,
            channel: channel_type_in(words)?,
        },
        file: value_of(words, "--cells")?,
    })
}

/// The `orders` that the words ask for: of a book's run if they give the number of its slots, and else of a capture.
fn orders_in<'a, S: AsStr>(words: &'a [S]) -> Option<Task<'a>>
    requires { slice_get (map S.text words.now) 1 ≡ Some (codes "orders") }
    ensures { IfSome result (IsTaskOf (map S.text words.now)) }
{
    let cell = cell_in(words)?;
    if is_given(words, "--slots") {
        return run_in(words, Product::Orders(cell), Sessions { number: 1 });
    }
    let controller = address_in(words, "--bsc")?;
    let first_slot = first_slot_in(words)?;
    let from = Sender {
        address: address_in(words, "--from")?,
        arfcn: arfcn_in(words)?,
        channel: channel_type_in(words)?,
    };
    Some(Task::Orders {
        wanted: OrdersWanted {
            cell,
            controller,
            first_slot,
            from,
        },
        packets: is_given(words, "--packets"),
    })
}

/// The `verify` that the words ask for: of a book, or of the orders of a cell.
fn verify_in<'a, S: AsStr>(words: &'a [S]) -> Option<Task<'a>>
    requires { slice_get (map S.text words.now) 1 ≡ Some (codes "verify") }
    ensures { IfSome result (IsTaskOf (map S.text words.now)) }
{
    if is_given(words, "--orders") {
        return verify_orders_in(words);
    }
    Some(Task::Verify {
        origin: origin_in(words)?,
        slots: slots_in(words)?,
        pages: wanted_pages(words),
        layout: table_layout_in(words)?,
        file: value_of(words, "--book")?,
        workers: workers_in(words)?,
    })
}

/// The `verify` of the orders of a cell that the words ask for.
fn verify_orders_in<'a, S: AsStr>(words: &'a [S]) -> Option<Task<'a>>
    requires command { slice_get (map S.text words.now) 1 ≡ Some (codes "verify") }
    requires given { is_given (map S.text words.now) (codes "--orders") ≡ true }
    ensures { IfSome result (IsTaskOf (map S.text words.now)) }
{
    Some(Task::VerifyOrders {
        cell: cell_in(words)?,
        terms: terms_in(words)?,
        file: value_of(words, "--orders")?,
    })
}

/// The `check` that the words ask for.
fn check_in<'a, S: AsStr>(words: &'a [S]) -> Option<Task<'a>>
    requires { slice_get (map S.text words.now) 1 ≡ Some (codes "check") }
    ensures { IfSome result (IsTaskOf (map S.text words.now)) }
{
    let what = extent_in(words)?;
    if !is_given(words, "--slots") {
        return Some(Task::Check { what });
    }
    Some(Task::Remark {
        what,
        slots: slots_in(words)?,
        start: slot_start_in(words)?,
        strict: is_given(words, "--strict"),
    })
}

/// The `page` that the words ask for.
fn page_in<'a, S: AsStr>(words: &'a [S]) -> Option<Task<'a>>
    requires { slice_get (map S.text words.now) 1 ≡ Some (codes "page") }
    ensures { IfSome result (IsTaskOf (map S.text words.now)) }
{
    let scope = u8::try_from(number_of(words, "--scope")?).ok()?;
    let update = u8::try_from(number_of(words, "--update")?).ok()?;
    Some(Task::Page {
        language: value_of(words, "--lang")?,
        id: number_of(words, "--id")?,
        serial: Serial::new(scope, number_of(words, "--code")?, update)?,
        form: form_in(words),
    })
}

/// What the words want to be written of pages.
fn form_in<S: AsStr>(words: &[S]) -> PageForm
    ensures { result ≡ form_given (map S.text words.now) }
{
    if is_given(words, "--explain") {
        PageForm::Table
    } else {
        PageForm::Lines
    }
}

/// The `read` that the words ask for: of messages, or of slots.
fn read_in<'a, S: AsStr>(words: &'a [S]) -> Task<'a>
    requires { slice_get (map S.text words.now) 1 ≡ Some (codes "read") }
    ensures { IsTaskOf (map S.text words.now) result }
{
    if is_given(words, "--slots") {
        Task::ReadSlots(wanted_pages(words))
    } else {
        Task::Read(wanted_pages(words))
    }
}

/// The channel that the words give, that beside SDCCH/4 if they give none.
fn channel_in<S: AsStr>(words: &[S]) -> Option<Channel>
    ensures { IfSome result (GivesChannel (map S.text words.now)) }
{
    if !is_given(words, "--channel") {
        return Some(Channel::BesideSdcch4);
    }
    match number_of(words, "--channel")? {
        51 => Some(Channel::BesideSdcch4),
        52 => Some(Channel::BesideSdcch8),
        _ => None,
    }
}

/// The pages that the words want to be read.
fn wanted_pages<S: AsStr>(words: &[S]) -> Pages
    ensures { result ≡ pages_given (map S.text words.now) }
{
    if is_given(words, "--short") {
        Pages::OfAny
    } else {
        Pages::OfFour
    }
}

/// The slots that the words want in a capture.
fn captured_slots<S: AsStr>(words: &[S]) -> Slots
    ensures { result ≡ slots_given (map S.text words.now) }
{
    if is_given(words, "--used") {
        Slots::Used
    } else {
        Slots::All
    }
}

/// How much the words want to be told of each difference.
fn detail_in<S: AsStr>(words: &[S]) -> Detail
    ensures { result ≡ detail_given (map S.text words.now) }
{
    if is_given(words, "--explain") {
        Detail::Explained
    } else {
        Detail::Plain
    }
}

/// How the words want the table of differences to be laid out.
fn table_layout_in<S: AsStr>(words: &[S]) -> Option<TableLayout>
    ensures { IfSome result (GivesTableLayout (map S.text words.now)) }
{
    let start = slot_start_in(words)?;
    Some(TableLayout {
        detail: detail_in(words),
        start,
    })
}

/// The columns that the words want in a report.
fn columns_in<S: AsStr>(words: &[S]) -> Columns
    ensures { result ≡ columns_given (map S.text words.now) }
{
    if is_given(words, "--full") {
        Columns::Full
    } else {
        Columns::Plain
    }
}

/// How the words want a report to be laid out.
fn layout_in<S: AsStr>(words: &[S]) -> Option<Layout>
    ensures columns { IfSome result (λ layout. layout.columns ≡ columns_given (map S.text words.now)) }
    ensures start { IfSome result (λ layout. GivesSlotStart (map S.text words.now) layout.start) }
{
    let start = slot_start_in(words)?;
    Some(Layout {
        columns: columns_in(words),
        start,
    })
}

/// The cell that the words give.
fn cell_in<S: AsStr>(words: &[S]) -> Option<Cell>
    ensures { IfSome result (GivesCell (map S.text words.now)) }
{
    cell_of(value_of(words, "--cell")?)
}

/// The number of pages for which texts are cut, if the words give one.
fn pages_in<S: AsStr>(words: &[S]) -> Option<Option<u16>>
    ensures { IfSome result (GivesPages (map S.text words.now)) }
{
    if !is_given(words, "--pages") {
        return Some(None);
    }
    let pages = number_of(words, "--pages")?;
    Some(Some(pages))
}

/// The one cell that the words want, if they want one.
fn wanted_in<S: AsStr>(words: &[S]) -> Option<Option<Cell>>
    ensures { IfSome result (GivesWanted (map S.text words.now)) }
{
    if !is_given(words, "--cell") {
        return Some(None);
    }
    let cell = cell_in(words)?;
    Some(Some(cell))
}

/// What the words want to be drawn.
fn view_in<S: AsStr>(words: &[S]) -> Option<View>
    ensures { IfSome result (GivesView (map S.text words.now)) }
{
    let slots = slots_in(words)?;
    let cell = wanted_in(words)?;
    let part = part_in(words, slots)?;
    let language = language_in(words)?;
    let start = slot_start_in(words)?;
    let wording = Wording { language, start };
    Some(View {
        cell,
        part,
        wording,
    })
}

/// The language of a page, by the words: English if they give none.
fn language_in<S: AsStr>(words: &[S]) -> Option<Language>
    ensures { IfSome result (GivesLanguage (map S.text words.now)) }
{
    if !is_given(words, "--lang") {
        return Some(Language::English);
    }
    match value_of(words, "--lang")? {
        "en" => Some(Language::English),
        "de" => Some(Language::German),
        _ => None,
    }
}

/// The part of a run of this many slots that the words want, if they want one.
fn part_in<S: AsStr>(words: &[S], slots: u16) -> Option<Option<Part>>
    ensures { IfSome result (GivesPart (map S.text words.now) slots) }
{
    if !is_given(words, "--from") && !is_given(words, "--to") {
        return Some(None);
    }
    let from = edge_in(words, "--from", 0)?;
    let to = edge_in(words, "--to", slots)?;
    if from >= to || to > slots {
        return None;
    }
    Some(Some(Part { from, to }))
}

/// The slot that the words give under a name, or this one if they give none.
fn edge_in<S: AsStr>(words: &[S], name: &str, slot: u16) -> Option<u16>
    ensures { IfSome result (GivesEdge (map S.text words.now) name.now slot) }
{
    if is_given(words, name) {
        number_of(words, name)
    } else {
        Some(slot)
    }
}

/// The cell that a text writes.
fn cell_of(text: &str) -> Option<Cell>
    ensures { IfSome result (IsCell text.now) }
{
    let (lac, ci) = halves(text, '-')?;
    Some(Cell {
        lac: number(lac)?,
        ci: number(ci)?,
    })
}

/// What stands before and after a mark, where it comes first.
fn halves(text: &str, mark: char) -> Option<(&str, &str)>
    requires { mark < 128 }
    ensures { IfSome result (λ parts. text.now ≡ parts.0.now ++ mark ∷ parts.1.now) }
{
    match text.split_once(mark) {
        Some((front, back)) => Some((front, back)),
        None => None,
    }
}

/// The radio channel that packets name, if the words give one.
fn arfcn_in<S: AsStr>(words: &[S]) -> Option<Option<u16>>
    ensures { IfSome result (GivesArfcn (map S.text words.now)) }
{
    if !is_given(words, "--arfcn") {
        return Some(None);
    }
    let arfcn = number_of(words, "--arfcn")?;
    Some(Some(arfcn))
}

/// The number of a tape's slots, if the words give one.
fn tape_slots_in<S: AsStr>(words: &[S]) -> Option<Option<u16>>
    ensures { IfSome result (GivesTapeSlots (map S.text words.now)) }
{
    if is_given(words, "--slots") {
        let slots = slots_in(words)?;
        Some(Some(slots))
    } else {
        Some(None)
    }
}

/// The slot in which the first block stands, by the words: 0 if they give none.
fn first_slot_in<S: AsStr>(words: &[S]) -> Option<u16>
    ensures { IfSome result (GivesFirstSlot (map S.text words.now)) }
{
    if !is_given(words, "--first-slot") {
        return Some(0);
    }
    number_of(words, "--first-slot")
}

/// How a tape is judged by orders, by the words.
fn terms_in<S: AsStr>(words: &[S]) -> Option<VerdictTerms>
    ensures { IfSome result (GivesTerms (map S.text words.now)) }
{
    let length = tape_slots_in(words)?;
    Some(VerdictTerms {
        delay: delay_in(words)?,
        slots: length,
        lags: is_given(words, "--lag"),
    })
}

/// By how many slots what was ordered may come later than its answer, by the words: 0 if they give none.
fn delay_in<S: AsStr>(words: &[S]) -> Option<u16>
    ensures { IfSome result (GivesDelay (map S.text words.now)) }
{
    if !is_given(words, "--delay") {
        return Some(0);
    }
    number_of(words, "--delay")
}

/// The channel that packets name for a cell broadcast channel, by the words: its own if they give none.
fn channel_type_in<S: AsStr>(words: &[S]) -> Option<ChannelType>
    ensures { IfSome result (GivesChannelType (map S.text words.now)) }
{
    if !is_given(words, "--channel") {
        return Some(ChannelType::Cbch);
    }
    match value_of(words, "--channel")? {
        "cbch" => Some(ChannelType::Cbch),
        "sdcch" => Some(ChannelType::Sdcch),
        _ => None,
    }
}

/// The address that the words give the option of this name, if they give one.
fn address_in<S: AsStr>(words: &[S], name: &str) -> Option<Option<u32>>
    ensures { IfSome result (GivesAddress (map S.text words.now) name.now) }
{
    if is_given(words, name) {
        let address = address_of(value_of(words, name)?)?;
        Some(Some(address))
    } else {
        Some(None)
    }
}

/// The IPv4 address that a text writes.
fn address_of(text: &str) -> Option<u32>
    ensures { IfSome result (IsAddress text.now) }
{
    let (first, rest) = halves(text, '.')?;
    let (second, rest) = halves(rest, '.')?;
    let (third, fourth) = halves(rest, '.')?;
    let a = octet(first)?;
    let b = octet(second)?;
    let c = octet(third)?;
    let d = octet(fourth)?;
    Some(u32::from_be_bytes([a, b, c, d]))
}

/// The number that a text writes.
fn number(text: &str) -> Option<u16>
    ensures { IfSome result (IsNumber text.now) }
{
    text.parse().ok()
}

/// The octet that a text writes.
fn octet(text: &str) -> Option<u8>
    ensures number { IfSome result (IsNumber text.now) }
    ensures bound { IfSome result (λ octet. octet < 256) }
{
    text.parse().ok()
}

/// Whether the input is a book, or which group of a network book is wanted.
fn origin_in<S: AsStr>(words: &[S]) -> Option<Origin>
    ensures { IfSome result (GivesOrigin (map S.text words.now)) }
{
    if !is_given(words, "--group") {
        return Some(Origin::Book);
    }
    let group = number_of(words, "--group")?;
    Some(Origin::Group(group))
}

/// Whether the input is a book or a network book, or which group of one is wanted.
fn extent_in<S: AsStr>(words: &[S]) -> Option<Extent>
    ensures { IfSome result (GivesExtent (map S.text words.now)) }
{
    if is_given(words, "--network") {
        return Some(Extent::Network);
    }
    match origin_in(words)? {
        Origin::Book => Some(Extent::Book),
        Origin::Group(group) => Some(Extent::Group(group)),
    }
}

/// Which books the words want.
fn books_in<S: AsStr>(words: &[S]) -> Option<Books>
    ensures { IfSome result (GivesBooks (map S.text words.now)) }
{
    if is_given(words, "--network") {
        return Some(Books::EachGroup);
    }
    let origin = origin_in(words)?;
    Some(Books::One(origin))
}

/// The number of slots that the words give.
fn slots_in<S: AsStr>(words: &[S]) -> Option<u16>
    ensures { IfSome result (GivesSlots (map S.text words.now)) }
{
    let slots = number_of(words, "--slots")?;
    if slots == 0 {
        return None;
    }
    Some(slots)
}

/// The name of the file that is read beside the input: the book or the orders for `verify`, or the table of cells for
/// `tape`; none if the words ask for another command or name no file. It is that which faults name, if clap takes the
/// words.
pub fn book_file<'a, S: AsStr>(words: &'a [S]) -> Option<&'a str>
    ensures { IfSome result (λ file. GivesFile (map S.text words.now) file.now) }
{
    match words.get(1)?.as_str() {
        "verify" => verified_file(words),
        "tape" => value_of(words, "--cells"),
        _ => None,
    }
}

/// The name of the file by which `verify` judges: that of the orders if a word begins with the option's name, and else
/// that of the book.
fn verified_file<'a, S: AsStr>(words: &'a [S]) -> Option<&'a str>
    ensures { IfSome result (λ file. GivesVerifiedFile (map S.text words.now) file.now) }
{
    if is_given(words, "--orders") {
        value_of(words, "--orders")
    } else {
        value_of(words, "--book")
    }
}

/// The number of workers that the words give, 1 if they give none.
fn workers_in<S: AsStr>(words: &[S]) -> Option<Workers>
    ensures { IfSome result (λ workers.
        GivesThreads (map S.text words.now) (codes "--workers") workers.number) }
{
    Workers::new(u64::from(number_or_one(words, "--workers")?))
}

/// The number of sessions that the words give, 1 if they give none.
fn sessions_in<S: AsStr>(words: &[S]) -> Option<Sessions>
    ensures { IfSome result (λ sessions.
        GivesThreads (map S.text words.now) (codes "--sessions") sessions.number) }
{
    Sessions::new(number_or_one(words, "--sessions")?)
}

/// The number that the words give the option of this name; 1 if they give none.
fn number_or_one<S: AsStr>(words: &[S], name: &str) -> Option<u16>
    ensures { IfSome result (λ number. GivesNumber (map S.text words.now) name.now number
        ⊎ ((is_given (map S.text words.now) name.now ≡ false) × (number ≡ 1))) }
{
    if !is_given(words, name) {
        return Some(1);
    }
    number_of(words, name)
}

/// Whether a word begins with the name of an option.
pub(crate) fn is_given<S: AsStr>(words: &[S], name: &str) -> bool
    ensures { result ≡ is_given (map S.text words.now) name.now }
{
    for word in words {
        if begins_with(word.as_str(), name) {
            return true;
        }
    }
    false
}

/// Whether a word begins with a name.
fn begins_with(word: &str, name: &str) -> bool
    ensures { result ≡ begins_with name.now word.now }
{
    word.starts_with(name)
}

/// The number that the words give the option of this name.
fn number_of<S: AsStr>(words: &[S], name: &str) -> Option<u16>
    ensures { IfSome result (GivesNumber (map S.text words.now) name.now) }
{
    value_of(words, name)?.parse().ok()
}

/// The value that the words give the option of this name: the word after its name, or what follows its name and `=` in
/// one word.
pub(crate) fn value_of<'a, S: AsStr>(words: &'a [S], name: &str) -> Option<&'a str>
    ensures { IfSome result (λ value. GivesValue (map S.text words.now) name.now value.now) }
{
    for (place, word) in words.iter().enumerate() {
        let word = word.as_str();
        if word == name {
            return Some(words.get(place + 1)?.as_str());
        }
        if let Some((front, value)) = word.split_once('=')
            && front == name
        {
            return Some(value);
        }
    }
    None
}

/// Whether the words ask for help or for the version.
pub fn asks_for_text<S: AsStr>(words: &[S]) -> bool
    ensures { result ≡ asks_for_text (map S.text words.now) }
{
    for word in words {
        if is_text_word(word.as_str()) {
            return true;
        }
    }
    false
}

/// Whether a word asks for help or for the version.
fn is_text_word(word: &str) -> bool
    ensures { result ≡ is_text_word word.now }
{
    matches!(word, "help" | "--help" | "-h" | "--version" | "-V")
}
