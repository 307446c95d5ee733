//! The desk: the books of cells, each under a lock, and the calls of its users.

ghost use Rattle.std.specs.Prelude.{◌≡◌, ◌+◌, ◌*◌, ◌<◌, ◌≤◌, ◌∷◌, [], ◌++◌, List, length, map, false, true, vec_len};
ghost use Rattle.std.specs.Prelude.{vec_capacity, IfErr, IfNone, IfOk, IfSome, OnErr, OnOk, Some};
ghost use Rattle.std.specs.List.{slice_get};
ghost use Rattle.cbsp_wire.specs.Range.{cells_are_valid, max_listed};
ghost use Rattle.bsc_table.specs.Orders.{IsWellFormed};
ghost use Rattle.bsc_table.specs.Transitions.{opened};
ghost use Rattle.order_desk.specs.declared.note.Note.{Note};
ghost use Rattle.order_desk.specs.Desk.{AddsNote, AddsNotes, AreAnswered, IsAnswered, IsCarriedOut, IsPlayed};
ghost use Rattle.order_desk.specs.Desk.{IsRefusedOrder, IsRefusedPlay, IsRefusedStatus, IsTold, has_cell};
ghost use Rattle.order_desk.specs.DeskSteps.{AreHalted, IsHalted};
ghost use Rattle.order_desk.specs.Pieces.{IsPieceOf, IsRefusedPiece, piece_slots};
ghost use Rattle.order_desk.specs.Reply.{cells_answered};

use crate::closed::Closed;
use crate::desk::in_cell::is_book_of;
use crate::desk::order::{CellFault, PreparedOrder, prepared};
use crate::desk::piece::{Piece, put_pages};
use crate::desk::reply::reply_in;
use crate::fault::DeskFault;
use crate::gate::Gate;
use crate::note::{Note, Pass};
use bsc_table::{Answer, CellBook, Command, Refused, SlotRange, State};
use cbs_page::Serial;
use cbsp_wire::cells::{find, find_near};
use cbsp_wire::{Cell, cause};
use std::alloc::Global;
use std::marker::Model;
use std::sync::{Mutex, Wait};

pub(crate) mod in_cell;
pub(crate) mod order;
pub(crate) mod piece;
pub(crate) mod reply;

/// A new book for each cell.
pub(crate) fn open_books(
    alloc: Global,
    cells: &[Cell],
    slots: u16,
) -> Result<Vec<CellBook>, DeskFault>
    ensures { IfOk result (λ books. books.items ≡ map (λ cell. opened cell slots) cells.now) }
{
    let mut books = Vec::with_capacity(alloc, cells.len())?;
    for cell in cells {
        books.push(CellBook::open(alloc, *cell, slots)?)?;
    }
    Ok(books)
}

/// A lock round each book.
fn locked(alloc: Global, books: Vec<CellBook>) -> Result<Vec<Mutex<CellBook>>, DeskFault>
    ensures { IfOk result (λ locks. vec_len locks ≡ vec_len books) }
{
    let mut locks = Vec::with_capacity(alloc, books.len())?;
    for book in books {
        locks.push(Mutex::new(book))?;
    }
    Ok(locks)
}

/// The books out of their locks.
fn unlocked(alloc: Global, locks: Vec<Mutex<CellBook>>) -> Result<Vec<CellBook>, DeskFault>
    ensures { IfOk result (λ books. vec_len books ≡ vec_len locks) }
{
    let mut books = Vec::with_capacity(alloc, locks.len())?;
    for lock in locks {
        books.push(lock.into_inner())?;
    }
    Ok(books)
}

/// The books of some cells, each under a lock of its own. Any number of threads may use it at once: each command, each
/// status and each play is one step of its cell, and a call never holds two cells.
///
/// In clauses it is its cells and the number of their slots. What is done is told by the passes.
#[derive(Drop)]
pub struct Desk {
    cells: Vec<Cell>,
    slots: u16,
    books: Vec<Mutex<CellBook>>,
}

impl Model for Desk {
    ghost use Rattle.std.specs.Prelude.{◌≡◌, true, vec_len};
    ghost use Rattle.cbsp_wire.specs.Range.{cells_are_valid};
    ghost use Rattle.order_desk.specs.Desk.{DeskState};

    ghost Value = { DeskState };

    ghost view = { λ desk. record { cells = desk.cells.items; slots = desk.slots } };

    ghost invariant = { λ desk. (cells_are_valid desk.cells.items ≡ true) × (vec_len desk.books ≡ vec_len desk.cells) };
}

impl Desk {
    /// A desk of some cells with runs of `slots` slots: each has a new book. It asks for at most 64 distinct cells: see
    /// [`cells_ok`](crate::cells_ok).
    ///
    /// # Errors
    ///
    /// `Refused` if out of memory.
    pub fn open(alloc: Global, cells: &[Cell], slots: u16) -> Result<Desk, Refused>
        requires { cells_are_valid cells.now ≡ true }
        ensures { IfOk result (λ desk. desk ≡ record { cells = cells.now; slots = slots }) }
    {
        let own = Vec::from_slice(alloc, cells)?;
        let Ok(books) = open_books(alloc, cells, slots) else {
            return Err(Refused);
        };
        match locked(alloc, books) {
            Ok(books) => Ok(Desk {
                cells: own,
                slots,
                books,
            }),
            Err(_) => Err(Refused),
        }
    }

    /// Its cells, in the order in which it was opened with them. It takes no memory.
    pub fn cells(&self) -> &[Cell]
        ensures cells { result.now ≡ self.now.cells }
        ensures valid { cells_are_valid result.now ≡ true }
    {
        self.cells.as_slice()
    }

    /// How many slots the run of each cell has. It takes no memory.
    pub fn slots(&self) -> u16
        ensures { result ≡ self.now.slots }
    {
        self.slots
    }

    /// A pass without notes, for one user of the desk. It takes no memory.
    pub fn pass(&self) -> Pass
        ensures { result ≡ [] }
    {
        Pass {
            notes: Vec::new(*self.cells.allocator()),
        }
    }

    /// Closes the desk: what its locks held.
    ///
    /// # Errors
    ///
    /// `Refused` if out of memory; the books are gone then.
    pub fn close(self) -> Result<Closed, Refused>
        ensures cells { IfOk result (λ closed. closed.cells ≡ self.cells) }
        ensures slots { IfOk result (λ closed. closed.slots ≡ self.slots) }
        ensures books { IfOk result (λ closed. length closed.books ≡ length closed.cells) }
        ensures valid { IfOk result (λ closed. cells_are_valid closed.cells ≡ true) }
    {
        let Desk {
            cells,
            slots,
            books,
        } = self;
        match unlocked(*cells.allocator(), books) {
            Ok(books) => Ok(Closed {
                cells,
                slots,
                books,
            }),
            Err(_) => Err(Refused),
        }
    }

    /// The place of a cell, if it is of the desk.
    #[tactic(auto, using(cbsp_wire::proofs::CellLists::absent))]
    fn place_of(&self, cell: Cell) -> Option<usize>
        ensures own { IfSome result (λ place. (place < length self.now.cells) × (has_cell self.now cell ≡ true)) }
        ensures foreign { IfNone result (has_cell self.now cell ≡ false) }
    {
        find(&self.cells, cell)
    }

    /// A place of a cell, if it is of the desk, which is looked for first near a place.
    fn place_near(&self, cell: Cell, near: usize) -> Option<usize>
        ensures own { IfSome result (λ place. slice_get self.now.cells place ≡ Some cell) }
        ensures foreign { IfNone result (has_cell self.now cell ≡ false) }
    {
        find_near(self.cells(), cell, near)
    }

    /// Serves an order in a cell of its list, which has this place at the desk, or none there.
    fn serve_cell<R: Wait, G: Gate>(
        &self,
        rt: &R,
        notes: &mut Vec<Note>,
        at: u16,
        cell: Cell,
        place: Option<usize>,
        command: &Command,
        gate: &G,
    ) -> Result<Answer, CellFault>
        requires own { IfSome place (λ place. slice_get self.now.cells place ≡ Some cell) }
        requires foreign { IfNone place (has_cell self.now cell ≡ false) }
        requires formed { IsWellFormed command.now }
        requires room { vec_len notes.old + 2 ≤ vec_capacity notes.old }
        ensures done { OnOk result (IfOk result (λ answer. (added : List Note)
            × IsAnswered self.now at command.now cell answer added
            × (notes.new.items ≡ notes.old.items ++ added))) }
        ensures halted { OnErr result (IfErr result (λ halt. (added : List Note)
            × IsHalted self.now at cell halt added
            × (notes.new.items ≡ notes.old.items ++ added))) }
        ensures few { vec_len notes.new ≤ vec_len notes.old + 2 }
        ensures room_stays { vec_capacity notes.new ≡ vec_capacity notes.old }
    {
        let Some(place) = place else {
            return Ok(Answer::Cause(cause::CELL_IDENTITY_NOT_VALID));
        };
        let mut guard = self.books[place].lock(rt);
        gate.inside(place as u16);
        in_cell::serve(&mut guard, notes, self.slots(), at, cell, command)
    }

    /// Serves an order in the cells of its list, one after the other.
    fn serve_cells<R: Wait, G: Gate>(
        &self,
        rt: &R,
        notes: &mut Vec<Note>,
        at: u16,
        cells: &[Cell],
        command: &Command,
        mut answers: Vec<(Cell, Answer)>,
        gate: &G,
    ) -> Result<Vec<(Cell, Answer)>, DeskFault>
        requires formed { IsWellFormed command.now }
        requires few { length cells.now ≤ max_listed }
        requires no_answers { answers.items ≡ [] }
        requires room_for_answers { length cells.now ≤ vec_capacity answers }
        requires room_for_notes { vec_len notes.old + 2 * length cells.now ≤ vec_capacity notes.old }
        ensures named { IfOk result (λ answers. cells_answered answers.items ≡ cells.now) }
        ensures done { OnOk result (IfOk result (λ answers. (added : List Note)
            × AreAnswered self.now at command.now answers.items added
            × (notes.new.items ≡ notes.old.items ++ added))) }
        ensures halted { OnErr result (IfErr result (λ fault. (added : List Note)
            × AreHalted self.now at cells.now command.now fault added
            × (notes.new.items ≡ notes.old.items ++ added))) }
    {
        let mut near = 0;
        for cell in cells {
            let place = self.place_near(*cell, near);
            near = place.unwrap_or(near);
            match self.serve_cell(rt, notes, at, *cell, place, command, gate) {
                Ok(answer) => answers.push_reserved((*cell, answer)),
                Err(CellFault::WrongBook) => return Err(DeskFault::Unknown),
                Err(CellFault::Refused) => {
                    return Err(DeskFault::Memory {
                        done: answers.len() as u16,
                    });
                }
            }
        }
        Ok(answers)
    }

    /// Carries out an order, a message of the warning centre in `bytes`, from slot `at` on, and returns the octets of
    /// the reply (3GPP TS 48.049, 8.1). The cells are served one after the other, in the order of the message's list:
    /// each is played up to `at`, or to its run's end if that is less, and then answers the command. What was played is
    /// noted, and the command with its answer, or that the log is full. A clock past `at` stays where it is.
    ///
    /// # Errors
    ///
    /// - `Wire` if the octets are no message, `Cause` if the message is no order (see `orders_of`): nothing is done.
    /// - `Memory { done }` if out of memory, with the number of cells of the list that had answered: the next one, a
    ///   cell of the desk, was at most played. All that the call itself takes is taken before the first cell, but for
    ///   contents that have as many owners as can be counted, of which a note takes its own.
    /// - `Unknown` if the lock of a cell of the desk holds the book of another cell or run, which no call leaves there:
    ///   the cells before it have answered, and nothing of it is noted.
    ///
    /// A cell that isn't of the desk is no fault: it is answered cause 03, and the order goes on.
    pub fn order<R: Wait, G: Gate>(
        &self,
        rt: &R,
        alloc: Global,
        pass: &mut Pass,
        at: u16,
        bytes: &[u8],
        gate: &G,
    ) -> Result<Vec<u8>, DeskFault>
        ensures carried_out { OnOk result (IfOk result (λ reply. AddsNotes pass.old pass.new
            (IsCarriedOut self.now at bytes.now reply.items))) }
        ensures refused { OnErr result (IfErr result (λ fault. AddsNotes pass.old pass.new
            (IsRefusedOrder self.now at bytes.now fault))) }
    {
        let PreparedOrder {
            command,
            cells,
            answers,
            room,
        } = prepared(alloc, bytes)?;
        if pass.notes.reserve(2 * cells.len()).is_err() {
            return Err(DeskFault::Memory { done: 0 });
        }
        match self.serve_cells(rt, &mut pass.notes, at, &cells, &command, answers, gate) {
            Ok(answers) => Ok(reply_in(room, &command, &answers)),
            Err(fault) => Err(fault),
        }
    }

    /// Plays `k` slots of a cell, or those up to its run's end, and returns which they were. They are noted, also if
    /// there are none.
    ///
    /// # Errors
    ///
    /// `Unknown` if the cell isn't of the desk, or its lock holds the book of another; `Memory { done: 0 }` if out of
    /// memory. Nothing is noted then.
    pub fn play<R: Wait, G: Gate>(
        &self,
        rt: &R,
        alloc: Global,
        pass: &mut Pass,
        cell: Cell,
        k: u16,
        gate: &G,
    ) -> Result<SlotRange, DeskFault>
        ensures played { OnOk result (IfOk result (λ range. AddsNote pass.old pass.new
            (IsPlayed self.now cell k range))) }
        ensures refused { OnErr result (IfErr result (λ fault. AddsNotes pass.old pass.new
            (IsRefusedPlay self.now cell fault))) }
        ensures foreign { has_cell self.now cell ≡ false → result ≡ Err DeskFault.Unknown }
    {
        let Some(place) = self.place_of(cell) else {
            return Err(DeskFault::Unknown);
        };
        pass.notes.reserve(1)?;
        let mut guard = self.books[place].lock(rt);
        gate.inside(place as u16);
        let book = &mut *guard;
        if !is_book_of(book, cell, self.slots()) {
            return Err(DeskFault::Unknown);
        }
        Ok(in_cell::play(book, &mut pass.notes, k))
    }

    /// How often a message was broadcast in a cell, and how it stands there; None if it was never accepted. This is an
    /// entry in the cell's log, and noted.
    ///
    /// # Errors
    ///
    /// `Unknown` if the cell isn't of the desk, or its lock holds the book of another; `Full` if its log has 4,096
    /// entries, which is noted; `Memory { done: 0 }` if out of memory. Nothing is noted with the other two.
    pub fn status<R: Wait, G: Gate>(
        &self,
        rt: &R,
        alloc: Global,
        pass: &mut Pass,
        cell: Cell,
        id: u16,
        serial: Serial,
        gate: &G,
    ) -> Result<Option<(u16, State)>, DeskFault>
        ensures told { OnOk result (IfOk result (λ told. AddsNote pass.old pass.new
            (IsTold self.now cell id serial told))) }
        ensures refused { OnErr result (IfErr result (λ fault. AddsNotes pass.old pass.new
            (IsRefusedStatus self.now cell id serial fault))) }
        ensures foreign { has_cell self.now cell ≡ false → result ≡ Err DeskFault.Unknown }
    {
        let Some(place) = self.place_of(cell) else {
            return Err(DeskFault::Unknown);
        };
        pass.notes.reserve(1)?;
        let mut guard = self.books[place].lock(rt);
        gate.inside(place as u16);
        let book = &mut *guard;
        if !is_book_of(book, cell, self.slots()) {
            return Err(DeskFault::Unknown);
        }
        in_cell::status(book, &mut pass.notes, id, serial)
    }

    /// What a cell aired in at most `k` slots from `from` on, of those that were played. This is no step of the cell:
    /// nothing is entered in its log, and nothing is noted.
    ///
    /// # Errors
    ///
    /// `Unknown` if the cell isn't of the desk, or its lock holds the book of another; `Memory { done: 0 }` if out of
    /// memory.
    pub fn piece<R: Wait, G: Gate>(
        &self,
        rt: &R,
        alloc: Global,
        cell: Cell,
        from: u16,
        k: u16,
        gate: &G,
    ) -> Result<Piece, DeskFault>
        requires { k ≤ piece_slots }
        ensures piece { IfOk result (IsPieceOf self.now cell from k) }
        ensures refused { IfErr result (IsRefusedPiece self.now cell) }
        ensures foreign { has_cell self.now cell ≡ false → result ≡ Err DeskFault.Unknown }
    {
        let Some(place) = self.place_of(cell) else {
            return Err(DeskFault::Unknown);
        };
        let mut pages = Vec::with_capacity(alloc, k as usize)?;
        let guard = self.books[place].lock(rt);
        gate.inside(place as u16);
        let book = &*guard;
        if !is_book_of(book, cell, self.slots()) {
            return Err(DeskFault::Unknown);
        }
        put_pages(book, &mut pages, from, k);
        Ok(Piece { cell, from, pages })
    }
}
