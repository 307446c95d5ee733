//! Notes of what was done in the cells of a desk, and the passes that hold them.

ghost use Rattle.std.specs.Prelude.{◌≡◌};

use bsc_table::Entry;
use cbsp_wire::Cell;
use std::marker::Model;

/// What was done in a cell.
#[derive(Debug, Drop)]
pub enum Note {
    /// A command was answered, and entered in the cell's log.
    Event {
        /// The cell.
        cell: Cell,
        /// The entry's place in the log, from 0.
        number: u16,
        /// The entry.
        entry: Entry,
    },
    /// Slots were played.
    Played {
        /// The cell.
        cell: Cell,
        /// The first slot.
        from: u16,
        /// The slot after the last one.
        to: u16,
    },
    /// A command was refused because the cell's log has 4,096 entries.
    Full {
        /// The cell.
        cell: Cell,
    },
}

/// The notes of one user of a desk, in the order in which things were done. In clauses it is the list of them. A pass
/// can't be copied, so that nothing is noted twice.
#[derive(Debug, Drop)]
pub struct Pass {
    pub(crate) notes: Vec<Note>,
}

impl Model for Pass {
    ghost use Rattle.std.specs.Prelude.{List};
    ghost use Rattle.order_desk.specs.declared.note.Note.{Note};

    ghost Value = { List Note };

    ghost view = { λ pass. pass.notes.items };
}

impl Pass {
    /// The notes. It takes no memory.
    pub fn notes(&self) -> &[Note]
        ensures { result.now ≡ self.now }
    {
        self.notes.as_slice()
    }
}
