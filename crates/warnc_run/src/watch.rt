//! Who watches a run go on.

use order_desk::{Gate, Open};

/// Who watches a run go on: it is at the gate of each cell that is held, and is told of each cell that is done.
pub trait Watch: Gate {
    /// One more of a book's cells is done: its tape is written, or what a text says of it is known.
    fn done(&self);
}

impl Watch for Open {
    fn done(&self) {}
}

/// A gate, with nobody who is told of cells that are done.
#[derive(Clone, Copy)]
pub(crate) struct GateAlone<'a, G: Gate> {
    pub(crate) gate: &'a G,
}

impl<G: Gate> Gate for GateAlone<'_, G> {
    fn inside(&self, place: u16) {
        self.gate.inside(place);
    }
}

impl<G: Gate> Watch for GateAlone<'_, G> {
    fn done(&self) {}
}

/// Tells that this many cells are done.
pub(crate) fn tell<G: Watch>(watch: &G, cells: usize) {
    for _ in 0..cells {
        watch.done();
    }
}
