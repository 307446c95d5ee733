//! Gates: what is called while a cell is held.

/// What a desk calls while it holds a cell. A test can let a thread wait there; a program passes [`Open`].
pub trait Gate: Sync {
    /// A thread holds the cell of this place, from 0 in the order of the desk's cells.
    fn inside(&self, place: u16);
}

/// The gate that lets every thread pass at once.
#[derive(Clone, Copy, Debug)]
pub struct Open;

impl Gate for Open {
    fn inside(&self, _place: u16) {}
}
