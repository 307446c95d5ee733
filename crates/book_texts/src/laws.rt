//! Laws of the tables of texts.

ghost use Rattle.book_texts.specs.Laws.{TablesAreOne, TablesHaveRightRows};

/// Octets have one table of texts at most, so what [`texts_stream`](crate::texts_stream) writes is determined, with the
/// pages of each text and the place where it is cut; and they have none where a row has a fault. It does nothing: its
/// contract is the law.
pub fn texts_laws()
    ensures one { TablesAreOne }
    ensures right { TablesHaveRightRows }
{}
