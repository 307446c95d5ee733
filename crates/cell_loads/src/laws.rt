//! Laws of a table of loads.

ghost use Rattle.cell_loads.specs.Laws.{FullestHasALine, LinesAreChanges};

/// States, as its contract, what can be read in a table of loads. Does nothing: its body names the laws that carry it.
pub fn loads_laws()
    // From a line up to the next one the load stays as it is, and at the next one it is another.
    ensures changes { LinesAreChanges }

    // A cell has the line that is marked.
    ensures fullest { FullestHasALine }
{
    chart::chart_laws();
}
