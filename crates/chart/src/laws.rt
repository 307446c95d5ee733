//! Laws of a chart.

ghost use Rattle.chart.specs.Escape.{EscapedIsPlain};
ghost use Rattle.chart.specs.Laws.{FullestHasMost, HeightsAreOfLoads, LikeAreTheSame, MarksAreCompleted};
ghost use Rattle.chart.specs.Laws.{MarksOfPartsAreCompleted, StrokesAreMarks, TicksReachTheEnd};

/// States, as its contract, what texts, marks, loads, sections and axes are in a page, and where a cell is fullest.
/// Does nothing: its body names the laws that carry it.
pub fn chart_laws()
    // No text begins or ends a tag, or the value of an attribute.
    ensures escaped { EscapedIsPlain }

    // A message has as many marks as broadcasts of it were completed, or their number in place of marks, exactly if
    // these are over 400 or its period is less than 4 px of 1,280.
    ensures marks { MarksAreCompleted }

    // In a part of the run the same goes for those that were completed in that.
    ensures parts { MarksOfPartsAreCompleted }

    // The line that is drawn of a message's marks crosses the picture once after each of the slots that make a
    // broadcast of it whole, and nowhere else.
    ensures strokes { StrokesAreMarks }

    // The picture of the loads is as high as a full cell, and in proportion.
    ensures heights { HeightsAreOfLoads }

    // Cells have one section exactly if what stands in theirs is the same.
    ensures sections { LikeAreTheSame }

    // An axis has all ticks of what is drawn.
    ensures ticks { TicksReachTheEnd }

    // A cell is fullest at the first slot with a load that no slot exceeds.
    ensures fullest { FullestHasMost }
{
    bsc_table::guarantee();
    bsc_table::legal_histories();
    scheduler::air_laws();
}
