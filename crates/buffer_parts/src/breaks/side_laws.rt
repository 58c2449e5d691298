//! Laws of our own, which rustybuzz has not: events within one of two lists that are cut at a cluster.
ghost use Rattle.buffer_parts.specs.Breaks.SideLaws.{BothChangeAlone, BothChangeBackward, FirstChangesAlone, RangesCross, SecondChangesAlone, WholeEventsDivide};

/// A range from the first list into the second crosses the cut.
pub fn law_ranges_cross()
    ensures { RangesCross }
{}

/// Events within the first list change it alone, or make it unsafe to break at the cut.
pub fn law_first_changes_alone()
    ensures { FirstChangesAlone }
{}

/// Events within the second list change it alone, or make it unsafe to break at the cut.
pub fn law_second_changes_alone()
    ensures { SecondChangesAlone }
{}

/// Events within the first list, and then events within the second, change each list alone, or make it unsafe there.
pub fn law_both_change_alone()
    ensures { BothChangeAlone }
{}

/// Events within the second list, and then events within the first, change each list alone, or make it unsafe there.
pub fn law_both_change_backward()
    ensures { BothChangeBackward }
{}

/// A reversal, a `Spread` and a `Reset` do to both lists what they do to each.
pub fn law_whole_events_divide()
    ensures { WholeEventsDivide }
{}
