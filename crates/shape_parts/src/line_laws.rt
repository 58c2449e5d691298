//! What is known of stages one after another: the parts of a text, and the order of its clusters along the line.
ghost use Rattle.shape_parts.specs.StageLaws.{InLineKeepsPartsOnLine, StagesKeepPartsOnLine, WantedKeepPartsOnLine};

/// A stage that keeps the parts, reverses no list and leaves the direction as it is keeps the order of clusters along the line.
pub fn law_in_line_keeps_parts_on_line()
    ensures { InLineKeepsPartsOnLine }
{}

/// Two stages that keep the parts and their order along the line keep them one after the other.
pub fn law_stages_keep_parts_on_line()
    ensures { StagesKeepPartsOnLine }
{}

/// A stage that is done only by a condition keeps them where the stage does.
pub fn law_wanted_keep_parts_on_line()
    ensures { WantedKeepPartsOnLine }
{}
