//! The pipeline stages on positions keep the parts of a text, reverse no list and leave its direction.
ghost use Rattle.shape_parts.specs.StageLaws.{AdvancesStayInLine, ClearedLinksStayInLine, FollowedLinksStayInLine, PositionedMarksStayInLine, SpacesStayInLine, ZeroedMarksStayInLine, ZeroedWidthsStayInLine};

/// The font's advances keep the parts.
pub fn law_advances_stay_in_line()
    ensures { AdvancesStayInLine }
{}

/// The widths of spaces keep the parts.
pub fn law_spaces_stay_in_line()
    ensures { SpacesStayInLine }
{}

/// Cleared links keep the parts.
pub fn law_cleared_links_stay_in_line()
    ensures { ClearedLinksStayInLine }
{}

/// Followed links keep the parts.
pub fn law_followed_links_stay_in_line()
    ensures { FollowedLinksStayInLine }
{}

/// Zeroed advances of marks keep the parts.
pub fn law_zeroed_marks_stay_in_line()
    ensures { ZeroedMarksStayInLine }
{}

/// Marks positioned by fallback keep the parts.
pub fn law_positioned_marks_stay_in_line()
    ensures { PositionedMarksStayInLine }
{}

/// Zeroed widths of default ignorables keep the parts.
pub fn law_zeroed_widths_stay_in_line()
    ensures { ZeroedWidthsStayInLine }
{}
