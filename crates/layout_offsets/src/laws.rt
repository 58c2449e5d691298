//! Laws of following links.
ghost use Rattle.layout_offsets.specs.Trees.{TreesAreDrawn};
ghost use Rattle.layout_offsets.specs.Finished.{LinksAreCleared};
ghost use Rattle.layout_offsets.specs.Marks.{MarksAreDrawn};

/// Where links form no cycle, each glyph is drawn from its parent's final position.
pub fn law_trees_are_drawn()
    ensures { TreesAreDrawn }
{}

/// Where links form no cycle, each mark that is linked backward is drawn at its recorded offset from its drawn base.
pub fn law_marks_are_drawn()
    ensures { MarksAreDrawn }
{}

/// Whatever the links, with or without cycles: each is cleared, each advance stays, and so does each position without a
/// link.
pub fn law_links_are_cleared()
    ensures { LinksAreCleared }
{}
