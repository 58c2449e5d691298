//! A search in the first part of a list finds what it finds in the whole list, or reaches past the cut.
ghost use Rattle.layout_laws.specs.Breaks.Matching.{MatchesAgree, SearchesAgree};

/// A search that doesn't reach a cut finds the same in the whole list; one that fails there finds nothing before the cut.
pub fn law_searches_agree()
    ensures { SearchesAgree }
{}

/// A match that doesn't reach a cut is the same match in the whole list, at the same indices.
pub fn law_matches_agree()
    ensures { MatchesAgree }
{}
