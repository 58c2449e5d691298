//! Laws of searches and matches.
ghost use Rattle.layout_match.specs.Laws.{FailedSearchesRead, LigatureWordsAreRead, MatchesAreNearest, MatchesAreWhole, NearestAreMatched, NearestIsTaken, WordsAreRead};

/// A search matches the glyph that it finds, and skips each glyph before it.
pub fn law_nearest_is_taken()
    ensures { NearestIsTaken }
{}

/// A search that failed skipped all glyphs to the end of the text, or all before the glyph that ended it.
pub fn law_failed_searches_read()
    ensures { FailedSearchesRead }
{}

/// A match has one index for each glyph that a rule requires.
#[tactic(auto, using(crate::proofs::Law::whole_match))]
pub fn law_matches_are_whole()
    ensures { MatchesAreWhole }
{}

/// The indices of a match rise: each is that of the nearest glyph after the one before it that matches, and each glyph
/// between is skipped. There are no other such indices.
#[tactic(auto, using(crate::proofs::Law::nearest_match, crate::proofs::Law::only_match))]
pub fn law_matches_are_nearest()
    ensures nearest { MatchesAreNearest }
    ensures only { NearestAreMatched }
{}

/// A ligature word determines the ligature's number and the component, or the count of components, that it was made of.
#[tactic(auto, using(crate::proofs::Words::word_read, crate::proofs::Words::ligature_read))]
pub fn law_ligature_words_are_read()
    ensures components { WordsAreRead }
    ensures ligatures { LigatureWordsAreRead }
{}
