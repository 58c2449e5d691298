//! Laws of our own, which rustybuzz has not: how many glyphs events leave.
ghost use Rattle.buffer_parts.specs.CountLaws.{CountsFollow, GivingIsGiving, LigaturesAreGiving};

/// How many glyphs events leave depends on how many there were.
pub fn law_counts_follow()
    ensures { CountsFollow }
{}

/// Where each replacement gives a glyph, none drops the last item of a part.
pub fn law_giving_is_giving()
    ensures { GivingIsGiving }
{}

/// Deleting the components of a ligature drops no part.
pub fn law_ligatures_are_giving()
    ensures { LigaturesAreGiving }
{}
