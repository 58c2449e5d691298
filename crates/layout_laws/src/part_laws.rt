//! The lookups of a text keep its parts, and reverse no list.
ghost use Rattle.layout_laws.specs.Parts.{PositioningKeepsParts, PositioningStaysUnturned, SubstitutionKeepsParts, SubstitutionStaysUnturned};

/// Substitution keeps the parts of a text where each pause does.
pub fn law_substitution_keeps_parts()
    ensures { SubstitutionKeepsParts }
{}

/// Positioning keeps the parts of a text where each pause does.
pub fn law_positioning_keeps_parts()
    ensures { PositioningKeepsParts }
{}

/// Substitution reverses no list where no pause does.
pub fn law_substitution_stays_unturned()
    ensures { SubstitutionStaysUnturned }
{}

/// Positioning reverses no list where no pause does.
pub fn law_positioning_stays_unturned()
    ensures { PositioningStaysUnturned }
{}
