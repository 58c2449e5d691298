//! The pipeline stages on characters keep the parts of a text, reverse no list and leave its direction; the order of the script reverses list and direction together.
ghost use Rattle.shape_parts.specs.StageLaws.{CircleStaysInLine, ClustersStayInLine, FirstMaskStaysInLine, FractionsStayInLine, GraphemesAreKnown, GraphemesKeepFall, GraphemesKeepParts, NormalizingStaysInLine, PropertiesStayInLine, RangesStayInLine, RotationStaysInLine};

/// The first mask keeps the parts.
pub fn law_first_mask_stays_in_line()
    ensures { FirstMaskStaysInLine }
{}

/// The properties of characters keep the parts.
pub fn law_properties_stay_in_line()
    ensures { PropertiesStayInLine }
{}

/// A dotted circle before the text keeps the parts.
pub fn law_circle_stays_in_line()
    ensures { CircleStaysInLine }
{}

/// The clusters of graphemes keep the parts.
pub fn law_clusters_stay_in_line()
    ensures { ClustersStayInLine }
{}

/// By lawful tables a text without characters above U+007F has graphemes of one character each.
pub fn law_graphemes_are_known()
    ensures { GraphemesAreKnown }
{}

/// The clusters of graphemes and then the order of the script keep the parts.
pub fn law_graphemes_keep_parts()
    ensures { GraphemesKeepParts }
{}

/// They keep the order of clusters along the line.
pub fn law_graphemes_keep_fall()
    ensures { GraphemesKeepFall }
{}

/// Mirrored characters and vertical forms keep the parts.
pub fn law_rotation_stays_in_line()
    ensures { RotationStaysInLine }
{}

/// Normalizing keeps the parts, where the shaper orders each run of marks in line.
pub fn law_normalizing_stays_in_line()
    ensures { NormalizingStaysInLine }
{}

/// The masks of fractions keep the parts.
pub fn law_fractions_stay_in_line()
    ensures { FractionsStayInLine }
{}

/// The masks of ranges keep the parts.
pub fn law_ranges_stay_in_line()
    ensures { RangesStayInLine }
{}
