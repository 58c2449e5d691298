//! The clusters of a reading: they are the parts that its joins and deletions leave, they stand in the direction of the line, and the least one stays.
ghost use Rattle.shape_parts.specs.Laws.{BegunTextsKeepParts, ClustersAreParts, ClustersFitText, ClustersStandInLine, LeastClusterStays, RangesReadNumbers, RangesReadParts, ShapingKeepsTextParts, SlicesAreNoCoarserThanParts};

/// The first pipeline stage, from the first mask to the script's direction, keeps the parts of a text and their order along the line.
pub fn law_begun_texts_keep_parts()
    ensures { BegunTextsKeepParts }
{}

/// All pipeline stages keep the parts of a text.
pub fn law_shaping_keeps_text_parts()
    ensures { ShapingKeepsTextParts }
{}

/// Each glyph of a result has the cluster of its part, and there are as many clusters as glyphs.
pub fn law_clusters_are_parts()
    ensures { ClustersAreParts }
{}

/// Clusters never fall along a forward line, and never rise along a backward one.
pub fn law_clusters_stand_in_line()
    ensures { ClustersStandInLine }
{}

/// The least cluster stays while a glyph is left.
pub fn law_least_cluster_stays()
    ensures { LeastClusterStays }
{}

/// The clusters of a result are ordered, and among those of the text.
pub fn law_clusters_fit_text()
    ensures { ClustersFitText }
{}

/// Two characters share a slice only where a join or a deletion united their parts.
pub fn law_slices_are_no_coarser_than_parts()
    ensures { SlicesAreNoCoarserThanParts }
{}

/// The masks of ranges read the numbers of the parts at that step.
pub fn law_ranges_read_parts()
    ensures { RangesReadParts }
{}

/// At every level and for every shaper the masks of ranges read a cluster of the text for each item.
pub fn law_ranges_read_numbers()
    ensures { RangesReadNumbers }
{}
