//! The clusters of shaped texts at the level Graphemes.
ghost use Rattle.shape_parts.specs.GraphemeLaws.{PushedClustersAreGraphemes, ShapedClustersAreGraphemes};

/// At the level Graphemes, for every shaper and by lawful tables, each glyph that a text is shaped to has the cluster of a
/// grapheme's first character, where the clusters of the text rise.
#[tactic(auto, using(crate::proofs::GraphemeClusters::shaped_clusters_are_graphemes))]
pub fn law_shaped_clusters_are_graphemes()
    ensures { ShapedClustersAreGraphemes }
{}

/// At that level each glyph of a text that was pushed once has the byte at which a grapheme begins.
#[tactic(auto, using(crate::proofs::GraphemeClusters::pushed_clusters_are_graphemes))]
pub fn law_pushed_clusters_are_graphemes()
    ensures { PushedClustersAreGraphemes }
{}
