//! Laws of laid tiles.
ghost use Rattle.script_arabic.specs.TileLaws.{LeftmostIsThere, TilesKeepPlainly, TilesReach};

/// Tiles with their copies are at least as wide as their word, and exceed it by less than one unit for each copy; the
/// leftmost is drawn where they begin.
#[tactic(auto, using(crate::proofs::Reach::leftmost_is_there))]
pub fn law_tiles_reach()
    ensures reach { TilesReach }
    ensures there { LeftmostIsThere }
{}

/// Laying tiles adds copies of glyphs, and permutes none, whatever the clusters are.
pub fn law_tiles_keep_plainly()
    ensures { TilesKeepPlainly }
{}
