//! Laws of moves.
ghost use Rattle.buffer_stages.specs.Moves.{MovesMergeOnce};

/// Moves to the front of one range, none shorter than those before it, leave at every level the clusters and flags that
/// one merge of the longest leaves, in the order to which they move.
#[tactic(auto, using(crate::specs::Lemmas::Nested::moves_merge_once))]
pub fn law_moves_merge_once()
    ensures { MovesMergeOnce }
{}
