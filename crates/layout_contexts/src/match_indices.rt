//! The indices of a match, once a nested lookup changed the list's length (rustybuzz: hb/ot_layout_gsubgpos.rs,
//! `apply_lookup`).
ghost use Rattle.std.specs.Prelude.{◌≡◌, ◌<◌, ◌+◌, ◌-◌, ◌++◌, ◌^◌, drop, length, map, take};
ghost use Rattle.std.specs.List.{All};
ghost use Rattle.layout_contexts.specs.Shifts.{following, indices_after_resize};

use layout_match::MatchPositions;

#[tactic(auto, using(crate::proofs::Shifted::following_on, crate::proofs::Shifted::following_full, crate::proofs::Shifted::following_all))]
/// Appends `count` indices that follow one, as far as there is room.
fn push_following(indices: &mut MatchPositions, index: usize, count: usize)
    requires { index + count + 1 < 2 ^ 64 }
    ensures { indices.new.items ≡ take 64 (indices.old.items ++ following index count) }
{
    // There are at most 64 indices, which `take 64` keeps.
    let _len = indices.as_slice().len();
    for k in 0..count {
        if indices.is_full() {
            return;
        }
        indices.push(index + k + 1);
    }
}

#[tactic(auto, using(crate::proofs::Shifted::moved_on, crate::proofs::Shifted::following_full, crate::proofs::Shifted::moved_all))]
/// Appends indices moved by a change of length, as far as there is room.
fn push_moved(indices: &mut MatchPositions, later: &[usize], before: usize, after: usize)
    requires { All (λ q. q + after < 2 ^ 64) later.now }
    ensures { indices.new.items ≡ take 64 (indices.old.items ++ map (λ q. q + after - before) later.now) }
{
    // There are at most 64 indices, which `take 64` keeps.
    let _len = indices.as_slice().len();
    for index in later {
        if indices.is_full() {
            return;
        }
        indices.push((*index + after).saturating_sub(before));
    }
}

/// The indices of the match from the one at `from` on.
fn from_index(indices: &[usize], from: usize) -> &[usize]
    ensures { result.now ≡ drop from indices.now }
{
    if from < indices.len() {
        return &indices[from..];
    }
    &[]
}

/// Adds a number to all indices.
#[tactic(auto, using(crate::proofs::Shifted::all_moved))]
pub(crate) fn move_indices(indices: &mut MatchPositions, by: usize)
    requires { All (λ q. q + by < 2 ^ 64) indices.old.items }
    ensures { indices.new.items ≡ map (λ q. q + by) indices.old.items }
{
    let mut moved = MatchPositions::new();
    push_moved(&mut moved, indices.as_slice(), 0, by);
    *indices = moved;
}

/// Updates the indices of a match, once a lookup at the i-th of them changed the list's length from `before` to `after`
/// glyphs: as many indices are inserted after that one as glyphs were, or as many deleted there as glyphs were, and
/// later ones move. Those past `MAX_CONTEXT_LENGTH` are left out.
#[tactic(auto, using(crate::proofs::Shifted::all_settled))]
pub fn settle_indices(indices: &mut MatchPositions, i: usize, before: usize, after: usize)
    requires there { i < length indices.old.items }
    requires fits { All (λ q. q + after + 1 < 2 ^ 64) indices.old.items }
    ensures { indices.new.items ≡ indices_after_resize i before after indices.old.items }
{
    let mut settled = MatchPositions::new();
    let old = indices.as_slice();
    push_moved(&mut settled, &old[..i + 1], 0, 0);
    push_following(&mut settled, old[i], after.saturating_sub(before));
    push_moved(
        &mut settled,
        from_index(&old[i + 1..], before.saturating_sub(after)),
        before,
        after,
    );
    *indices = settled;
}
