//! Full canonical decompositions (UAX 15, D68), without memory.
ghost use Rattle.std.specs.Prelude.{◌≡◌, ◌+◌, ◌<◌, ◌≤◌, ◌++◌, true, [], length};
ghost use Rattle.arrayvec.specs.ArrayVec.{array_vec_len};
ghost use Rattle.buffer_unicode_tables.specs.Expansion.{expansion_by_splits};
ghost use Rattle.buffer_unicode_tables.specs.Tables.{splits_of};

use crate::depth::{MAX_SPLITS, split};
use arrayvec::ArrayVec;
use buffer_rows::PagedRows;
use buffer_unicode::Split;

/// How many characters two full expansions may have: each has one first half and as many second halves as a chain may
/// have decompositions.
pub(crate) const EXPANSIONS: usize = 18;

/// Appends the full expansion of a character.
pub(crate) fn expand(splits: &PagedRows<Split>, u: char, out: &mut ArrayVec<char, EXPANSIONS>)
    requires { array_vec_len out.old ≤ 9 }
    ensures expanded { out.new.items ≡ out.old.items ++ expansion_by_splits (splits_of splits.now) MAX_SPLITS u }
    ensures room { array_vec_len out.new ≤ array_vec_len out.old + 9 }
{
    expand_within(splits, MAX_SPLITS, u, out);
}

#[tactic(auto, using(crate::proofs::Chains::expanded_alone, crate::proofs::Chains::expanded_at_zero, crate::proofs::Chains::with_second, crate::proofs::Chains::without_second))]
fn expand_within(
    splits: &PagedRows<Split>,
    depth: u32,
    u: char,
    out: &mut ArrayVec<char, EXPANSIONS>,
)
    requires { array_vec_len out.old + depth < 18 }
    ensures expanded { out.new.items ≡ out.old.items ++ expansion_by_splits (splits_of splits.now) depth u }
    ensures room { array_vec_len out.new ≤ array_vec_len out.old + depth + 1 }
{
    if depth == 0 {
        out.push(u);
        return;
    }
    match split(splits, u) {
        None => out.push(u),
        Some((first, second)) => {
            expand_within(splits, depth - 1, first, out);
            if second != '\0' {
                out.push(second);
            }
        }
    }
}
