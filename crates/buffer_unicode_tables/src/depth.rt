//! The check that each chain of first halves of decompositions ends.
ghost use Rattle.std.specs.Prelude.{◌≡◌, ◌+◌, ◌<◌, true, false, MatchBool};
ghost use Rattle.std.specs.List.{list_all};
ghost use Rattle.buffer_unicode_tables.specs.Expansion.{EndWithin, HasDeepChain, ends_within};
ghost use Rattle.buffer_unicode_tables.specs.Ranges.{AllAmong, SomeAmong};
ghost use Rattle.buffer_unicode_tables.specs.Tables.{splits_of};

use crate::hangul::{L_BASE, L_COUNT, below_surrogates, decompose_hangul};
use buffer_rows::PagedRows;
use buffer_unicode::Split;

/// How many decompositions a chain of first halves may have.
pub const MAX_SPLITS: u32 = 8;

/// A syllable with a trailing consonant decomposes twice, down to its leading consonant.
const SYLLABLE_SPLITS: u32 = 2;

/// Whether each chain of first halves ends within eight decompositions.
pub(crate) fn all_chains_end(splits: &PagedRows<Split>) -> bool
    ensures { MatchBool result (EndWithin (splits_of splits.now) MAX_SPLITS)
        (HasDeepChain (splits_of splits.now) MAX_SPLITS) }
{
    rows_end(splits) && leading_consonants_end(splits)
}

fn rows_end(splits: &PagedRows<Split>) -> bool
    ensures { result ≡ list_all (λ (r : Split). ends_within (splits_of splits.now) MAX_SPLITS r.whole) splits.now }
{
    splits
        .as_slice()
        .iter()
        .all(|row| chain_ends(splits, MAX_SPLITS, row.whole))
}

fn leading_consonants_end(splits: &PagedRows<Split>) -> bool
    ensures { MatchBool result (AllAmong L_BASE L_COUNT (ends_within (splits_of splits.now) 6))
        (SomeAmong L_BASE L_COUNT (λ l. ends_within (splits_of splits.now) 6 l ≡ false)) }
{
    for leading in L_BASE..L_BASE + L_COUNT {
        if !chain_ends(
            splits,
            MAX_SPLITS - SYLLABLE_SPLITS,
            below_surrogates(leading),
        ) {
            return false;
        }
    }
    true
}

#[tactic(auto, using(crate::proofs::Chains::ends_without_split, crate::proofs::Chains::ends_not_at_zero, crate::proofs::Chains::ends_with_first))]
fn chain_ends(splits: &PagedRows<Split>, depth: u32, u: char) -> bool
    ensures { result ≡ ends_within (splits_of splits.now) depth u }
{
    let Some((first, _)) = split(splits, u) else {
        return true;
    };
    if depth == 0 {
        return false;
    }
    chain_ends(splits, depth - 1, first)
}

/// The canonical decomposition of a character (UAX 15, D68): by the rule for Hangul, else by the table.
pub(crate) fn split(splits: &PagedRows<Split>, u: char) -> Option<(char, char)>
    ensures { result ≡ splits_of splits.now u }
{
    if let Some(pieces) = decompose_hangul(u) {
        return Some(pieces);
    }
    let row = splits.get(u as u32)?;
    Some((row.first, row.second))
}
