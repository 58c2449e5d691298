//! The number of times that the tiles of a run repeat (rustybuzz: hb/ot_shaper_arabic.rs, apply_stch).
ghost use Rattle.std.specs.Prelude.{◌≡◌};
ghost use Rattle.script_arabic.specs.Copies.{copies, left_of_word, natural};

use crate::runs::Run;

/// The width of the word that the fixed tiles leave, 0 where they are at least as wide as the word.
pub fn left_of_word(run: &Run) -> u128
    ensures { result ≡ left_of_word run.now }
{
    natural(run.word).saturating_sub(run.fixed)
}

fn natural(width: i128) -> u128
    ensures { result ≡ natural width }
{
    u128::try_from(width).unwrap_or(0)
}

/// The number of copies of each repeating tile that make the tiles reach the word's width: none where they reach it
/// without copies, or have no width.
pub fn copies(run: &Run) -> u128
    ensures { result ≡ copies run.now }
{
    let left = left_of_word(run);
    if run.repeating > 0 && run.repeating < left {
        (left - 1) / run.repeating
    } else {
        0
    }
}
