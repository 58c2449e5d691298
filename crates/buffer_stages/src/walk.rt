//! The walk over the syllables of a buffer.
ghost use Rattle.std.specs.Prelude.{ℕ, ◌≡◌, ◌≤◌, ◌<◌, List, length, slice_range, OnOk};
ghost use Rattle.buffer_glyphs.specs.Items.{Item};
ghost use Rattle.buffer_core.specs.Readings.{always};
ghost use Rattle.buffer_core.specs.Sides.{all_glyphs, items_of};
ghost use Rattle.buffer_stages.specs.Ready.{IsReady};
ghost use Rattle.buffer_stages.specs.Stages.{IsFollowed};
ghost use Rattle.buffer_glyphs.specs.Rewriting.{Arrangement};
ghost use Rattle.buffer_stages.specs.Rewriting.{by_syllable};
ghost use Rattle.buffer_stages.specs.SyllableBuffers.{IsRewritten, with_rule};

use buffer_core::buffer::hb_buffer_t;
use std::alloc::AllocError;

/// A rule for one syllable, which keeps its length.
pub trait SyllableRule {
    ghost rewritten: { Self → List Item → Arrangement };

    /// Rewrites the glyphs from `start` up to before `end`, which are one syllable.
    fn rewrite(&self, buffer: &mut hb_buffer_t, start: usize, end: usize) -> Result<(), AllocError>
        requires ready { IsReady buffer.old }
        requires ordered { start < end }
        requires within { end ≤ length (all_glyphs buffer.old) }
        ensures { OnOk result (IsRewritten (rewritten self.now (slice_range (items_of buffer.old) start end)) start end
            buffer.old buffer.new) };

    ghost keeps_length: { (rule : Self) (xs : List Item) → length (rewritten rule xs).items ≡ length xs };
}

/// Rewrites each syllable by itself, from the first on: neighbours with the same syllable byte are one syllable.
#[tactic(auto, using(crate::proofs::SyllableWalks::begun, crate::proofs::Lemmas::Syllables::syllable_end))]
pub fn each_syllable<R: SyllableRule>(rule: &R, buffer: &mut hb_buffer_t) -> Result<(), AllocError>
    requires ready { IsReady buffer.old }
    ensures { OnOk result (IsFollowed (always (with_rule (by_syllable (R.rewritten rule.now)))) buffer.old buffer.new) }
{
    let count = buffer.len();
    let mut start = 0;
    while start < count {
        let end = buffer.next_syllable(start);
        rule.rewrite(buffer, start, end)?;
        start = end;
    }
    Ok(())
}
