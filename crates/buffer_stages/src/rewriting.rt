//! Parts of a buffer whose glyphs are written one by one, each in its place.
ghost use Rattle.std.specs.Prelude.{◌≤◌, List, length, slice_range};
ghost use Rattle.buffer_glyphs.specs.Items.{Item, strip};
ghost use Rattle.buffer_core.specs.Sides.{all_glyphs, items_of};
ghost use Rattle.buffer_stages.specs.Ready.{IsReady};
ghost use Rattle.buffer_stages.specs.Ordering.{AreMade, ArePartMade};
ghost use Rattle.buffer_glyphs.specs.Rewriting.{eventless_arrangement};
ghost use Rattle.buffer_stages.specs.SyllableBuffers.{IsRewritten};

use buffer_core::buffer::hb_buffer_t;
use buffer_glyphs::info::hb_glyph_info_t;

/// A rule that writes the glyphs of a part, each of which keeps its cluster and glyph flags.
pub trait PartRule {
    ghost made: { Self → List Item → List Item };

    fn make(&self, glyphs: &mut [hb_glyph_info_t])
        ensures { AreMade (made self.now (strip glyphs.old)) glyphs.old glyphs.new };
}

/// Writes the glyphs from `start` up to before `end` by a rule. It takes no memory.
pub fn rewrite_part<R: PartRule>(rule: &R, buffer: &mut hb_buffer_t, start: usize, end: usize)
    requires ready { IsReady buffer.old }
    requires ordered { start ≤ end }
    requires within { end ≤ length (all_glyphs buffer.old) }
    ensures { IsRewritten (eventless_arrangement (R.made rule.now (slice_range (items_of buffer.old) start end))) start end buffer.old
        buffer.new }
{
    let known = buffer.known_order();
    make_within(rule, buffer.info_slice_mut(), start, end);
    buffer.keep_order(known);
}

fn make_within<R: PartRule>(rule: &R, glyphs: &mut [hb_glyph_info_t], start: usize, end: usize)
    requires ordered { start ≤ end }
    requires within { end ≤ length glyphs.old }
    ensures { ArePartMade (R.made rule.now (strip (slice_range glyphs.old start end))) start end glyphs.old glyphs.new }
{
    rule.make(&mut glyphs[start..end]);
}
