//! Glyphs that are moved to the front of a range, each before those moved earlier.
ghost use Rattle.std.specs.Prelude.{◌≡◌, ◌≤◌, ◌<◌, ◌+◌, ◌-◌, ◌++◌, Bool, drop, length, slice_range, take};
ghost use Rattle.buffer_glyphs.specs.Items.{Item, item_of};
ghost use Rattle.buffer_stages.specs.Fronts.{StandApart, fronts, with_fronts_moved, with_fronts_moved_after, one_seen, pair_seen};
ghost use Rattle.buffer_stages.specs.Lemmas.Fronted.{IsApart};

use crate::moves::rotate;
use buffer_glyphs::info::hb_glyph_info_t;

/// The glyphs that a rule moves to the front.
pub trait FrontRule {
    ghost pairs: { Self → Item → Item → Bool };

    ghost ones: { Self → Item → Bool };

    /// Whether a glyph is moved there together with the next.
    fn comes_with(&self, glyph: &hb_glyph_info_t, next: &hb_glyph_info_t) -> bool
        ensures { result ≡ pairs self.now (item_of glyph.now) (item_of next.now) };

    /// Whether a glyph is moved there alone.
    fn comes(&self, glyph: &hb_glyph_info_t) -> bool
        ensures { result ≡ ones self.now (item_of glyph.now) };

    ghost apart: { (rule : Self) → StandApart (pairs rule) };
}

/// Moves the glyphs from `from` up to before `to` that the rule picks to the front, the last of them first, and keeps
/// the order of the others after them; answers how many were moved. It takes no memory, and n glyphs take the time of n
/// log n.
pub fn gather<R: FrontRule>(
    rule: &R,
    glyphs: &mut [hb_glyph_info_t],
    from: usize,
    to: usize,
) -> usize
    requires ordered { from ≤ to }
    requires within { to ≤ length glyphs.old }
    ensures gathered { glyphs.new ≡ take from glyphs.old
        ++ with_fronts_moved (pair_seen (R.pairs rule.now)) (one_seen (R.ones rule.now)) (slice_range glyphs.old from to)
        ++ drop to glyphs.old }
    ensures count { result ≡ length (fronts (pair_seen (R.pairs rule.now)) (one_seen (R.ones rule.now))
        (slice_range glyphs.old from to)) }
{
    if to - from < 2 {
        return count_short(rule, glyphs, from, to);
    }
    let middle = end_of_half(rule, glyphs, from, to);
    if middle == to {
        return 2;
    }
    let left = gather(rule, glyphs, from, middle);
    let right = gather(rule, glyphs, middle, to);
    rotate(glyphs, from, middle, middle + right);
    left + right
}

/// Moves those glyphs from `begin` up to before `end` that the rule picks before the glyphs from `start` up to before
/// `begin`, the last of them first. It takes no memory.
pub fn gather_after<R: FrontRule>(
    rule: &R,
    glyphs: &mut [hb_glyph_info_t],
    start: usize,
    begin: usize,
    end: usize,
)
    requires begins { start ≤ begin }
    requires ordered { begin ≤ end }
    requires within { end ≤ length glyphs.old }
    ensures { glyphs.new ≡ take start glyphs.old
        ++ with_fronts_moved_after (pair_seen (R.pairs rule.now)) (one_seen (R.ones rule.now)) (begin - start)
        (slice_range glyphs.old start end)
        ++ drop end glyphs.old }
{
    let count = gather(rule, glyphs, begin, end);
    rotate(glyphs, start, begin, begin + count);
}

/// How many of one glyph or none are moved to the front.
fn count_short<R: FrontRule>(rule: &R, glyphs: &[hb_glyph_info_t], from: usize, to: usize) -> usize
    requires ordered { from ≤ to }
    requires within { to ≤ length glyphs.now }
    requires short { to < from + 2 }
    ensures { result ≡ length (fronts (pair_seen (R.pairs rule.now)) (one_seen (R.ones rule.now))
        (slice_range glyphs.now from to)) }
{
    if from < to && rule.comes(&glyphs[from]) {
        return 1;
    }
    0
}

/// Where the first half of two or more glyphs ends: after a pair, where a pair spans the middle.
fn end_of_half<R: FrontRule>(rule: &R, glyphs: &[hb_glyph_info_t], from: usize, to: usize) -> usize
    requires two { from + 2 ≤ to }
    requires within { to ≤ length glyphs.now }
    ensures some { from < result }
    ensures inside { result ≤ to }
    ensures apart { result < to → IsApart (pair_seen (R.pairs rule.now)) (slice_range glyphs.now from result)
        (slice_range glyphs.now result to) }
    ensures whole { result ≡ to → with_fronts_moved (pair_seen (R.pairs rule.now)) (one_seen (R.ones rule.now))
        (slice_range glyphs.now from to) ≡ slice_range glyphs.now from to }
    ensures both { result ≡ to → length (fronts (pair_seen (R.pairs rule.now)) (one_seen (R.ones rule.now))
        (slice_range glyphs.now from to)) ≡ 2 }
{
    let middle = from + (to - from) / 2;
    if rule.comes_with(&glyphs[middle - 1], &glyphs[middle]) {
        return middle + 1;
    }
    middle
}
