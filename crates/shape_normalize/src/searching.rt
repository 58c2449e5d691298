//! The search for the first mark that is composed, before which the third round has nothing to do
//! (rustybuzz: hb/ot_shape_normalize.rs).
ghost use Rattle.std.specs.Prelude.{◌≡◌, ◌<◌, ◌==◌, if◌then◌else◌, false, length, slice_get, Some};
ghost use Rattle.buffer_glyphs.specs.Items.{Item, strip};
ghost use Rattle.buffer_properties.specs.Characters.{mark_class};
ghost use Rattle.shape_normalize.specs.Starters.{FindsComposition, StaysApart};

use crate::characters::mark_class;
use crate::normalizing::Normalizing;
use crate::starters::composite_of;
use buffer_glyphs::info::hb_glyph_info_t;
use buffer_properties::categories::is_mark;

/// The glyph at an index.
fn glyph_at(i: usize, glyphs: &[hb_glyph_info_t]) -> &hb_glyph_info_t
    requires { i < length glyphs.now }
    ensures { slice_get glyphs.now i ≡ Some result.now }
{
    &glyphs[i]
}

/// Whether the item at an index is a mark that is composed with the last starter, where no mark before it was.
fn is_composed<N: Normalizing>(
    by: &N,
    starter: usize,
    at: usize,
    glyphs: &[hb_glyph_info_t],
) -> bool
    requires ordered { starter < at }
    requires there { at < length glyphs.now }
    ensures { result ≡ false → StaysApart (N.normalizer by.now) starter at (strip glyphs.now) }
{
    let mark = glyph_at(at, glyphs);
    if !is_mark(mark) {
        return false;
    }
    // an item of its class or a greater one between the starter and the mark blocks it (UAX 15 D115)
    let before = glyph_at(at - 1, glyphs);
    if starter + 1 < at && mark_class(mark) <= mark_class(before) {
        return false;
    }
    let first = glyph_at(starter, glyphs);
    composite_of(by, first, mark).is_some()
}

/// The last starter once the item at an index follows.
fn next_starter(starter: usize, at: usize, glyphs: &[hb_glyph_info_t]) -> usize
    requires { at < length glyphs.now }
    ensures { (y : Item) → slice_get (strip glyphs.now) at ≡ Some y →
        result ≡ (if mark_class y == 0 then at else starter) }
{
    if mark_class(&glyphs[at]) == 0 {
        at
    } else {
        starter
    }
}

/// The index of the first mark that is composed, and of the last starter before it; None where no mark is composed.
pub(crate) fn first_composition<N: Normalizing>(
    by: &N,
    glyphs: &[hb_glyph_info_t],
) -> Option<(usize, usize)>
    ensures { FindsComposition (N.normalizer by.now) result (strip glyphs.now) }
{
    let count = glyphs.len();
    if count == 0 {
        return None;
    }
    let mut starter = 0;
    for at in 1..count {
        if is_composed(by, starter, at, glyphs) {
            return Some((at, starter));
        }
        starter = next_starter(starter, at, glyphs);
    }
    None
}
