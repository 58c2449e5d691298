//! The first round's runs of characters that stay whole, which are passed at once (rustybuzz:
//! hb/ot_shape_normalize.rs). This only saves time: each of them would be output as it is.
ghost use Rattle.std.specs.Prelude.{◌≡◌, ◌<◌, ◌≤◌, ◌+◌, true, length, map, take, drop, slice_get, if◌then◌else◌, Some};
ghost use Rattle.std.specs.List.{list_all, prefix_len};
ghost use Rattle.buffer_core.specs.Lending.{with_glyph_ahead};
ghost use Rattle.buffer_glyphs.specs.Items.{item_of, strip};
ghost use Rattle.buffer_glyphs.specs.declared.info.hb_glyph_info_t.{hb_glyph_info_t as Glyph};
ghost use Rattle.buffer_properties.specs.Characters.{is_mark};
ghost use Rattle.shape_normalize.specs.Fronts.{glyph_with_own};
ghost use Rattle.shape_normalize.specs.KeptRuns.{group_reach, is_kept, IsGiven, Keeps};
ghost use Rattle.shape_normalize.specs.KnownGlyphs.{HaveGlyphs};
ghost use Rattle.shape_normalize.specs.Undecomposed.{AreUndecomposed};

use crate::characters::is_selector;
use crate::expanding::{reach_alone, reach_with_marks};
use crate::fronts::give_glyph;
use crate::known_glyphs::{GLYPH_ROWS, KnownGlyph};
use crate::normalizing::Normalizing;
use crate::undecomposed::is_undecomposed;
use buffer_core::buffer::hb_buffer_t;
use buffer_glyphs::info::hb_glyph_info_t;
use buffer_properties::Reach;
use buffer_properties::categories::is_mark;

/// Gives a character ahead the font's glyph, or glyph 0.
#[tactic(auto, using(crate::proofs::Given::given_at))]
fn give_at<N: Normalizing>(
    by: &N,
    rows: &mut [Option<KnownGlyph>],
    i: usize,
    buffer: &mut hb_buffer_t,
)
    requires there { i < length buffer.old.ahead }
    requires rows { HaveGlyphs (N.normalizer by.now) rows.old }
    ensures given { (g : Glyph) → slice_get buffer.old.ahead i ≡ Some g
        → buffer.new ≡ with_glyph_ahead i (glyph_with_own (N.normalizer by.now) g) buffer.old }
    ensures rows { HaveGlyphs (N.normalizer by.now) rows.new }
{
    give_glyph(by, rows, buffer.cur_mut(i));
}

// (Inlined: it is called for each text, and most have no character left then.)
#[inline(always)]
fn give_each<N: Normalizing>(by: &N, rows: &mut [Option<KnownGlyph>], buffer: &mut hb_buffer_t)
    requires { HaveGlyphs (N.normalizer by.now) rows.old }
    ensures { IsGiven (N.normalizer by.now) buffer.old buffer.new }
{
    let count = buffer.lookahead_len();
    for i in 0..count {
        give_at(by, rows, i, buffer);
    }
}

/// Gives each character ahead the font's glyph, or glyph 0, and remembers them. (Not inlined, so that a short text has
/// no room for rows.)
#[inline(never)]
fn give_remembered<N: Normalizing>(by: &N, buffer: &mut hb_buffer_t)
    ensures { IsGiven (N.normalizer by.now) buffer.old buffer.new }
{
    let mut rows = [None; GLYPH_ROWS];
    give_each(by, &mut rows, buffer);
}

/// Gives each character ahead the font's glyph, or glyph 0; those of a long text are remembered.
#[tactic(auto, using(crate::proofs::KnownGlyphs::no_glyphs))]
pub(crate) fn give_ahead<N: Normalizing>(by: &N, buffer: &mut hb_buffer_t)
    ensures { IsGiven (N.normalizer by.now) buffer.old buffer.new }
{
    if buffer.lookahead_len() < GLYPH_ROWS {
        give_each(by, &mut [], buffer);
        return;
    }
    give_remembered(by, buffer);
}

/// How many marks follow from an index on.
pub(crate) fn count_marks(from: usize, buffer: &hb_buffer_t) -> usize
    requires { from ≤ length buffer.now.ahead }
    ensures marks { result ≡ prefix_len is_mark (drop from (strip buffer.now.ahead)) }
    ensures within { from + result ≤ length buffer.now.ahead }
{
    let end = buffer.lookahead_len();
    for i in from..end {
        if !is_mark(buffer.cur(i)) {
            return i - from;
        }
    }
    end - from
}

/// Whether a character that was given the font's glyph, or glyph 0, is known to stay whole. One that the font lacks, or
/// has as glyph 0, is not, and neither is a selector: these are looked at alone.
fn is_kept<N: Normalizing>(
    by: &N,
    reach: Reach,
    known: &mut [Option<u32>],
    glyph: &hb_glyph_info_t,
) -> bool
    requires { AreUndecomposed (N.normalizer by.now) known.old }
    ensures value { result ≡ is_kept (N.normalizer by.now) reach (item_of glyph.now) }
    ensures known { AreUndecomposed (N.normalizer by.now) known.new }
{
    glyph.glyph_index != 0
        && !is_selector(glyph)
        && is_undecomposed(by, reach, known, glyph.glyph_id)
}

/// Whether that many characters from an index on stay whole.
#[tactic(auto, using(crate::proofs::Kept::kept_all))]
fn are_kept<N: Normalizing>(
    by: &N,
    reach: Reach,
    known: &mut [Option<u32>],
    from: usize,
    count: usize,
    buffer: &hb_buffer_t,
) -> bool
    requires there { from + count ≤ length buffer.now.ahead }
    requires known { AreUndecomposed (N.normalizer by.now) known.old }
    ensures value { result
        ≡ list_all (is_kept (N.normalizer by.now) reach) (take count (drop from (strip buffer.now.ahead))) }
    ensures known { AreUndecomposed (N.normalizer by.now) known.new }
{
    // The length bounds the indices.
    let _end = buffer.lookahead_len();
    for i in 0..count {
        if !is_kept(by, reach, known, buffer.cur(from + i)) {
            return false;
        }
    }
    true
}

/// How far the characters of a group of that many are decomposed.
fn group_reach<N: Normalizing>(by: &N, count: usize) -> Reach
    ensures { result ≡ group_reach (N.normalizer by.now) count }
{
    if count == 1 {
        reach_alone(by.mode())
    } else {
        reach_with_marks(by.mode())
    }
}

/// How many characters the group at an index has, a character and the marks after it; 0 where one of them may not stay
/// whole.
fn kept_group<N: Normalizing>(
    by: &N,
    known: &mut [Option<u32>],
    at: usize,
    buffer: &hb_buffer_t,
) -> usize
    requires there { at < length buffer.now.ahead }
    requires known { AreUndecomposed (N.normalizer by.now) known.old }
    ensures kept { Keeps (N.normalizer by.now) result (drop at (strip buffer.now.ahead)) }
    ensures known { AreUndecomposed (N.normalizer by.now) known.new }
{
    // The length bounds the indices.
    let _end = buffer.lookahead_len();
    let count = count_marks(at + 1, buffer) + 1;
    let reach = group_reach(by, count);
    if !are_kept(by, reach, known, at, count, buffer) {
        return 0;
    }
    count
}

/// How many characters there are before the next group that may not stay whole.
pub(crate) fn kept_run<N: Normalizing>(
    by: &N,
    known: &mut [Option<u32>],
    buffer: &hb_buffer_t,
) -> usize
    requires { AreUndecomposed (N.normalizer by.now) known.old }
    ensures kept { Keeps (N.normalizer by.now) result (strip buffer.now.ahead) }
    ensures known { AreUndecomposed (N.normalizer by.now) known.new }
{
    let end = buffer.lookahead_len();
    let mut at = 0;
    while at < end {
        let count = kept_group(by, known, at, buffer);
        if count == 0 {
            return at;
        }
        at += count;
    }
    at
}
