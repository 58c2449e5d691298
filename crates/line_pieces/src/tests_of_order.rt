//! Tests of what is handed in: the order of clusters, and the bytes at which lines may end.
ghost use Rattle.std.specs.Prelude.{◌≡◌, ◌≤◌, ◌<◌, ◌↔◌, IsTrue};
ghost use Rattle.std.specs.Str.{IsCharBoundary};
ghost use Rattle.kuspveli.specs.buffer_glyphs.Items.{clusters};
ghost use Rattle.kuspveli.specs.buffer_glyphs.Order.{IsInOrder};
ghost use Rattle.kuspveli.specs.buffer_parts.Slices.{first_or};
ghost use Rattle.line_pieces.specs.Breaks.{AreBreaks, AreBreaksTo};
ghost use Rattle.line_pieces.specs.Steps.{keep_order, steps_back};

use kuspveli::GlyphInfo;

/// Whether clusters never fall, or on a backward line never rise.
#[tactic(auto, using(crate::proofs::Ordered::order_decided))]
pub(crate) fn are_in_order(glyphs: &[GlyphInfo], backward: bool) -> bool
    ensures { IsTrue result ↔ IsInOrder backward (clusters glyphs.now) }
{
    keep_order(glyphs, backward)
}

/// Whether no cluster steps back from the one before it.
fn keep_order(glyphs: &[GlyphInfo], backward: bool) -> bool
    ensures { result ≡ keep_order backward (first_or 0 (clusters glyphs.now)) (clusters glyphs.now) }
{
    let mut last = first_cluster(glyphs);
    for glyph in glyphs {
        if steps_back(backward, last, glyph.cluster) {
            return false;
        }
        last = glyph.cluster;
    }
    true
}

/// The cluster of the first glyph, 0 where there is none.
fn first_cluster(glyphs: &[GlyphInfo]) -> u32
    ensures { result ≡ first_or 0 (clusters glyphs.now) }
{
    match glyphs {
        [] => 0,
        [first, ..] => first.cluster,
    }
}

/// Whether a cluster is before the last one, or on a backward line after it.
fn steps_back(backward: bool, last: u32, cluster: u32) -> bool
    ensures { result ≡ steps_back backward last cluster }
{
    if backward {
        last < cluster
    } else {
        cluster < last
    }
}

/// Whether lines may end at these bytes of a text: each is after the one before, and a character ends there.
pub(crate) fn are_breaks(text: &str, breaks: &[usize]) -> bool
    ensures { IsTrue result ↔ AreBreaks text.now 0 breaks.now }
{
    let mut last = 0;
    for byte in breaks {
        if !is_break(text, last, *byte) {
            return false;
        }
        last = *byte;
    }
    true
}

/// Whether lines may end at these indices of the units of a text of `end` units: each is after the one before, and none is
/// past the end.
pub(crate) fn are_breaks_to(end: usize, breaks: &[usize]) -> bool
    ensures { IsTrue result ↔ AreBreaksTo end 0 breaks.now }
{
    let mut last = 0;
    for unit in breaks {
        if !is_break_to(end, last, *unit) {
            return false;
        }
        last = *unit;
    }
    true
}

/// Whether a line may end at a unit after the last break.
fn is_break_to(end: usize, last: usize, unit: usize) -> bool
    ensures { IsTrue result ↔ (last < unit × unit ≤ end) }
{
    last < unit && unit <= end
}

/// Whether a line may end at a byte of a text after the last break.
fn is_break(text: &str, last: usize, byte: usize) -> bool
    ensures { IsTrue result ↔ (last < byte × IsCharBoundary text.now byte) }
{
    last < byte && text.is_char_boundary(byte)
}
