//! Where a shaped paragraph may be cut: the glyphs before a byte, their width, and whether the flags show that a break
//! there is safe.
ghost use Rattle.std.specs.Prelude.{◌≡◌, ◌≤◌, ◌<◌, ◌^◌, drop, false, length, pos, true};
ghost use Rattle.kuspveli.specs.buffer_common.Direction.{is_backward};
ghost use Rattle.kuspveli.specs.buffer_glyphs.Items.{clusters};
ghost use Rattle.kuspveli.specs.buffer_glyphs.Order.{IsInOrder};
ghost use Rattle.kuspveli.specs.shaping_buffer.buffer_core.Sides.{all_glyphs};
ghost use Rattle.line_pieces.specs.Cuts.{IsCut, IsSplit, IsWalked, run_is_safe};
ghost use Rattle.line_pieces.specs.Lines.{is_safe_at};
ghost use Rattle.line_pieces.specs.Steps.{text_steps};

use crate::steps::step_at;
use kuspveli::{Direction, GlyphBuffer};

/// The text up to a byte.
#[derive(Clone, Copy)]
pub struct Cut {
    pub byte: usize,
    /// How many glyphs it has.
    pub glyphs: usize,
    /// The sum of their advances.
    pub pen: i64,
    /// Whether a break at the byte is safe.
    pub is_safe: bool,
}

/// How many glyphs of the text are before some byte, and the sum of their advances.
#[derive(Clone, Copy)]
struct Walk {
    glyphs: usize,
    pen: i64,
}

/// The cut before the text.
pub(crate) fn first_cut() -> Cut
    ensures { result ≡ record { byte = 0; glyphs = 0; pen = pos 0; is_safe = true } }
{
    Cut {
        byte: 0,
        glyphs: 0,
        pen: 0,
        is_safe: true,
    }
}

/// The cut at a byte no earlier than that of another one. `end` is how many bytes the text has.
pub(crate) fn cut_at(
    glyphs: &GlyphBuffer,
    direction: Direction,
    end: usize,
    last: Cut,
    byte: usize,
) -> Cut
    requires few { length (all_glyphs glyphs.now) < 2 ^ 31 }
    requires positions { length glyphs.now.positions ≡ length (all_glyphs glyphs.now) }
    requires order { IsInOrder (is_backward direction) (clusters (all_glyphs glyphs.now)) }
    requires last { IsCut (text_steps direction glyphs.now) end last }
    requires after { last.byte ≤ byte }
    ensures cut { IsCut (text_steps direction glyphs.now) end result }
    ensures byte { result.byte ≡ byte }
{
    let walk = walk_to(glyphs, direction, last, byte);
    Cut {
        byte,
        glyphs: walk.glyphs,
        pen: walk.pen,
        is_safe: is_safe_at(glyphs, direction, end, walk.glyphs, byte),
    }
}

/// Walks over the glyphs from a cut to a later byte.
fn walk_to(glyphs: &GlyphBuffer, direction: Direction, last: Cut, byte: usize) -> Walk
    requires few { length (all_glyphs glyphs.now) < 2 ^ 31 }
    requires positions { length glyphs.now.positions ≡ length (all_glyphs glyphs.now) }
    requires order { IsInOrder (is_backward direction) (clusters (all_glyphs glyphs.now)) }
    requires last { IsWalked (text_steps direction glyphs.now) last.byte last.glyphs last.pen }
    requires after { last.byte ≤ byte }
    ensures { IsWalked (text_steps direction glyphs.now) byte result.glyphs result.pen }
{
    let mut pen = last.pen;
    for i in last.glyphs..glyphs.len() {
        let step = step_at(glyphs, direction, i);
        if byte <= step.cluster {
            return Walk { glyphs: i, pen };
        }
        pen += step.advance;
    }
    Walk {
        glyphs: glyphs.len(),
        pen,
    }
}

/// Whether the flags show that a break at a byte is safe, by how many glyphs are before it. At both ends of the text it
/// is.
fn is_safe_at(
    glyphs: &GlyphBuffer,
    direction: Direction,
    end: usize,
    from: usize,
    byte: usize,
) -> bool
    requires order { IsInOrder (is_backward direction) (clusters (all_glyphs glyphs.now)) }
    requires split { IsSplit (text_steps direction glyphs.now) byte from }
    ensures { result ≡ is_safe_at (text_steps direction glyphs.now) end byte }
{
    if byte == 0 || byte == end {
        return true;
    }
    run_is_safe(glyphs, direction, from, byte)
}

/// Whether the glyphs from an index on begin with some of a cluster, none of them unsafe to break before.
#[tactic(auto, using(crate::proofs::Walks::run_ends, crate::proofs::Walks::run_fails))]
fn run_is_safe(glyphs: &GlyphBuffer, direction: Direction, from: usize, byte: usize) -> bool
    ensures { result ≡ run_is_safe byte false (drop from (text_steps direction glyphs.now)) }
{
    let mut found = false;
    for i in from..glyphs.len() {
        let step = step_at(glyphs, direction, i);
        if step.cluster != byte {
            return found;
        }
        if step.is_unsafe {
            return false;
        }
        found = true;
    }
    found
}
