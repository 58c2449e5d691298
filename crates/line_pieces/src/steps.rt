//! The glyphs of a paragraph in the order of its text, as lines are filled with them.
ghost use Rattle.std.specs.Prelude.{◌≡◌, ◌≤◌, ◌<◌, ◌^◌, ◌≤ℤ◌, neg_ℤ, pos, Some, length, slice_get};
ghost use Rattle.kuspveli.specs.shaping_buffer.buffer_core.Sides.{all_glyphs};
ghost use Rattle.line_pieces.specs.Steps.{advance_along, step_of, text_index, text_steps};

use kuspveli::{Direction, GlyphBuffer, GlyphInfo, GlyphPosition};

/// A glyph as lines are filled with it.
#[derive(Clone, Copy)]
pub struct Step {
    /// The byte of the text that it is of.
    pub cluster: usize,
    /// Its advance along the line.
    pub advance: i64,
    /// Whether a break before it may change the shaping of the text around it.
    pub is_unsafe: bool,
}

/// The step of a glyph, by its index in the order of the text.
pub(crate) fn step_at(glyphs: &GlyphBuffer, direction: Direction, at: usize) -> Step
    requires { at < length (all_glyphs glyphs.now) }
    ensures step { slice_get (text_steps direction glyphs.now) at ≡ Some result }
    ensures low { neg_ℤ (pos (2 ^ 31)) ≤ℤ result.advance }
    ensures high { result.advance ≤ℤ pos (2 ^ 31) }
{
    let i = text_index(direction.is_backward(), glyphs.len(), at);
    step_of(
        direction,
        glyphs.glyph_infos()[i],
        glyphs.glyph_positions()[i],
    )
}

/// The index of a glyph in the order of the text, by that in the order of the glyphs; and the other way round.
fn text_index(backward: bool, count: usize, at: usize) -> usize
    requires { at < count }
    ensures index { result ≡ text_index backward count at }
    ensures within { result < count }
{
    if backward { count - 1 - at } else { at }
}

/// The step of a glyph.
fn step_of(direction: Direction, info: GlyphInfo, position: GlyphPosition) -> Step
    ensures step { result ≡ step_of direction info position }
    ensures low { neg_ℤ (pos (2 ^ 31)) ≤ℤ result.advance }
    ensures high { result.advance ≤ℤ pos (2 ^ 31) }
{
    Step {
        cluster: info.cluster as usize,
        advance: advance_along(direction, position),
        is_unsafe: info.unsafe_to_break(),
    }
}

/// The advance of a glyph along its line; on a vertical line downward, where positions fall.
pub(crate) fn advance_along(direction: Direction, position: GlyphPosition) -> i64
    ensures advance { result ≡ advance_along direction position }
    ensures low { neg_ℤ (pos (2 ^ 31)) ≤ℤ result }
    ensures high { result ≤ℤ pos (2 ^ 31) }
{
    if direction.is_horizontal() {
        i64::from(position.x_advance)
    } else {
        -i64::from(position.y_advance)
    }
}
