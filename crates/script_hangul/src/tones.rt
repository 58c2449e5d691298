//! Hangul tone marks (rustybuzz: hb/ot_shaper_hangul.rs).
ghost use Rattle.std.specs.Prelude.{◌≡◌, ◌<◌, ◌≤◌, length, IfOk, IfErr};
ghost use Rattle.buffer_glyphs.specs.Items.{item_of, strip};
ghost use Rattle.buffer_glyphs.specs.Origins.{origin_of};
ghost use Rattle.script_hangul.specs.Steps.{before_syllable, circle_for, has_no_width, tone_step, with_circle};
ghost use Rattle.script_hangul.specs.Stepped.{Refuses, IsStepped};
ghost use Rattle.buffer_core.specs.Sides.{HasCurrent};

use crate::performing::keep;
use buffer_core::buffer::hb_buffer_t;
use buffer_glyphs::cause::ShapeCause;
use buffer_glyphs::flags::UnicodeProps;
use buffer_glyphs::info::hb_glyph_info_t;
use buffer_properties::character::properties_of;
use buffer_stages::walks::{advance, move_behind, replace_current};
use layout_face::Face;

const DOTTED_CIRCLE: char = '\u{25CC}';

/// Outputs the current tone mark: before the syllable that begins at `start` of the output, where its glyph has an
/// advance; where no syllable ends the output, with a dotted circle, unless circles are switched off or the font lacks
/// one. Returns the output's length.
pub(crate) fn put_tone(
    face: &Face,
    circles: bool,
    start: usize,
    u: char,
    buffer: &mut hb_buffer_t,
) -> Result<usize, ShapeCause>
    requires current { HasCurrent buffer.old }
    ensures ok { IfOk result (λ n. IsStepped (tone_step face.now circles start u (strip buffer.old.behind)
        (strip buffer.old.ahead)) n buffer.old buffer.new) }
    ensures err { IfErr result (λ e. Refuses (tone_step face.now circles start u (strip buffer.old.behind)
        (strip buffer.old.ahead)) e buffer.old) }
{
    let is_thin = has_no_width(face, u);
    if start < buffer.out_len() {
        if is_thin {
            return keep(false, buffer);
        }
        return put_before(start, buffer);
    }
    if circles && face.has_glyph(DOTTED_CIRCLE) {
        return put_circle(is_thin, buffer);
    }
    keep(false, buffer)
}

/// Outputs the current mark before the output's glyphs from `start` on, and merges it with them.
fn put_before(start: usize, buffer: &mut hb_buffer_t) -> Result<usize, ShapeCause>
    requires current { HasCurrent buffer.old }
    requires before { start < length buffer.old.behind }
    ensures ok { IfOk result (λ n. IsStepped (before_syllable start (strip buffer.old.behind) (strip buffer.old.ahead)) n
        buffer.old buffer.new) }
    ensures err { IfErr result (λ e. Refuses (before_syllable start (strip buffer.old.behind) (strip buffer.old.ahead))
        e buffer.old) }
{
    let middle = buffer.out_len();
    advance(buffer)?;
    let end = buffer.out_len();
    move_behind(start, middle, end, buffer);
    Ok(end)
}

/// Outputs the current mark with a dotted circle.
fn put_circle(is_thin: bool, buffer: &mut hb_buffer_t) -> Result<usize, ShapeCause>
    requires current { HasCurrent buffer.old }
    ensures ok { IfOk result (λ n. IsStepped (with_circle is_thin (strip buffer.old.behind) (strip buffer.old.ahead)) n
        buffer.old buffer.new) }
    ensures err { IfErr result (λ e. Refuses (with_circle is_thin (strip buffer.old.behind) (strip buffer.old.ahead)) e
        buffer.old) }
{
    let mark = *buffer.cur(0);
    let circle = circle_for(&mark);
    if is_thin {
        replace_current(&[circle, mark], buffer)?;
        let end = buffer.out_len();
        return Ok(end);
    }
    replace_current(&[mark, circle], buffer)?;
    let end = buffer.out_len();
    Ok(end)
}

/// The dotted circle of a mark.
fn circle_for(mark: &hb_glyph_info_t) -> hb_glyph_info_t
    ensures item { item_of result ≡ circle_for (item_of mark.now) }
    ensures origin { origin_of result ≡ origin_of mark.now }
{
    hb_glyph_info_t {
        glyph_id: u32::from(DOTTED_CIRCLE),
        unicode_props: UnicodeProps(properties_of(DOTTED_CIRCLE)),
        modified_combining_class: 0,
        ..*mark
    }
}

/// Whether the font has a glyph with advance 0 for a character.
fn has_no_width(face: &Face, u: char) -> bool
    ensures { result ≡ has_no_width face.now u }
{
    match face.get_nominal_glyph(u) {
        Some(glyph) => face.glyph_h_advance(glyph) == 0,
        None => false,
    }
}
