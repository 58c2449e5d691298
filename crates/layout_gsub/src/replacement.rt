//! One glyph replaced by another (rustybuzz: hb/ot_layout_gsubgpos.rs, `replace_glyph`).
ghost use Rattle.std.specs.Prelude.{◌≡◌, ◌<◌, Some, [], length, slice_get, OnOk, IfErr};
ghost use Rattle.buffer_glyphs.specs.declared.info.hb_glyph_info_t.{hb_glyph_info_t as Glyph};
ghost use Rattle.buffer_core.specs.Lending.{with_glyph_ahead};
ghost use Rattle.buffer_core.specs.Sides.{HasCurrent};
ghost use Rattle.buffer_stages.specs.Performing.{Performs, cut_with};
ghost use Rattle.layout_gsub.specs.Replacements.{glyph_props_of, props_of_class, single_substitution, substituted_props};

use buffer_core::buffer::hb_buffer_t;
use buffer_glyphs::cause::ShapeCause;
use buffer_glyphs::flags::GlyphPropsFlags;
use layout_face::Face;
use layout_match::hb_ot_apply_context_t;

/// The properties that GDEF gives a glyph: its class, and for class MARK its attachment class in the second byte. A glyph
/// of another class takes one search.
pub fn glyph_props(face: &Face, glyph: u16) -> GlyphPropsFlags
    ensures { result.0 ≡ glyph_props_of face.now.gdef glyph }
{
    match face.glyph_class(glyph) {
        1 => GlyphPropsFlags::BASE_GLYPH,
        2 => GlyphPropsFlags::LIGATURE,
        3 => mark_props(face.mark_attachment_class(glyph)),
        _ => GlyphPropsFlags(0),
    }
}

fn mark_props(attachment: u16) -> GlyphPropsFlags
    ensures { result.0 ≡ props_of_class 3 attachment }
{
    GlyphPropsFlags(GlyphPropsFlags::MARK.0 + attachment % 256 * 256)
}

/// The properties of a glyph that replaces one with the properties `old`.
pub(crate) fn substituted_props(face: &Face, glyph: u16, old: GlyphPropsFlags) -> GlyphPropsFlags
    ensures { result.0 ≡ substituted_props face.now.gdef glyph old.0 }
{
    let props = old.0 | GlyphPropsFlags::SUBSTITUTED.0;
    if face.has_glyph_classes() {
        GlyphPropsFlags(props & GlyphPropsFlags::PRESERVE.0 | glyph_props(face, glyph).0)
    } else {
        GlyphPropsFlags(props)
    }
}

/// Gives the glyph at the cursor other properties.
pub(crate) fn set_glyph_props(buffer: &mut hb_buffer_t, props: GlyphPropsFlags)
    requires { 0 < length buffer.old.ahead }
    ensures set { (g : Glyph) → slice_get buffer.old.ahead 0 ≡ Some g →
        buffer.new ≡ with_glyph_ahead 0 (record g { glyph_props = props }) buffer.old }
    ensures open { buffer.new.is_open ≡ buffer.old.is_open }
    ensures behind { buffer.new.behind ≡ buffer.old.behind }
    ensures limit { buffer.new.max_len ≡ buffer.old.max_len }
    ensures count { length buffer.new.ahead ≡ length buffer.old.ahead }
    ensures apart { buffer.new.is_apart ≡ buffer.old.is_apart }
{
    buffer.cur_mut(0).glyph_props = props;
}

/// Replaces the glyph at the cursor by another, and outputs it; its class is GDEF's, where GDEF has classes. It answers
/// true, as a rule that acted. An output that is in place stays there.
pub fn replace_glyph(
    ctx: &hb_ot_apply_context_t,
    glyph: u16,
    buffer: &mut hb_buffer_t,
) -> Result<bool, ShapeCause>
    requires current { HasCurrent buffer.old }
    ensures performs { Performs (single_substitution ctx.now.face.now.gdef (Some glyph)
        (cut_with ctx.now.random_state buffer.old)) result ctx.now.random_state ctx.now.random_state buffer.old
        buffer.new }
    ensures apart { OnOk result (buffer.new.is_apart ≡ buffer.old.is_apart) }
{
    let props = substituted_props(ctx.face, glyph, buffer.cur(0).glyph_props);
    set_glyph_props(buffer, props);
    let held = buffer.replace_glyph(u32::from(glyph))?;
    if held {
        return Ok(true);
    }
    Err(ShapeCause::TooLong)
}
