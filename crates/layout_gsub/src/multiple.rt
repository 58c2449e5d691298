//! Multiple substitution (OpenType, GSUB lookup type 2; rustybuzz: hb/ot_layout_gsub_table.rs, `MultipleSubstitution`).
ghost use Rattle.std.specs.Prelude.{ℕ, ◌≡◌, ◌≢◌, ◌<◌, ◌||◌, nat_lt, true, false, [], ◌∷◌, length, slice_get, Some, IfErr, OnOk};
ghost use Rattle.buffer_glyphs.specs.Items.{item_of};
ghost use Rattle.buffer_glyphs.specs.Origins.{origin_of};
ghost use Rattle.buffer_core.specs.Sides.{has_output_room, HasCurrent};
ghost use Rattle.layout_gsub.specs.Putting.{IsPut};
ghost use Rattle.buffer_stages.specs.Actions.{Refuses};
ghost use Rattle.buffer_stages.specs.Buffers.{IsPassed, cut_of};
ghost use Rattle.buffer_stages.specs.Performing.{IsPerformed, Performs, cut_with};
ghost use Rattle.layout_gsub.specs.Multiples.{component_item, component_props, deletion, multiple_subtable, multiple_substitution, neighbours_flagged, sequence};

use crate::apply::{Apply, Skippable};
use crate::replacement::{glyph_props, replace_glyph};
use buffer_core::buffer::hb_buffer_t;
use buffer_glyphs::cause::ShapeCause;
use buffer_glyphs::flags::GlyphPropsFlags;
use buffer_glyphs::info::hb_glyph_info_t;
use buffer_glyphs::ligature_words::{
    _hb_glyph_info_get_lig_id, _hb_glyph_info_is_ligature,
    _hb_glyph_info_set_lig_props_for_component,
};
use layout_face::Face;
use layout_match::hb_ot_apply_context_t;
use layout_match::marking::mark_match;
use layout_tables::sequence::MultipleSubst;

/// The properties of one of several glyphs that replace a glyph.
fn component_props(face: &Face, glyph: u16, info: &hb_glyph_info_t) -> GlyphPropsFlags
    ensures { result.0 ≡ component_props face.now.gdef glyph (item_of info.now) }
{
    let props = info.glyph_props.0
        | (GlyphPropsFlags::SUBSTITUTED.0 | GlyphPropsFlags::MULTIPLIED.0);
    if face.has_glyph_classes() {
        return GlyphPropsFlags(props & GlyphPropsFlags::PRESERVE.0 | glyph_props(face, glyph).0);
    }
    if _hb_glyph_info_is_ligature(info) {
        return GlyphPropsFlags(props & GlyphPropsFlags::PRESERVE.0 | GlyphPropsFlags::BASE_GLYPH.0);
    }
    GlyphPropsFlags(props)
}

/// The i-th of several glyphs that replace a glyph.
fn component_info(face: &Face, info: &hb_glyph_info_t, i: usize, glyph: u16) -> hb_glyph_info_t
    ensures item { item_of result ≡ component_item face.now.gdef (item_of info.now) i glyph }
    ensures cluster { result.cluster ≡ info.now.cluster }
    ensures mask { result.mask ≡ info.now.mask }
{
    let mut component = hb_glyph_info_t {
        glyph_id: u32::from(glyph),
        glyph_props: component_props(face, glyph, info),
        ..*info
    };
    if _hb_glyph_info_get_lig_id(info) == 0 {
        _hb_glyph_info_set_lig_props_for_component(&mut component, i as u64);
    }
    component
}

/// Outputs the i-th of several glyphs that replace a glyph. An output in place leaves it where it then has more glyphs
/// than were read.
pub fn output_glyph_for_component(
    face: &Face,
    info: &hb_glyph_info_t,
    i: usize,
    glyph: u16,
    buffer: &mut hb_buffer_t,
) -> Result<(), ShapeCause>
    requires open { buffer.old.is_open ≡ true }
    ensures put { OnOk result
        (IsPut (component_item face.now.gdef (item_of info.now) i glyph) (origin_of info.now) buffer.old buffer.new) }
    ensures apart { OnOk result (buffer.new.is_apart
        ≡ (buffer.old.is_apart || nat_lt buffer.old.read (length buffer.new.behind))) }
    ensures room { OnOk result (has_output_room 1 buffer.old ≡ true) }
    ensures cause { IfErr result (λ e. e ≢ ShapeCause.OutOfMemory → e ≡ ShapeCause.TooLong) }
    ensures full { IfErr result (λ e. e ≢ ShapeCause.OutOfMemory → has_output_room 1 buffer.old ≡ false) }
{
    let component = component_info(face, info, i, glyph);
    if !buffer.output_info(component)? {
        return Err(ShapeCause::TooLong);
    }
    Ok(())
}

/// Replaces the glyph at the cursor by several glyphs, and outputs them.
fn multiply(glyphs: &[u16], face: &Face, buffer: &mut hb_buffer_t) -> Result<(), ShapeCause>
    requires some { 0 < length glyphs.now }
    requires current { HasCurrent buffer.old }
    ensures made { OnOk result ((r : ℕ) → IsPerformed (multiple_substitution face.now.gdef glyphs.now
        (cut_with r buffer.old)) true r r buffer.old buffer.new) }
    ensures refused { IfErr result (λ e. e ≢ ShapeCause.OutOfMemory → (r : ℕ) → multiple_substitution face.now.gdef glyphs.now
        (cut_with r buffer.old) ≡ Refuses e) }
{
    let info = *buffer.cur(0);
    for (i, glyph) in glyphs.iter().enumerate() {
        output_glyph_for_component(face, &info, i, *glyph, buffer)?;
    }
    buffer.skip_glyph();
    Ok(())
}

/// Flags the glyph at the cursor with its two neighbours as unsafe to break, where PRODUCE_SAFE_BREAKS is set.
fn mark_neighbours(buffer: &mut hb_buffer_t)
    ensures { IsPassed (neighbours_flagged (cut_of buffer.old) ∷ []) buffer.old buffer.new }
{
    if buffer.asks_breaks() {
        let back = buffer.out_len().min(1);
        let ahead = buffer.lookahead_len().min(2);
        mark_match(back, ahead, buffer);
    }
}

/// Deletes the glyph at the cursor; its neighbours then stand side by side.
fn delete(buffer: &mut hb_buffer_t)
    requires current { HasCurrent buffer.old }
    ensures { (r : ℕ) → IsPerformed (deletion (cut_with r buffer.old)) true r r buffer.old buffer.new }
{
    mark_neighbours(buffer);
    buffer.delete_glyph();
}

fn apply_sequence(
    glyphs: &[u16],
    ctx: &hb_ot_apply_context_t,
    buffer: &mut hb_buffer_t,
) -> Result<bool, ShapeCause>
    requires current { HasCurrent buffer.old }
    ensures { Performs (sequence ctx.now.face.now.gdef glyphs.now
        (cut_with ctx.now.random_state buffer.old)) result ctx.now.random_state ctx.now.random_state buffer.old
        buffer.new }
{
    match glyphs {
        [] => {
            delete(buffer);
            Ok(true)
        }
        [glyph] => replace_glyph(ctx, *glyph, buffer),
        _ => {
            multiply(glyphs, ctx.face, buffer)?;
            Ok(true)
        }
    }
}

/// Multiple substitution (OpenType, GSUB lookup type 2): where the subtable covers the glyph at the cursor, its
/// sequence replaces it; the empty sequence deletes it, and one glyph replaces it as a single substitution does.
impl Apply for MultipleSubst {
    ghost action = { λ s a. multiple_subtable a.font.gdef s.rows };

    #[tactic(auto, using(buffer_stages::proofs::Lemmas::Glyphs::number_ahead))]
    fn apply(
        &self,
        ctx: &mut hb_ot_apply_context_t,
        buffer: &mut hb_buffer_t,
    ) -> Result<bool, ShapeCause> {
        match self.sequence(buffer.cur(0).as_glyph().0) {
            Some(glyphs) => apply_sequence(glyphs, ctx, buffer),
            None => Ok(false),
        }
    }
}

impl Skippable for MultipleSubst {
    ghost use Rattle.layout_gsub.specs.Lemmas.Uncovered.{multiple_uncovered};

    ghost uncovered = { λ s a. multiple_uncovered a.font.gdef s.rows };
}
