//! The glyphs chosen for a text's characters, with the classes that GDEF gives them (rustybuzz: hb/ot_shape.rs,
//! `map_glyphs_fast`; hb/ot_layout.rs, `hb_ot_layout_substitute_start`).
ghost use Rattle.std.specs.Prelude.{◌≡◌, true};
ghost use Rattle.buffer_glyphs.specs.Items.{item_of};
ghost use Rattle.buffer_glyphs.specs.Origins.{origin_of};
ghost use Rattle.buffer_core.specs.Readings.{always};
ghost use Rattle.buffer_core.specs.Sides.{items_of};
ghost use Rattle.buffer_stages.specs.Buffers.{are_glyphs};
ghost use Rattle.buffer_stages.specs.Ready.{IsReady};
ghost use Rattle.buffer_stages.specs.Stages.{AreMapped, IsFollowed, with_items_mapped};
ghost use Rattle.layout_gsub.specs.Replacements.{glyph_props_of};
ghost use Rattle.shape_glyphs.specs.Glyphs.{glyph_or_missing};
ghost use Rattle.shape_pipeline.specs.Glyphs.{as_classed_glyph};
ghost use Rattle.shape_pipeline.specs.KnownGlyphs.{AreKnown, IsKnown};

use buffer_core::buffer::hb_buffer_t;
use buffer_glyphs::flags::GlyphPropsFlags;
use buffer_glyphs::info::hb_glyph_info_t;
use buffer_stages::glyphs::map_glyphs;
use layout_face::Face;
use layout_gsub::replacement::glyph_props;

/// How many glyphs are remembered at once: a font numbers most of a script's glyphs one after another.
const ROWS: usize = 128;

/// A glyph with the properties that GDEF gives it. It only saves time: the font would answer the same again.
#[derive(Clone, Copy)]
pub(crate) struct KnownGlyph {
    pub glyph: u16,
    pub props: GlyphPropsFlags,
}

/// Replaces each character by the glyph chosen for it, with the class that GDEF gives that glyph and no ligature word:
/// `map_glyphs_fast` and `hb_ot_layout_substitute_start` in one pass. It takes linear time and no memory.
pub(crate) fn map_classed_glyphs(face: &Face, buffer: &mut hb_buffer_t)
    requires { IsReady buffer.old }
    ensures stage { IsFollowed (always (with_items_mapped (as_classed_glyph face.now))) buffer.old buffer.new }
    ensures numbers { are_glyphs (items_of buffer.new) ≡ true }
{
    // To fill the rows costs more than they save in a shorter text.
    if buffer.len() < ROWS {
        map_glyphs(buffer, |glyph| classed_glyph(face, glyph));
        return;
    }
    class_by_rows(face, buffer);
}

#[tactic(auto, using(crate::proofs::Classed::chosen_class))]
fn classed_glyph(face: &Face, glyph: &hb_glyph_info_t) -> hb_glyph_info_t
    ensures item { item_of result ≡ as_classed_glyph face.now (item_of glyph.now) }
    ensures origin { origin_of result ≡ origin_of glyph.now }
{
    let chosen = glyph_or_missing(glyph.glyph_index);
    hb_glyph_info_t {
        glyph_id: u32::from(chosen),
        glyph_props: glyph_props(face, chosen),
        lig_props: 0,
        ..*glyph
    }
}

fn glyph_or_missing(number: u32) -> u16
    ensures { result ≡ glyph_or_missing number }
{
    if number <= 65535 { number as u16 } else { 0 }
}

/// `map_classed_glyphs` where glyphs are remembered with their classes: few different ones make up a long text.
#[tactic(auto, using(buffer_stages::specs::Lemmas::Written::mapped_followed))]
fn class_by_rows(face: &Face, buffer: &mut hb_buffer_t)
    requires { IsReady buffer.old }
    ensures { IsFollowed (always (with_items_mapped (as_classed_glyph face.now))) buffer.old buffer.new }
{
    // No cluster changes, so what is known of their order still holds.
    let known = buffer.known_order();
    let mut rows = [known_glyph(face, 0); ROWS];
    class_each(face, &mut rows, buffer.info_slice_mut());
    buffer.keep_order(known);
}

fn class_each(face: &Face, rows: &mut [KnownGlyph; ROWS], glyphs: &mut [hb_glyph_info_t])
    requires { AreKnown face.now rows.old }
    ensures { AreMapped (as_classed_glyph face.now) glyphs.old glyphs.new }
{
    for glyph in glyphs.iter_mut() {
        class_glyph(face, rows, glyph);
    }
}

/// Makes of a character the glyph chosen for it, with its class. No other part of the record is written.
#[tactic(auto, using(crate::proofs::Classed::chosen_class))]
fn class_glyph(face: &Face, rows: &mut [KnownGlyph; ROWS], glyph: &mut hb_glyph_info_t)
    requires { AreKnown face.now rows.old }
    ensures item { item_of glyph.new ≡ as_classed_glyph face.now (item_of glyph.old) }
    ensures origin { origin_of glyph.new ≡ origin_of glyph.old }
    ensures known { AreKnown face.now rows.new }
{
    let chosen = glyph_or_missing(glyph.glyph_index);
    glyph.glyph_id = u32::from(chosen);
    glyph.glyph_props = remembered_props(face, chosen, rows);
    glyph.lig_props = 0;
}

/// The properties that GDEF gives a glyph: remembered, or found and remembered from now on.
#[tactic(auto, using(crate::proofs::KnownGlyphs::row_known, crate::proofs::KnownGlyphs::row_made))]
fn remembered_props(face: &Face, glyph: u16, rows: &mut [KnownGlyph; ROWS]) -> GlyphPropsFlags
    requires { AreKnown face.now rows.old }
    ensures props { result.0 ≡ glyph_props_of face.now.gdef glyph }
    ensures known { AreKnown face.now rows.new }
{
    let at = usize::from(glyph) % ROWS;
    let row = rows[at];
    if row.glyph == glyph {
        return row.props;
    }
    let found = known_glyph(face, glyph);
    rows[at] = found;
    found.props
}

fn known_glyph(face: &Face, glyph: u16) -> KnownGlyph
    ensures known { IsKnown face.now result }
    ensures glyph { result.glyph ≡ glyph }
{
    KnownGlyph {
        glyph,
        props: glyph_props(face, glyph),
    }
}
