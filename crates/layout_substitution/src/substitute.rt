//! Substitution, GSUB stage after GSUB stage (rustybuzz: hb/ot_layout_gsub_table.rs, `substitute`; hb/ot_layout.rs,
//! `apply_layout_table`).
//!
//! `position` of `layout_positioning` has the same loop for GPOS, without the apply context that this one leads through
//! all lookups: in positioning nothing is drawn at random, so no lookup leaves a random state to the next.
ghost use Rattle.std.specs.Prelude.{ℕ, ◌≡◌, OnOk};
ghost use Rattle.std.specs.Option.{option_map_or, option_map};
ghost use Rattle.buffer_core.specs.Sides.{items_of};
ghost use Rattle.layout_map_features.specs.declared.per_table.TableIndex.TheVariants.{GSUB};
ghost use Rattle.buffer_stages.specs.Ready.{DoesGlyphStage, DoesGlyphStageFrom, HoldsGlyphs};
ghost use Rattle.layout_match.specs.Skipping.{HoldsText};
ghost use Rattle.layout_substitution.specs.Lookups.{lookups_stage};
ghost use Rattle.buffer_stages.specs.Settings.{text_settings};
ghost use Rattle.layout_substitution.specs.Substituting.{substitution_stages, substitution_lookups, table_stage, table_stages};

use crate::apply::apply_mapped;
use buffer_core::buffer::hb_buffer_t;
use buffer_glyphs::cause::ShapeCause;
use buffer_stages::pause::Pause;
use layout_face::Face;
use layout_map::map::hb_ot_map_t;
use layout_map_features::lookup::lookup_map_t;
use layout_map_features::per_table::TableIndex;
use layout_match::{TextDigest, TextGlyphs, hb_ot_apply_context_t};

/// Applies the lookups of a GSUB stage one after another; a font without a GSUB table has none. What is known of the
/// text serves all of them, and holds its glyphs afterwards.
fn apply_stage<T: TextDigest>(
    lookups: &[lookup_map_t],
    text: &mut T,
    ctx: &mut hb_ot_apply_context_t,
    buffer: &mut hb_buffer_t,
) -> Result<(), ShapeCause>
    requires substitution { ctx.old.table_index ≡ GSUB }
    requires glyphs { HoldsGlyphs buffer.old }
    requires held { HoldsText (T.sets text.old) (items_of buffer.old) }
    ensures stage { DoesGlyphStageFrom ctx.old.random_state ctx.new.random_state (lookups_stage ctx.old.face.now
        (substitution_lookups ctx.old.face.now) lookups.now) result buffer.old buffer.new }
    ensures table { ctx.new.table_index ≡ GSUB }
    ensures face { ctx.new.face.now ≡ ctx.old.face.now }
    ensures held { OnOk result (HoldsText (T.sets text.new) (items_of buffer.new)) }
{
    let Some(table) = ctx.face.gsub() else {
        return Ok(());
    };
    // It only saves time: a lookup from the left leaves all positions zero, so the next ones that are skipped need not
    // clear them again.
    let mut cleared = false;
    for lookup_map in lookups {
        cleared = apply_mapped(table, lookup_map, text, cleared, ctx, buffer)?;
    }
    Ok(())
}

/// Applies the lookups of a map's GSUB stages, each stage ended by its pause. What is known of the text serves all of
/// them; the loop's invariant sees its sets alone, so it is of any type.
#[tactic(auto, using(crate::proofs::Ways::stage_lookups_refused))]
fn apply_stages<P: Pause, T: TextDigest>(
    map: &hb_ot_map_t,
    text: &mut T,
    ctx: &mut hb_ot_apply_context_t,
    buffer: &mut hb_buffer_t,
    pause: &P,
) -> Result<(), ShapeCause>
    requires substitution { ctx.old.table_index ≡ GSUB }
    requires glyphs { HoldsGlyphs buffer.old }
    requires held { HoldsText (T.sets text.old) (items_of buffer.old) }
    ensures stage { DoesGlyphStageFrom ctx.old.random_state ctx.new.random_state (table_stages ctx.old.face.now
        (substitution_lookups ctx.old.face.now) map.now.tables.gsub (P.stage pause.now (text_settings buffer.old)) 0
        map.now.tables.gsub.stages) result buffer.old buffer.new }
    ensures table { ctx.new.table_index ≡ GSUB }
    ensures face { ctx.new.face.now ≡ ctx.old.face.now }
{
    let stages = map.stages(TableIndex::GSUB);
    for i in 0..stages.len() {
        let lookups = map.stage_lookups(TableIndex::GSUB, i);
        apply_stage(lookups, text, ctx, buffer)?;
        let Some(number) = stages[i].pause else {
            continue;
        };
        let introduced = pause.run(number, buffer)?;
        text.after_pause(introduced);
    }
    Ok(())
}

/// Applies the lookups of a map's GSUB stages, each stage ended by its pause. The context is one of GSUB; each lookup
/// sets its own mask, flag and the map's other parameters in it, and leaves its table and font. It refuses as
/// `substitute` does.
pub fn apply_layout_table<P: Pause>(
    map: &hb_ot_map_t,
    ctx: &mut hb_ot_apply_context_t,
    buffer: &mut hb_buffer_t,
    pause: &P,
) -> Result<(), ShapeCause>
    requires substitution { ctx.old.table_index ≡ GSUB }
    requires glyphs { HoldsGlyphs buffer.old }
    ensures stage { DoesGlyphStageFrom ctx.old.random_state ctx.new.random_state (table_stages ctx.old.face.now
        (substitution_lookups ctx.old.face.now) map.now.tables.gsub (P.stage pause.now (text_settings buffer.old)) 0
        map.now.tables.gsub.stages) result buffer.old buffer.new }
    ensures table { ctx.new.table_index ≡ GSUB }
    ensures face { ctx.new.face.now ≡ ctx.old.face.now }
{
    let mut text = TextGlyphs::new();
    apply_stages(map, &mut text, ctx, buffer, pause)
}

/// Substitutes glyphs by the font's rules for the features of a map: stage after stage the stage's lookups by their
/// indices, each at all glyphs, and then the stage's pause. One random state serves all lookups. It refuses for want of
/// memory, where a list would have more glyphs than it may, or with a pause's cause.
pub fn substitute<P: Pause>(
    map: &hb_ot_map_t,
    face: &Face,
    buffer: &mut hb_buffer_t,
    pause: &P,
) -> Result<(), ShapeCause>
    requires glyphs { HoldsGlyphs buffer.old }
    ensures { DoesGlyphStage (substitution_stages face.now map.now (P.stage pause.now (text_settings buffer.old)))
        result buffer.old buffer.new }
{
    let mut ctx = hb_ot_apply_context_t::new(TableIndex::GSUB, face);
    let mut text = TextGlyphs::new();
    apply_stages(map, &mut text, &mut ctx, buffer, pause)
}
