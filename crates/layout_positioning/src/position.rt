//! Positioning, GPOS stage after GPOS stage (rustybuzz: hb/ot_layout_gpos_table.rs, `position`; hb/ot_layout.rs,
//! `apply_layout_table`).
//!
//! `substitute` of `layout_substitution` has the same loop for GSUB, and leads one apply context through all lookups,
//! since each leaves a random state to the next. In positioning nothing is drawn at random, so this loop needs none.
ghost use Rattle.std.specs.Prelude.{ℕ, ◌≡◌, ◌≢◌, OnOk, IfErr};
ghost use Rattle.buffer_core.specs.Sides.{items_of};
ghost use Rattle.buffer_stages.specs.Ready.{DoesGlyphStage, DoesGlyphStageFrom, HoldsGlyphs};
ghost use Rattle.buffer_stages.specs.Settings.{text_settings};
ghost use Rattle.layout_match.specs.Skipping.{HoldsText};
ghost use Rattle.layout_positioning.specs.Positioning.{LeavesItems, lookups_stage, positioning_stages, positioning_lookups, table_stages};

use crate::apply::apply_mapped;
use buffer_core::buffer::hb_buffer_t;
use buffer_glyphs::cause::ShapeCause;
use buffer_stages::pause::Pause;
use layout_face::Face;
use layout_map::map::hb_ot_map_t;
use layout_map_features::lookup::lookup_map_t;
use layout_map_features::per_table::TableIndex;
use layout_match::{TextDigest, TextGlyphs};

/// Applies the lookups of a GPOS stage one after another, each at all glyphs from the left; a font without a GPOS table
/// has none. It takes no memory, and refuses only where a list has more glyphs than it may. What is known of the text
/// serves all of them, since they leave its glyphs.
#[tactic(auto, using(crate::proofs::Ways::none_done))]
fn apply_stage<T: TextDigest>(
    face: &Face,
    lookups: &[lookup_map_t],
    text: &mut T,
    buffer: &mut hb_buffer_t,
) -> Result<(), ShapeCause>
    requires glyphs { HoldsGlyphs buffer.old }
    requires held { HoldsText (T.sets text.old) (items_of buffer.old) }
    ensures stage { DoesGlyphStageFrom 1 1 (lookups_stage face.now (positioning_lookups face.now) lookups.now) result
        buffer.old buffer.new }
    ensures held { OnOk result (HoldsText (T.sets text.new) (items_of buffer.new)) }
    ensures memory { IfErr result (λ e. e ≢ ShapeCause.OutOfMemory) }
{
    let Some(table) = face.gpos() else {
        return Ok(());
    };
    for lookup_map in lookups {
        apply_mapped(face, table, lookup_map, text, buffer)?;
    }
    Ok(())
}

/// Applies the lookups of a map's GPOS stages, each stage ended by its pause. What is known of the text serves all of
/// them; the loop's invariant sees its sets alone, so it is of any type.
#[tactic(auto, using(crate::proofs::Ways::stage_lookups_refused, crate::proofs::Ways::all_stages_done))]
fn apply_stages<P: Pause, T: TextDigest>(
    map: &hb_ot_map_t,
    face: &Face,
    text: &mut T,
    buffer: &mut hb_buffer_t,
    pause: &P,
) -> Result<(), ShapeCause>
    requires glyphs { HoldsGlyphs buffer.old }
    requires held { HoldsText (T.sets text.old) (items_of buffer.old) }
    ensures { DoesGlyphStageFrom 1 1 (table_stages face.now (positioning_lookups face.now) map.now.tables.gpos
        (P.stage pause.now (text_settings buffer.old)) 0 map.now.tables.gpos.stages) result buffer.old buffer.new }
{
    let stages = map.stages(TableIndex::GPOS);
    for i in 0..stages.len() {
        let lookups = map.stage_lookups(TableIndex::GPOS, i);
        apply_stage(face, lookups, text, buffer)?;
        let Some(number) = stages[i].pause else {
            continue;
        };
        let introduced = pause.run(number, buffer)?;
        text.after_pause(introduced);
    }
    Ok(())
}

/// Applies the lookups of a map's GPOS stages, each stage ended by its pause. It refuses as `position` does.
pub fn apply_layout_table<P: Pause>(
    map: &hb_ot_map_t,
    face: &Face,
    buffer: &mut hb_buffer_t,
    pause: &P,
) -> Result<(), ShapeCause>
    requires glyphs { HoldsGlyphs buffer.old }
    ensures { DoesGlyphStageFrom 1 1 (table_stages face.now (positioning_lookups face.now) map.now.tables.gpos
        (P.stage pause.now (text_settings buffer.old)) 0 map.now.tables.gpos.stages) result buffer.old buffer.new }
{
    let mut text = TextGlyphs::new();
    apply_stages(map, face, &mut text, buffer, pause)
}

/// Positions glyphs by the font's rules for the features of a map: stage after stage the stage's lookups by their
/// indices, each at all glyphs, and then the stage's pause. Attached glyphs keep links until `position_finish_offsets`;
/// `position_start` clears older links before. It takes no memory except in pauses, and refuses with a pause's cause,
/// or where a list has more glyphs than it may.
#[tactic(auto, using(crate::proofs::Ways::does_from_one, crate::proofs::Left::positioned_left))]
pub fn position<P: Pause>(
    map: &hb_ot_map_t,
    face: &Face,
    buffer: &mut hb_buffer_t,
    pause: &P,
) -> Result<(), ShapeCause>
    requires glyphs { HoldsGlyphs buffer.old }
    ensures stage { DoesGlyphStage (positioning_stages face.now map.now (P.stage pause.now (text_settings
        buffer.old))) result buffer.old buffer.new }
    ensures items { OnOk result (((i : ℕ) → LeavesItems (P.stage pause.now (text_settings buffer.old) i)) →
        items_of buffer.new ≡ items_of buffer.old) }
{
    let mut text = TextGlyphs::new();
    apply_stages(map, face, &mut text, buffer, pause)
}
