//! Applies a positioning lookup of a map to a whole buffer (rustybuzz: hb/ot_layout.rs, `apply_string`).
ghost use Rattle.std.specs.Prelude.{◌≡◌, ◌≢◌, OnOk, slice_get, IfErr};
ghost use Rattle.buffer_core.specs.Sides.{items_of};
ghost use Rattle.layout_match.specs.Applied.{apply_context_of};
ghost use Rattle.layout_match.specs.Skipping.{HoldsText};
ghost use Rattle.buffer_stages.specs.Ready.{DoesGlyphStageFrom, HoldsGlyphs};
ghost use Rattle.layout_positioning.specs.Lookups.{lookup_context, lookup_stage};

use crate::forward::apply_forward;
use buffer_core::buffer::hb_buffer_t;
use buffer_glyphs::cause::ShapeCause;
use layout_face::Face;
use layout_face::positioning::{PositioningLookup, PositioningTable};
use layout_map_features::lookup::lookup_map_t;
use layout_map_features::per_table::TableIndex;
use layout_match::{TextDigest, hb_ot_apply_context_t};

/// The parameters of applying one lookup: its own flag, and those that the map gives it.
fn context_of<'a>(
    face: &'a Face,
    lookup: &PositioningLookup,
    lookup_map: &lookup_map_t,
) -> hb_ot_apply_context_t<'a>
    ensures applied { apply_context_of result ≡ lookup_context face.now lookup.now lookup_map.now }
    ensures state { result.random_state ≡ 1 }
{
    let mut ctx = hb_ot_apply_context_t::new(TableIndex::GPOS, face);
    ctx.set_lookup_mask(lookup_map.mask);
    ctx.auto_zwnj = lookup_map.auto_zwnj;
    ctx.auto_zwj = lookup_map.auto_zwj;
    ctx.random = lookup_map.random;
    ctx.per_syllable = lookup_map.per_syllable;
    ctx.lookup_props = lookup.props();
    ctx
}

/// Applies the lookup at an index of the table, unless it can act at no glyph of the text; an index without one does
/// nothing.
#[tactic(auto, using(crate::proofs::Ways::no_lookup_done))]
pub(crate) fn apply_mapped<T: TextDigest>(
    face: &Face,
    table: &PositioningTable,
    lookup_map: &lookup_map_t,
    text: &mut T,
    buffer: &mut hb_buffer_t,
) -> Result<(), ShapeCause>
    requires glyphs { HoldsGlyphs buffer.old }
    requires held { HoldsText (T.sets text.old) (items_of buffer.old) }
    ensures stage { DoesGlyphStageFrom 1 1 (lookup_stage face.now table.now.lookups (slice_get table.now.lookups
        lookup_map.now.index) lookup_map.now) result buffer.old buffer.new }
    ensures held { OnOk result (HoldsText (T.sets text.new) (items_of buffer.new)) }
    ensures memory { IfErr result (λ e. e ≢ ShapeCause.OutOfMemory) }
{
    let Some(lookup) = table.get_lookup(lookup_map.index) else {
        return Ok(());
    };
    // A list without an output is within its limit, so what is skipped would not have been refused for length.
    let _count = buffer.len();
    if text.misses(lookup_map.mask, &lookup.subtables, buffer) {
        return Ok(());
    }
    let ctx = context_of(face, lookup, lookup_map);
    apply_forward(table, lookup, &ctx, buffer)
}
