//! A GPOS lookup at the cursor (rustybuzz: `PositioningLookup`).
ghost use Rattle.std.specs.Prelude.{◌≢◌, ◌<◌, OnOk, IfErr};
ghost use Rattle.buffer_core.specs.Sides.{items_of};
ghost use Rattle.layout_match.specs.Applied.{apply_context_of};
ghost use Rattle.layout_match.specs.Steps.{MeetsGlyph};
ghost use Rattle.buffer_stages.specs.Performing.{Performs, cut_with};
ghost use Rattle.buffer_stages.specs.Ready.{IsAtGlyphInPlace};
ghost use Rattle.layout_gpos.specs.Bases.{AreKept};
ghost use Rattle.layout_positioning.specs.Lookups.{lookup_action};

use crate::nested::apply_subtables;
use buffer_core::buffer::hb_buffer_t;
use buffer_glyphs::cause::ShapeCause;
use layout_contexts::MAX_NESTING_LEVEL;
use layout_face::positioning::{PositioningLookup, PositioningTable};
use layout_gpos::bases::LastSearches;
use layout_match::hb_ot_apply_context_t;
use layout_match::lookup::is_tried;

/// Applies the first matching subtable of a lookup at the cursor of a buffer without an output, where the lookup
/// applies to the glyph there. It answers whether one acted; where none did it changed glyph flags only. Searches for
/// bases and ligatures continue the last ones of this lookup on these glyphs, those of nested lookups included.
pub fn apply_lookup(
    table: &PositioningTable,
    lookup: &PositioningLookup,
    ctx: &hb_ot_apply_context_t,
    last: &mut LastSearches,
    buffer: &mut hb_buffer_t,
) -> Result<bool, ShapeCause>
    requires at_glyph_in_place { IsAtGlyphInPlace buffer.old }
    requires kept { AreKept (apply_context_of ctx.now) (items_of buffer.old) last.old }
    ensures performs { Performs (lookup_action table.now.lookups buffer.old.direction (apply_context_of ctx.now) lookup.now
        (cut_with ctx.now.random_state buffer.old)) result ctx.now.random_state ctx.now.random_state buffer.old
        buffer.new }
    ensures kept { OnOk result (AreKept (apply_context_of ctx.now) (items_of buffer.new) last.new) }
    ensures memory { IfErr result (λ e. e ≢ ShapeCause.OutOfMemory) }
{
    if !is_tried(ctx, &lookup.subtables, buffer) {
        return Ok(false);
    }
    apply_subtables(
        table,
        MAX_NESTING_LEVEL,
        lookup.subtables.inner(),
        ctx,
        last,
        buffer,
    )
}

/// Applies the first matching subtable of a lookup at the cursor, to whose glyph the lookup applies, as `apply_lookup`
/// does.
pub(crate) fn apply_met(
    table: &PositioningTable,
    lookup: &PositioningLookup,
    ctx: &hb_ot_apply_context_t,
    last: &mut LastSearches,
    buffer: &mut hb_buffer_t,
) -> Result<bool, ShapeCause>
    requires at_glyph_in_place { IsAtGlyphInPlace buffer.old }
    requires met { MeetsGlyph (apply_context_of ctx.now) 0 buffer.old }
    requires kept { AreKept (apply_context_of ctx.now) (items_of buffer.old) last.old }
    ensures performs { Performs (lookup_action table.now.lookups buffer.old.direction (apply_context_of ctx.now) lookup.now
        (cut_with ctx.now.random_state buffer.old)) result ctx.now.random_state ctx.now.random_state buffer.old
        buffer.new }
    ensures kept { OnOk result (AreKept (apply_context_of ctx.now) (items_of buffer.new) last.new) }
    ensures memory { IfErr result (λ e. e ≢ ShapeCause.OutOfMemory) }
{
    apply_subtables(
        table,
        MAX_NESTING_LEVEL,
        lookup.subtables.inner(),
        ctx,
        last,
        buffer,
    )
}
