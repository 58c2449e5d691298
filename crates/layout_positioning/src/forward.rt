//! A positioning lookup over a buffer (rustybuzz: hb/ot_layout.rs, `apply_forward`).
ghost use Rattle.std.specs.Prelude.{◌≢◌, ◌<◌, List, IfErr, OnOk};
ghost use Rattle.buffer_core.specs.Sides.{items_of};
ghost use Rattle.layout_face.specs.declared.positioning.PositioningLookup.{PositioningLookup as Lookup};
ghost use Rattle.layout_match.specs.Applied.{apply_context_of};
ghost use Rattle.buffer_stages.specs.Ready.{DoesGlyphStageFrom, HasGlyphsInPlace, HoldsGlyphs, IsAtGlyphInPlace};
ghost use Rattle.layout_match.specs.Steps.{IsGivenUp, IsIdleRun, IsStep, MeetsGlyph};
ghost use Rattle.layout_gpos.specs.Bases.{AreKept};
ghost use Rattle.layout_positioning.specs.Lookups.{positioning_pass, lookup_action};

use crate::lookup::apply_met;
use buffer_core::buffer::hb_buffer_t;
use buffer_glyphs::cause::ShapeCause;
use layout_face::positioning::{PositioningLookup, PositioningTable};
use layout_gpos::bases::LastSearches;
use layout_gpos::placing::pass;
use layout_match::hb_ot_apply_context_t;
use layout_match::lookup::run_to_met;

/// Moves the cursor over the glyphs that a lookup is not to be tried at, to the next one where it is.
fn pass_idle(lookup: &PositioningLookup, ctx: &hb_ot_apply_context_t, buffer: &mut hb_buffer_t)
    requires glyphs_in_place { HasGlyphsInPlace buffer.old }
    ensures run { (table : List Lookup) → IsIdleRun (lookup_action table buffer.old.direction (apply_context_of
        ctx.now) lookup.now) buffer.old buffer.new }
    ensures met { MeetsGlyph (apply_context_of ctx.now) 0 buffer.new }
{
    // A list without an output is within its limit, so the run is not refused for length.
    let _count = buffer.len();
    let run = run_to_met(ctx, &lookup.subtables, buffer);
    pass(buffer, run);
}

/// Tries a lookup at the cursor, to whose glyph it applies, and moves over the glyph where it doesn't act.
#[tactic(auto, using(layout_match::proofs::Lemmas::Steps::given_up, layout_match::proofs::Lemmas::Steps::passed_there, layout_gpos::proofs::Lemmas::Passed::closed_there, crate::proofs::Kept::passed_kept))]
fn apply_next(
    table: &PositioningTable,
    lookup: &PositioningLookup,
    ctx: &hb_ot_apply_context_t,
    last: &mut LastSearches,
    buffer: &mut hb_buffer_t,
) -> Result<(), ShapeCause>
    requires at_glyph_in_place { IsAtGlyphInPlace buffer.old }
    requires met { MeetsGlyph (apply_context_of ctx.now) 0 buffer.old }
    requires kept { AreKept (apply_context_of ctx.now) (items_of buffer.old) last.old }
    ensures ok { OnOk result (IsStep (lookup_action table.now.lookups buffer.old.direction (apply_context_of ctx.now)
        lookup.now)
        ctx.now.random_state ctx.now.random_state buffer.old buffer.new) }
    ensures err { IfErr result (λ e. e ≢ ShapeCause.OutOfMemory → IsGivenUp (lookup_action table.now.lookups
        buffer.old.direction (apply_context_of ctx.now) lookup.now) ctx.now.random_state buffer.old e) }
    ensures kept { OnOk result (AreKept (apply_context_of ctx.now) (items_of buffer.new) last.new) }
    ensures memory { IfErr result (λ e. e ≢ ShapeCause.OutOfMemory) }
{
    // A list without an output is within its limit, so a step over one glyph is not refused for length.
    let _count = buffer.len();
    if apply_met(table, lookup, ctx, last, buffer)? {
        return Ok(());
    }
    pass(buffer, 1);
    Ok(())
}

/// Tries a lookup at each glyph once, from the left, and moves on after the glyphs that it positioned.
pub fn apply_forward(
    table: &PositioningTable,
    lookup: &PositioningLookup,
    ctx: &hb_ot_apply_context_t,
    buffer: &mut hb_buffer_t,
) -> Result<(), ShapeCause>
    requires glyphs { HoldsGlyphs buffer.old }
    ensures stage { DoesGlyphStageFrom ctx.now.random_state ctx.now.random_state (positioning_pass (lookup_action
        table.now.lookups buffer.old.direction (apply_context_of ctx.now) lookup.now)) result buffer.old buffer.new }
    ensures memory { IfErr result (λ e. e ≢ ShapeCause.OutOfMemory) }
{
    let mut last = LastSearches::new();
    pass_idle(lookup, ctx, buffer);
    while buffer.idx() < buffer.len() {
        apply_next(table, lookup, ctx, &mut last, buffer)?;
        pass_idle(lookup, ctx, buffer);
    }
    // The length is that of what was read and of what is ahead: the loop has read all.
    let _end = buffer.len();
    // Without an output a move is never refused.
    let _ = buffer.move_to(0);
    // There are as many positions as glyphs, as a buffer that is ready has.
    let _after = buffer.pos_slice();
    Ok(())
}
