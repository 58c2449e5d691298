//! A lookup over a buffer with an open output (rustybuzz: hb/ot_layout.rs, `apply_forward`).
ghost use Rattle.std.specs.Prelude.{◌≡◌, ◌≢◌, ◌<◌, List, false, Ok, Err, IfErr, OnOk};
ghost use Rattle.buffer_core.specs.Sides.{items_of};
ghost use Rattle.layout_face.specs.declared.substitution.SubstLookup.{SubstLookup as Lookup};
ghost use Rattle.layout_match.specs.Applied.{apply_context_of};
ghost use Rattle.buffer_glyphs.specs.declared.cause.ShapeCause.TheVariants.{TooLong};
ghost use Rattle.buffer_stages.specs.Ready.{DoesGlyphStageFrom, HoldsGlyphs, IsAmongGlyphs, IsAtGlyph};
ghost use Rattle.layout_match.specs.Trying.{forward_pass};
ghost use Rattle.layout_substitution.specs.Lookups.{lookup_action};
ghost use Rattle.layout_match.specs.Steps.{IsGivenUp, IsIdleRun, IsIdleRunTooLong, IsStep, MeetsGlyph};
ghost use Rattle.layout_substitution.specs.Steps.{HasZeroPositions};

use crate::nested::apply_subtables;
use buffer_core::buffer::hb_buffer_t;
use buffer_glyphs::cause::ShapeCause;
use layout_contexts::MAX_NESTING_LEVEL;
use layout_face::substitution::{SubstLookup, SubstitutionTable};
use layout_match::hb_ot_apply_context_t;
use layout_match::lookup::run_to_met;

/// Moves the cursor over the glyphs that a lookup is not to be tried at, to the next one where it is.
fn pass_idle(
    lookup: &SubstLookup,
    ctx: &hb_ot_apply_context_t,
    buffer: &mut hb_buffer_t,
) -> Result<(), ShapeCause>
    requires among_glyphs { IsAmongGlyphs buffer.old }
    ensures ok { OnOk result ((table : List Lookup) → IsIdleRun (lookup_action table (apply_context_of ctx.now) lookup.now)
        buffer.old buffer.new) }
    ensures met { OnOk result (MeetsGlyph (apply_context_of ctx.now) 0 buffer.new) }
    ensures err { IfErr result (λ e. e ≢ ShapeCause.OutOfMemory → (e ≡ TooLong) × ((table : List Lookup)
        → IsIdleRunTooLong (lookup_action table (apply_context_of ctx.now) lookup.now) buffer.old)) }
{
    let count = run_to_met(ctx, &lookup.subtables, buffer);
    if count == 0 {
        return Ok(());
    }
    if !buffer.next_glyphs(count)? {
        return Err(ShapeCause::TooLong);
    }
    Ok(())
}

/// Tries a lookup at the cursor, to whose glyph it applies, and moves over the glyph where it doesn't act. It answers
/// whether it acted, here or before. The loop's goal (`loop-ctx-preserved`) needs a step with a clause of its own,
/// `IsStep`.
fn apply_next(
    table: &SubstitutionTable,
    lookup: &SubstLookup,
    ctx: &mut hb_ot_apply_context_t,
    acted: bool,
    buffer: &mut hb_buffer_t,
) -> Result<bool, ShapeCause>
    requires at_glyph { IsAtGlyph buffer.old }
    requires met { MeetsGlyph (apply_context_of ctx.old) 0 buffer.old }
    ensures ok { OnOk result (IsStep (lookup_action table.now.lookups
        (apply_context_of ctx.old) lookup.now) ctx.old.random_state ctx.new.random_state buffer.old buffer.new) }
    ensures err { IfErr result (λ e. e ≢ ShapeCause.OutOfMemory
        → IsGivenUp (lookup_action table.now.lookups (apply_context_of ctx.old) lookup.now)
        ctx.old.random_state buffer.old e) }
    ensures context { apply_context_of ctx.new ≡ apply_context_of ctx.old }
    ensures before { result ≡ Ok false → acted ≡ false }
    ensures unchanged { result ≡ Ok false → items_of buffer.new ≡ items_of buffer.old }
{
    let subtables = lookup.subtables.inner();
    if apply_subtables(table, MAX_NESTING_LEVEL, subtables, ctx, buffer)? {
        return Ok(true);
    }
    if !buffer.next_glyph()? {
        return Err(ShapeCause::TooLong);
    }
    Ok(acted)
}

/// Tries a lookup at each glyph once, from the left, and moves on after the glyphs that it made. It answers whether it
/// acted anywhere.
#[tactic(auto, using(layout_match::proofs::Lemmas::Passage::begun))]
pub fn apply_forward(
    table: &SubstitutionTable,
    lookup: &SubstLookup,
    ctx: &mut hb_ot_apply_context_t,
    buffer: &mut hb_buffer_t,
) -> Result<bool, ShapeCause>
    requires glyphs { HoldsGlyphs buffer.old }
    ensures stage { DoesGlyphStageFrom ctx.old.random_state ctx.new.random_state (forward_pass (lookup_action
        table.now.lookups (apply_context_of ctx.old) lookup.now)) result buffer.old buffer.new }
    ensures context { apply_context_of ctx.new ≡ apply_context_of ctx.old }
    ensures unchanged { result ≡ Ok false → items_of buffer.new ≡ items_of buffer.old }
    ensures cleared { OnOk result (HasZeroPositions buffer.new) }
{
    buffer.clear_output()?;
    pass_idle(lookup, ctx, buffer)?;
    let mut acted = false;
    while buffer.idx() < buffer.len() {
        acted = apply_next(table, lookup, ctx, acted, buffer)?;
        pass_idle(lookup, ctx, buffer)?;
    }
    if !buffer.sync()? {
        return Err(ShapeCause::TooLong);
    }
    Ok(acted)
}
