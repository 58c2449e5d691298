//! A GSUB lookup at the cursor (rustybuzz: `SubstLookup`).
ghost use Rattle.std.specs.Prelude.{◌≡◌, ◌<◌};
ghost use Rattle.layout_match.specs.Applied.{apply_context_of};
ghost use Rattle.buffer_stages.specs.Actions.{first_rule};
ghost use Rattle.buffer_stages.specs.Buffers.{cut_of};
ghost use Rattle.buffer_stages.specs.Performing.{Performs, PerformsWithoutOutput, cut_with};
ghost use Rattle.buffer_stages.specs.Ready.{HasGlyphAtCursor, IsAtGlyph};
ghost use Rattle.layout_gsub.specs.Reverses.{reverse_subtable};
ghost use Rattle.layout_substitution.specs.Lookups.{first_reverse, lookup_action, reverse_action};

use crate::nested::apply_subtables;
use buffer_core::buffer::hb_buffer_t;
use buffer_glyphs::cause::ShapeCause;
use layout_common::digested::Digested;
use layout_contexts::MAX_NESTING_LEVEL;
use layout_face::substitution::{SubstLookup, SubstitutionSubtables, SubstitutionTable};
use layout_gsub::reverse::apply_reverse_chain_single_subst;
use layout_match::hb_ot_apply_context_t;
use layout_match::lookup::is_tried;
use layout_tables::reverse::ReverseChainSubst;

/// Applies the first matching subtable of a lookup at the cursor, where the lookup applies to the glyph there. It
/// answers whether one acted; where none did it changed glyph flags only. It refuses for want of memory, or where the
/// output would have more glyphs than it may.
pub fn apply_lookup(
    table: &SubstitutionTable,
    lookup: &SubstLookup,
    ctx: &mut hb_ot_apply_context_t,
    buffer: &mut hb_buffer_t,
) -> Result<bool, ShapeCause>
    requires at_glyph { IsAtGlyph buffer.old }
    ensures performs { Performs (lookup_action table.now.lookups (apply_context_of ctx.old) lookup.now
        (cut_with ctx.old.random_state buffer.old)) result ctx.old.random_state ctx.new.random_state buffer.old
        buffer.new }
    ensures context { apply_context_of ctx.new ≡ apply_context_of ctx.old }
{
    if !is_tried(ctx, &lookup.subtables, buffer) {
        return Ok(false);
    }
    apply_subtables(
        table,
        MAX_NESTING_LEVEL,
        lookup.subtables.inner(),
        ctx,
        buffer,
    )
}

/// Applies a subtable of reverse chaining, in place, unless the set of its glyphs misses the one at the cursor: then it
/// passes.
#[tactic(auto, using(buffer_stages::proofs::Lemmas::Glyphs::number_ahead))]
fn apply_reverse_subtable(
    subtable: &Digested<ReverseChainSubst>,
    ctx: &hb_ot_apply_context_t,
    buffer: &mut hb_buffer_t,
) -> bool
    requires glyph_at_cursor { HasGlyphAtCursor buffer.old }
    ensures { PerformsWithoutOutput (reverse_subtable (apply_context_of ctx.now) subtable.now
        (cut_of buffer.old)) result buffer.old buffer.new }
{
    if !subtable.may_have_glyph(buffer.cur(0).as_glyph().0) {
        return false;
    }
    apply_reverse_chain_single_subst(subtable.inner(), ctx, buffer)
}

/// Applies the first matching subtable of reverse chaining, in place.
#[tactic(auto, using(crate::proofs::InPlace::put_first, crate::proofs::InPlace::put_numbers, crate::proofs::InPlace::put_there, crate::proofs::InPlace::put_acted, crate::proofs::InPlace::put_all))]
fn apply_reverse_subtables(
    subtables: &[Digested<ReverseChainSubst>],
    ctx: &hb_ot_apply_context_t,
    buffer: &mut hb_buffer_t,
) -> bool
    requires glyph_at_cursor { HasGlyphAtCursor buffer.old }
    ensures { PerformsWithoutOutput (first_rule (reverse_subtable (apply_context_of ctx.now)) subtables.now
        (cut_of buffer.old)) result buffer.old buffer.new }
{
    for subtable in subtables {
        if apply_reverse_subtable(subtable, ctx, buffer) {
            return true;
        }
    }
    false
}

/// Applies the first matching subtable where the subtables are of reverse chaining; others do nothing from the right.
fn apply_reverse_substitution(
    subtables: &SubstitutionSubtables,
    ctx: &hb_ot_apply_context_t,
    buffer: &mut hb_buffer_t,
) -> bool
    requires glyph_at_cursor { HasGlyphAtCursor buffer.old }
    ensures { PerformsWithoutOutput (first_reverse (apply_context_of ctx.now) subtables.now
        (cut_of buffer.old)) result buffer.old buffer.new }
{
    match subtables {
        SubstitutionSubtables::ReverseChainSingle(subtables) => {
            apply_reverse_subtables(subtables.as_slice(), ctx, buffer)
        }
        SubstitutionSubtables::Single(_)
        | SubstitutionSubtables::Multiple(_)
        | SubstitutionSubtables::Alternate(_)
        | SubstitutionSubtables::Ligature(_)
        | SubstitutionSubtables::Context(_)
        | SubstitutionSubtables::ChainContext(_) => false,
    }
}

/// Applies a reverse chaining lookup at the cursor of a buffer without an output, where it applies to the glyph there.
/// It answers whether it acted; where it didn't, it changed glyph flags only. It takes no memory.
pub fn apply_reverse_lookup(
    lookup: &SubstLookup,
    ctx: &hb_ot_apply_context_t,
    buffer: &mut hb_buffer_t,
) -> bool
    requires glyph_at_cursor { HasGlyphAtCursor buffer.old }
    ensures { PerformsWithoutOutput (reverse_action (apply_context_of ctx.now) lookup.now
        (cut_of buffer.old)) result buffer.old buffer.new }
{
    if !is_tried(ctx, &lookup.subtables, buffer) {
        return false;
    }
    apply_reverse_substitution(lookup.subtables.inner(), ctx, buffer)
}
