//! Reverse chaining single substitution (OpenType, GSUB lookup type 8; rustybuzz: hb/ot_layout_gsub_table.rs,
//! `ReverseChainSingleSubstitution`).
ghost use Rattle.std.specs.Prelude.{◌≡◌, ◌<◌, ◌≤◌, ◌+◌, ◌-◌, ◌∷◌, true, Some, [], length, map, slice_get};
ghost use Rattle.buffer_glyphs.specs.declared.info.hb_glyph_info_t.{hb_glyph_info_t as Glyph};
ghost use Rattle.buffer_core.specs.Lending.{with_glyph_ahead};
ghost use Rattle.buffer_glyphs.specs.Items.{strip};
ghost use Rattle.layout_match.specs.Applied.{apply_context_of, context_search};
ghost use Rattle.layout_match.specs.Matches.{backtrack_end};
ghost use Rattle.layout_match.specs.Sequences.{is_covered_by};
ghost use Rattle.buffer_stages.specs.Actions.{Acts};
ghost use Rattle.buffer_stages.specs.Buffers.{cut_of};
ghost use Rattle.buffer_stages.specs.Performing.{PerformsWithoutOutput};
ghost use Rattle.buffer_stages.specs.Ready.{HasGlyphAtCursor};
ghost use Rattle.layout_gsub.specs.Reverses.{reverse_after_backtrack, cut_with_substitute_kept, reverse_subtable};

use crate::replacement::substituted_props;
use buffer_core::buffer::hb_buffer_t;
use buffer_glyphs::flags::GlyphPropsFlags;
use layout_common::coverage::Coverage;
use layout_match::marking::{mark_attempt, mark_match};
use layout_match::{MatchSequence, hb_ot_apply_context_t, match_backtrack, match_lookahead};
use layout_tables::reverse::ReverseChainSubst;

/// Gives the glyph at the cursor another number and other properties.
fn put_glyph(glyph: u16, props: GlyphPropsFlags, buffer: &mut hb_buffer_t)
    requires { 0 < length buffer.old.ahead }
    ensures { (g : Glyph) → slice_get buffer.old.ahead 0 ≡ Some g →
        buffer.new ≡ with_glyph_ahead 0 (record g { glyph_id = glyph; glyph_props = props }) buffer.old }
{
    let info = buffer.cur_mut(0);
    info.glyph_id = u32::from(glyph);
    info.glyph_props = props;
}

/// Replaces the glyph at the cursor by another, in place; its class is GDEF's, where GDEF has classes.
pub fn replace_glyph_inplace(ctx: &hb_ot_apply_context_t, glyph: u16, buffer: &mut hb_buffer_t)
    requires { 0 < length buffer.old.ahead }
    ensures { PerformsWithoutOutput (Acts (cut_with_substitute_kept ctx.now.face.now.gdef glyph
        (cut_of buffer.old)) []) true buffer.old buffer.new }
{
    let props = substituted_props(ctx.face, glyph, buffer.cur(0).glyph_props);
    put_glyph(glyph, props, buffer);
}

/// Matches a rule's backtrack sequence before the cursor, and replaces the glyph there.
fn apply_backtrack(
    backtrack: &[Coverage],
    ahead: usize,
    glyph: u16,
    ctx: &hb_ot_apply_context_t,
    buffer: &mut hb_buffer_t,
) -> bool
    requires there { 0 < length buffer.old.ahead }
    requires matched { ahead ≤ length buffer.old.ahead }
    ensures { PerformsWithoutOutput (reverse_after_backtrack ctx.now.face.now.gdef glyph ahead
        (backtrack_end (context_search (apply_context_of ctx.now) (strip buffer.old.ahead)) (map is_covered_by backtrack.now)
        (strip buffer.old.behind)) (cut_of buffer.old)) result buffer.old buffer.new }
{
    let sequence = MatchSequence::Coverages(backtrack);
    match match_backtrack(ctx, &sequence, buffer) {
        Ok(back) => {
            mark_match(back, ahead, buffer);
            replace_glyph_inplace(ctx, glyph, buffer);
            true
        }
        Err(back) => {
            mark_attempt(back, 1, buffer);
            false
        }
    }
}

/// Reverse chaining single substitution (OpenType, GSUB lookup type 8) at the cursor of a buffer, in place: where the
/// subtable covers the glyph there, and its sets follow and precede it, its substitute replaces it. It answers whether
/// it did; where it didn't, it changed glyph flags only. It takes no memory.
#[tactic(auto, using(buffer_stages::proofs::Lemmas::Glyphs::number_ahead))]
pub fn apply_reverse_chain_single_subst(
    subtable: &ReverseChainSubst,
    ctx: &hb_ot_apply_context_t,
    buffer: &mut hb_buffer_t,
) -> bool
    requires glyph_at_cursor { HasGlyphAtCursor buffer.old }
    ensures { PerformsWithoutOutput (reverse_subtable (apply_context_of ctx.now) subtable.now
        (cut_of buffer.old)) result buffer.old buffer.new }
{
    let Some(glyph) = subtable.substitute(buffer.cur(0).as_glyph().0) else {
        return false;
    };
    let lookahead = MatchSequence::Coverages(subtable.lookahead.as_slice());
    match match_lookahead(ctx, &lookahead, 1, buffer) {
        Ok(ahead) => apply_backtrack(subtable.backtrack.as_slice(), ahead, glyph, ctx, buffer),
        Err(ahead) => {
            mark_attempt(0, ahead, buffer);
            false
        }
    }
}
