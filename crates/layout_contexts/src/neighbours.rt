//! The contexts of a lookup that can't act between the glyphs beside the cursor; rustybuzz tries each of them.
ghost use Rattle.std.specs.Prelude.{ℕ, ◌≡◌, ◌≤◌, ◌<◌, true, length, reverse, Option};
ghost use Rattle.buffer_glyphs.specs.Items.{strip};
ghost use Rattle.buffer_core.specs.Sides.{flag_requests_of};
ghost use Rattle.buffer_stages.specs.Actions.{Action};
ghost use Rattle.buffer_stages.specs.Ready.{HasGlyphAtCursor};
ghost use Rattle.layout_common.specs.declared.neighbours.Neighbour.TheVariants.{Unknown};
ghost use Rattle.layout_match.specs.Applied.{ApplyContext, apply_context_of, context_search, own_search};
ghost use Rattle.layout_match.specs.Next.{IsBeside};
ghost use Rattle.layout_contexts.specs.Chains.{context_subtable};
ghost use Rattle.layout_contexts.specs.Neighbours.{AreNeighbours, ArePassedOver};

use buffer_core::buffer::hb_buffer_t;
use layout_common::neighbours::{Neighbour, Side};
use layout_common::subtables::Subtables;
use layout_match::{hb_ot_apply_context_t, neighbour_after, neighbour_before};
use layout_tables::context::ContextSubtable;

/// What is known of the glyphs beside the cursor.
#[derive(Clone, Copy)]
pub struct Neighbours {
    pub before: Neighbour,
    pub after: Neighbour,
}

/// What is known of the glyph before the cursor: nothing where no context is indexed by it.
fn before(
    subtables: &Subtables<ContextSubtable>,
    ctx: &hb_ot_apply_context_t,
    buffer: &hb_buffer_t,
) -> Neighbour
    requires { 0 < length buffer.now.ahead }
    ensures context { IsBeside result (context_search (apply_context_of ctx.now) (strip buffer.now.ahead)) 0
        (reverse (strip buffer.now.behind)) }
    ensures unflagged { (flag_requests_of buffer.now).concat ≡ true → result ≡ Unknown }
{
    if subtables.has_columns(Side::Before) {
        return neighbour_before(ctx, buffer);
    }
    Neighbour::Unknown
}

/// What is known of the glyph after the cursor: nothing where no context is indexed by it.
fn after(
    subtables: &Subtables<ContextSubtable>,
    ctx: &hb_ot_apply_context_t,
    buffer: &hb_buffer_t,
) -> Neighbour
    requires { 0 < length buffer.now.ahead }
    ensures input { IsBeside result (own_search (apply_context_of ctx.now) (strip buffer.now.ahead)) 1
        (strip buffer.now.ahead) }
    ensures lookahead { IsBeside result (context_search (apply_context_of ctx.now) (strip buffer.now.ahead)) 1
        (strip buffer.now.ahead) }
    ensures unflagged { (flag_requests_of buffer.now).concat ≡ true → result ≡ Unknown }
{
    if subtables.has_columns(Side::After) {
        return neighbour_after(ctx, buffer);
    }
    Neighbour::Unknown
}

/// What is known of the glyphs beside the cursor, as far as some contexts are indexed by them.
pub fn known_neighbours(
    subtables: &Subtables<ContextSubtable>,
    ctx: &hb_ot_apply_context_t,
    buffer: &hb_buffer_t,
) -> Neighbours
    requires { 0 < length buffer.now.ahead }
    ensures { AreNeighbours result.before result.after (apply_context_of ctx.now) buffer.now }
{
    Neighbours {
        before: before(subtables, ctx, buffer),
        after: after(subtables, ctx, buffer),
    }
}

/// The index of a context, from one on, that may act at the cursor: those before it pass there, and flag nothing. Past the
/// last one where none may.
#[tactic(auto, using(buffer_stages::proofs::Lemmas::Glyphs::number_ahead))]
pub fn next_context(
    subtables: &Subtables<ContextSubtable>,
    beside: &Neighbours,
    from: usize,
    buffer: &hb_buffer_t,
) -> usize
    requires glyph_at_cursor { HasGlyphAtCursor buffer.now }
    ensures on { from ≤ result }
    ensures passed { (nest : Option (ℕ → Action)) (a : ApplyContext) (r : ℕ)
        → AreNeighbours beside.now.before beside.now.after a buffer.now
        → ArePassedOver (context_subtable nest a) subtables.now from result r buffer.now }
{
    let glyph = buffer.cur(0).as_glyph().0;
    subtables.next_between(glyph, beside.before, beside.after, from)
}
