//! Whether a lookup applies to a glyph, and at which glyphs it is to be tried.
ghost use Rattle.std.specs.Prelude.{ℕ, ◌≡◌, ◌<◌, ◌≤◌, ◌&&◌, [], true, false, length, take};
ghost use Rattle.std.specs.List.{list_any};
ghost use Rattle.buffer_glyphs.specs.Items.{Item, item_of, strip};
ghost use Rattle.buffer_core.specs.Sides.{items_of};
ghost use Rattle.buffer_stages.specs.Actions.{Action, Passes};
ghost use Rattle.buffer_stages.specs.Buffers.{are_glyphs};
ghost use Rattle.buffer_stages.specs.Performing.{cut_with};
ghost use Rattle.buffer_stages.specs.Ready.{HasGlyphAtCursor};
ghost use Rattle.layout_match.specs.Applied.{apply_context_of};
ghost use Rattle.layout_match.specs.Skipping.{PassesAt};
ghost use Rattle.layout_match.specs.Steps.{MeetsGlyph};
ghost use Rattle.layout_match.specs.Trying.{meets, met_first};

use crate::hb_ot_apply_context_t;
use buffer_core::buffer::hb_buffer_t;
use buffer_glyphs::info::hb_glyph_info_t;
use buffer_stages::mask::shares_mask;
use layout_common::digested::{Covers, Digested};

/// Whether a lookup applies to a glyph: it has a bit of the lookup's mask, and the lookup flag admits it.
pub fn meets(ctx: &hb_ot_apply_context_t, info: &hb_glyph_info_t) -> bool
    ensures { result ≡ meets (apply_context_of ctx.now) (item_of info.now) }
{
    shares_mask(ctx.lookup_mask(), info) && ctx.check_glyph_property(info, ctx.lookup_props)
}

/// Whether a lookup is to be tried at the cursor: it applies to the glyph there, which its subtables may cover. Where it
/// isn't, a rule of the subtables passes.
#[tactic(auto, using(buffer_stages::proofs::Lemmas::Glyphs::number_ahead))]
pub fn is_tried<S: Covers>(
    ctx: &hb_ot_apply_context_t,
    subtables: &Digested<S>,
    buffer: &hb_buffer_t,
) -> bool
    requires glyph_at_cursor { HasGlyphAtCursor buffer.now }
    ensures meets { result ≡ true → (act : Action) (r : ℕ) → met_first (apply_context_of ctx.now) act (cut_with r buffer.now)
        ≡ act (cut_with r buffer.now) }
    ensures passes { result ≡ false → (act : Action)
        → ((x : Item) → S.covers subtables.now x.number ≡ false → PassesAt act x)
        → (r : ℕ) → met_first (apply_context_of ctx.now) act (cut_with r buffer.now) ≡ Passes [] }
{
    // What costs least comes first: the sets of the subtables' glyphs, the mask, and last the lookup flag, which may
    // look the glyph up in a mark filtering set.
    let info = buffer.cur(0);
    if !subtables.may_have_glyph(info.as_glyph().0) {
        return false;
    }
    meets(ctx, info)
}

/// Whether a lookup is to be tried at a glyph: its subtables may cover the glyph, and the lookup applies to it.
#[tactic(auto, using(buffer_facts::proofs::Truth::lacks_second, buffer_facts::proofs::Truth::lacks_first))]
fn may_act_at<S: Covers>(
    ctx: &hb_ot_apply_context_t,
    subtables: &Digested<S>,
    info: &hb_glyph_info_t,
) -> bool
    requires { info.now.glyph_id ≤ 65535 }
    ensures idle { result ≡ false → (meets (apply_context_of ctx.now) (item_of info.now)
        && S.covers subtables.now info.now.glyph_id) ≡ false }
    ensures met { result ≡ true → meets (apply_context_of ctx.now) (item_of info.now) ≡ true }
{
    // In the order of `is_tried`: what costs least comes first.
    subtables.may_have_glyph(info.as_glyph().0) && meets(ctx, info)
}

/// How many glyphs from the cursor on a lookup is not to be tried at: each is one that it doesn't apply to, or that its
/// subtables don't cover. It only saves time: the lookup would pass at each of them.
pub fn idle_run<S: Covers>(
    ctx: &hb_ot_apply_context_t,
    subtables: &Digested<S>,
    buffer: &hb_buffer_t,
) -> usize
    requires { are_glyphs (items_of buffer.now) ≡ true }
    ensures within { result ≤ length buffer.now.ahead }
    ensures idle { list_any (λ (x : Item). meets (apply_context_of ctx.now) x && S.covers subtables.now x.number)
        (take result (strip buffer.now.ahead)) ≡ false }
{
    run_to_met(ctx, subtables, buffer)
}

/// How many glyphs `idle_run` passes over; the lookup applies to the glyph after them, where there is one.
#[tactic(auto, using(crate::proofs::Lemmas::Idle::number_ahead_at, crate::proofs::Lemmas::Idle::met_at, crate::proofs::Lemmas::Idle::none_there))]
pub fn run_to_met<S: Covers>(
    ctx: &hb_ot_apply_context_t,
    subtables: &Digested<S>,
    buffer: &hb_buffer_t,
) -> usize
    requires { are_glyphs (items_of buffer.now) ≡ true }
    ensures within { result ≤ length buffer.now.ahead }
    ensures idle { list_any (λ (x : Item). meets (apply_context_of ctx.now) x && S.covers subtables.now x.number)
        (take result (strip buffer.now.ahead)) ≡ false }
    ensures met { MeetsGlyph (apply_context_of ctx.now) result buffer.now }
{
    let count = buffer.lookahead_len();
    for at in 0..count {
        if may_act_at(ctx, subtables, buffer.cur(at)) {
            return at;
        }
    }
    count
}
