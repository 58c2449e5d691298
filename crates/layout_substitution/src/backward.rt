//! A reverse chaining lookup over a buffer, in place (rustybuzz: hb/ot_layout.rs, `apply_backward`).
ghost use Rattle.std.specs.Prelude.{ℕ, ◌≡◌, ◌<◌, false, length};
ghost use Rattle.buffer_core.specs.Sides.{all_glyphs, items_of};
ghost use Rattle.layout_match.specs.Applied.{apply_context_of};
ghost use Rattle.buffer_stages.specs.Ready.{IsDoneFrom, HasGlyphsInPlace, HoldsGlyphs};
ghost use Rattle.layout_substitution.specs.Lookups.{backward_pass, reverse_action};
ghost use Rattle.layout_substitution.specs.Steps.{IsStepBack};

use crate::lookup::apply_reverse_lookup;
use buffer_core::buffer::hb_buffer_t;
use layout_face::substitution::SubstLookup;
use layout_match::hb_ot_apply_context_t;

/// Tries a reverse chaining lookup in place at an index. It answers whether it acted, here or before.
#[tactic(auto, using(crate::proofs::Back::step_back))]
fn apply_at(
    lookup: &SubstLookup,
    at: usize,
    ctx: &hb_ot_apply_context_t,
    acted: bool,
    buffer: &mut hb_buffer_t,
) -> bool
    requires glyphs_in_place { HasGlyphsInPlace buffer.old }
    requires there { at < length (all_glyphs buffer.old) }
    ensures step { IsStepBack (reverse_action (apply_context_of ctx.now) lookup.now) at buffer.old buffer.new }
    ensures before { result ≡ false → acted ≡ false }
    ensures unchanged { result ≡ false → items_of buffer.new ≡ items_of buffer.old }
{
    // There are as many positions as glyphs. Without an output a move is never refused.
    let _before = buffer.pos_slice();
    let _ = buffer.move_to(at);
    let acts = apply_reverse_lookup(lookup, ctx, buffer);
    // There still are as many positions as glyphs.
    let _after = buffer.pos_slice();
    acts || acted
}

/// Tries a reverse chaining lookup at each glyph once, from the right, in place. It answers whether it acted anywhere,
/// and takes no memory.
#[tactic(auto, using(crate::proofs::Back::back_begun))]
pub fn apply_backward(
    lookup: &SubstLookup,
    ctx: &hb_ot_apply_context_t,
    buffer: &mut hb_buffer_t,
) -> bool
    requires glyphs { HoldsGlyphs buffer.old }
    ensures stage { (r : ℕ) → IsDoneFrom r r (backward_pass
        (reverse_action (apply_context_of ctx.now) lookup.now)) buffer.old buffer.new }
    ensures unchanged { result ≡ false → items_of buffer.new ≡ items_of buffer.old }
{
    let mut acted = false;
    for at in (0..buffer.len()).rev() {
        acted = apply_at(lookup, at, ctx, acted, buffer);
    }
    // The list is as long as at first, and has as many positions as glyphs. Without an output a move is never refused.
    let _end = buffer.len();
    let _ = buffer.move_to(0);
    let _after = buffer.pos_slice();
    acted
}
