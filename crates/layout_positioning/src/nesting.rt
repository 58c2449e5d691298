//! A nested GPOS lookup as a method of the apply context (rustybuzz: hb/ot_layout_gsubgpos.rs, `recurse`).
//!
//! `layout_substitution` has the same trait for GSUB: each nests by the cycle that is written for its table.
ghost use Rattle.std.specs.Prelude.{ℕ, ◌≡◌, ◌≢◌, ◌<◌, true, false, slice_get, IfErr};
ghost use Rattle.buffer_stages.specs.Buffers.{cut_of};
ghost use Rattle.buffer_stages.specs.Performing.{Performs, cut_with};
ghost use Rattle.buffer_stages.specs.Ready.{IsAtGlyphInPlace};
ghost use Rattle.layout_contexts.specs.Nested.{has_budget};
ghost use Rattle.layout_contexts.specs.Records.{after_spending};
ghost use Rattle.layout_match.specs.Applied.{ApplyContext, apply_context_of};
ghost use Rattle.layout_positioning.specs.Lookups.{nested_actions, nested_lookup};
ghost use Rattle.layout_positioning.specs.Positioning.{positioning_lookups};

use crate::nested::recurse;
use buffer_core::buffer::hb_buffer_t;
use buffer_glyphs::cause::ShapeCause;
use layout_contexts::{MAX_NESTING_LEVEL, spend};
use layout_gpos::bases::LastSearches;
use layout_match::hb_ot_apply_context_t;

/// The parameters of applying a lookup, by which other lookups of the font are nested in it.
pub trait Nesting {
    ghost applied: { Self → ApplyContext };

    ghost random: { Self → ℕ };

    /// Applies the GPOS lookup at an index at the cursor, nested in a lookup of the map: with its own flag, and without a
    /// test whether it applies to the glyph there. Lookups may be nested in it 63 levels deep. It takes a step of the
    /// budget of nested lookups (`max_ops`), also where the lookup doesn't act or there is none; with no step left it
    /// does nothing. It answers whether the lookup acted. It takes no memory, and refuses only where a list has more
    /// glyphs than it may.
    fn recurse(&self, index: u16, buffer: &mut hb_buffer_t) -> Result<bool, ShapeCause>
        requires at_glyph_in_place { IsAtGlyphInPlace buffer.old }
        ensures performs { has_budget (cut_of buffer.old) ≡ true → Performs
            (nested_lookup (nested_actions (positioning_lookups (applied self.now).font) 63 buffer.old.direction)
            (slice_get (positioning_lookups (applied self.now).font) index) buffer.old.direction (applied self.now)
            (cut_with (random self.now) (after_spending buffer.old))) result (random self.now) (random self.now)
            (after_spending buffer.old) buffer.new }
        ensures spent { has_budget (cut_of buffer.old) ≡ false → (result ≡ Ok false) × (buffer.new ≡ buffer.old) }
        ensures memory { IfErr result (λ e. e ≢ ShapeCause.OutOfMemory) };
}

impl<'a> Nesting for hb_ot_apply_context_t<'a> {
    ghost applied = { apply_context_of };

    ghost random = { λ c. c.random_state };

    fn recurse(&self, index: u16, buffer: &mut hb_buffer_t) -> Result<bool, ShapeCause> {
        apply_nested(index, self, buffer)
    }
}

fn apply_nested(
    index: u16,
    ctx: &hb_ot_apply_context_t,
    buffer: &mut hb_buffer_t,
) -> Result<bool, ShapeCause>
    requires at_glyph_in_place { IsAtGlyphInPlace buffer.old }
    ensures performs { has_budget (cut_of buffer.old) ≡ true → Performs
        (nested_lookup (nested_actions (positioning_lookups ctx.now.face.now) 63 buffer.old.direction)
        (slice_get (positioning_lookups ctx.now.face.now) index) buffer.old.direction (apply_context_of ctx.now)
        (cut_with ctx.now.random_state (after_spending buffer.old))) result ctx.now.random_state ctx.now.random_state
        (after_spending buffer.old) buffer.new }
    ensures spent { has_budget (cut_of buffer.old) ≡ false → (result ≡ Ok false) × (buffer.new ≡ buffer.old) }
    ensures memory { IfErr result (λ e. e ≢ ShapeCause.OutOfMemory) }
{
    if !spend(buffer) {
        return Ok(false);
    }
    match ctx.face.gpos() {
        Some(table) => {
            let mut last = LastSearches::new();
            recurse(table, MAX_NESTING_LEVEL - 1, index, ctx, &mut last, buffer)
        }
        None => Ok(false),
    }
}
