//! A nested GSUB lookup as a method of the apply context (rustybuzz: hb/ot_layout_gsubgpos.rs, `recurse`).
//!
//! `layout_positioning` has the same trait for GPOS: each nests by the cycle that is written for its table.
ghost use Rattle.std.specs.Prelude.{ℕ, ◌≡◌, ◌<◌, true, false, slice_get};
ghost use Rattle.buffer_stages.specs.Buffers.{cut_of};
ghost use Rattle.buffer_stages.specs.Performing.{Performs, cut_with};
ghost use Rattle.buffer_stages.specs.Ready.{IsAtGlyph};
ghost use Rattle.layout_contexts.specs.Nested.{has_budget};
ghost use Rattle.layout_contexts.specs.Records.{after_spending};
ghost use Rattle.layout_match.specs.Applied.{ApplyContext, apply_context_of};
ghost use Rattle.layout_substitution.specs.Lookups.{nested_actions, nested_lookup};
ghost use Rattle.layout_substitution.specs.Substituting.{substitution_lookups};

use crate::nested::recurse;
use buffer_core::buffer::hb_buffer_t;
use buffer_glyphs::cause::ShapeCause;
use layout_contexts::{MAX_NESTING_LEVEL, spend};
use layout_match::hb_ot_apply_context_t;

/// The parameters of applying a lookup, by which other lookups of the font are nested in it.
pub trait Nesting {
    ghost applied: { Self → ApplyContext };

    ghost random: { Self → ℕ };

    /// Applies the GSUB lookup at an index at the cursor, nested in a lookup of the map: with its own flag, and without a
    /// test whether it applies to the glyph there. Lookups may be nested in it 63 levels deep. It takes a step of the
    /// budget of nested lookups (`max_ops`), also where the lookup doesn't act or there is none; with no step left it
    /// does nothing. It answers whether the lookup acted. It refuses for want of memory, or where a side of the buffer
    /// would have more glyphs than it may.
    fn recurse(&mut self, index: u16, buffer: &mut hb_buffer_t) -> Result<bool, ShapeCause>
        requires at_glyph { IsAtGlyph buffer.old }
        ensures performs { has_budget (cut_of buffer.old) ≡ true → Performs
            (nested_lookup (nested_actions (substitution_lookups (applied self.old).font) 63)
            (slice_get (substitution_lookups (applied self.old).font) index) (applied self.old)
            (cut_with (random self.old) (after_spending buffer.old))) result (random self.old) (random self.new)
            (after_spending buffer.old) buffer.new }
        ensures spent { has_budget (cut_of buffer.old) ≡ false → (result ≡ Ok false) × (random self.new ≡ random self.old)
            × (buffer.new ≡ buffer.old) }
        ensures context { applied self.new ≡ applied self.old };
}

impl<'a> Nesting for hb_ot_apply_context_t<'a> {
    ghost applied = { apply_context_of };

    ghost random = { λ c. c.random_state };

    fn recurse(&mut self, index: u16, buffer: &mut hb_buffer_t) -> Result<bool, ShapeCause> {
        apply_nested(index, self, buffer)
    }
}

fn apply_nested(
    index: u16,
    ctx: &mut hb_ot_apply_context_t,
    buffer: &mut hb_buffer_t,
) -> Result<bool, ShapeCause>
    requires at_glyph { IsAtGlyph buffer.old }
    ensures performs { has_budget (cut_of buffer.old) ≡ true → Performs
        (nested_lookup (nested_actions (substitution_lookups ctx.old.face.now) 63)
        (slice_get (substitution_lookups ctx.old.face.now) index) (apply_context_of ctx.old)
        (cut_with ctx.old.random_state (after_spending buffer.old))) result ctx.old.random_state ctx.new.random_state
        (after_spending buffer.old) buffer.new }
    ensures spent { has_budget (cut_of buffer.old) ≡ false → (result ≡ Ok false)
        × (ctx.new.random_state ≡ ctx.old.random_state) × (buffer.new ≡ buffer.old) }
    ensures context { apply_context_of ctx.new ≡ apply_context_of ctx.old }
{
    if !spend(buffer) {
        return Ok(false);
    }
    match ctx.face.gsub() {
        Some(table) => recurse(table, MAX_NESTING_LEVEL - 1, index, ctx, buffer),
        None => Ok(false),
    }
}
