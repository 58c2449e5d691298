//! The trait of GPOS lookup types that call no other lookup, and the first of a lookup's subtables that matches (rustybuzz:
//! hb/ot_layout_gsubgpos.rs, `Apply`).
//!
//! The trait is of the lookup type and not of its subtable, since types 4 and 6 have subtables of one form.
ghost use Rattle.std.specs.Prelude.{ℕ, ◌≡◌, ◌<◌, Ok, false, []};
ghost use Rattle.buffer_core.specs.Sides.{items_of};
ghost use Rattle.layout_match.specs.Applied.{ApplyContext, apply_context_of};
ghost use Rattle.buffer_stages.specs.Actions.{Action, first_rule};
ghost use Rattle.buffer_stages.specs.Performing.{IsPerformed, cut_with};
ghost use Rattle.buffer_stages.specs.Ready.{HasCurrentGlyphInPlace, IsAtGlyphPosition};
ghost use Rattle.buffer_common.specs.declared.direction.Direction.{Direction};
ghost use Rattle.layout_gpos.specs.Bases.{AreKept};

use crate::bases::LastSearches;
use buffer_core::buffer::hb_buffer_t;
use layout_common::digested::{Covers, Digested};
use layout_match::hb_ot_apply_context_t;

/// A type of GPOS lookup: the form of its subtables, and what one does at the cursor of a buffer without an output.
pub trait Apply {
    ghost use Rattle.std.specs.Prelude.{◌≡◌, false};
    ghost use Rattle.buffer_common.specs.declared.direction.Direction.{Direction};
    ghost use Rattle.buffer_glyphs.specs.Items.{Item};
    ghost use Rattle.layout_match.specs.Applied.{ApplyContext};
    ghost use Rattle.layout_match.specs.Skipping.{PassesAt};

    type Subtable: Covers;

    ghost action: { Self.Subtable → Direction → ApplyContext → Action };

    /// Applies a subtable at the cursor, and answers whether it acted. It changes positions and glyph flags only, and
    /// where it acted the cursor moves on; where it didn't, it changed glyph flags only. It takes no memory. Searches
    /// for bases and ligatures continue the last ones of the same lookup on these glyphs.
    fn apply(
        subtable: &Self::Subtable,
        ctx: &hb_ot_apply_context_t,
        last: &mut LastSearches,
        buffer: &mut hb_buffer_t,
    ) -> bool
        requires at_glyph_position { IsAtGlyphPosition buffer.old }
        requires kept { AreKept (apply_context_of ctx.now) (items_of buffer.old) last.old }
        ensures performed { (random : ℕ) → IsPerformed (action subtable.now buffer.old.direction (apply_context_of ctx.now)
            (cut_with random buffer.old)) result random random buffer.old buffer.new }
        ensures kept { AreKept (apply_context_of ctx.now) (items_of buffer.new) last.new };

    ghost uncovered: { (s : Self.Subtable) (d : Direction) (a : ApplyContext) (x : Item)
        → Self.Subtable.covers s x.number ≡ false → PassesAt (action s d a) x };
}

/// Applies a subtable at the cursor, unless the set of its glyphs misses the one there: then it passes.
#[tactic(auto, using(buffer_stages::proofs::Lemmas::Glyphs::number_ahead))]
fn apply_digested<T: Apply>(
    subtable: &Digested<T::Subtable>,
    ctx: &hb_ot_apply_context_t,
    last: &mut LastSearches,
    buffer: &mut hb_buffer_t,
) -> bool
    requires at_glyph_position { IsAtGlyphPosition buffer.old }
    requires kept { AreKept (apply_context_of ctx.now) (items_of buffer.old) last.old }
    ensures performed { (random : ℕ) → IsPerformed (T.action subtable.now buffer.old.direction (apply_context_of ctx.now)
        (cut_with random buffer.old)) result random random buffer.old buffer.new }
    ensures kept { AreKept (apply_context_of ctx.now) (items_of buffer.new) last.new }
{
    if !subtable.may_have_glyph(buffer.cur(0).as_glyph().0) {
        return false;
    }
    T::apply(subtable.inner(), ctx, last, buffer)
}

/// Applies the first matching subtable at the cursor, and answers whether one acted.
#[tactic(auto, using(buffer_stages::proofs::Lemmas::Performed::passed_first, crate::proofs::Lemmas::Passed::passed_closed, buffer_stages::proofs::Lemmas::Performed::passed_numbers, buffer_stages::proofs::Lemmas::Performed::passed_all))]
pub fn apply_first<T: Apply>(
    subtables: &[Digested<T::Subtable>],
    ctx: &hb_ot_apply_context_t,
    last: &mut LastSearches,
    buffer: &mut hb_buffer_t,
) -> bool
    requires current_glyph_in_place { HasCurrentGlyphInPlace buffer.old }
    requires kept { AreKept (apply_context_of ctx.now) (items_of buffer.old) last.old }
    ensures performed { IsPerformed (first_rule (λ s. T.action s buffer.old.direction (apply_context_of ctx.now))
        subtables.now (cut_with ctx.now.random_state buffer.old)) result ctx.now.random_state ctx.now.random_state
        buffer.old buffer.new }
    ensures kept { AreKept (apply_context_of ctx.now) (items_of buffer.new) last.new }
{
    for subtable in subtables {
        // There are as many positions as glyphs while no output is open.
        let _positions = buffer.pos_slice();
        if apply_digested::<T>(subtable, ctx, last, buffer) {
            return true;
        }
    }
    false
}
