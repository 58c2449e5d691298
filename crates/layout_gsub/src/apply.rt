//! The trait of substitution subtables, and the first of several that matches (rustybuzz: hb/ot_layout_gsubgpos.rs,
//! `Apply`).
ghost use Rattle.std.specs.Prelude.{ℕ, ◌≡◌, ◌<◌, ◌≤◌, length};
ghost use Rattle.layout_match.specs.Applied.{ApplyContext, apply_context_of};
ghost use Rattle.layout_gsub.specs.Passing.{ArePassing};
ghost use Rattle.buffer_stages.specs.Actions.{Action, first_rule};
ghost use Rattle.buffer_stages.specs.Performing.{Performs, cut_with};
ghost use Rattle.buffer_stages.specs.Ready.{HasCurrentGlyph, HasGlyphAtCursor};

use buffer_core::buffer::hb_buffer_t;
use buffer_glyphs::cause::ShapeCause;
use layout_common::digested::{Covers, Digested};
use layout_common::subtables::Subtables;
use layout_match::hb_ot_apply_context_t;

/// A subtable of a substitution lookup, applied at the cursor of a buffer.
pub trait Apply {
    ghost action: { Self → ApplyContext → Action };

    /// Applies the subtable at the cursor, and answers whether it acted. Where it didn't, it changed glyph flags only.
    /// It refuses for want of memory, or where a side of the buffer would have more glyphs than it may.
    fn apply(
        &self,
        ctx: &mut hb_ot_apply_context_t,
        buffer: &mut hb_buffer_t,
    ) -> Result<bool, ShapeCause>
        requires current_glyph { HasCurrentGlyph buffer.old }
        ensures performs { Performs (action self.now (apply_context_of ctx.old)
            (cut_with ctx.old.random_state buffer.old)) result ctx.old.random_state ctx.new.random_state buffer.old
            buffer.new }
        ensures context { apply_context_of ctx.new ≡ apply_context_of ctx.old };
}

/// A subtable that can act at some glyphs alone: at another it passes, and flags nothing.
pub trait Skippable: Apply + Covers {
    ghost use Rattle.std.specs.Prelude.{◌≡◌, false};
    ghost use Rattle.buffer_glyphs.specs.Items.{Item};
    ghost use Rattle.layout_match.specs.Applied.{ApplyContext};
    ghost use Rattle.layout_match.specs.Skipping.{PassesAt};

    ghost uncovered: { (s : Self) (a : ApplyContext) (x : Item) → Self.covers s x.number ≡ false → PassesAt (Self.action s a) x };
}

/// A subtable that isn't tried at a glyph which the set of its glyphs misses.
impl<S: Skippable> Apply for Digested<S> {
    ghost action = { S.action };

    #[tactic(auto, using(buffer_stages::proofs::Lemmas::Glyphs::number_ahead))]
    fn apply(
        &self,
        ctx: &mut hb_ot_apply_context_t,
        buffer: &mut hb_buffer_t,
    ) -> Result<bool, ShapeCause> {
        if !self.may_have_glyph(buffer.cur(0).as_glyph().0) {
            return Ok(false);
        }
        self.inner().apply(ctx, buffer)
    }
}

/// The index of a subtable, from one on, that may act at the cursor: those before it pass there. Past the last one where
/// none may.
#[tactic(auto, using(buffer_stages::proofs::Lemmas::Glyphs::number_ahead))]
fn next_at_cursor<S: Skippable>(
    subtables: &Subtables<S>,
    from: usize,
    buffer: &hb_buffer_t,
) -> usize
    requires glyph_at_cursor { HasGlyphAtCursor buffer.now }
    ensures on { from ≤ result }
    ensures passed { (a : ApplyContext) (r : ℕ) → ArePassing (λ s. S.action s a) subtables.now from result
        (cut_with r buffer.now) }
{
    subtables.next_at(buffer.cur(0).as_glyph().0, from)
}

/// How many subtables there are.
fn count<S: Covers>(subtables: &Subtables<S>) -> usize
    ensures { result ≡ length subtables.now }
{
    subtables.as_slice().len()
}

/// Applies the first matching subtable at the cursor.
pub fn apply_first<S: Skippable>(
    subtables: &Subtables<S>,
    ctx: &mut hb_ot_apply_context_t,
    buffer: &mut hb_buffer_t,
) -> Result<bool, ShapeCause>
    requires current_glyph { HasCurrentGlyph buffer.old }
    ensures performs { Performs (first_rule (λ s. S.action s (apply_context_of ctx.old)) subtables.now
        (cut_with ctx.old.random_state buffer.old)) result ctx.old.random_state ctx.new.random_state buffer.old
        buffer.new }
    ensures context { apply_context_of ctx.new ≡ apply_context_of ctx.old }
{
    // The glyphs of a lookup's only subtable are the lookup's own, and were tested.
    match subtables.as_slice() {
        [subtable] => subtable.inner().apply(ctx, buffer),
        _ => apply_each(subtables, ctx, buffer),
    }
}

/// Applies the first matching one of several subtables at the cursor. Those that can't act at the glyph there aren't
/// tried.
#[tactic(auto, using(buffer_stages::proofs::Lemmas::Performed::passed_first, buffer_stages::proofs::Lemmas::Performed::passed_open, buffer_stages::proofs::Lemmas::Performed::passed_numbers, buffer_stages::proofs::Lemmas::Performed::passed_all))]
fn apply_each<S: Skippable>(
    subtables: &Subtables<S>,
    ctx: &mut hb_ot_apply_context_t,
    buffer: &mut hb_buffer_t,
) -> Result<bool, ShapeCause>
    requires current_glyph { HasCurrentGlyph buffer.old }
    ensures performs { Performs (first_rule (λ s. S.action s (apply_context_of ctx.old)) subtables.now
        (cut_with ctx.old.random_state buffer.old)) result ctx.old.random_state ctx.new.random_state buffer.old
        buffer.new }
    ensures context { apply_context_of ctx.new ≡ apply_context_of ctx.old }
{
    let count = count(subtables);
    let mut k = 0;
    while k < count {
        let next = next_at_cursor(subtables, k, buffer);
        let Some(subtable) = subtables.get(next) else {
            return Ok(false);
        };
        match subtable.apply(ctx, buffer) {
            Ok(false) => {}
            Ok(true) => return Ok(true),
            Err(cause) => return Err(cause),
        }
        k = next + 1;
    }
    Ok(false)
}
