//! Ligature substitution (OpenType, GSUB lookup type 4; rustybuzz: hb/ot_layout_gsub_table.rs, `LigatureSubstitution`).
ghost use Rattle.std.specs.Prelude.{◌≡◌, ◌<◌, length, map};
ghost use Rattle.buffer_core.specs.Sides.{HasCurrent};
ghost use Rattle.buffer_glyphs.specs.Items.{strip};
ghost use Rattle.layout_match.specs.Applied.{apply_context_of, own_search};
ghost use Rattle.layout_match.specs.Matches.{input_end};
ghost use Rattle.layout_match.specs.Sequences.{is_glyph};
ghost use Rattle.buffer_stages.specs.Actions.{first_rule};
ghost use Rattle.buffer_stages.specs.Performing.{Performs, cut_with};
ghost use Rattle.buffer_stages.specs.Ready.{HasCurrentGlyph};
ghost use Rattle.layout_gsub.specs.Ligating.{ligature_found, ligature_over, ligature_subst, may_follow};

use crate::apply::{Apply, Skippable};
use crate::ligate::ligate_input;
use crate::replacement::replace_glyph;
use buffer_core::buffer::hb_buffer_t;
use buffer_glyphs::cause::ShapeCause;
use layout_match::marking::mark_attempt;
use layout_match::{
    MAX_CONTEXT_LENGTH, MatchPositions, MatchSequence, NextGlyph, hb_ot_apply_context_t, input_end,
    match_input, next_input,
};
use layout_tables::ligature::{Ligature, LigatureSubst};

/// Replaces the components by a ligature, where the search finds them from the cursor on.
fn apply_ligature(
    ligature: &Ligature,
    ctx: &hb_ot_apply_context_t,
    buffer: &mut hb_buffer_t,
) -> Result<bool, ShapeCause>
    requires current { HasCurrent buffer.old }
    requires few { length ligature.now.components < 64 }
    ensures { Performs (ligature_found (apply_context_of ctx.now) ligature.now (input_end (own_search (apply_context_of ctx.now)
        (strip buffer.old.ahead)) (map is_glyph ligature.now.components) (strip buffer.old.ahead))
        (cut_with ctx.now.random_state buffer.old)) result ctx.now.random_state ctx.now.random_state buffer.old
        buffer.new }
{
    let components = MatchSequence::Glyphs(ligature.components());
    // Most ligatures fail. So their components are matched without recording, and only those that match are matched
    // again with their indices, a list of 512 bytes that would be cleared for each try.
    match input_end(ctx, &components, buffer) {
        Ok(end) => {
            let mut places = MatchPositions::new();
            // It matches as before, and ends at `end` again.
            let _ = match_input(ctx, &components, buffer, &mut places);
            let others = &places.as_slice()[1..];
            ligate_input(others, end, ligature.glyph(), ctx.face, buffer)?;
            Ok(true)
        }
        Err(end) => {
            mark_attempt(0, end, buffer);
            Ok(false)
        }
    }
}

/// A ligature whose first component is the glyph at the cursor. One of more components than `MAX_CONTEXT_LENGTH` never
/// matches.
impl Apply for Ligature {
    ghost action = { λ l a. ligature_over a l };

    fn apply(
        &self,
        ctx: &mut hb_ot_apply_context_t,
        buffer: &mut hb_buffer_t,
    ) -> Result<bool, ShapeCause> {
        if self.components().is_empty() {
            return replace_glyph(ctx, self.glyph(), buffer);
        }
        if self.components().len() >= MAX_CONTEXT_LENGTH {
            return Ok(false);
        }
        apply_ligature(self, ctx, buffer)
    }
}

/// Whether a ligature that begins with the glyph at the cursor may match by the one after it: its second component.
#[tactic(auto, using(crate::proofs::Following::no_second, crate::proofs::Following::second_component))]
fn may_follow(ligature: &Ligature, next: &NextGlyph) -> bool
    ensures { result ≡ may_follow next.now ligature.now.components }
{
    let components = ligature.components();
    if components.is_empty() {
        return true;
    }
    next.may_begin(components)
}

/// Applies the first of some ligatures that begin with the glyph at the cursor. One whose second component can't be the
/// next glyph is passed over (HarfBuzz: the fast path of `LigatureSet::apply`), unless failed matches are flagged.
#[tactic(auto, using(buffer_stages::proofs::Lemmas::Performed::passed_first, buffer_stages::proofs::Lemmas::Performed::passed_open, buffer_stages::proofs::Lemmas::Performed::passed_numbers, buffer_stages::proofs::Lemmas::Performed::passed_all))]
fn apply_ligatures(
    ligatures: &[Ligature],
    ctx: &mut hb_ot_apply_context_t,
    buffer: &mut hb_buffer_t,
) -> Result<bool, ShapeCause>
    requires current_glyph { HasCurrentGlyph buffer.old }
    ensures performs { Performs (first_rule (ligature_over (apply_context_of ctx.old)) ligatures.now
        (cut_with ctx.old.random_state buffer.old)) result ctx.old.random_state ctx.new.random_state buffer.old
        buffer.new }
    ensures context { apply_context_of ctx.new ≡ apply_context_of ctx.old }
{
    let next = next_input(ctx, buffer);
    for ligature in ligatures {
        if !may_follow(ligature, &next) {
            continue;
        }
        match ligature.apply(ctx, buffer) {
            Ok(false) => {}
            Ok(true) => return Ok(true),
            Err(cause) => return Err(cause),
        }
    }
    Ok(false)
}

/// Ligature substitution (OpenType, GSUB lookup type 4): the first of the subtable's ligatures whose components are
/// found from the glyph at the cursor on replaces them. Each one before it that begins with the glyph and fails flags
/// what the search read as unsafe to concat, where that is requested.
impl Apply for LigatureSubst {
    ghost action = { λ s a. ligature_subst a s };

    #[tactic(auto, using(buffer_stages::proofs::Lemmas::Glyphs::number_ahead))]
    fn apply(
        &self,
        ctx: &mut hb_ot_apply_context_t,
        buffer: &mut hb_buffer_t,
    ) -> Result<bool, ShapeCause> {
        match self.set_of(buffer.cur(0).as_glyph().0) {
            Some(set) => apply_ligatures(set.ligatures(), ctx, buffer),
            None => Ok(false),
        }
    }
}

impl Skippable for LigatureSubst {
    ghost use Rattle.layout_gsub.specs.Lemmas.Uncovered.{ligature_uncovered};

    ghost uncovered = { λ s a. ligature_uncovered a s };
}
