//! Single substitution (OpenType, GSUB lookup type 1; rustybuzz: hb/ot_layout_gsub_table.rs, `SingleSubstitution`).
//!
//! Each type of subtable has its impl of `Apply`, by its own definition; most have the same form.
ghost use Rattle.layout_gsub.specs.Replacements.{single_subtable};

use crate::apply::{Apply, Skippable};
use crate::replacement::replace_glyph;
use buffer_core::buffer::hb_buffer_t;
use buffer_glyphs::cause::ShapeCause;
use layout_match::hb_ot_apply_context_t;
use layout_tables::single_subst::SingleSubst;

/// Single substitution (OpenType, GSUB lookup type 1): where the subtable covers the glyph at the cursor, its
/// substitute replaces it.
impl Apply for SingleSubst {
    ghost action = { λ s a. single_subtable a.font.gdef s.rows };

    #[tactic(auto, using(buffer_stages::proofs::Lemmas::Glyphs::number_ahead))]
    fn apply(
        &self,
        ctx: &mut hb_ot_apply_context_t,
        buffer: &mut hb_buffer_t,
    ) -> Result<bool, ShapeCause> {
        match self.substitute(buffer.cur(0).as_glyph().0) {
            Some(glyph) => replace_glyph(ctx, glyph, buffer),
            None => Ok(false),
        }
    }
}

impl Skippable for SingleSubst {
    ghost use Rattle.layout_gsub.specs.Lemmas.Uncovered.{single_uncovered};

    ghost uncovered = { λ s a. single_uncovered a.font.gdef s.rows };
}
