//! Whether a subtable or a lookup would apply to glyphs that are all its input, which a shaper tests before it forms a
//! syllable (rustybuzz: `WouldApply`).
//!
//! Each type of subtable has its impl, by its own definition; most have the same form.
pub mod lookup;

ghost use Rattle.std.specs.Prelude.{◌≡◌, ℕ, Bool, List, nat_eq};
ghost use Rattle.std.specs.List.{list_any};
ghost use Rattle.std.specs.Cmp.Lexicographic.{pointwise};
ghost use Rattle.layout_face.specs.WouldApply.{ligature_would, sequence_would, single_would};

use layout_tables::ligature::{Ligature, LigatureSubst};
use layout_tables::reverse::ReverseChainSubst;
use layout_tables::sequence::{AlternateSubst, MultipleSubst};
use layout_tables::single_subst::SingleSubst;

/// Glyphs with no context around them (HarfBuzz: `hb_would_apply_context_t`).
#[derive(Clone, Copy)]
pub struct WouldApplyContext<'a> {
    pub glyphs: &'a [u16],
    /// Whether rules that require glyphs before or after their input don't count.
    pub zero_context: bool,
}

/// A subtable that can be tested for whether it would apply.
pub trait WouldApply {
    ghost would: { Self → List ℕ → Bool → Bool };

    /// Whether it would apply where the glyphs are all its input.
    fn would_apply(&self, ctx: &WouldApplyContext) -> bool
        ensures { result ≡ would self.now ctx.now.glyphs.now ctx.now.zero_context };
}

impl WouldApply for SingleSubst {
    ghost would = { λ s glyphs zero. single_would s.rows glyphs };

    fn would_apply(&self, ctx: &WouldApplyContext) -> bool {
        match ctx.glyphs {
            [glyph] => self.substitute(*glyph).is_some(),
            _ => false,
        }
    }
}

impl WouldApply for ReverseChainSubst {
    ghost would = { λ s glyphs zero. single_would s.rows glyphs };

    fn would_apply(&self, ctx: &WouldApplyContext) -> bool {
        match ctx.glyphs {
            [glyph] => self.substitute(*glyph).is_some(),
            _ => false,
        }
    }
}

impl WouldApply for MultipleSubst {
    ghost would = { λ s glyphs zero. sequence_would s.rows glyphs };

    fn would_apply(&self, ctx: &WouldApplyContext) -> bool {
        match ctx.glyphs {
            [glyph] => self.sequence(*glyph).is_some(),
            _ => false,
        }
    }
}

impl WouldApply for AlternateSubst {
    ghost would = { λ s glyphs zero. sequence_would s.rows glyphs };

    fn would_apply(&self, ctx: &WouldApplyContext) -> bool {
        match ctx.glyphs {
            [glyph] => self.alternates(*glyph).is_some(),
            _ => false,
        }
    }
}

/// Whether the glyphs are a ligature's components after the first.
fn takes(ligature: &Ligature, rest: &[u16]) -> bool
    ensures { result ≡ pointwise nat_eq ligature.now.components rest.now }
{
    ligature.components() == rest
}

fn any_takes(ligatures: &[Ligature], rest: &[u16]) -> bool
    ensures { result ≡ list_any (λ l. pointwise nat_eq l.components rest.now) ligatures.now }
{
    ligatures.iter().any(|ligature| takes(ligature, rest))
}

impl WouldApply for LigatureSubst {
    ghost would = { λ s glyphs zero. ligature_would s glyphs };

    fn would_apply(&self, ctx: &WouldApplyContext) -> bool {
        let [first, rest @ ..] = ctx.glyphs else {
            return false;
        };
        let Some(set) = self.set_of(*first) else {
            return false;
        };
        any_takes(set.ligatures(), rest)
    }
}
