//! Glyphs that the rules search for in a syllable.
ghost use Rattle.std.specs.Prelude.{◌≡◌, ◌≤◌, ◌<◌, drop, length, IfSome};
ghost use Rattle.std.specs.List.{position_or_len};
ghost use Rattle.buffer_glyphs.specs.Items.{item_of, strip};
ghost use Rattle.script_indic_reordering.specs.Indices.{begins_with, first_at, last_at};
ghost use Rattle.script_indic_reordering.specs.Sought.{picks};

use crate::glyphs::{
    is_free_halant, is_joiner, is_left, is_left_matra, is_nukta_or_halant, stands_at,
};
use buffer_glyphs::info::{hb_glyph_info_t, hb_mask_t};
use buffer_glyphs::ligature_words::_hb_glyph_info_ligated;
use buffer_stages::mask::shares_mask;
use script_categories::ot_position_t::{
    POS_AFTER_MAIN, POS_AFTER_POST, POS_BASE_C, POS_POST_C, POS_RA_TO_BECOME_REPH, POS_SMVD,
};

/// The glyph that a search stops at.
#[derive(Clone, Copy)]
pub(crate) enum Sought {
    NoJoiner,
    LeftMatra,
    Left,
    NotLeft,
    Base,
    NotReph,
    FromBase,
    PastMain,
    FromPost,
    NoSign,
    NoNuktaOrHalant,
    FreeHalant,
    /// A free halant that is attached to no left matra.
    Stop,
    /// What a ligature made with the features of a mask.
    Formed(hb_mask_t),
}

impl Sought {
    fn picks(self, glyph: &hb_glyph_info_t) -> bool
        ensures { result ≡ picks self (item_of glyph.now) }
    {
        match self {
            Sought::NoJoiner => !is_joiner(glyph),
            Sought::LeftMatra => is_left_matra(glyph),
            Sought::Left => is_left(glyph),
            Sought::NotLeft => !is_left(glyph),
            Sought::Base => stands_at(POS_BASE_C, glyph),
            Sought::NotReph => !stands_at(POS_RA_TO_BECOME_REPH, glyph),
            Sought::FromBase => POS_BASE_C <= glyph.auxiliary,
            Sought::PastMain => POS_AFTER_MAIN < glyph.auxiliary,
            Sought::FromPost => stands_from_post(glyph),
            Sought::NoSign => !stands_at(POS_SMVD, glyph),
            Sought::NoNuktaOrHalant => !is_nukta_or_halant(glyph),
            Sought::FreeHalant => is_free_halant(glyph),
            Sought::Stop => is_free_halant(glyph) && !is_left(glyph),
            Sought::Formed(mask) => shares_mask(mask, glyph) && _hb_glyph_info_ligated(glyph),
        }
    }

    /// The index of the first one; that of the end where there is none.
    #[tactic(auto, using(crate::proofs::Lemmas::Positions::position_next, crate::proofs::Lemmas::Positions::position_here, crate::proofs::Lemmas::Positions::position_past))]
    pub(crate) fn index(self, glyphs: &[hb_glyph_info_t]) -> usize
        ensures index { result ≡ position_or_len (λ x. picks self x) (strip glyphs.now) }
        ensures within { result ≤ length glyphs.now }
    {
        for i in 0..glyphs.len() {
            if self.picks(&glyphs[i]) {
                return i;
            }
        }
        glyphs.len()
    }

    /// The first index from one on.
    pub(crate) fn first_from(self, glyphs: &[hb_glyph_info_t], from: usize) -> Option<usize>
        ensures value { result ≡ first_at (begins_with (λ x. picks self x)) from (drop from (strip glyphs.now)) }
        ensures after { IfSome result (λ i. from ≤ i) }
        ensures within { IfSome result (λ i. i < length glyphs.now) }
    {
        for i in from..glyphs.len() {
            if self.picks(&glyphs[i]) {
                return Some(i);
            }
        }
        None
    }

    /// The last index from one on.
    pub(crate) fn last_from(self, glyphs: &[hb_glyph_info_t], from: usize) -> Option<usize>
        ensures value { result ≡ last_at (begins_with (λ x. picks self x)) from (drop from (strip glyphs.now)) }
        ensures after { IfSome result (λ i. from ≤ i) }
        ensures within { IfSome result (λ i. i < length glyphs.now) }
    {
        let mut i = glyphs.len();
        while i > from {
            i -= 1;
            if self.picks(&glyphs[i]) {
                return Some(i);
            }
        }
        None
    }
}

fn stands_from_post(glyph: &hb_glyph_info_t) -> bool
    ensures { result ≡ picks Sought.FromPost (item_of glyph.now) }
{
    stands_at(POS_POST_C, glyph) || stands_at(POS_AFTER_POST, glyph) || stands_at(POS_SMVD, glyph)
}
