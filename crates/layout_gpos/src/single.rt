//! Single adjustment (OpenType, GPOS lookup type 1; rustybuzz: hb/ot_layout_gpos_table.rs, `SingleAdjustment`).
ghost use Rattle.std.specs.Prelude.{ℕ, ◌≡◌, ◌<◌, false, length};
ghost use Rattle.buffer_core.specs.Sides.{all_glyphs};
ghost use Rattle.layout_gpos.specs.Singles.{single_subtable};

use crate::apply::Apply;
use crate::bases::LastSearches;
use crate::placing::{adjust_glyph, pass};
use buffer_core::buffer::hb_buffer_t;
use layout_match::hb_ot_apply_context_t;
use layout_tables::single_pos::SinglePos;

/// Single adjustment (OpenType, GPOS lookup type 1): where the subtable covers the glyph at the cursor, its position is
/// adjusted.
pub struct SingleAdjustment;

impl Apply for SingleAdjustment {
    ghost use Rattle.layout_gpos.specs.Lemmas.Uncovered.{single_uncovered};

    type Subtable = SinglePos;

    ghost action = { λ s d a. single_subtable d s.rows };

    #[tactic(auto, using(buffer_stages::proofs::Lemmas::Glyphs::number_ahead, crate::proofs::Lemmas::Placed::single_acted, crate::proofs::Lemmas::Placed::single_passed))]
    fn apply(
        subtable: &SinglePos,
        _ctx: &hb_ot_apply_context_t,
        _last: &mut LastSearches,
        buffer: &mut hb_buffer_t,
    ) -> bool {
        let Some(value) = subtable.value(buffer.cur(0).as_glyph().0) else {
            return false;
        };
        let at = buffer.out_len();
        adjust_glyph(buffer, at, value);
        pass(buffer, 1);
        true
    }

    ghost uncovered = { λ s d a. single_uncovered d s.rows };
}
