//! Mark to mark attachment (OpenType, GPOS lookup type 6; rustybuzz: hb/ot_layout_gpos_table.rs,
//! `MarkToMarkAdjustment`).
//!
//! The three attachments of marks begin alike; they differ in the glyph that they seek, and in their definitions.
ghost use Rattle.std.specs.Prelude.{ℕ, ◌≡◌, ◌<◌, ◌≤◌, ◌&&◌, IfErr, IfOk, false, true, length};
ghost use Rattle.buffer_core.specs.Sides.{all_glyphs, items_of};
ghost use Rattle.buffer_glyphs.specs.Items.{item_of};
ghost use Rattle.layout_match.specs.Applied.{apply_context_of};
ghost use Rattle.buffer_glyphs.specs.LigatureWords.{is_mark};
ghost use Rattle.buffer_stages.specs.Buffers.{are_glyphs};
ghost use Rattle.buffer_stages.specs.Performing.{IsPerformed, cut_with};
ghost use Rattle.layout_gpos.specs.Marks.{belong_together, is_own_ligature, mark_to_mark, on_mark, with_found};

use crate::apply::Apply;
use crate::bases::LastSearches;
use crate::mark::attach_to_base;
use crate::search::{among_marks, glyph_before, item_before};
use buffer_core::buffer::hb_buffer_t;
use buffer_glyphs::info::hb_glyph_info_t;
use buffer_glyphs::ligature_words::{
    _hb_glyph_info_get_lig_comp, _hb_glyph_info_get_lig_id, _hb_glyph_info_is_mark,
};
use layout_match::hb_ot_apply_context_t;
use layout_match::marking::mark_attempt;
use layout_tables::mark::MarkBasePos;

/// Mark to mark attachment (OpenType, GPOS lookup type 6): where the subtable covers the mark at the cursor, it is
/// attached to the mark before it, with no class skipped, where both belong to one base or to one component of a
/// ligature, or one is itself a ligature.
pub struct MarkToMark;

impl Apply for MarkToMark {
    ghost use Rattle.layout_gpos.specs.Lemmas.Uncovered.{mark_uncovered};

    type Subtable = MarkBasePos;

    ghost action = { λ s d a. mark_to_mark a s };

    #[tactic(auto, using(buffer_stages::proofs::Lemmas::Glyphs::number_ahead, crate::proofs::MarkMark::no_mark_mark))]
    fn apply(
        subtable: &MarkBasePos,
        ctx: &hb_ot_apply_context_t,
        _last: &mut LastSearches,
        buffer: &mut hb_buffer_t,
    ) -> bool {
        let info = *buffer.cur(0);
        let Some(mark) = subtable.mark(info.as_glyph().0) else {
            return false;
        };
        let back = match item_before(&among_marks(ctx), buffer) {
            Ok(back) => back,
            Err(end) => {
                mark_attempt(end, 1, buffer);
                return false;
            }
        };
        // The number of glyphs bounds the index.
        let _end = buffer.out_len();
        if !may_bear(&info, glyph_before(buffer, back)) {
            mark_attempt(back + 1, 1, buffer);
            return false;
        }
        attach_to_base(subtable, mark, back, buffer)
    }

    ghost uncovered = { λ s d a. mark_uncovered a s };
}

fn is_own_ligature(info: &hb_glyph_info_t) -> bool
    ensures { result ≡ is_own_ligature (item_of info.now) }
{
    _hb_glyph_info_get_lig_id(info) != 0 && _hb_glyph_info_get_lig_comp(info) == 0
}

fn belong_together(mark: &hb_glyph_info_t, other: &hb_glyph_info_t) -> bool
    ensures { result ≡ belong_together (item_of mark.now) (item_of other.now) }
{
    let lig_id = _hb_glyph_info_get_lig_id(mark);
    if lig_id == _hb_glyph_info_get_lig_id(other) {
        return lig_id == 0
            || _hb_glyph_info_get_lig_comp(mark) == _hb_glyph_info_get_lig_comp(other);
    }
    is_own_ligature(mark) || is_own_ligature(other)
}

/// Whether the other glyph is of GDEF class MARK, and the mark may be attached to it.
fn may_bear(mark: &hb_glyph_info_t, other: &hb_glyph_info_t) -> bool
    ensures { result ≡ (is_mark (item_of other.now) && belong_together (item_of mark.now) (item_of other.now)) }
{
    _hb_glyph_info_is_mark(other) && belong_together(mark, other)
}
