//! Mark to ligature attachment (OpenType, GPOS lookup type 5; rustybuzz: hb/ot_layout_gpos_table.rs,
//! `MarkToLigatureAdjustment`).
//!
//! The three attachments of marks begin alike; they differ in the glyph that they seek, and in their definitions.
ghost use Rattle.std.specs.Prelude.{ℕ, ◌≡◌, ◌<◌, ◌≤◌, IfErr, IfOk, Ok, false, length};
ghost use Rattle.buffer_glyphs.specs.Items.{item_of};
ghost use Rattle.layout_tables.specs.Marks.{component_count};
ghost use Rattle.layout_match.specs.Applied.{apply_context_of};
ghost use Rattle.buffer_stages.specs.Performing.{IsPerformed, cut_with};
ghost use Rattle.buffer_stages.specs.Ready.{IsAtGlyphPosition};
ghost use Rattle.layout_gpos.specs.Bases.{IsKept, any_sought};
ghost use Rattle.layout_gpos.specs.declared.bases.Sought.TheVariants.{Ligature};
ghost use Rattle.layout_gpos.specs.Marks.{component_in, component_of, mark_to_ligature, on_ligature, with_found};

use crate::apply::Apply;
use crate::bases::{LastSearches, Sought, found_before};
use crate::mark::attach_if;
use crate::search::glyph_before;
use buffer_core::buffer::hb_buffer_t;
use buffer_glyphs::info::hb_glyph_info_t;
use buffer_glyphs::ligature_words::{_hb_glyph_info_get_lig_comp, _hb_glyph_info_get_lig_id};
use layout_match::hb_ot_apply_context_t;
use layout_match::marking::mark_attempt;
use layout_tables::mark::{MarkLigPos, MarkRecord};

/// The index of the mark's component among the `count` of the ligature, where it belongs to that ligature; else of the last
/// one.
fn component_of(count: usize, ligature: &hb_glyph_info_t, mark: &hb_glyph_info_t) -> usize
    requires { 0 < count }
    ensures { result ≡ component_of count (item_of ligature.now) (item_of mark.now) }
{
    let lig_id = _hb_glyph_info_get_lig_id(ligature);
    let component = _hb_glyph_info_get_lig_comp(mark);
    if lig_id == _hb_glyph_info_get_lig_id(mark) && lig_id != 0 && component > 0 {
        return (component as usize).min(count) - 1;
    }
    count - 1
}

/// The component of a ligature that a mark is attached to; none where the subtable has no such ligature or no component
/// of it.
fn component_in(
    subtable: &MarkLigPos,
    glyph: u16,
    ligature: &hb_glyph_info_t,
    mark: &hb_glyph_info_t,
) -> Option<usize>
    ensures { result ≡ component_in (component_count glyph subtable.now.ligatures) (item_of ligature.now)
        (item_of mark.now) }
{
    match subtable.component_count(glyph) {
        Some(0) | None => None,
        Some(count) => Some(component_of(count, ligature, mark)),
    }
}

/// Attaches the mark at the cursor to a ligature before it.
#[tactic(auto, using(crate::proofs::Lemmas::Nearest::number_back, crate::proofs::MarkLig::on_its_component, crate::proofs::MarkLig::on_no_component, crate::proofs::Lemmas::Performed::attempt_performed))]
fn attach_to_ligature(
    subtable: &MarkLigPos,
    mark: MarkRecord,
    info: &hb_glyph_info_t,
    back: usize,
    buffer: &mut hb_buffer_t,
) -> bool
    requires at_glyph_position { IsAtGlyphPosition buffer.old }
    requires before { back < length buffer.old.behind }
    ensures { (random : ℕ) → IsPerformed (with_found (on_ligature subtable.now.ligatures mark (item_of info.now)) (Ok
        back) (cut_with random buffer.old)) result random random buffer.old buffer.new }
{
    // The number of glyphs before the cursor bounds `back + 1`.
    let _end = buffer.out_len();
    let ligature = glyph_before(buffer, back);
    let glyph = ligature.as_glyph().0;
    let Some(component) = component_in(subtable, glyph, ligature, info) else {
        mark_attempt(back + 1, 1, buffer);
        return false;
    };
    let anchor = subtable.component_anchor(glyph, component, mark.class);
    attach_if(anchor, mark.anchor, back, buffer)
}

/// Mark to ligature attachment (OpenType, GPOS lookup type 5): where the subtable covers the mark at the cursor, it is
/// attached to the nearest glyph before it that is not of GDEF class MARK: to the component of that ligature that it
/// belongs to, or to the last, anchor on anchor.
pub struct MarkToLigature;

impl Apply for MarkToLigature {
    ghost use Rattle.layout_gpos.specs.Lemmas.Uncovered.{ligature_uncovered};

    type Subtable = MarkLigPos;

    ghost action = { λ s d a. mark_to_ligature a s };

    #[tactic(auto, using(buffer_stages::proofs::Lemmas::Glyphs::number_ahead, crate::proofs::MarkLig::no_ligature_mark))]
    fn apply(
        subtable: &MarkLigPos,
        ctx: &hb_ot_apply_context_t,
        last: &mut LastSearches,
        buffer: &mut hb_buffer_t,
    ) -> bool {
        let info = *buffer.cur(0);
        let Some(mark) = subtable.mark(info.as_glyph().0) else {
            return false;
        };
        match found_before(Sought::Ligature, ctx, &mut last.ligature, buffer) {
            Ok(back) => attach_to_ligature(subtable, mark, &info, back, buffer),
            Err(end) => {
                mark_attempt(end, 1, buffer);
                false
            }
        }
    }

    ghost uncovered = { λ s d a. ligature_uncovered a s };
}
