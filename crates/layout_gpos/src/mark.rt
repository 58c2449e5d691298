//! Mark to base attachment (OpenType, GPOS lookup type 4; rustybuzz: hb/ot_layout_gpos_table.rs,
//! `MarkToBaseAdjustment`).
//!
//! The three attachments of marks begin alike; they differ in the glyph that they seek, and in their definitions.
ghost use Rattle.std.specs.Prelude.{ℕ, ◌≡◌, ◌<◌, ◌≤◌, IfErr, IfOk, false, true, Ok, length};
ghost use Rattle.std.specs.Option.{option_copied};
ghost use Rattle.buffer_rows.specs.Keys.{row_of};
ghost use Rattle.layout_tables.specs.Marks.{anchor_at};
ghost use Rattle.layout_match.specs.Applied.{apply_context_of};
ghost use Rattle.buffer_stages.specs.Performing.{IsPerformed, cut_with};
ghost use Rattle.buffer_stages.specs.Ready.{IsAtGlyphPosition, IsAtPosition};
ghost use Rattle.layout_gpos.specs.Anchors.{with_mark_attached, with_attachment_flag};
ghost use Rattle.layout_offsets.specs.Links.{is_near};
ghost use Rattle.layout_gpos.specs.Bases.{IsKept, any_sought};
ghost use Rattle.layout_gpos.specs.declared.bases.Sought.TheVariants.{Base};
ghost use Rattle.layout_gpos.specs.Marks.{attach, attach_if, mark_to_base, on_base, with_found};

use crate::anchor::attach_mark;
use crate::apply::Apply;
use crate::bases::{LastSearches, Sought, found_before};
use crate::placing::pass;
use crate::search::glyph_before;
use buffer_common::constants::HB_BUFFER_SCRATCH_FLAG_HAS_GPOS_ATTACHMENT;
use buffer_core::buffer::hb_buffer_t;
use layout_match::hb_ot_apply_context_t;
use layout_match::marking::{mark_attempt, mark_match};
use layout_offsets::links::is_near;
use layout_tables::mark::{BaseRow, MarkBasePos, MarkRecord};
use layout_tables::value::Anchor;

#[tactic(auto, using(crate::proofs::Lemmas::Placed::hung_back))]
fn attach_at(
    buffer: &mut hb_buffer_t,
    at: usize,
    base: usize,
    base_anchor: Anchor,
    mark_anchor: Anchor,
)
    requires closed { buffer.old.is_open ≡ false }
    requires here { at < length buffer.old.positions }
    ensures { buffer.new ≡ record buffer.old {
      positions = with_mark_attached at base base_anchor mark_anchor buffer.old.positions;
    } }
{
    attach_mark(buffer.pos_slice_mut(), at, base, base_anchor, mark_anchor);
}

/// Sets the scratch flag HAS_GPOS_ATTACHMENT, where a mark was attached.
pub fn set_attachment_flag(buffer: &mut hb_buffer_t, near: bool)
    ensures { buffer.new ≡ record buffer.old { scratch_flags = with_attachment_flag near buffer.old.scratch_flags } }
{
    if near {
        let flags = buffer.scratch_flags();
        buffer.set_scratch_flags(flags | HB_BUFFER_SCRATCH_FLAG_HAS_GPOS_ATTACHMENT);
    }
}

/// Attaches the mark at the cursor to a glyph before it, and moves the cursor on.
fn attach(base: Anchor, mark: Anchor, back: usize, buffer: &mut hb_buffer_t)
    requires at_position { IsAtPosition buffer.old }
    requires before { back < length buffer.old.behind }
    ensures { (random : ℕ) → IsPerformed (attach base mark back (cut_with random buffer.old)) true random random
        buffer.old
        buffer.new }
{
    // The number of glyphs bounds `back + 1`.
    let _end = buffer.len();
    let at = buffer.out_len();
    let parent = at - (back + 1);
    mark_match(back + 1, 1, buffer);
    attach_at(buffer, at, parent, base, mark);
    set_attachment_flag(buffer, is_near(at, parent));
    pass(buffer, 1);
}

/// Attaches the mark at the cursor to a glyph before it, where both have anchors.
#[tactic(auto, using(crate::proofs::Attached::not_attached, crate::proofs::Attached::both_attached))]
pub fn attach_if(
    base: Option<Anchor>,
    mark: Option<Anchor>,
    back: usize,
    buffer: &mut hb_buffer_t,
) -> bool
    requires at_position { IsAtPosition buffer.old }
    requires before { back < length buffer.old.behind }
    ensures { (random : ℕ) → IsPerformed (attach_if base mark back (cut_with random buffer.old)) result random random
        buffer.old buffer.new }
{
    let Some(base) = base else {
        return false;
    };
    let Some(mark) = mark else {
        return false;
    };
    attach(base, mark, back, buffer);
    true
}

/// A guess at the index of a base's row: right where each glyph from the first base to this one is a base.
fn likely_index(rows: &[BaseRow], glyph: u16) -> usize {
    match rows.first() {
        Some(first) => usize::from(glyph.saturating_sub(first.glyph)),
        None => 0,
    }
}

/// The row of a base: at once where it stands at the likely index, else found by one search.
#[tactic(auto, using(buffer_rows::proofs::Searched::row_of_number))]
fn base_row(subtable: &MarkBasePos, glyph: u16) -> Option<&BaseRow>
    ensures { option_copied result ≡ row_of (λ r. r.glyph) glyph subtable.now.bases }
{
    let rows = &subtable.bases;
    rows.get_near(glyph, likely_index(rows.as_slice(), glyph))
}

/// The anchor of a base for marks of a class, if it has one.
fn anchor_in(row: &BaseRow, class: u16) -> Option<Anchor>
    ensures { result ≡ anchor_at row.now.anchors class }
{
    match row.anchors.as_slice().get(usize::from(class)) {
        Some(anchor) => *anchor,
        None => None,
    }
}

/// Attaches the mark at the cursor to a base before it.
#[tactic(auto, using(crate::proofs::Lemmas::Nearest::number_back, crate::proofs::Attached::on_its_row, crate::proofs::Attached::on_no_row, crate::proofs::Lemmas::Performed::attempt_performed))]
pub fn attach_to_base(
    subtable: &MarkBasePos,
    mark: MarkRecord,
    back: usize,
    buffer: &mut hb_buffer_t,
) -> bool
    requires at_glyph_position { IsAtGlyphPosition buffer.old }
    requires before { back < length buffer.old.behind }
    ensures { (random : ℕ) → IsPerformed (with_found (on_base subtable.now.bases mark) (Ok back) (cut_with random
        buffer.old)) result random random buffer.old buffer.new }
{
    // The number of glyphs before the cursor bounds `back + 1`.
    let _end = buffer.out_len();
    let glyph = glyph_before(buffer, back).as_glyph().0;
    let Some(row) = base_row(subtable, glyph) else {
        mark_attempt(back + 1, 1, buffer);
        return false;
    };
    attach_if(anchor_in(row, mark.class), mark.anchor, back, buffer)
}

/// Mark to base attachment (OpenType, GPOS lookup type 4): where the subtable covers the mark at the cursor, it is
/// attached to the nearest glyph before it that is neither of GDEF class MARK nor a later component of a multiple
/// substitution, anchor on anchor.
pub struct MarkToBase;

impl Apply for MarkToBase {
    ghost use Rattle.layout_gpos.specs.Lemmas.Uncovered.{base_uncovered};

    type Subtable = MarkBasePos;

    ghost action = { λ s d a. mark_to_base a s };

    #[tactic(auto, using(buffer_stages::proofs::Lemmas::Glyphs::number_ahead, crate::proofs::Attached::no_base_mark))]
    fn apply(
        subtable: &MarkBasePos,
        ctx: &hb_ot_apply_context_t,
        last: &mut LastSearches,
        buffer: &mut hb_buffer_t,
    ) -> bool {
        let Some(mark) = subtable.mark(buffer.cur(0).as_glyph().0) else {
            return false;
        };
        match found_before(Sought::Base, ctx, &mut last.base, buffer) {
            Ok(back) => attach_to_base(subtable, mark, back, buffer),
            Err(end) => {
                mark_attempt(end, 1, buffer);
                false
            }
        }
    }

    ghost uncovered = { λ s d a. base_uncovered a s };
}
