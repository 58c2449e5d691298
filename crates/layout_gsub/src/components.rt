//! The components of a ligature: the glyph at the cursor, and others ahead of it.
ghost use Rattle.std.specs.Prelude.{◌≡◌, ◌<◌, ◌≤◌, ◌+◌, ◌-◌, ◌*◌, ◌^◌, ◌∷◌, Some, length, slice_get};
ghost use Rattle.std.specs.List.{All};
ghost use Rattle.buffer_glyphs.specs.declared.info.hb_glyph_info_t.{hb_glyph_info_t as Glyph};
ghost use Rattle.buffer_glyphs.specs.Items.{item_of, strip};
ghost use Rattle.buffer_glyphs.specs.LigatureWords.{lig_id, lig_num_comps};
ghost use Rattle.layout_gsub.specs.Ligating.{are_marks, component_count, components_at, has_own_number, items_at};

use buffer_core::buffer::hb_buffer_t;
use buffer_glyphs::ligature_words::{
    _hb_glyph_info_get_lig_id, _hb_glyph_info_get_lig_num_comps, _hb_glyph_info_is_base_glyph,
    _hb_glyph_info_is_mark,
};

/// Whether the glyphs at some indices ahead are all of GDEF class MARK.
#[tactic(auto, using(crate::proofs::Parted::mark_there, crate::proofs::Parted::other_there, crate::proofs::Parted::none_there))]
fn are_marks(places: &[usize], buffer: &hb_buffer_t) -> bool
    requires { All (λ q. q < length buffer.now.ahead) places.now }
    ensures { result ≡ are_marks (items_at places.now (strip buffer.now.ahead)) }
{
    for at in places {
        if !_hb_glyph_info_is_mark(buffer.cur(*at)) {
            return false;
        }
    }
    true
}

/// How many components the glyphs at some indices ahead have.
#[tactic(auto, using(crate::proofs::Parted::counted_there, crate::proofs::Parted::counted_all))]
fn component_count(places: &[usize], buffer: &hb_buffer_t) -> u64
    requires there { All (λ q. q < length buffer.now.ahead) places.now }
    requires few { length places.now < 64 }
    ensures count { result ≡ component_count (items_at places.now (strip buffer.now.ahead)) }
    ensures bound { result ≤ 64 * 2 ^ 28 }
{
    let mut count = 0;
    for at in places {
        count += u64::from(_hb_glyph_info_get_lig_num_comps(buffer.cur(*at)));
    }
    count
}

/// The components of a ligature: their indices and what they determine.
#[derive(Clone, Copy)]
pub(crate) struct LigatureComponents {
    pub(crate) are_marks: bool,
    /// Whether they become a ligature with a number of its own.
    pub(crate) have_own_number: bool,
    pub(crate) component_count: u64,
    pub(crate) first_components: u32,
    /// The ligature that the last of them is or belongs to, 0 for none.
    pub(crate) last_lig_id: u8,
    pub(crate) last_components: u32,
}

impl LigatureComponents {
    /// The components at the cursor and at some indices from there on, the last of which ends before `end`.
    pub(crate) fn new(others: &[usize], end: usize, buffer: &hb_buffer_t) -> LigatureComponents
        requires there { 0 < length buffer.now.ahead }
        requires ahead { All (λ q. q < length buffer.now.ahead) others.now }
        requires few { length others.now < 64 }
        requires last { 0 < end }
        requires within { end ≤ length buffer.now.ahead }
        ensures marks { result.are_marks ≡ are_marks (items_at (0 ∷ others.now) (strip buffer.now.ahead)) }
        ensures own { result.have_own_number
            ≡ has_own_number (items_at (0 ∷ others.now) (strip buffer.now.ahead)) }
        ensures count { result.component_count
            ≡ component_count (items_at (0 ∷ others.now) (strip buffer.now.ahead)) }
        ensures first { result.first_components ≡ components_at 0 (strip buffer.now.ahead) }
        ensures last { (g : Glyph) → slice_get buffer.now.ahead (end - 1) ≡ Some g →
            (result.last_lig_id ≡ lig_id (item_of g)) × (result.last_components ≡ lig_num_comps (item_of g)) }
        ensures bound { result.component_count ≤ 65 * 2 ^ 28 }
        ensures bounds { (result.first_components ≤ 2 ^ 28) × (result.last_components ≤ 2 ^ 28) }
    {
        let first = buffer.cur(0);
        let first_components = _hb_glyph_info_get_lig_num_comps(first);
        let marks = are_marks(others, buffer);
        let last = buffer.cur(end - 1);
        LigatureComponents {
            are_marks: _hb_glyph_info_is_mark(first) && marks,
            have_own_number: !(_hb_glyph_info_is_mark(first) && marks
                || _hb_glyph_info_is_base_glyph(first) && marks),
            component_count: u64::from(first_components) + component_count(others, buffer),
            first_components,
            last_lig_id: _hb_glyph_info_get_lig_id(last),
            last_components: _hb_glyph_info_get_lig_num_comps(last),
        }
    }
}
