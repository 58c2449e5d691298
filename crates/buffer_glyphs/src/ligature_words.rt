//! The class of a glyph, the substitutions that made it, and its ligature word (rustybuzz: hb/ot_layout.rs).
ghost use Rattle.std.specs.Prelude.{◌≡◌, ◌<◌, ◌≤◌, ◌&&◌, not};
ghost use Rattle.buffer_glyphs.specs.Items.{item_of};
ghost use Rattle.buffer_glyphs.specs.LigatureWords.{component_bound, component_word, component_count, is_base_glyph, is_lig_base, is_ligated, is_ligature, is_mark, is_multiplied, is_substituted, lig_comp, lig_id, lig_num_comps, ligature_word};

use crate::flags::GlyphPropsFlags;
use crate::info::hb_glyph_info_t;

/// The greatest component number, and the most components that are counted.
pub const MAX_COMPONENTS: u32 = 0x0FFF_FFFF;

const LIG_BASE: u32 = 0x1000_0000;

const LIG_ID: u32 = 0x2000_0000;

/// Whether the glyph has the GDEF class of a base.
pub fn _hb_glyph_info_is_base_glyph(info: &hb_glyph_info_t) -> bool
    ensures { result ≡ is_base_glyph (item_of info.now) }
{
    info.glyph_props.0 & GlyphPropsFlags::BASE_GLYPH.0 != 0
}

/// Whether the glyph has the GDEF class of a ligature.
pub fn _hb_glyph_info_is_ligature(info: &hb_glyph_info_t) -> bool
    ensures { result ≡ is_ligature (item_of info.now) }
{
    info.glyph_props.0 & GlyphPropsFlags::LIGATURE.0 != 0
}

/// Whether the glyph has the GDEF class MARK.
pub fn _hb_glyph_info_is_mark(info: &hb_glyph_info_t) -> bool
    ensures { result ≡ is_mark (item_of info.now) }
{
    info.glyph_props.0 & GlyphPropsFlags::MARK.0 != 0
}

/// Whether a substitution made the glyph.
pub fn _hb_glyph_info_substituted(info: &hb_glyph_info_t) -> bool
    ensures { result ≡ is_substituted (item_of info.now) }
{
    info.glyph_props.0 & GlyphPropsFlags::SUBSTITUTED.0 != 0
}

/// Whether a ligature substitution made the glyph.
pub fn _hb_glyph_info_ligated(info: &hb_glyph_info_t) -> bool
    ensures { result ≡ is_ligated (item_of info.now) }
{
    info.glyph_props.0 & GlyphPropsFlags::LIGATED.0 != 0
}

/// Whether the glyph is one of several that a multiple substitution made.
pub fn _hb_glyph_info_multiplied(info: &hb_glyph_info_t) -> bool
    ensures { result ≡ is_multiplied (item_of info.now) }
{
    info.glyph_props.0 & GlyphPropsFlags::MULTIPLIED.0 != 0
}

/// The number of the ligature that the glyph is or belongs to, 0 where there is none, else up to 7.
pub fn _hb_glyph_info_get_lig_id(info: &hb_glyph_info_t) -> u8
    ensures { result ≡ lig_id (item_of info.now) }
{
    (info.lig_props / LIG_ID) as u8
}

/// Whether the ligature word says that the glyph is the ligature itself.
pub fn _hb_glyph_info_ligated_internal(info: &hb_glyph_info_t) -> bool
    ensures { result ≡ is_lig_base (item_of info.now) }
{
    info.lig_props / LIG_BASE % 2 == 1
}

/// The component that the glyph belongs to, counted from 1; 0 on a ligature, and where there is none.
pub fn _hb_glyph_info_get_lig_comp(info: &hb_glyph_info_t) -> u32
    ensures component { result ≡ lig_comp (item_of info.now) }
    ensures bound { result ≤ component_bound }
{
    if _hb_glyph_info_ligated_internal(info) {
        return 0;
    }
    info.lig_props % LIG_BASE
}

/// How many components the glyph has: 1, except for a ligature.
pub fn _hb_glyph_info_get_lig_num_comps(info: &hb_glyph_info_t) -> u32
    ensures count { result ≡ lig_num_comps (item_of info.now) }
    ensures bound { result ≤ component_bound }
{
    if _hb_glyph_info_is_ligature(info) && _hb_glyph_info_ligated_internal(info) {
        return info.lig_props % LIG_BASE;
    }
    1
}

/// Makes the glyph a ligature of `lig_num_comps` components; at most `MAX_COMPONENTS` are counted.
pub fn _hb_glyph_info_set_lig_props_for_ligature(
    info: &mut hb_glyph_info_t,
    lig_id: u8,
    lig_num_comps: u64,
)
    requires { lig_id < 8 }
    ensures { info.new ≡ record info.old { lig_props = ligature_word lig_id lig_num_comps } }
{
    info.lig_props = u32::from(lig_id) * LIG_ID + (LIG_BASE + counted(lig_num_comps));
}

/// Makes the glyph belong to a component of a ligature; a component past `MAX_COMPONENTS` becomes that number.
pub fn _hb_glyph_info_set_lig_props_for_mark(info: &mut hb_glyph_info_t, lig_id: u8, lig_comp: u64)
    requires { lig_id < 8 }
    ensures { info.new ≡ record info.old { lig_props = component_word lig_id lig_comp } }
{
    info.lig_props = u32::from(lig_id) * LIG_ID + counted(lig_comp);
}

/// Makes the glyph one of several that a multiple substitution made, of no ligature.
pub fn _hb_glyph_info_set_lig_props_for_component(info: &mut hb_glyph_info_t, lig_comp: u64)
    ensures { info.new ≡ record info.old { lig_props = component_word 0 lig_comp } }
{
    _hb_glyph_info_set_lig_props_for_mark(info, 0, lig_comp);
}

fn counted(n: u64) -> u32
    ensures { result ≡ component_count n }
{
    n.min(u64::from(MAX_COMPONENTS)) as u32
}
