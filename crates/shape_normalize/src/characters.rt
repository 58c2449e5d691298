//! The characters of a buffer, with what normalizing reads and sets of them (rustybuzz: hb/ot_shape_normalize.rs).
ghost use Rattle.std.specs.Prelude.{◌≡◌, ◌<◌, if◌then◌else◌, unwrap_or, Some};
ghost use Rattle.buffer_properties.specs.Characters.{is_space, is_selector, mark_class, unjoined_selector, with_glyph, standing_for};
ghost use Rattle.buffer_properties.specs.Expanding.{space_glyph, hyphen_glyph, whole_item, with_own_glyph};
ghost use Rattle.buffer_glyphs.specs.Items.{item_of};
ghost use Rattle.buffer_glyphs.specs.Origins.{origin_of};
ghost use Rattle.buffer_properties.specs.Properties.{without_bits};
ghost use Rattle.buffer_unicode.specs.Character.{space_fallback_of};
ghost use Rattle.shape_normalize.specs.Glyphs.{piece_glyph};

use crate::normalizing::Normalizing;
use buffer_glyphs::flags::UnicodeProps;
use buffer_glyphs::info::hb_glyph_info_t;
use buffer_properties::categories::is_mark;
use buffer_properties::character::{character_class, properties_of};
use buffer_unicode::category::{
    RB_UNICODE_GENERAL_CATEGORY_FORMAT, RB_UNICODE_GENERAL_CATEGORY_SPACE_SEPARATOR,
};
use buffer_unicode::character::CharExt;
use buffer_unicode::space::NOT_SPACE;

const CATEGORY: u16 = 0x1F;

/// The property bit of a variation selector that the font doesn't combine with the character before it.
const UNJOINED_SELECTOR: u16 = 0x400;

fn is_space(info: &hb_glyph_info_t) -> bool
    ensures { result ≡ is_space (item_of info.now) }
{
    u32::from(info.unicode_props.0 & CATEGORY) == RB_UNICODE_GENERAL_CATEGORY_SPACE_SEPARATOR
}

/// Whether a character is a variation selector.
pub(crate) fn is_selector(info: &hb_glyph_info_t) -> bool
    ensures { result ≡ is_selector (item_of info.now) }
{
    matches!(info.glyph_id, 0xFE00..=0xFE0F | 0xE0100..=0xE01EF)
}

/// The combining class of a mark, 0 for any other character.
pub fn mark_class(info: &hb_glyph_info_t) -> u8
    ensures { result ≡ mark_class (item_of info.now) }
{
    if is_mark(info) {
        info.modified_combining_class
    } else {
        0
    }
}

#[tactic(auto, using(crate::proofs::Spaces::no_character))]
fn space_fallback(u: u32) -> u8
    ensures { result ≡ space_fallback_of u }
{
    match char::from_u32(u) {
        Some(u) => u.space_fallback(),
        None => NOT_SPACE,
    }
}

/// A glyph record of a half of a character's decomposition, with the font's glyph.
pub(crate) fn piece_of<N: Normalizing>(
    by: &N,
    info: &hb_glyph_info_t,
    u: char,
    glyph: u32,
) -> hb_glyph_info_t
    requires { (N.normalizer by.now).glyph_of u ≡ Some glyph }
    ensures { result ≡ piece_glyph (N.normalizer by.now) info.now u }
{
    hb_glyph_info_t {
        glyph_id: u32::from(u),
        glyph_index: glyph,
        unicode_props: UnicodeProps(properties_of(u)),
        modified_combining_class: character_class(by.tables(), u),
        ..*info
    }
}

/// A glyph record with the font's glyph of its character, or glyph 0.
pub(crate) fn with_own_glyph<N: Normalizing>(by: &N, info: &hb_glyph_info_t) -> hb_glyph_info_t
    ensures item { item_of result ≡ with_own_glyph (N.normalizer by.now) (item_of info.now) }
    ensures origin { origin_of result ≡ origin_of info.now }
{
    let glyph_index = by.glyph(info.glyph_id).unwrap_or(0);
    hb_glyph_info_t {
        glyph_index,
        ..*info
    }
}

fn space_glyph<N: Normalizing>(by: &N, info: &hb_glyph_info_t) -> Option<u32>
    ensures { result ≡ space_glyph (N.normalizer by.now) (item_of info.now) }
{
    if is_space(info) && NOT_SPACE < space_fallback(info.glyph_id) {
        by.glyph(0x20).or(by.invisible())
    } else {
        None
    }
}

fn hyphen_glyph<N: Normalizing>(by: &N, info: &hb_glyph_info_t) -> Option<u32>
    ensures { result ≡ hyphen_glyph (N.normalizer by.now) (item_of info.now) }
{
    if info.glyph_id == 0x2011 {
        by.glyph(0x2010)
    } else {
        None
    }
}

/// A character that isn't decomposed, with `glyph`, the font's glyph for it, or with another's where the font has none.
pub(crate) fn whole_of<N: Normalizing>(
    by: &N,
    info: &hb_glyph_info_t,
    glyph: Option<u32>,
) -> hb_glyph_info_t
    requires { glyph ≡ (N.normalizer by.now).glyph_of info.now.glyph_id }
    ensures item { item_of result ≡ whole_item (N.normalizer by.now) (item_of info.now) }
    ensures origin { origin_of result ≡ origin_of info.now }
{
    if let Some(glyph_index) = glyph {
        return hb_glyph_info_t {
            glyph_index,
            ..*info
        };
    }
    if let Some(glyph_index) = space_glyph(by, info) {
        return hb_glyph_info_t {
            glyph_index,
            modified_combining_class: space_fallback(info.glyph_id),
            ..*info
        };
    }
    let glyph_index = hyphen_glyph(by, info).unwrap_or(by.not_found());
    hb_glyph_info_t {
        glyph_index,
        ..*info
    }
}

/// A selector that the font doesn't combine with the character before it.
pub(crate) fn unjoined(info: &hb_glyph_info_t, has_glyph: bool) -> hb_glyph_info_t
    ensures item { item_of result ≡ unjoined_selector has_glyph (item_of info.now) }
    ensures origin { origin_of result ≡ origin_of info.now }
{
    let word = info.unicode_props.0;
    let kept = word - (word & CATEGORY);
    let props = (kept + RB_UNICODE_GENERAL_CATEGORY_FORMAT as u16) | UNJOINED_SELECTOR;
    hb_glyph_info_t {
        unicode_props: UnicodeProps(without_ignorable_if(has_glyph, props)),
        ..*info
    }
}

fn without_ignorable_if(b: bool, props: u16) -> u16
    ensures { result ≡ (if b then without_bits 0x20 props else props) }
{
    if b {
        props - (props & UnicodeProps::IGNORABLE.0)
    } else {
        props
    }
}

/// A glyph record with another character, and the font's glyph of it.
pub fn becoming<N: Normalizing>(
    by: &N,
    info: &hb_glyph_info_t,
    u: char,
    glyph: u32,
) -> hb_glyph_info_t
    ensures item { item_of result
        ≡ with_glyph glyph (standing_for (N.normalizer by.now).tables u (item_of info.now)) }
    ensures origin { origin_of result ≡ origin_of info.now }
{
    hb_glyph_info_t {
        glyph_id: u32::from(u),
        glyph_index: glyph,
        unicode_props: UnicodeProps(properties_of(u)),
        modified_combining_class: character_class(by.tables(), u),
        ..*info
    }
}
