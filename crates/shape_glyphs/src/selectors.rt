//! Variation selectors that the font doesn't combine with the character before them (rustybuzz: hb/ot_shape.rs).
ghost use Rattle.std.specs.Prelude.{◌≡◌};
ghost use Rattle.buffer_glyphs.specs.Items.{item_of};
ghost use Rattle.buffer_glyphs.specs.Origins.{origin_of};
ghost use Rattle.buffer_core.specs.Readings.{always};
ghost use Rattle.buffer_stages.specs.Ready.{IsDone, IsReady};
ghost use Rattle.buffer_stages.specs.PositionMaps.{with_positions_mapped};
ghost use Rattle.buffer_stages.specs.Stages.{with_items_mapped};
ghost use Rattle.shape_glyphs.specs.Selectors.{is_recorded_selector, selector_position, shown_selector, with_selectors, with_selectors_shown};

use crate::widths::widthless;
use buffer_core::buffer::hb_buffer_t;
use buffer_glyphs::flags::UnicodeProps;
use buffer_glyphs::info::hb_glyph_info_t;
use buffer_glyphs::position::GlyphPosition;
use buffer_stages::glyphs::map_glyphs;
use buffer_stages::positions::map_positions;
use buffer_unicode::category::RB_UNICODE_GENERAL_CATEGORY_NON_SPACING_MARK;

/// Replaces variation selectors that the font doesn't combine by the glyph that is set for them, as nonspacing marks
/// with zero advances; where none is set, they are unchanged. It takes linear time and no memory.
pub fn deal_with_variation_selectors(buffer: &mut hb_buffer_t)
    requires { IsReady buffer.old }
    ensures { IsDone (always (with_selectors buffer.old.not_found_variation_selector)) buffer.old buffer.new }
{
    match buffer.not_found_variation_selector() {
        Some(glyph) => show_selectors(glyph.0, buffer),
        None => {}
    }
}

#[tactic(auto, using(crate::proofs::Selected::both_done))]
fn show_selectors(glyph: u16, buffer: &mut hb_buffer_t)
    requires { IsReady buffer.old }
    ensures { IsDone (always (with_selectors_shown glyph)) buffer.old buffer.new }
{
    zero_selectors(buffer);
    put_selectors(glyph, buffer);
}

fn zero_selectors(buffer: &mut hb_buffer_t)
    requires { IsReady buffer.old }
    ensures { IsDone (always (with_positions_mapped selector_position)) buffer.old buffer.new }
{
    map_positions(buffer, |glyph, position| selector_position(glyph, position));
}

fn put_selectors(glyph: u16, buffer: &mut hb_buffer_t)
    requires { IsReady buffer.old }
    ensures { IsDone (always (with_items_mapped (shown_selector glyph))) buffer.old buffer.new }
{
    map_glyphs(buffer, |info| shown_selector(glyph, info));
}

fn is_marked_selector(info: &hb_glyph_info_t) -> bool
    ensures { result ≡ is_recorded_selector (item_of info.now) }
{
    info.unicode_props.0 & UnicodeProps::CF_VS.0 != 0
}

fn selector_position(info: &hb_glyph_info_t, position: GlyphPosition) -> GlyphPosition
    ensures { result ≡ selector_position (item_of info.now) position }
{
    if is_marked_selector(info) {
        widthless(position)
    } else {
        position
    }
}

fn shown_selector(glyph: u16, info: &hb_glyph_info_t) -> hb_glyph_info_t
    ensures item { item_of result ≡ shown_selector glyph (item_of info.now) }
    ensures origin { origin_of result ≡ origin_of info.now }
{
    if !is_marked_selector(info) {
        return *info;
    }
    let word = info.unicode_props.0;
    let kept = word - (word & UnicodeProps::GENERAL_CATEGORY.0);
    let mark = kept + RB_UNICODE_GENERAL_CATEGORY_NON_SPACING_MARK as u16;
    hb_glyph_info_t {
        glyph_id: u32::from(glyph),
        unicode_props: UnicodeProps(mark - (mark & UnicodeProps::CF_VS.0)),
        ..*info
    }
}
