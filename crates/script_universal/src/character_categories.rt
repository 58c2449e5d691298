//! The categories of a text's characters for the universal shaper (rustybuzz: hb/ot_shaper_use.rs, setup_masks).
//!
//! A stage that changes each glyph by itself is a call, its walk by `map_glyphs`, and the rule for one glyph; all such
//! stages have this form.
ghost use Rattle.std.specs.Prelude.{◌≡◌};
ghost use Rattle.buffer_glyphs.specs.Items.{item_of};
ghost use Rattle.buffer_glyphs.specs.Origins.{origin_of};
ghost use Rattle.buffer_stages.specs.Ready.{IsReady};
ghost use Rattle.buffer_stages.specs.Stages.{IsFollowed};
ghost use Rattle.script_syllabic.specs.Categories.{categories_set, with_category};
ghost use Rattle.script_universal.specs.Categories.{universal_category_of};

use buffer_core::buffer::hb_buffer_t;
use buffer_glyphs::info::hb_glyph_info_t;
use buffer_stages::glyphs::map_glyphs;
use buffer_unicode_tables::UnicodeTables;
use script_categories::category;

/// Stores in each glyph its character's category for the universal shaper. It takes linear time and no memory.
pub fn set_universal_categories(tables: &UnicodeTables, buffer: &mut hb_buffer_t)
    requires ready { IsReady buffer.old }
    ensures { IsFollowed (categories_set (universal_category_of tables.now)) buffer.old buffer.new }
{
    map_glyphs(buffer, |glyph| with_universal_category(tables, glyph));
}

fn with_universal_category(tables: &UnicodeTables, glyph: &hb_glyph_info_t) -> hb_glyph_info_t
    ensures item { item_of result ≡ with_category (universal_category_of tables.now) (item_of glyph.now) }
    ensures origin { origin_of result ≡ origin_of glyph.now }
{
    let category = universal_category(tables, glyph.glyph_id);
    hb_glyph_info_t { category, ..*glyph }
}

fn universal_category(tables: &UnicodeTables, u: u32) -> u8
    ensures { result ≡ universal_category_of tables.now u }
{
    match char::from_u32(u) {
        Some(c) => tables.universal(c).unwrap_or(category::O),
        None => category::O,
    }
}
