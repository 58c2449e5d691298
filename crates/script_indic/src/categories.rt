//! The categories and syllabic positions of a text's characters (rustybuzz: hb/ot_shaper_indic.rs, `setup_masks`).
ghost use Rattle.std.specs.Prelude.{◌≡◌};
ghost use Rattle.buffer_glyphs.specs.Items.{item_of};
ghost use Rattle.buffer_glyphs.specs.Origins.{origin_of};
ghost use Rattle.buffer_stages.specs.Ready.{IsReady};
ghost use Rattle.buffer_stages.specs.Stages.{IsFollowed};
ghost use Rattle.script_indic.specs.Categories.{indic_row, properties_set, with_properties};

use buffer_core::buffer::hb_buffer_t;
use buffer_glyphs::info::hb_glyph_info_t;
use buffer_stages::glyphs::map_glyphs;
use buffer_unicode_tables::UnicodeTables;
use script_categories::ot_category_t::{Category, OT_X};
use script_categories::ot_position_t::{POS_END, Position};

/// Stores in each glyph its character's category and syllabic position by the row of the tables, OT_X and POS_END without
/// a row. It takes linear time and no memory.
pub fn setup_masks(tables: &UnicodeTables, buffer: &mut hb_buffer_t)
    requires ready { IsReady buffer.old }
    ensures { IsFollowed (properties_set tables.now) buffer.old buffer.new }
{
    map_glyphs(buffer, |glyph| with_properties(tables, glyph));
}

fn with_properties(tables: &UnicodeTables, glyph: &hb_glyph_info_t) -> hb_glyph_info_t
    ensures item { item_of result ≡ with_properties tables.now (item_of glyph.now) }
    ensures origin { origin_of result ≡ origin_of glyph.now }
{
    let (category, auxiliary) = indic_row(tables, glyph.glyph_id);
    hb_glyph_info_t {
        category,
        auxiliary,
        ..*glyph
    }
}

fn indic_row(tables: &UnicodeTables, u: u32) -> (Category, Position)
    ensures { result ≡ indic_row tables.now u }
{
    match char::from_u32(u) {
        Some(c) => tables.indic(c).unwrap_or((OT_X, POS_END)),
        None => (OT_X, POS_END),
    }
}
