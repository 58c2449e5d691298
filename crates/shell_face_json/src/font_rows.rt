//! Reads the rows of a font's keys.
ghost use Rattle.std.specs.Prelude.{◌≡◌, ◌≢◌, IfOk, IfErr, Ok, Err};
ghost use Rattle.shell_face_json.specs.FontRows.{character_row, variation_row, extents, glyph_name, name_row};

use crate::rows::{FromItems, read_row};
use crate::value::FromJson;
use buffer_glyphs::names::hb_glyph_extents_t;
use layout_face::parts::{CharacterRow, NameRow, VariationRow};
use serde_json::Value;
use shell_json::fault::JsonFault;
use std::alloc::Global;
use std::marker::Model;

impl FromJson for CharacterRow {
    ghost font_value = { character_row };

    fn from_json(alloc: Global, value: &Value, limit: usize) -> Result<CharacterRow, JsonFault> {
        let (character, (glyph, ())) = read_row(alloc, value, limit)?;
        Ok(CharacterRow { character, glyph })
    }
}

impl FromJson for VariationRow {
    ghost font_value = { variation_row };

    fn from_json(alloc: Global, value: &Value, limit: usize) -> Result<VariationRow, JsonFault> {
        let (character, (selector, (glyph, ()))) = read_row(alloc, value, limit)?;
        Ok(VariationRow {
            character,
            selector,
            glyph,
        })
    }
}

/// The extents of a glyph.
impl FromItems for hb_glyph_extents_t {
    ghost row_items = { λ _. extents };

    fn from_items(
        alloc: Global,
        values: &[Value],
        limit: usize,
    ) -> Result<hb_glyph_extents_t, JsonFault> {
        let (x_bearing, (y_bearing, (width, (height, ())))): (i16, (i16, (i16, (i16, ())))) =
            FromItems::from_items(alloc, values, limit)?;
        Ok(hb_glyph_extents_t {
            x_bearing: x_bearing.into(),
            y_bearing: y_bearing.into(),
            width: width.into(),
            height: height.into(),
        })
    }
}

/// A text.
#[derive(Drop)]
struct Text {
    text: String,
}

impl Model for Text {
    ghost use Rattle.std.specs.Prelude.{ℕ, List, string_bytes};

    ghost Value = { List ℕ };

    ghost view = { λ t. string_bytes t.text };
}

impl FromJson for Text {
    ghost font_value = { λ _. glyph_name };

    fn from_json(alloc: Global, value: &Value, _limit: usize) -> Result<Text, JsonFault> {
        match value.as_str() {
            Some(text) => Ok(Text {
                text: String::from_str(alloc, text)?,
            }),
            None => Err(JsonFault::WrongShape),
        }
    }
}

impl FromJson for NameRow {
    ghost font_value = { name_row };

    fn from_json(alloc: Global, value: &Value, limit: usize) -> Result<NameRow, JsonFault> {
        let (glyph, (name, ())): (u16, (Text, ())) = read_row(alloc, value, limit)?;
        Ok(NameRow::new(glyph, name.text))
    }
}
