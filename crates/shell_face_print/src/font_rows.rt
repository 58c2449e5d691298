//! Writes the rows of a font's characters and glyphs, and its glyph definitions.
ghost use Rattle.shell_face_print.specs.FontRows.{character_json, definition_json, extents_json, name_json, variation_json};

use crate::objects::{write_last, write_member};
use crate::rows::{WriteFields, write_only, write_row2, write_row3};
use crate::value::{Named, ToJson};
use buffer_glyphs::names::hb_glyph_extents_t;
use buffer_rows::Keyed;
use layout_face::parts::{CharacterRow, GlyphDefinition, NameRow, VariationRow};
use shell_print_json::JsonText;
use std::alloc::AllocError;

impl ToJson for CharacterRow {
    ghost json = { character_json };

    fn write(&self, text: &mut JsonText) -> Result<(), AllocError> {
        write_row2(&self.character, &self.glyph, text)
    }
}

impl ToJson for VariationRow {
    ghost json = { variation_json };

    fn write(&self, text: &mut JsonText) -> Result<(), AllocError> {
        write_row3(&self.character, &self.selector, &self.glyph, text)
    }
}

impl WriteFields for hb_glyph_extents_t {
    ghost fields = { extents_json };

    #[tactic(auto, using(crate::proofs::Appending::four))]
    fn write_fields(&self, text: &mut JsonText) -> Result<(), AllocError> {
        self.x_bearing.write(text)?;
        self.y_bearing.write(text)?;
        self.width.write(text)?;
        write_only(&self.height, text)
    }
}

impl ToJson for NameRow {
    ghost json = { name_json };

    fn write(&self, text: &mut JsonText) -> Result<(), AllocError> {
        write_row2(&self.key(), &Named { text: self.name() }, text)
    }
}

impl ToJson for GlyphDefinition {
    ghost json = { definition_json };

    #[tactic(auto, using(crate::proofs::Appending::object_three))]
    fn write(&self, text: &mut JsonText) -> Result<(), AllocError> {
        text.begin_object()?;
        write_member("attach", &self.attach, text)?;
        write_member("sets", &self.sets, text)?;
        write_last("classes", &self.classes, text)
    }
}
