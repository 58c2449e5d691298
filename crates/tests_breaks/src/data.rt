//! Tables and fonts of the tests.
use buffer_tags::language_table::LanguageTable;
use buffer_unicode_tables::UnicodeTables;
use layout_face::Face;
use script_categories::SyllableTable;
use shape_pipeline::hb_shape_data_t;
use shell_face_json::read_face_text;
use shell_readers::tables::{TextTables, tables_in};
use std::alloc::{AllocError, Global};
use std::test::Fail;

/// A font of one letter.
pub(crate) const FONT: &str = "{\"cmap\":[[97,1]]}";

/// Tables that are read from a text, in a box, so that a function that owns them frees one value on each way out.
#[derive(Drop)]
pub(crate) struct ReadTables {
    tables: Box<TextTables>,
}

impl ReadTables {
    pub(crate) fn from_text(alloc: Global, text: &str) -> Result<ReadTables, Fail> {
        let tables = tables_in(alloc, text.as_bytes())?;
        let tables = Box::new(alloc, tables).map_err(AllocError::from)?;
        Ok(ReadTables { tables })
    }

    pub(crate) fn characters(&self) -> &UnicodeTables {
        &self.tables.characters
    }

    pub(crate) fn data(&self) -> hb_shape_data_t<'_, SyllableTable, LanguageTable> {
        hb_shape_data_t {
            tables: &self.tables.characters,
            spans: &self.tables.syllables,
            languages: &self.tables.languages,
        }
    }
}

pub(crate) fn face_of(alloc: Global, font: &str) -> Result<Box<Face>, Fail> {
    let face = read_face_text(alloc, font)?;
    Ok(Box::new(alloc, face).map_err(AllocError::from)?)
}
