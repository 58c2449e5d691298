//! The tables that the tests' texts are shaped with.
use buffer_tags::language_table::LanguageTable;
use buffer_unicode_tables::UnicodeTables;
use layout_face::Face;
use script_categories::SyllableTable;
use shape_pipeline::hb_shape_data_t;
use shell_face_json::read_face_text;
use shell_readers::tables::{TextTables, tables_in};
use std::alloc::{AllocError, Global};
use std::test::Fail;

/// Tables for characters of the Latin script.
pub(crate) static TABLES: &str =
    "{\"splits\":[[225,97,769]],\"pairs\":[[97,769,225]],\"classes\":[[769,230],[803,220]]}";

/// The tables that shaping depends on, beside a font.
#[derive(Clone, Copy)]
pub(crate) struct Tables<'a> {
    pub characters: &'a UnicodeTables,
    pub spans: &'a SyllableTable,
    pub languages: &'a LanguageTable,
}

impl<'a> Tables<'a> {
    pub(crate) fn data(self) -> hb_shape_data_t<'a, SyllableTable, LanguageTable> {
        hb_shape_data_t {
            tables: self.characters,
            spans: self.spans,
            languages: self.languages,
        }
    }
}

/// Tables that are read from a text. They are in a box, as fonts are, so that a function that owns them frees one value
/// on each way out, and not each of their lists.
#[derive(Drop)]
pub(crate) struct ReadTables {
    tables: Box<TextTables>,
}

impl ReadTables {
    pub(crate) fn from_text(alloc: Global, text: &str) -> Result<ReadTables, Fail> {
        let tables = tables_in(alloc, text.as_bytes())?;
        let tables = Box::new(alloc, tables).map_err(AllocError::from)?;
        Ok(ReadTables { tables })
    }

    pub(crate) fn borrowed(&self) -> Tables<'_> {
        Tables {
            characters: &self.tables.characters,
            spans: &self.tables.syllables,
            languages: &self.tables.languages,
        }
    }
}

pub(crate) fn face_of(alloc: Global, font: &str) -> Result<Box<Face>, Fail> {
    let face = read_face_text(alloc, font)?;
    Ok(Box::new(alloc, face).map_err(AllocError::from)?)
}
