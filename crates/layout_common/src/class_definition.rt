//! Classes of glyphs (OpenType, chapter 2, class definition table).
ghost use Rattle.std.specs.Prelude.{◌≡◌, [], IfOk};
ghost use Rattle.layout_common.specs.Classes.{class_of};

use crate::glyph_row::GlyphRow;
use buffer_rows::{DenseRows, SortedRows};
use std::alloc::{AllocError, Global};

/// A class for each glyph (OpenType, chapter 2, class definition table).
#[derive(Debug, Drop)]
pub struct ClassDefinition {
    /// The glyphs whose class is given.
    pub rows: DenseRows<GlyphRow<u16>>,
}

impl ClassDefinition {
    /// Of rows of glyphs and their classes.
    pub fn new(
        alloc: Global,
        rows: SortedRows<GlyphRow<u16>>,
    ) -> Result<ClassDefinition, AllocError>
        ensures { IfOk result (λ c. c ≡ record { rows = rows }) }
    {
        let rows = DenseRows::new(alloc, rows.into_vec())?;
        Ok(ClassDefinition { rows })
    }

    /// Without rows, so that each glyph has class 0.
    pub fn empty(alloc: Global) -> ClassDefinition
        ensures { result ≡ record { rows = [] } }
    {
        ClassDefinition {
            rows: DenseRows::empty(alloc),
        }
    }

    /// The class of a glyph, 0 where no row gives one.
    pub fn class_of(&self, glyph: u16) -> u16
        ensures { result ≡ class_of glyph self.now }
    {
        match self.rows.get(u32::from(glyph)) {
            Some(row) => row.value,
            None => 0,
        }
    }
}
