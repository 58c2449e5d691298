//! The premises of tables and font, tested once.
ghost use Rattle.shape_breaks.specs.Cuts.{AreTested};

use crate::tables::{keeps_marks, keeps_private_marks, keeps_types};
use buffer_unicode_tables::UnicodeTables;
use layout_face::Face;

/// What was tested of tables and a font.
#[derive(Clone, Copy)]
pub struct BreakPremises {
    /// Whether the tables are lawful (`UnicodeTables::law_fault`).
    pub is_lawful: bool,
    /// Whether what stands for a character keeps marks (`keeps_marks`).
    pub keeps_marks: bool,
    /// Whether what stands for a character keeps joining types (`keeps_types`).
    pub keeps_types: bool,
    /// Whether private forms of Thai keep marks (`keeps_private_marks`).
    pub keeps_private_marks: bool,
}

impl BreakPremises {
    /// Tests tables and a font. It walks the characters of Unicode three times: made once, and kept with the font.
    pub fn of_font(tables: &UnicodeTables, face: &Face) -> BreakPremises
        ensures { AreTested tables.now face.now result }
    {
        BreakPremises {
            is_lawful: tables.law_fault().is_none(),
            keeps_marks: keeps_marks(tables, face),
            keeps_types: keeps_types(tables),
            keeps_private_marks: keeps_private_marks(tables),
        }
    }
}
