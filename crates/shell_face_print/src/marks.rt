//! Writes attachment of marks.
ghost use Rattle.shell_face_print.specs.Marks.{base_row_json, component_json, ligature_row_json, mark_base_json, mark_lig_json, mark_record_json};

use crate::objects::write_object2;
use crate::rows::{WriteFields, write_only, write_row2};
use crate::value::ToJson;
use layout_tables::mark::{
    BaseRow, ComponentRecord, LigatureRow, MarkBasePos, MarkLigPos, MarkRecord,
};
use shell_print_json::JsonText;
use std::alloc::AllocError;

impl WriteFields for MarkRecord {
    ghost fields = { mark_record_json };

    #[tactic(auto, using(crate::proofs::Appending::two))]
    fn write_fields(&self, text: &mut JsonText) -> Result<(), AllocError> {
        self.class.write(text)?;
        write_only(&self.anchor, text)
    }
}

impl ToJson for BaseRow {
    ghost json = { base_row_json };

    fn write(&self, text: &mut JsonText) -> Result<(), AllocError> {
        write_row2(&self.glyph, &self.anchors, text)
    }
}

impl ToJson for ComponentRecord {
    ghost json = { component_json };

    fn write(&self, text: &mut JsonText) -> Result<(), AllocError> {
        self.anchors.write(text)
    }
}

impl ToJson for LigatureRow {
    ghost json = { ligature_row_json };

    fn write(&self, text: &mut JsonText) -> Result<(), AllocError> {
        write_row2(&self.glyph, &self.components, text)
    }
}

impl ToJson for MarkBasePos {
    ghost json = { mark_base_json };

    fn write(&self, text: &mut JsonText) -> Result<(), AllocError> {
        write_object2(("marks", &self.marks), ("bases", &self.bases), text)
    }
}

impl ToJson for MarkLigPos {
    ghost json = { mark_lig_json };

    fn write(&self, text: &mut JsonText) -> Result<(), AllocError> {
        write_object2(("marks", &self.marks), ("bases", &self.ligatures), text)
    }
}
