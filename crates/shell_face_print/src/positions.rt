//! Writes anchors and value records.
ghost use Rattle.shell_face_print.specs.Positions.{anchor_json, cursive_pos_json, entry_exit_json, single_pos_json, value_record_json};

use crate::rows::{WriteFields, write_only, write_row2, write_row4};
use crate::value::ToJson;
use layout_tables::cursive::{CursivePos, EntryExit};
use layout_tables::single_pos::SinglePos;
use layout_tables::value::{Anchor, ValueRecord};
use shell_print_json::JsonText;
use std::alloc::AllocError;

impl ToJson for Anchor {
    ghost json = { anchor_json };

    fn write(&self, text: &mut JsonText) -> Result<(), AllocError> {
        write_row2(&self.x, &self.y, text)
    }
}

impl ToJson for ValueRecord {
    ghost json = { value_record_json };

    fn write(&self, text: &mut JsonText) -> Result<(), AllocError> {
        write_row4(
            &self.x_placement,
            &self.y_placement,
            &self.x_advance,
            &self.y_advance,
            text,
        )
    }
}

impl WriteFields for ValueRecord {
    ghost use Rattle.std.specs.Prelude.{◌∷◌, []};

    ghost fields = { λ value. value_record_json value ∷ [] };

    fn write_fields(&self, text: &mut JsonText) -> Result<(), AllocError> {
        write_only(self, text)
    }
}

impl ToJson for SinglePos {
    ghost json = { single_pos_json };

    fn write(&self, text: &mut JsonText) -> Result<(), AllocError> {
        self.rows.write(text)
    }
}

impl WriteFields for EntryExit {
    ghost fields = { entry_exit_json };

    #[tactic(auto, using(crate::proofs::Appending::two))]
    fn write_fields(&self, text: &mut JsonText) -> Result<(), AllocError> {
        self.entry.write(text)?;
        write_only(&self.exit, text)
    }
}

impl ToJson for CursivePos {
    ghost json = { cursive_pos_json };

    fn write(&self, text: &mut JsonText) -> Result<(), AllocError> {
        self.rows.write(text)
    }
}
