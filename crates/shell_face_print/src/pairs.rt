//! Writes pair adjustment.
ghost use Rattle.shell_face_print.specs.Pairs.{class1_record_json, class_pairs_json, pair_pos_json, pair_row_json, pair_values_json};

use crate::lists::write_list;
use crate::objects::write_object4;
use crate::rows::{write_row2, write_row4};
use crate::value::ToJson;
use layout_tables::pair::{Class1Record, ClassPairs, PairPos, PairRow, PairValues};
use shell_print_json::JsonText;
use std::alloc::AllocError;

impl ToJson for PairValues {
    ghost json = { pair_values_json };

    fn write(&self, text: &mut JsonText) -> Result<(), AllocError> {
        write_row2(&self.first, &self.second, text)
    }
}

impl ToJson for PairRow {
    ghost json = { pair_row_json };

    fn write(&self, text: &mut JsonText) -> Result<(), AllocError> {
        write_row4(
            &self.first,
            &self.second,
            &self.values.first,
            &self.values.second,
            text,
        )
    }
}

impl ToJson for Class1Record {
    ghost json = { class1_record_json };

    fn write(&self, text: &mut JsonText) -> Result<(), AllocError> {
        self.class2_records.write(text)
    }
}

impl ToJson for ClassPairs {
    ghost json = { class_pairs_json };

    fn write(&self, text: &mut JsonText) -> Result<(), AllocError> {
        write_object4(
            ("first", &self.coverage),
            ("class1", &self.class_def1),
            ("class2", &self.class_def2),
            ("records", &self.records),
            text,
        )
    }
}

impl ToJson for PairPos {
    ghost json = { pair_pos_json };

    fn write(&self, text: &mut JsonText) -> Result<(), AllocError> {
        match self {
            PairPos::Glyphs(pairs) => write_list(pairs.rows.as_slice(), text),
            PairPos::Classes(pairs) => pairs.write(text),
        }
    }
}
