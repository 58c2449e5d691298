//! Writes the GSUB subtables other than contexts.
ghost use Rattle.shell_face_print.specs.Substitutions.{alternate_subst_json, ligature_json, ligature_set_json, ligature_subst_json, multiple_subst_json, reverse_json, sequence_row_json, single_subst_json};

use crate::lists::{Listed, write_list};
use crate::rows::{write_row2, write_row3};
use crate::value::ToJson;
use layout_tables::ligature::{Ligature, LigatureSet, LigatureSubst};
use layout_tables::reverse::ReverseChainSubst;
use layout_tables::sequence::{AlternateSubst, MultipleSubst, SequenceRow};
use layout_tables::single_subst::SingleSubst;
use shell_print_json::JsonText;
use std::alloc::AllocError;

impl ToJson for SingleSubst {
    ghost json = { single_subst_json };

    fn write(&self, text: &mut JsonText) -> Result<(), AllocError> {
        self.rows.write(text)
    }
}

impl ToJson for SequenceRow {
    ghost json = { sequence_row_json };

    fn write(&self, text: &mut JsonText) -> Result<(), AllocError> {
        write_row2(&self.glyph, &self.glyphs, text)
    }
}

impl ToJson for MultipleSubst {
    ghost json = { multiple_subst_json };

    fn write(&self, text: &mut JsonText) -> Result<(), AllocError> {
        self.rows.write(text)
    }
}

impl ToJson for AlternateSubst {
    ghost json = { alternate_subst_json };

    fn write(&self, text: &mut JsonText) -> Result<(), AllocError> {
        self.rows.write(text)
    }
}

impl ToJson for Ligature {
    ghost json = { ligature_json };

    fn write(&self, text: &mut JsonText) -> Result<(), AllocError> {
        let components = Listed {
            items: self.components(),
        };
        write_row2(&components, &self.glyph(), text)
    }
}

impl ToJson for LigatureSet {
    ghost json = { ligature_set_json };

    fn write(&self, text: &mut JsonText) -> Result<(), AllocError> {
        let ligatures = Listed {
            items: self.ligatures(),
        };
        write_row2(&self.first(), &ligatures, text)
    }
}

impl ToJson for LigatureSubst {
    ghost json = { ligature_subst_json };

    fn write(&self, text: &mut JsonText) -> Result<(), AllocError> {
        write_list(self.as_slice(), text)
    }
}

impl ToJson for ReverseChainSubst {
    ghost json = { reverse_json };

    fn write(&self, text: &mut JsonText) -> Result<(), AllocError> {
        write_row3(&self.backtrack, &self.lookahead, &self.rows, text)
    }
}
