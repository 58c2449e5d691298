//! Writes the GSUB table.
//!
//! GPOS's file has the same form: the lookups of the two tables are types of their own, as in rustybuzz.
ghost use Rattle.std.specs.Prelude.{◌≡◌};
ghost use Rattle.shell_face_print.specs.Lookups.{substitution_lookup_json, substitution_table_json, substitution_type, substitutions_json};

use crate::lookups::write_lookup;
use crate::scripts::write_layout;
use crate::value::ToJson;
use layout_face::substitution::{SubstLookup, SubstitutionSubtables, SubstitutionTable};
use shell_print_json::JsonText;
use std::alloc::AllocError;

/// The name of a lookup type.
fn substitution_type(subtables: &SubstitutionSubtables) -> &'static str
    ensures { result.now ≡ substitution_type subtables.now }
{
    match subtables {
        SubstitutionSubtables::Single(_) => "single",
        SubstitutionSubtables::Multiple(_) => "multiple",
        SubstitutionSubtables::Alternate(_) => "alternate",
        SubstitutionSubtables::Ligature(_) => "ligature",
        SubstitutionSubtables::Context(_) => "context",
        SubstitutionSubtables::ChainContext(_) => "chain",
        SubstitutionSubtables::ReverseChainSingle(_) => "reverse",
    }
}

impl ToJson for SubstitutionSubtables {
    ghost json = { substitutions_json };

    fn write(&self, text: &mut JsonText) -> Result<(), AllocError> {
        match self {
            SubstitutionSubtables::Single(subtables) => subtables.write(text),
            SubstitutionSubtables::Multiple(subtables) => subtables.write(text),
            SubstitutionSubtables::Alternate(subtables) => subtables.write(text),
            SubstitutionSubtables::Ligature(subtables) => subtables.write(text),
            SubstitutionSubtables::Context(subtables)
            | SubstitutionSubtables::ChainContext(subtables) => subtables.write(text),
            SubstitutionSubtables::ReverseChainSingle(subtables) => subtables.write(text),
        }
    }
}

impl ToJson for SubstLookup {
    ghost json = { substitution_lookup_json };

    fn write(&self, text: &mut JsonText) -> Result<(), AllocError> {
        let subtables = self.subtables.inner();
        write_lookup(
            substitution_type(subtables),
            self.flags,
            subtables,
            self.mark_filtering_set,
            text,
        )
    }
}

impl ToJson for SubstitutionTable {
    ghost json = { substitution_table_json };

    fn write(&self, text: &mut JsonText) -> Result<(), AllocError> {
        write_layout(&self.inner, &self.lookups, text)
    }
}
