//! Writes the GPOS table.
//!
//! GSUB's file has the same form: the lookups of the two tables are types of their own, as in rustybuzz.
ghost use Rattle.std.specs.Prelude.{◌≡◌};
ghost use Rattle.shell_face_print.specs.Lookups.{positioning_lookup_json, positioning_table_json, positioning_type, positionings_json};

use crate::lookups::write_lookup;
use crate::scripts::write_layout;
use crate::value::ToJson;
use layout_face::positioning::{PositioningLookup, PositioningSubtables, PositioningTable};
use shell_print_json::JsonText;
use std::alloc::AllocError;

/// The name of a lookup type.
fn positioning_type(subtables: &PositioningSubtables) -> &'static str
    ensures { result.now ≡ positioning_type subtables.now }
{
    match subtables {
        PositioningSubtables::Single(_) => "single",
        PositioningSubtables::Pair(_) => "pair",
        PositioningSubtables::Cursive(_) => "cursive",
        PositioningSubtables::MarkToBase(_) => "markbase",
        PositioningSubtables::MarkToLigature(_) => "marklig",
        PositioningSubtables::MarkToMark(_) => "markmark",
        PositioningSubtables::Context(_) => "context",
        PositioningSubtables::ChainContext(_) => "chain",
    }
}

impl ToJson for PositioningSubtables {
    ghost json = { positionings_json };

    fn write(&self, text: &mut JsonText) -> Result<(), AllocError> {
        match self {
            PositioningSubtables::Single(subtables) => subtables.write(text),
            PositioningSubtables::Pair(subtables) => subtables.write(text),
            PositioningSubtables::Cursive(subtables) => subtables.write(text),
            PositioningSubtables::MarkToBase(subtables)
            | PositioningSubtables::MarkToMark(subtables) => subtables.write(text),
            PositioningSubtables::MarkToLigature(subtables) => subtables.write(text),
            PositioningSubtables::Context(subtables)
            | PositioningSubtables::ChainContext(subtables) => subtables.write(text),
        }
    }
}

impl ToJson for PositioningLookup {
    ghost json = { positioning_lookup_json };

    fn write(&self, text: &mut JsonText) -> Result<(), AllocError> {
        let subtables = self.subtables.inner();
        write_lookup(
            positioning_type(subtables),
            self.flags,
            subtables,
            self.mark_filtering_set,
            text,
        )
    }
}

impl ToJson for PositioningTable {
    ghost json = { positioning_table_json };

    fn write(&self, text: &mut JsonText) -> Result<(), AllocError> {
        write_layout(&self.inner, &self.lookups, text)
    }
}
