//! Contexts and chained contexts (OpenType, chapter 2; GSUB lookup types 5 and 6, GPOS lookup types 7 and 8).
ghost use Rattle.std.specs.Prelude.{◌≡◌, ◌≢◌, IfOk, IfErr, Ok, Err};
ghost use Rattle.font_bytes.specs.declared.fault.TableFault.{TableFault};
ghost use Rattle.font_contexts.specs.Contexts.{context_at};

use crate::classes::read_class_context;
use crate::coverages::read_coverage_context;
use crate::sets::read_glyph_rules;
use font_bytes::fault::TableFault;
use font_bytes::room::Room;
use font_bytes::words::{need, word};
use layout_common::array::Array;
use layout_tables::context::ContextSubtable;
use layout_tables::rules::SequenceRules;
use std::alloc::Global;

/// Reads a context or a chained context, in a table of n lookups; none of an unknown format. Lookup records whose
/// lookup doesn't exist are left out.
pub fn read_context(
    alloc: Global,
    chained: bool,
    lookup_count: usize,
    table: &[u8],
    at: usize,
    room: &mut Room,
) -> Result<Option<ContextSubtable>, TableFault>
    ensures ok { IfOk result (λ s. context_at chained lookup_count room.old.left table.now at ≡ Ok (s, room.new.left)) }
    ensures refused { IfErr result (λ e. e ≢ TableFault.OutOfMemory
        → context_at chained lookup_count room.old.left table.now at ≡ Err e) }
{
    need(table, at, 2)?;
    match word(table, at) {
        1 => {
            let rules = read_glyph_rules(alloc, chained, lookup_count, table, at, room)?;
            Ok(Some(ContextSubtable::Glyphs(SequenceRules::new(Array::new(rules)))))
        }
        2 => {
            let context = read_class_context(alloc, chained, lookup_count, table, at, room)?;
            Ok(Some(context))
        }
        3 => {
            let rules = read_coverage_context(alloc, chained, lookup_count, table, at, room)?;
            Ok(Some(ContextSubtable::Coverage(rules)))
        }
        _ => Ok(None),
    }
}
