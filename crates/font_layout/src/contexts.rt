//! Contexts and chained contexts of a table.
ghost use Rattle.font_contexts.specs.Contexts.{context_at};

use font_bytes::fault::TableFault;
use font_bytes::room::Room;
use font_contexts::read_context;
use font_lists::subtables::SubtableReader;
use layout_tables::context::ContextSubtable;
use std::alloc::Global;

/// Contexts, or chained contexts, of a table of n lookups.
#[derive(Clone, Copy)]
pub struct ContextReader {
    pub chained: bool,
    pub lookup_count: usize,
}

impl SubtableReader for ContextReader {
    type Subtable = ContextSubtable;

    ghost subtable_at = { λ r. context_at r.chained r.lookup_count };

    fn read_subtable(
        &self,
        alloc: Global,
        table: &[u8],
        at: usize,
        room: &mut Room,
    ) -> Result<Option<ContextSubtable>, TableFault> {
        read_context(alloc, self.chained, self.lookup_count, table, at, room)
    }
}
