//! Values for the two layout tables.
ghost use Rattle.std.specs.Prelude.{◌≡◌};
ghost use Rattle.layout_map_features.specs.Tables.{for_table};

/// A layout table of a font: GSUB or GPOS.
#[derive(Clone, Copy)]
pub enum TableIndex {
    GSUB,
    GPOS,
}

impl TableIndex {
    pub const ALL: [TableIndex; 2] = [TableIndex::GSUB, TableIndex::GPOS];
}

/// A value for each of the two layout tables.
#[derive(Clone, Copy)]
pub struct PerTable<T> {
    pub gsub: T,
    pub gpos: T,
}

impl<T> PerTable<T> {
    /// The value for a table.
    pub fn get(&self, table: TableIndex) -> &T
        ensures { result.now ≡ for_table table self.now }
    {
        match table {
            TableIndex::GSUB => &self.gsub,
            TableIndex::GPOS => &self.gpos,
        }
    }
}
