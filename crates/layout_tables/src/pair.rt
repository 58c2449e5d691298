//! Pair adjustment (OpenType, GPOS lookup type 2).
//!
//! Rows of other tables have the same form, each with its own key.
ghost use Rattle.std.specs.Prelude.{◌≡◌};
ghost use Rattle.layout_tables.specs.Pairs.{class_pair_values, record_at};

use crate::pair_rows::PairRows;
use crate::value::ValueRecord;
use buffer_rows::Keyed;
use layout_common::array::Array;
use layout_common::class_definition::ClassDefinition;
use layout_common::coverage::Coverage;

/// The value records of two glyphs; without a second record the second glyph may begin the next pair.
#[derive(Clone, Copy, Debug, Drop)]
pub struct PairValues {
    pub first: ValueRecord,
    pub second: Option<ValueRecord>,
}

/// Two glyphs and their adjustments.
#[derive(Clone, Copy, Debug, Drop)]
pub struct PairRow {
    pub first: u16,
    pub second: u16,
    pub values: PairValues,
}

impl Keyed for PairRow {
    type Key = (u16, u16);

    ghost key_of = { λ r. (r.first, r.second) };

    fn key(&self) -> (u16, u16) {
        (self.first, self.second)
    }
}

/// Pair adjustment by glyphs (GPOS lookup type 2, format 1).
#[derive(Debug, Drop)]
pub struct GlyphPairs {
    /// The pairs, by first and then second glyph.
    pub rows: PairRows,
}

/// The adjustments of a first glyph's class, by the class of the second glyph, from class 0 on.
#[derive(Debug, Drop)]
pub struct Class1Record {
    pub class2_records: Array<PairValues>,
}

/// Pair adjustment by classes (GPOS lookup type 2, format 2).
#[derive(Debug, Drop)]
pub struct ClassPairs {
    /// The first glyphs that it covers.
    pub coverage: Coverage,
    pub class_def1: ClassDefinition,
    pub class_def2: ClassDefinition,
    /// The adjustments, by the class of the first glyph, from class 0 on.
    pub records: Array<Class1Record>,
}

impl ClassPairs {
    /// The adjustments of two glyphs, none where the first isn't covered or their classes have no record.
    pub fn values(&self, first: u16, second: u16) -> Option<PairValues>
        ensures { result ≡ class_pair_values first second self.now }
    {
        if !self.coverage.contains(first) {
            return None;
        }
        let class1 = self.class_def1.class_of(first);
        let class2 = self.class_def2.class_of(second);
        record_at(self.records.as_slice(), class1, class2)
    }
}

fn record_at(records: &[Class1Record], class1: u16, class2: u16) -> Option<PairValues>
    ensures { result ≡ record_at records.now class1 class2 }
{
    match records.get(usize::from(class1)) {
        Some(record) => record.class2_records.get(usize::from(class2)).copied(),
        None => None,
    }
}

/// A pair adjustment subtable in one of its formats.
#[derive(Debug, Drop)]
pub enum PairPos {
    Glyphs(GlyphPairs),
    Classes(ClassPairs),
}
