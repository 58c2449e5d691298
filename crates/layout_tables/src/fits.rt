//! Whether the classes of a subtable stay within its lists.
ghost use Rattle.std.specs.Prelude.{◌≡◌, max};
ghost use Rattle.layout_tables.specs.Fits.{class_count, mark_class_count, marks_fit_bases, components_fit, marks_fit_ligatures, records_fit, pairs_fit};

use crate::mark::{ComponentRecord, MarkBasePos, MarkLigPos, MarkRecord};
use crate::pair::{Class1Record, ClassPairs};
use layout_common::glyph_row::GlyphRow;

impl MarkBasePos {
    /// Whether each base has an anchor, be it null, for each class of the marks.
    pub fn classes_fit(&self) -> bool
        ensures { result ≡ marks_fit_bases self.now.marks self.now.bases }
    {
        let count = mark_class_count(self.marks.as_slice());
        self.bases
            .as_slice()
            .iter()
            .all(|base| count <= base.anchors.len())
    }
}

impl MarkLigPos {
    /// Whether each component of a ligature has an anchor, be it null, for each class of the marks.
    pub fn classes_fit(&self) -> bool
        ensures { result ≡ marks_fit_ligatures self.now.marks self.now.ligatures }
    {
        let count = mark_class_count(self.marks.as_slice());
        self.ligatures.as_slice().iter().all(|ligature| components_fit(
            count,
            ligature.components.as_slice(),
        ))
    }
}

impl ClassPairs {
    /// Whether each class of a first glyph has a row of records, and each class of a second one a record in each row.
    pub fn classes_fit(&self) -> bool
        ensures { result ≡ pairs_fit self.now }
    {
        let first_count = class_count(self.class_def1.rows.as_slice());
        let second_count = class_count(self.class_def2.rows.as_slice());
        first_count <= self.records.len() && records_fit(second_count, self.records.as_slice())
    }
}

fn components_fit(count: usize, components: &[ComponentRecord]) -> bool
    ensures { result ≡ components_fit count components.now }
{
    components
        .iter()
        .all(|record| count <= record.anchors.len())
}

fn records_fit(count: usize, records: &[Class1Record]) -> bool
    ensures { result ≡ records_fit count records.now }
{
    records
        .iter()
        .all(|record| count <= record.class2_records.len())
}

fn mark_class_count(marks: &[GlyphRow<MarkRecord>]) -> usize
    ensures { result ≡ mark_class_count 0 marks.now }
{
    let mut count = 0;
    for row in marks {
        count = greater(count, usize::from(row.value.class) + 1);
    }
    count
}

fn class_count(rows: &[GlyphRow<u16>]) -> usize
    ensures { result ≡ class_count 0 rows.now }
{
    let mut count = 0;
    for row in rows {
        count = greater(count, usize::from(row.value) + 1);
    }
    count
}

fn greater(a: usize, b: usize) -> usize
    ensures { result ≡ max a b }
{
    if a < b { b } else { a }
}
