//! Attachment of marks (OpenType, GPOS lookup types 4, 5 and 6).
//!
//! Rows of other tables have the same form, each with its own key.
ghost use Rattle.std.specs.Prelude.{◌≡◌};
ghost use Rattle.layout_common.specs.Rows.{value_of};
ghost use Rattle.layout_tables.specs.Marks.{anchor_at, base_anchor, component_anchor, component_at, component_count};

use crate::value::Anchor;
use buffer_rows::{Keyed, SortedRows};
use layout_common::array::Array;
use layout_common::glyph_row::{GlyphRow, find_value};

/// A mark's class, and the anchor of the mark that is put on the other glyph's anchor of that class; none where it
/// isn't attached.
#[derive(Clone, Copy, Debug, Drop)]
pub struct MarkRecord {
    pub class: u16,
    pub anchor: Option<Anchor>,
}

/// A base, or a mark that marks are attached to, with an anchor for each class of marks, from class 0 on.
#[derive(Debug, Drop)]
pub struct BaseRow {
    pub glyph: u16,
    pub anchors: Array<Option<Anchor>>,
}

impl Keyed for BaseRow {
    type Key = u16;

    ghost key_of = { λ r. r.glyph };

    fn key(&self) -> u16 {
        self.glyph
    }
}

/// A component of a ligature, with an anchor for each class of marks, from class 0 on.
#[derive(Debug, Drop)]
pub struct ComponentRecord {
    pub anchors: Array<Option<Anchor>>,
}

/// A ligature with the anchors of each of its components, from the first component on.
#[derive(Debug, Drop)]
pub struct LigatureRow {
    pub glyph: u16,
    pub components: Array<ComponentRecord>,
}

impl Keyed for LigatureRow {
    type Key = u16;

    ghost key_of = { λ r. r.glyph };

    fn key(&self) -> u16 {
        self.glyph
    }
}

/// Mark to base and mark to mark attachment (GPOS lookup types 4 and 6).
#[derive(Debug, Drop)]
pub struct MarkBasePos {
    /// The marks that it covers.
    pub marks: SortedRows<GlyphRow<MarkRecord>>,
    /// The bases, or the marks that marks are attached to.
    pub bases: SortedRows<BaseRow>,
}

impl MarkBasePos {
    /// The class and the anchor of a mark, none where it covers no such mark.
    pub fn mark(&self, glyph: u16) -> Option<MarkRecord>
        ensures { result ≡ value_of glyph self.now.marks }
    {
        find_value(&self.marks, glyph)
    }

    /// The anchor of a base for marks of a class, none where it covers no such base or the base has none for the class.
    #[tactic(auto, using(buffer_rows::proofs::Searched::row_of_number))]
    pub fn base_anchor(&self, glyph: u16, class: u16) -> Option<Anchor>
        ensures { result ≡ base_anchor glyph class self.now.bases }
    {
        match self.bases.get(glyph) {
            Some(row) => anchor_at(row.anchors.as_slice(), class),
            None => None,
        }
    }
}

/// Mark to ligature attachment (GPOS lookup type 5).
#[derive(Debug, Drop)]
pub struct MarkLigPos {
    /// The marks that it covers.
    pub marks: SortedRows<GlyphRow<MarkRecord>>,
    pub ligatures: SortedRows<LigatureRow>,
}

impl MarkLigPos {
    /// The class and the anchor of a mark, none where it covers no such mark.
    pub fn mark(&self, glyph: u16) -> Option<MarkRecord>
        ensures { result ≡ value_of glyph self.now.marks }
    {
        find_value(&self.marks, glyph)
    }

    /// How many components a ligature has, none where it covers no such ligature.
    #[tactic(auto, using(buffer_rows::proofs::Searched::row_of_number))]
    pub fn component_count(&self, glyph: u16) -> Option<usize>
        ensures { result ≡ component_count glyph self.now.ligatures }
    {
        match self.ligatures.get(glyph) {
            Some(row) => Some(row.components.len()),
            None => None,
        }
    }

    /// The anchor of a ligature's component, the first being 0, for marks of a class, none where it covers no such
    /// ligature, the ligature has no such component, or the component has none for the class.
    #[tactic(auto, using(buffer_rows::proofs::Searched::row_of_number))]
    pub fn component_anchor(&self, glyph: u16, component: usize, class: u16) -> Option<Anchor>
        ensures { result ≡ component_anchor glyph component class self.now.ligatures }
    {
        match self.ligatures.get(glyph) {
            Some(row) => component_at(row.components.as_slice(), component, class),
            None => None,
        }
    }
}

fn component_at(components: &[ComponentRecord], component: usize, class: u16) -> Option<Anchor>
    ensures { result ≡ component_at components.now component class }
{
    match components.get(component) {
        Some(record) => anchor_at(record.anchors.as_slice(), class),
        None => None,
    }
}

fn anchor_at(anchors: &[Option<Anchor>], class: u16) -> Option<Anchor>
    ensures { result ≡ anchor_at anchors.now class }
{
    match anchors.get(usize::from(class)) {
        Some(anchor) => *anchor,
        None => None,
    }
}
