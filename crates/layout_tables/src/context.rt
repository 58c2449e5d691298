//! Contexts and chained contexts (OpenType, chapter 2, sequence context and chained sequence context formats 1 to 3).
use crate::rules::SequenceRules;
use layout_common::array::Array;
use layout_common::class_definition::ClassDefinition;
use layout_common::coverage::Coverage;

/// A lookup to apply at a glyph of the input sequence (`SequenceLookupRecord`).
#[derive(Clone, Copy, Debug, Default, Drop)]
pub struct SequenceLookupRecord {
    /// The index of the glyph in the input sequence, the first being 0.
    pub sequence_index: u16,
    /// The index of the lookup in the table's list of lookups.
    pub lookup_index: u16,
}

/// A rule: its backtrack, input and lookahead sequences, and the lookups to apply where they match. An item is a glyph,
/// a class or a set of glyphs.
#[derive(Debug, Drop)]
pub struct SequenceRule<I> {
    /// The backtrack sequence, before the input, the nearest item first.
    pub backtrack: Array<I>,
    /// The input sequence with its first glyph.
    pub input: Array<I>,
    /// The lookahead sequence, after the input, the nearest item first.
    pub lookahead: Array<I>,
    /// The lookups, in the order in which they are applied.
    pub records: Array<SequenceLookupRecord>,
}

/// Rules by classes (format 2): `first` covers the first glyph of the input.
#[derive(Debug, Drop)]
pub struct ClassRules {
    pub first: Coverage,
    pub backtrack: ClassDefinition,
    pub input: ClassDefinition,
    pub lookahead: ClassDefinition,
    /// The rules, in the order in which they are tried.
    pub rules: SequenceRules,
}

/// A contextual or chained contextual subtable in one of its formats, with its rules in the order in which they are
/// tried.
#[derive(Debug, Drop)]
pub enum ContextSubtable {
    /// Items are glyphs (format 1).
    Glyphs(SequenceRules),
    /// Items are classes (format 2).
    Classes(ClassRules),
    /// Items are sets of glyphs (format 3).
    Coverage(Array<SequenceRule<Coverage>>),
}
