//! What a font is made of: rows, coverage, classes, the tables of layout and their subtables.

pub use buffer_rows::{DenseRows, Keyed, PagedRows, SortedRows};
pub use layout_common::array::Array;
pub use layout_common::class_definition::ClassDefinition;
pub use layout_common::coverage::Coverage;
pub use layout_common::digested::{Covers, Digested};
pub use layout_common::glyph_row::GlyphRow;
pub use layout_common::subtables::Subtables;
pub use layout_face::parts::{CharacterRow, GlyphDefinition, NameRow, VariationRow};
pub use layout_face::positioning::{PositioningLookup, PositioningSubtables, PositioningTable};
pub use layout_face::substitution::{SubstLookup, SubstitutionSubtables, SubstitutionTable};
pub use layout_tables::context::{ClassRules, ContextSubtable, SequenceLookupRecord, SequenceRule};
pub use layout_tables::cursive::{CursivePos, EntryExit};
pub use layout_tables::item_rule::ItemRule;
pub use layout_tables::ligature::{Ligature, LigatureSet, LigatureSubst};
pub use layout_tables::mark::{
    BaseRow, ComponentRecord, LigatureRow, MarkBasePos, MarkLigPos, MarkRecord,
};
pub use layout_tables::pair::{ClassPairs, GlyphPairs, PairPos, PairRow, PairValues};
pub use layout_tables::pair_rows::PairRows;
pub use layout_tables::reverse::ReverseChainSubst;
pub use layout_tables::script::{LangSys, LangSysRecord, ScriptRecord};
pub use layout_tables::sequence::{AlternateSubst, MultipleSubst, SequenceRow};
pub use layout_tables::single_pos::SinglePos;
pub use layout_tables::single_subst::SingleSubst;
pub use layout_tables::table::{FeatureRecord, ScriptsAndFeatures, SelectedScript};
pub use layout_tables::value::{Anchor, ValueRecord};
