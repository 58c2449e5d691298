//! Whether the indices and classes of a table stay within their lists.
//!
//! The two tables have functions of one form, since their lookups are types of their own.
ghost use Rattle.std.specs.Prelude.{◌≡◌, length};
ghost use Rattle.std.specs.List.{list_all};
ghost use Rattle.layout_tables.specs.Fits.{marks_fit_bases, marks_fit_ligatures};
ghost use Rattle.layout_face.specs.LookupIndices.{contexts_fit, set_fits, substitution_fits, substitution_lookup_fits, substitution_nested_fit, positioning_fits, positioning_classes_fit, positioning_lookup_fits, positioning_nested_fit, pair_classes_fit};

use crate::positioning::{PositioningLookup, PositioningSubtables, PositioningTable};
use crate::substitution::{SubstLookup, SubstitutionSubtables, SubstitutionTable};
use layout_common::digested::Digested;
use layout_tables::context::ContextSubtable;
use layout_tables::mark::{MarkBasePos, MarkLigPos};
use layout_tables::pair::PairPos;

impl SubstitutionTable {
    /// Whether each index of the table is below its list's length; the font has `set_count` mark glyph sets.
    pub fn indices_fit(&self, set_count: usize) -> bool
        ensures { result ≡ substitution_fits set_count self.now }
    {
        self.inner.indices_fit(self.lookups.len())
            && substitution_lookups_fit(set_count, self.lookups.as_slice())
    }
}

impl PositioningTable {
    /// Whether each index and each class of the table is below its list's length; the font has `set_count` mark glyph sets.
    pub fn indices_fit(&self, set_count: usize) -> bool
        ensures { result ≡ positioning_fits set_count self.now }
    {
        self.inner.indices_fit(self.lookups.len())
            && positioning_lookups_fit(set_count, self.lookups.as_slice())
    }
}

impl SubstLookup {
    /// Whether the lookups that its contexts name exist, in a table of `lookup_count` lookups.
    pub fn nested_fit(&self, lookup_count: usize) -> bool
        ensures { result ≡ substitution_nested_fit lookup_count self.now.subtables }
    {
        match self.subtables.inner() {
            SubstitutionSubtables::Context(subtables)
            | SubstitutionSubtables::ChainContext(subtables) => {
                contexts_fit(lookup_count, subtables.as_slice())
            }
            SubstitutionSubtables::Single(_)
            | SubstitutionSubtables::Multiple(_)
            | SubstitutionSubtables::Alternate(_)
            | SubstitutionSubtables::Ligature(_)
            | SubstitutionSubtables::ReverseChainSingle(_) => true,
        }
    }
}

impl PositioningLookup {
    /// Whether the lookups that its contexts name exist, in a table of `lookup_count` lookups.
    pub fn nested_fit(&self, lookup_count: usize) -> bool
        ensures { result ≡ positioning_nested_fit lookup_count self.now.subtables }
    {
        match self.subtables.inner() {
            PositioningSubtables::Context(subtables)
            | PositioningSubtables::ChainContext(subtables) => {
                contexts_fit(lookup_count, subtables.as_slice())
            }
            PositioningSubtables::Single(_)
            | PositioningSubtables::Pair(_)
            | PositioningSubtables::Cursive(_)
            | PositioningSubtables::MarkToBase(_)
            | PositioningSubtables::MarkToLigature(_)
            | PositioningSubtables::MarkToMark(_) => true,
        }
    }
}

fn contexts_fit(lookup_count: usize, subtables: &[Digested<ContextSubtable>]) -> bool
    ensures { result ≡ contexts_fit lookup_count subtables.now }
{
    subtables
        .iter()
        .all(|subtable| subtable.inner().lookups_fit(lookup_count))
}

fn substitution_lookups_fit(set_count: usize, lookups: &[SubstLookup]) -> bool
    ensures { result ≡ list_all (λ l. substitution_lookup_fits set_count (length lookups.now) l) lookups.now }
{
    let lookup_count = lookups.len();
    lookups.iter().all(|lookup| substitution_lookup_fits(set_count, lookup_count, lookup))
}

fn substitution_lookup_fits(set_count: usize, lookup_count: usize, lookup: &SubstLookup) -> bool
    ensures { result ≡ substitution_lookup_fits set_count lookup_count lookup.now }
{
    set_fits(set_count, lookup.mark_filtering_set) && lookup.nested_fit(lookup_count)
}

fn positioning_lookups_fit(set_count: usize, lookups: &[PositioningLookup]) -> bool
    ensures { result ≡ list_all (λ l. positioning_lookup_fits set_count (length lookups.now) l) lookups.now }
{
    let lookup_count = lookups.len();
    lookups.iter().all(|lookup| positioning_lookup_fits(set_count, lookup_count, lookup))
}

fn positioning_lookup_fits(
    set_count: usize,
    lookup_count: usize,
    lookup: &PositioningLookup,
) -> bool
    ensures { result ≡ positioning_lookup_fits set_count lookup_count lookup.now }
{
    set_fits(set_count, lookup.mark_filtering_set)
        && classes_fit(lookup.subtables.inner())
        && lookup.nested_fit(lookup_count)
}

fn set_fits(set_count: usize, set: Option<u16>) -> bool
    ensures { result ≡ set_fits set_count set }
{
    match set {
        Some(index) => usize::from(index) < set_count,
        None => true,
    }
}

fn classes_fit(subtables: &PositioningSubtables) -> bool
    ensures { result ≡ positioning_classes_fit subtables.now }
{
    match subtables {
        PositioningSubtables::Pair(subtables) => pairs_fit(subtables.as_slice()),
        PositioningSubtables::MarkToBase(subtables) => bases_fit(subtables.as_slice()),
        PositioningSubtables::MarkToMark(subtables) => bases_fit(subtables.as_slice()),
        PositioningSubtables::MarkToLigature(subtables) => ligatures_fit(subtables.as_slice()),
        PositioningSubtables::Single(_)
        | PositioningSubtables::Cursive(_)
        | PositioningSubtables::Context(_)
        | PositioningSubtables::ChainContext(_) => true,
    }
}

fn pairs_fit(subtables: &[Digested<PairPos>]) -> bool
    ensures { result ≡ list_all (λ s. pair_classes_fit s) subtables.now }
{
    subtables
        .iter()
        .all(|subtable| pair_classes_fit(subtable.inner()))
}

fn bases_fit(subtables: &[Digested<MarkBasePos>]) -> bool
    ensures { result ≡ list_all (λ s. marks_fit_bases s.marks s.bases) subtables.now }
{
    subtables
        .iter()
        .all(|subtable| subtable.inner().classes_fit())
}

fn ligatures_fit(subtables: &[Digested<MarkLigPos>]) -> bool
    ensures { result ≡ list_all (λ s. marks_fit_ligatures s.marks s.ligatures) subtables.now }
{
    subtables
        .iter()
        .all(|subtable| subtable.inner().classes_fit())
}

fn pair_classes_fit(pair: &PairPos) -> bool
    ensures { result ≡ pair_classes_fit pair.now }
{
    match pair {
        PairPos::Glyphs(_) => true,
        PairPos::Classes(pairs) => pairs.classes_fit(),
    }
}
