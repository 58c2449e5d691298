//! The GPOS table.
//!
//! GSUB's file has the same form: the lookups of the two tables are types of their own, as in rustybuzz.
ghost use Rattle.std.specs.Prelude.{◌≡◌, ℕ, false, true, slice_get};
ghost use Rattle.std.specs.Option.{option_copied};
ghost use Rattle.layout_face.specs.Lookups.{positioning_covers, props_of};

use crate::substitution::lookup_props;
use layout_common::array::Array;
use layout_common::digest::{hb_set_digest_ext, hb_set_digest_t};
use layout_common::digested::{Covers, Digested, collect_each};
use layout_common::subtables::Subtables;
use layout_tables::context::ContextSubtable;
use layout_tables::cursive::CursivePos;
use layout_tables::mark::{MarkBasePos, MarkLigPos};
use layout_tables::pair::PairPos;
use layout_tables::single_pos::SinglePos;
use layout_tables::table::ScriptsAndFeatures;

/// The subtables of a positioning lookup, which are of one type, in the order in which they are tried, each with the
/// set of the glyphs at which it can act.
#[derive(Debug, Drop)]
pub enum PositioningSubtables {
    Single(Subtables<SinglePos>),
    Pair(Subtables<PairPos>),
    Cursive(Subtables<CursivePos>),
    MarkToBase(Subtables<MarkBasePos>),
    MarkToLigature(Subtables<MarkLigPos>),
    MarkToMark(Subtables<MarkBasePos>),
    Context(Subtables<ContextSubtable>),
    ChainContext(Subtables<ContextSubtable>),
}

impl Covers for PositioningSubtables {
    ghost covers = { positioning_covers };

    fn collect<D: hb_set_digest_ext>(&self, digest: &mut D) {
        match self {
            PositioningSubtables::Single(subtables) => collect_each(subtables.as_slice(), digest),
            PositioningSubtables::Pair(subtables) => collect_each(subtables.as_slice(), digest),
            PositioningSubtables::Cursive(subtables) => collect_each(subtables.as_slice(), digest),
            PositioningSubtables::MarkToBase(subtables)
            | PositioningSubtables::MarkToMark(subtables) => {
                collect_each(subtables.as_slice(), digest)
            }
            PositioningSubtables::MarkToLigature(subtables) => {
                collect_each(subtables.as_slice(), digest)
            }
            PositioningSubtables::Context(subtables)
            | PositioningSubtables::ChainContext(subtables) => {
                collect_each(subtables.as_slice(), digest)
            }
        }
    }
}

/// A GPOS lookup: its first matching subtable is applied at a glyph.
#[derive(Debug, Drop)]
pub struct PositioningLookup {
    /// The lookup flag: which glyphs are skipped.
    pub flags: u16,
    /// The index of a mark glyph set, used only with `USE_MARK_FILTERING_SET`.
    pub mark_filtering_set: Option<u16>,
    /// The subtables, with the set of the glyphs at which one of them can act.
    pub subtables: Digested<PositioningSubtables>,
}

impl PositioningLookup {
    /// A lookup of its parsed fields: the lookup flag, the index of its mark glyph set and its subtables.
    pub fn parse(
        flags: u16,
        mark_filtering_set: Option<u16>,
        subtables: PositioningSubtables,
    ) -> PositioningLookup
        ensures { result ≡ record {
          flags = flags;
          mark_filtering_set = mark_filtering_set;
          subtables = subtables;
        } }
    {
        PositioningLookup {
            flags,
            mark_filtering_set,
            subtables: Digested::new(subtables),
        }
    }

    /// The set of the glyphs at which one of its subtables can act, and maybe of others.
    pub fn digest(&self) -> hb_set_digest_t
        ensures { (g : ℕ) → positioning_covers self.now.subtables g ≡ true
            → ⟦<hb_set_digest_t as hb_set_digest_ext>⟧.may_contain result g ≡ true }
    {
        self.subtables.digest()
    }

    /// The lookup flag in the low 16 bits and, with `USE_MARK_FILTERING_SET`, the set's index in the high 16 bits, 65535
    /// where the lookup names none.
    pub fn props(&self) -> u32
        ensures { result ≡ props_of self.now.flags self.now.mark_filtering_set }
    {
        lookup_props(self.flags, self.mark_filtering_set)
    }

    /// Whether the lookup is applied from the end of the text: no GPOS lookup is.
    pub fn is_reverse(&self) -> bool
        ensures { result ≡ false }
    {
        false
    }
}

/// The GPOS table.
#[derive(Debug, Drop)]
pub struct PositioningTable {
    /// Scripts, language systems and features.
    pub inner: ScriptsAndFeatures,
    /// The lookups, in the order of their indices.
    pub lookups: Array<PositioningLookup>,
}

impl PositioningTable {
    /// A table of its lists of scripts and features, and of its lookups in the order of their indices.
    pub fn new(inner: ScriptsAndFeatures, lookups: Array<PositioningLookup>) -> PositioningTable
        ensures { result ≡ record { inner = inner; lookups = lookups } }
    {
        PositioningTable { inner, lookups }
    }

    /// The lookup at an index.
    pub fn get_lookup(&self, index: u16) -> Option<&PositioningLookup>
        ensures { option_copied result ≡ slice_get self.now.lookups index }
    {
        self.lookups.get(usize::from(index))
    }
}
