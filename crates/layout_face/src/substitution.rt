//! The GSUB table.
//!
//! GPOS's file has the same form: the lookups of the two tables are types of their own, as in rustybuzz.
ghost use Rattle.std.specs.Prelude.{◌≡◌, ℕ, true};
ghost use Rattle.std.specs.Option.{option_copied};
ghost use Rattle.std.specs.Prelude.{slice_get};
ghost use Rattle.layout_face.specs.Lookups.{props_of, is_reverse, substitution_covers};

use layout_common::array::Array;
use layout_common::digest::{hb_set_digest_ext, hb_set_digest_t};
use layout_common::digested::{Covers, Digested, collect_each};
use layout_common::flags::USE_MARK_FILTERING_SET;
use layout_common::subtables::Subtables;
use layout_tables::context::ContextSubtable;
use layout_tables::ligature::LigatureSubst;
use layout_tables::reverse::ReverseChainSubst;
use layout_tables::sequence::{AlternateSubst, MultipleSubst};
use layout_tables::single_subst::SingleSubst;
use layout_tables::table::ScriptsAndFeatures;

/// The subtables of a substitution lookup, which are of one type, in the order in which they are tried, each with the
/// set of the glyphs at which it can act.
#[derive(Debug, Drop)]
pub enum SubstitutionSubtables {
    Single(Subtables<SingleSubst>),
    Multiple(Subtables<MultipleSubst>),
    Alternate(Subtables<AlternateSubst>),
    Ligature(Subtables<LigatureSubst>),
    Context(Subtables<ContextSubtable>),
    ChainContext(Subtables<ContextSubtable>),
    ReverseChainSingle(Subtables<ReverseChainSubst>),
}

impl Covers for SubstitutionSubtables {
    ghost covers = { substitution_covers };

    fn collect<D: hb_set_digest_ext>(&self, digest: &mut D) {
        match self {
            SubstitutionSubtables::Single(subtables) => {
                collect_each(subtables.as_slice(), digest)
            }
            SubstitutionSubtables::Multiple(subtables) => {
                collect_each(subtables.as_slice(), digest)
            }
            SubstitutionSubtables::Alternate(subtables) => {
                collect_each(subtables.as_slice(), digest)
            }
            SubstitutionSubtables::Ligature(subtables) => {
                collect_each(subtables.as_slice(), digest)
            }
            SubstitutionSubtables::Context(subtables)
            | SubstitutionSubtables::ChainContext(subtables) => {
                collect_each(subtables.as_slice(), digest)
            }
            SubstitutionSubtables::ReverseChainSingle(subtables) => {
                collect_each(subtables.as_slice(), digest)
            }
        }
    }
}

/// A GSUB lookup: its first matching subtable is applied at a glyph.
#[derive(Debug, Drop)]
pub struct SubstLookup {
    /// The lookup flag: which glyphs are skipped.
    pub flags: u16,
    /// The index of a mark glyph set, used only with `USE_MARK_FILTERING_SET`.
    pub mark_filtering_set: Option<u16>,
    /// The subtables, with the set of the glyphs at which one of them can act.
    pub subtables: Digested<SubstitutionSubtables>,
}

impl SubstLookup {
    /// A lookup of its parsed fields: the lookup flag, the index of its mark glyph set and its subtables.
    pub fn parse(
        flags: u16,
        mark_filtering_set: Option<u16>,
        subtables: SubstitutionSubtables,
    ) -> SubstLookup
        ensures { result ≡ record {
          flags = flags;
          mark_filtering_set = mark_filtering_set;
          subtables = subtables;
        } }
    {
        SubstLookup {
            flags,
            mark_filtering_set,
            subtables: Digested::new(subtables),
        }
    }

    /// The set of the glyphs at which one of its subtables can act, and maybe of others.
    pub fn digest(&self) -> hb_set_digest_t
        ensures { (g : ℕ) → substitution_covers self.now.subtables g ≡ true
            → ⟦<hb_set_digest_t as hb_set_digest_ext>⟧.may_contain result g ≡ true }
    {
        self.subtables.digest()
    }

    /// The lookup flag in the low 16 bits and, with `USE_MARK_FILTERING_SET`, the set's index in the high 16 bits, 65535
    /// where the lookup names none.
    pub fn props(&self) -> u32
        ensures { result ≡ props_of self.now.flags self.now.mark_filtering_set }
    {
        lookup_props(self.flags, self.mark_filtering_set)
    }

    /// Whether the lookup is applied from the end of the text.
    pub fn is_reverse(&self) -> bool
        ensures { result ≡ is_reverse self.now.subtables }
    {
        matches!(
            self.subtables.inner(),
            SubstitutionSubtables::ReverseChainSingle(_)
        )
    }
}

pub(crate) fn lookup_props(flags: u16, set: Option<u16>) -> u32
    ensures { result ≡ props_of flags set }
{
    if flags & USE_MARK_FILTERING_SET == 0 {
        return u32::from(flags);
    }
    u32::from(flags) + u32::from(set.unwrap_or(u16::MAX)) * 0x1_0000
}

/// The GSUB table.
#[derive(Debug, Drop)]
pub struct SubstitutionTable {
    /// Scripts, language systems and features.
    pub inner: ScriptsAndFeatures,
    /// The lookups, in the order of their indices.
    pub lookups: Array<SubstLookup>,
}

impl SubstitutionTable {
    /// A table of its lists of scripts and features, and of its lookups in the order of their indices.
    pub fn new(inner: ScriptsAndFeatures, lookups: Array<SubstLookup>) -> SubstitutionTable
        ensures { result ≡ record { inner = inner; lookups = lookups } }
    {
        SubstitutionTable { inner, lookups }
    }

    /// The lookup at an index.
    pub fn get_lookup(&self, index: u16) -> Option<&SubstLookup>
        ensures { option_copied result ≡ slice_get self.now.lookups index }
    {
        self.lookups.get(usize::from(index))
    }
}
