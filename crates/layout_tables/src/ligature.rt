//! Ligatures and sets of them (OpenType, GSUB lookup type 4).
ghost use Rattle.std.specs.Prelude.{◌≡◌, ◌==◌, None, true};
ghost use Rattle.std.specs.Option.{option_copied};
ghost use Rattle.layout_tables.specs.Keyed.{is_rising};
ghost use Rattle.layout_tables.specs.Covers.{covers_first_component};
ghost use Rattle.layout_tables.specs.Layout.{LigatureTable, ligature_set_of};

use crate::keyed::find_keyed_near;
use buffer_rows::Keyed;
use layout_common::digest::hb_set_digest_ext;
use layout_common::digested::{Covers, collect_each};
use std::marker::Model;

/// A ligature: the components after the first, and the glyph that replaces all components.
#[derive(Debug, Drop)]
pub struct Ligature {
    components: Vec<u16>,
    glyph: u16,
}

impl Model for Ligature {
    ghost use Rattle.layout_tables.specs.Layout.{LigatureTable};

    ghost Value = { LigatureTable };

    ghost view = { λ l. record { components = l.components.items; glyph = l.glyph } };
}

impl Ligature {
    /// A ligature of the components after the first, and the ligature glyph.
    pub fn new(components: Vec<u16>, glyph: u16) -> Ligature
        ensures { result ≡ record { components = components.items; glyph = glyph } }
    {
        Ligature { components, glyph }
    }

    /// The components after the first one.
    pub fn components(&self) -> &[u16]
        ensures { result.now ≡ self.now.components }
    {
        &self.components
    }

    /// The glyph that replaces all components.
    pub fn glyph(&self) -> u16
        ensures { result ≡ self.now.glyph }
    {
        self.glyph
    }
}

/// The ligatures that begin with a glyph, in the order of preference.
#[derive(Debug, Drop)]
pub struct LigatureSet {
    first: u16,
    ligatures: Vec<Ligature>,
}

impl Model for LigatureSet {
    ghost use Rattle.layout_tables.specs.Layout.{LigatureSetTable};

    ghost Value = { LigatureSetTable };

    ghost view = { λ s. record { first = s.first; ligatures = s.ligatures.items } };
}

impl Keyed for LigatureSet {
    type Key = u32;

    ghost key_of = { λ s. s.first };

    fn key(&self) -> u32 {
        self.first.into()
    }
}

impl LigatureSet {
    /// A set of a first glyph, and its ligatures by preference.
    pub fn new(first: u16, ligatures: Vec<Ligature>) -> LigatureSet
        ensures { result ≡ record { first = first; ligatures = ligatures.items } }
    {
        LigatureSet { first, ligatures }
    }

    /// The first glyph of each ligature.
    pub fn first(&self) -> u16
        ensures { result ≡ self.now.first }
    {
        self.first
    }

    /// The ligatures, the preferred one first.
    pub fn ligatures(&self) -> &[Ligature]
        ensures { result.now ≡ self.now.ligatures }
    {
        &self.ligatures
    }
}

/// A ligature subtable: its sets, by rising first glyphs, which are the glyphs that it covers.
#[derive(Debug, Drop)]
pub struct LigatureSubst {
    sets: Vec<LigatureSet>,
}

impl Model for LigatureSubst {
    ghost use Rattle.std.specs.Prelude.{◌≡◌, List, None, true};
    ghost use Rattle.layout_tables.specs.Keyed.{is_rising};
    ghost use Rattle.layout_tables.specs.Layout.{LigatureSetTable};

    ghost Value = { List LigatureSetTable };

    ghost view = { λ s. s.sets.items };

    ghost invariant = { λ s. is_rising (λ r. r.first) None s.sets.items ≡ true };
}

impl LigatureSubst {
    /// A subtable of sets whose first glyphs rise strictly.
    pub fn new(sets: Vec<LigatureSet>) -> LigatureSubst
        requires { is_rising (λ r. r.first) None sets.items ≡ true }
        ensures { result ≡ sets.items }
    {
        LigatureSubst { sets }
    }

    /// The ligature sets, by rising first glyphs.
    pub fn as_slice(&self) -> &[LigatureSet]
        ensures { result.now ≡ self.now }
    {
        &self.sets
    }

    /// The set of a first glyph, none where the subtable doesn't cover the glyph: at once where no glyph before it lacks
    /// a set, as among the consonants of an Indic script, else in logarithmic time.
    pub fn set_of(&self, glyph: u16) -> Option<&LigatureSet>
        ensures { option_copied result ≡ ligature_set_of glyph self.now }
    {
        find_keyed_near(&self.sets, glyph.into(), likely_index(&self.sets, glyph))
    }
}

/// A guess at the index of a glyph's set. Since first glyphs rise, the set is at its distance from the first glyph or
/// before it; the guess is right where no glyph between the set there and the glyph's own lacks a set.
fn likely_index(sets: &[LigatureSet], glyph: u16) -> usize {
    let (Some(first), Some(last)) = (sets.first(), sets.last()) else {
        return 0;
    };
    let farthest = usize::from(glyph.saturating_sub(first.first));
    let (index, set) = match sets.get(farthest) {
        Some(set) => (farthest, set),
        None => (sets.len() - 1, last),
    };
    index.saturating_sub(usize::from(set.first.saturating_sub(glyph)))
}

impl Covers for LigatureSet {
    ghost covers = { λ s g. s.first == g };

    fn collect<D: hb_set_digest_ext>(&self, digest: &mut D) {
        digest.add(self.first);
    }
}

impl Covers for LigatureSubst {
    ghost covers = { covers_first_component };

    #[tactic(auto, using(layout_common::proofs::Covering::found_any))]
    fn collect<D: hb_set_digest_ext>(&self, digest: &mut D) {
        collect_each(&self.sets, digest);
    }
}
