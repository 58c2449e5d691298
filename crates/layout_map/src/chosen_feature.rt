//! A feature of a map (rustybuzz: hb/ot_map.rs, `feature_map_t`).
ghost use Rattle.std.specs.Prelude.{nat_eq};
ghost use Rattle.std.specs.Cmp.{partial_order_from_own_ties};
ghost use Rattle.std.specs.Cmp.Rules.{comparing};
ghost use Rattle.std.specs.Ordering.{on, nat_cmp, as_partial_cmp};
ghost use Rattle.std.proofs.Common.{rules};

use buffer_common::tag::Tag;
use buffer_rows::Keyed;
use layout_map_features::per_table::PerTable;
use std::cmp::Ordering;

/// A feature of a map: its indices and stages by table, and its bits in the masks of glyphs. Features are equal, and
/// ordered, by their tags.
#[derive(Clone, Copy)]
pub struct feature_map_t {
    pub tag: Tag,
    /// The index of the feature in each table's list, where the table has it.
    pub index: PerTable<Option<u16>>,
    pub stage: PerTable<usize>,
    /// The lowest of its bits.
    pub shift: u32,
    pub mask: u32,
    /// The mask of a glyph whose value is 1.
    pub one_mask: u32,
    /// Whether ZWNJ is skipped when contexts are matched.
    pub auto_zwnj: bool,
    /// Whether ZWJ is skipped when input is matched.
    pub auto_zwj: bool,
    /// Whether an alternate is drawn at random.
    pub random: bool,
    /// Whether its lookups match within syllables alone.
    pub per_syllable: bool,
}

impl Keyed for feature_map_t {
    type Key = u32;

    ghost key_of = { λ f. f.tag.0 };

    fn key(&self) -> u32 {
        self.tag.0
    }
}

impl PartialEq for feature_map_t {
    ghost eq = { on (λ f. f.tag.0) nat_eq };

    ghost laws = { Prim.search (comparing, rules) };

    fn eq(&self, other: &feature_map_t) -> bool {
        self.tag == other.tag
    }
}

impl Eq for feature_map_t {
    ghost laws = { Prim.search (comparing, rules) };
}

impl Ord for feature_map_t {
    ghost cmp = { on (λ f. f.tag.0) nat_cmp };

    ghost total = { Prim.search (comparing, rules) };

    ghost matches_partial_cmp = { Prim.search (comparing, rules) };

    ghost matches_eq = { Prim.search (comparing, rules) };

    fn cmp(&self, other: &feature_map_t) -> Ordering {
        self.tag.0.cmp(&other.tag.0)
    }
}

impl PartialOrd for feature_map_t {
    ghost partial_cmp = { as_partial_cmp (on (λ f. f.tag.0) nat_cmp) };

    ghost laws = { partial_order_from_own_ties (Prim.search (comparing, rules))
        (Prim.search (comparing, rules)) };

    fn partial_cmp(&self, other: &feature_map_t) -> Option<Ordering> {
        Some(self.cmp(other))
    }
}
