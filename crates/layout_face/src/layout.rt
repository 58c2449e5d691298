//! What the two layout tables have in common, and what their lookups have (rustybuzz: hb/ot_layout.rs, `LayoutTable`,
//! `LayoutLookup`).
ghost use Rattle.std.specs.Prelude.{ℕ, ◌≡◌, Bool, List, false, true, slice_get};
ghost use Rattle.std.specs.Option.{option_copied};
ghost use Rattle.layout_map_features.specs.declared.per_table.TableIndex.{TableIndex};
ghost use Rattle.layout_map_features.specs.declared.per_table.TableIndex.TheVariants.{GPOS, GSUB};
ghost use Rattle.layout_face.specs.Lookups.{is_reverse, positioning_covers, props_of, substitution_covers};

use crate::positioning::{PositioningLookup, PositioningTable};
use crate::substitution::{SubstLookup, SubstitutionTable};
use layout_common::digest::{hb_set_digest_ext, hb_set_digest_t};
use layout_map_features::per_table::TableIndex;

/// A lookup of a layout table.
pub trait LayoutLookup {
    ghost flag: { Self → ℕ };

    ghost reversed: { Self → Bool };

    ghost covers: { Self → ℕ → Bool };

    /// The lookup flag in the low 16 bits and, with `USE_MARK_FILTERING_SET`, the set's index in the high 16 bits, 65535
    /// where the lookup names none.
    fn props(&self) -> u32
        ensures { result ≡ flag self.now };

    /// Whether the lookup is applied from the end of the text.
    fn is_reverse(&self) -> bool
        ensures { result ≡ reversed self.now };

    /// The set of the glyphs at which one of its subtables can act, and maybe of others.
    fn digest(&self) -> hb_set_digest_t
        ensures { (g : ℕ) → covers self.now g ≡ true
            → ⟦<hb_set_digest_t as hb_set_digest_ext>⟧.may_contain result g ≡ true };
}

/// A layout table, GSUB or GPOS.
pub trait LayoutTable {
    /// Which of the two tables it is.
    const INDEX: TableIndex;

    ghost INDEX: { TableIndex };

    /// Whether its lookups leave the number of glyphs, and so need no output.
    const IN_PLACE: bool;

    ghost IN_PLACE: { Bool };

    type Lookup: LayoutLookup;

    ghost lookups: { Self → List Self.Lookup };

    /// The lookup at an index, none where the table has none there.
    fn get_lookup(&self, index: u16) -> Option<&Self::Lookup>
        ensures { option_copied result ≡ slice_get (lookups self.now) index };
}

impl LayoutLookup for SubstLookup {
    ghost flag = { λ l. props_of l.flags l.mark_filtering_set };

    ghost reversed = { λ l. is_reverse l.subtables };

    ghost covers = { λ l. substitution_covers l.subtables };

    fn props(&self) -> u32 {
        SubstLookup::props(self)
    }

    fn is_reverse(&self) -> bool {
        SubstLookup::is_reverse(self)
    }

    fn digest(&self) -> hb_set_digest_t {
        SubstLookup::digest(self)
    }
}

impl LayoutLookup for PositioningLookup {
    ghost flag = { λ l. props_of l.flags l.mark_filtering_set };

    ghost reversed = { λ _. false };

    ghost covers = { λ l. positioning_covers l.subtables };

    fn props(&self) -> u32 {
        PositioningLookup::props(self)
    }

    fn is_reverse(&self) -> bool {
        PositioningLookup::is_reverse(self)
    }

    fn digest(&self) -> hb_set_digest_t {
        PositioningLookup::digest(self)
    }
}

impl LayoutTable for SubstitutionTable {
    const INDEX: TableIndex = TableIndex::GSUB;

    ghost INDEX = { GSUB };

    const IN_PLACE: bool = false;

    ghost IN_PLACE = { false };

    type Lookup = SubstLookup;

    ghost lookups = { λ t. t.lookups };

    fn get_lookup(&self, index: u16) -> Option<&SubstLookup> {
        SubstitutionTable::get_lookup(self, index)
    }
}

impl LayoutTable for PositioningTable {
    const INDEX: TableIndex = TableIndex::GPOS;

    ghost INDEX = { GPOS };

    const IN_PLACE: bool = true;

    ghost IN_PLACE = { true };

    type Lookup = PositioningLookup;

    ghost lookups = { λ t. t.lookups };

    fn get_lookup(&self, index: u16) -> Option<&PositioningLookup> {
        PositioningTable::get_lookup(self, index)
    }
}
