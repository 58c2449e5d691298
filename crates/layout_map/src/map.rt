//! The map of requested features (rustybuzz: hb/ot_map.rs, `hb_ot_map_t`).
ghost use Rattle.std.specs.Prelude.{◌≡◌, ◌==◌, ◌<◌, ◌≤◌, None, true, find, length, slice_get, IfSome};
ghost use Rattle.std.specs.Int.RustNames.{bit_and};
ghost use Rattle.std.specs.Ordering.{nat_cmp};
ghost use Rattle.buffer_rows.specs.Keys.{is_rising};
ghost use Rattle.std.specs.Option.{option_and_then, option_copied, option_map, option_map_or};
ghost use Rattle.layout_map_features.specs.Tables.{for_table};
ghost use Rattle.layout_map.specs.Compiled.{IsApart, feature_at, lookups_of_stage, stage_end, stage_start};
ghost use Rattle.buffer_glyphs.specs.declared.info.TheConstants.{DEFINED};

use crate::features::feature_map_t;
use crate::stages::StageMap;
use crate::tag_slots::TagSlots;
use buffer_common::tag::Tag;
use buffer_rows::find_row;
use layout_map_features::lookup::lookup_map_t;
use layout_map_features::per_table::TableIndex;
use std::marker::Model;
use std::ops::Range;

#[derive(Drop)]
pub(crate) struct TableMap {
    pub(crate) found_script: bool,
    pub(crate) chosen_script: Option<Tag>,
    pub(crate) lookups: Vec<lookup_map_t>,
    pub(crate) stages: Vec<StageMap>,
}

impl Model for TableMap {
    ghost use Rattle.layout_map.specs.Compiled.{TableStages};
    ghost use Rattle.std.specs.Prelude.{◌≡◌, true, length};
    ghost use Rattle.layout_map.specs.Compiled.{are_ends};

    ghost Value = { TableStages };

    ghost view = { λ t. record {
      found_script = t.found_script;
      chosen_script = t.chosen_script;
      lookups = t.lookups.items;
      stages = t.stages.items;
    } };

    ghost invariant = { λ t. are_ends 0 t.stages.items (length t.lookups.items) ≡ true };
}

impl TableMap {
    fn stage_range(&self, stage: usize) -> Range<usize>
        requires { stage < length self.now.stages }
        ensures start { result.start ≡ stage_start self.now.stages stage }
        ensures end { result.end ≡ stage_end self.now.stages stage }
        ensures in_order { result.start ≤ result.end }
        ensures within { result.end ≤ length self.now.lookups }
    {
        stage_start(&self.stages, stage)..stage_end(&self.stages, stage)
    }

    fn stage_lookups(&self, stage: usize) -> &[lookup_map_t]
        requires { stage < length self.now.stages }
        ensures { result.now ≡ lookups_of_stage self.now stage }
    {
        let Range { start, end } = self.stage_range(stage);
        &self.lookups[start..end]
    }
}

/// The map of requested features: the bits of glyph masks for each feature, and for each table the stages of its
/// lookups.
#[derive(Drop)]
pub struct hb_ot_map_t {
    pub(crate) global_mask: u32,
    pub(crate) features: Vec<feature_map_t>,
    // Where features may stand. It only saves time.
    pub(crate) slots: TagSlots,
    pub(crate) gsub: TableMap,
    pub(crate) gpos: TableMap,
}

impl Model for hb_ot_map_t {
    ghost use Rattle.std.specs.Prelude.{◌≡◌, None, true};
    ghost use Rattle.std.specs.Int.RustNames.{bit_and};
    ghost use Rattle.std.specs.Ordering.{nat_cmp};
    ghost use Rattle.buffer_rows.specs.Keys.{is_rising};
    ghost use Rattle.std.specs.List.{All};
    ghost use Rattle.buffer_glyphs.specs.declared.info.TheConstants.{DEFINED};
    ghost use Rattle.layout_map.specs.Compiled.{IsApart, OtMapValue};
    ghost use Rattle.layout_map.specs.TagSlots.{HaveSlots};

    ghost Value = { OtMapValue };

    ghost view = { λ m. record {
      global_mask = m.global_mask;
      features = m.features.items;
      tables = record { gsub = m.gsub; gpos = m.gpos };
    } };

    ghost invariant = { λ m. (is_rising nat_cmp (λ f. f.tag.0) None m.features.items ≡ true)
        × (bit_and m.global_mask DEFINED ≡ 0) × All IsApart m.features.items
        × HaveSlots m.slots.slots m.features.items };
}

impl hb_ot_map_t {
    fn table(&self, table: TableIndex) -> &TableMap
        ensures { result.now ≡ for_table table self.now.tables }
    {
        match table {
            TableIndex::GSUB => &self.gsub,
            TableIndex::GPOS => &self.gpos,
        }
    }

    /// Whether the script of a table is one of those that were wanted.
    pub fn found_script(&self, table: TableIndex) -> bool
        ensures { result ≡ (for_table table self.now.tables).found_script }
    {
        self.table(table).found_script
    }

    /// The tag of the script that was chosen for the text in a table.
    pub fn chosen_script(&self, table: TableIndex) -> Option<Tag>
        ensures { result ≡ (for_table table self.now.tables).chosen_script }
    {
        self.table(table).chosen_script
    }

    /// The mask that every glyph starts with; it has no glyph flag.
    pub fn get_global_mask(&self) -> u32
        ensures value { result ≡ self.now.global_mask }
        ensures flagless { bit_and result DEFINED ≡ 0 }
    {
        self.global_mask
    }

    /// The features that have bits, by rising tags.
    pub fn features(&self) -> &[feature_map_t]
        ensures value { result.now ≡ self.now.features }
        ensures rising { is_rising nat_cmp (λ f. f.tag.0) None result.now ≡ true }
    {
        &self.features
    }

    /// The feature of a tag, if it has bits: at once where no other one has the tag's slot.
    #[tactic(auto, using(crate::proofs::Apart::found_apart))]
    fn feature(&self, tag: Tag) -> Option<&feature_map_t>
        ensures found { option_copied result ≡ feature_at tag self.now }
        ensures apart { IfSome (option_copied result) IsApart }
    {
        match self.slots.guess(tag.0) {
            Some(guess) => find_near(&self.features, tag.0, guess),
            None => None,
        }
    }

    /// The mask of a feature, which has no glyph flag, and the index of its lowest bit; 0 and 0 where the map lacks it.
    pub fn get_mask(&self, tag: Tag) -> (u32, u32)
        ensures value { result ≡ option_map_or (λ f. (f.mask, f.shift)) (feature_at tag self.now) (0, 0) }
        ensures flagless { bit_and result.0 DEFINED ≡ 0 }
        ensures shift { result.1 < 32 }
    {
        match self.feature(tag) {
            Some(feature) => (feature.mask, feature.shift),
            None => (0, 0),
        }
    }

    /// The mask of a glyph that has a feature with value 1, without a glyph flag; 0 where the map lacks it.
    pub fn get_1_mask(&self, tag: Tag) -> u32
        ensures value { result ≡ option_map_or (λ f. f.one_mask) (feature_at tag self.now) 0 }
        ensures flagless { bit_and result DEFINED ≡ 0 }
    {
        match self.feature(tag) {
            Some(feature) => feature.one_mask,
            None => 0,
        }
    }

    /// The index of a feature in a table's list.
    pub fn get_feature_index(&self, table: TableIndex, tag: Tag) -> Option<u16>
        ensures { result ≡ option_and_then (λ f. for_table table f.index) (feature_at tag self.now) }
    {
        let feature = self.feature(tag)?;
        *feature.index.get(table)
    }

    /// The stage of a feature in a table.
    pub fn get_feature_stage(&self, table: TableIndex, tag: Tag) -> Option<usize>
        ensures { result ≡ option_map (λ f. for_table table f.stage) (feature_at tag self.now) }
    {
        let feature = self.feature(tag)?;
        Some(*feature.stage.get(table))
    }

    /// The ends of a table's stages, in their order.
    pub fn stages(&self, table: TableIndex) -> &[StageMap]
        ensures { result.now ≡ (for_table table self.now.tables).stages }
    {
        &self.table(table).stages
    }

    /// A lookup by its index among all lookups of a table's stages.
    pub fn lookup(&self, table: TableIndex, index: usize) -> &lookup_map_t
        requires { index < length (for_table table self.now.tables).lookups }
        ensures { slice_get (for_table table self.now.tables).lookups index ≡ Some result.now }
    {
        &self.table(table).lookups[index]
    }

    /// The lookups of a stage, by index.
    pub fn stage_lookups(&self, table: TableIndex, stage: usize) -> &[lookup_map_t]
        requires { stage < length (for_table table self.now.tables).stages }
        ensures { result.now ≡ lookups_of_stage (for_table table self.now.tables) stage }
    {
        self.table(table).stage_lookups(stage)
    }

    /// The indices of a stage's lookups among all lookups of a table's stages.
    pub fn stage_lookup_range(&self, table: TableIndex, stage: usize) -> Range<usize>
        requires { stage < length (for_table table self.now.tables).stages }
        ensures start { result.start ≡ stage_start (for_table table self.now.tables).stages stage }
        ensures end { result.end ≡ stage_end (for_table table self.now.tables).stages stage }
    {
        self.table(table).stage_range(stage)
    }
}

/// The feature of a tag: at once where it stands at the guessed index, else in logarithmic time.
#[tactic(auto, using(buffer_rows::proofs::Searched::row_of_number))]
fn find_near(features: &[feature_map_t], tag: u32, guess: usize) -> Option<&feature_map_t>
    requires { is_rising nat_cmp (λ f. f.tag.0) None features.now ≡ true }
    ensures { option_copied result ≡ find (λ f. f.tag.0 == tag) features.now }
{
    match features.get(guess) {
        Some(feature) if feature.tag.0 == tag => Some(feature),
        _ => find_row(features, tag),
    }
}

fn stage_start(stages: &[StageMap], stage: usize) -> usize
    requires { stage < length stages.now }
    ensures { result ≡ stage_start stages.now stage }
{
    if stage == 0 {
        return 0;
    }
    stages[stage - 1].last_lookup
}

fn stage_end(stages: &[StageMap], stage: usize) -> usize
    requires { stage < length stages.now }
    ensures { result ≡ stage_end stages.now stage }
{
    stages[stage].last_lookup
}
