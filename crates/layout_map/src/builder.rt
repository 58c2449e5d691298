//! The builder of a map (rustybuzz: hb/ot_map.rs, `hb_ot_map_builder_t`).
ghost use Rattle.std.specs.Prelude.{◌≡◌, OnOk, OnErr, IfOk};
ghost use Rattle.std.specs.Int.RustNames.{bit_or};
ghost use Rattle.std.specs.Option.{option_copied};
ghost use Rattle.layout_map_features.specs.Tables.{for_table};
ghost use Rattle.layout_map.specs.Chosen.{script_tag};
ghost use Rattle.layout_map.specs.Compiled.{compiled_map, no_requests, stages_with, with_gpos_pause, with_gsub_pause, with_request};
ghost use Rattle.layout_map.specs.Features.{in_any, required_feature_in, system_features};

use crate::chosen::{ChosenTable, FontTables};
use crate::features::{
    feature_map_t, features_with, global_mask, in_any, required_stage, system_features,
    wanted_requests,
};
use crate::map::{TableMap, hb_ot_map_t};
use crate::stages::{TableFeatures, all_stages};
use crate::tag_slots::TagSlots;
use buffer_common::tag::Tag;
use layout_face::Face;
use layout_face::positioning::PositioningTable;
use layout_face::substitution::SubstitutionTable;
use layout_map_features::flags::{F_GLOBAL, hb_ot_map_feature_flags_t};
use layout_map_features::kept_fields::kept_fields;
use layout_map_features::merge::merged_requests;
use layout_map_features::per_table::{PerTable, TableIndex};
use layout_map_features::request::{FeatureRequest, MergedRequest};
use layout_map_features::required::RequiredFeature;
use std::alloc::{AllocError, Global};
use std::marker::Model;

/// For how many requests there is room from the first one on. Most texts have at most that number.
const REQUESTS: usize = 64;

/// Collects requests for features and pauses between the stages of a font's layout tables.
#[derive(Drop)]
pub struct hb_ot_map_builder_t<'a> {
    tables: FontTables<'a>,
    requests: Vec<FeatureRequest>,
    gsub_pauses: Vec<u8>,
    gpos_pauses: Vec<u8>,
}

impl<'a> Model for hb_ot_map_builder_t<'a> {
    ghost use Rattle.layout_map.specs.Compiled.{MapRequests};

    ghost Value = { MapRequests };

    ghost view = { λ b. record {
      tables = b.tables;
      requests = b.requests.items;
      pauses = record { gsub = b.gsub_pauses.items; gpos = b.gpos_pauses.items };
    } };
}

impl<'a> hb_ot_map_builder_t<'a> {
    /// A builder for a font's layout tables, and for the wanted scripts and languages, the best first.
    pub fn new(
        alloc: Global,
        face: &'a Face,
        scripts: &[Tag],
        languages: &[Tag],
    ) -> hb_ot_map_builder_t<'a>
        ensures { result ≡ no_requests scripts.now languages.now face.now.gsub face.now.gpos }
    {
        hb_ot_map_builder_t::of_tables(alloc, face.gsub(), face.gpos(), scripts, languages)
    }

    /// A builder for the layout tables that there are, and for the wanted scripts and languages, the best first.
    pub fn of_tables(
        alloc: Global,
        gsub: Option<&'a SubstitutionTable>,
        gpos: Option<&'a PositioningTable>,
        scripts: &[Tag],
        languages: &[Tag],
    ) -> hb_ot_map_builder_t<'a>
        ensures { result
            ≡ no_requests scripts.now languages.now (option_copied gsub.entry) (option_copied gpos.entry) }
    {
        hb_ot_map_builder_t {
            tables: FontTables {
                gsub: ChosenTable::of_substitution(gsub, scripts, languages),
                gpos: ChosenTable::of_positioning(gpos, scripts, languages),
            },
            requests: Vec::new(alloc),
            gsub_pauses: Vec::new(alloc),
            gpos_pauses: Vec::new(alloc),
        }
    }

    /// The tag of the script that was chosen for the text in a table.
    pub fn chosen_script(&self, table: TableIndex) -> Option<Tag>
        ensures { result ≡ script_tag (for_table table self.now.tables) }
    {
        self.tables.get(table).chosen_script()
    }

    /// Whether a language system that was chosen for the text has a feature.
    pub fn has_feature(&self, tag: Tag) -> bool
        ensures { result ≡ in_any (system_features tag self.now.tables) }
    {
        in_any(&system_features(&self.tables, tag))
    }

    /// Requests a feature: for every glyph with `F_GLOBAL`, else for ranges. The zero tag requests nothing.
    pub fn add_feature(
        &mut self,
        tag: Tag,
        flags: hb_ot_map_feature_flags_t,
        value: u32,
    ) -> Result<(), AllocError>
        ensures ok { OnOk result (self.new ≡ with_request tag flags value self.old) }
        ensures err { OnErr result (self.new ≡ self.old) }
    {
        if tag.0 == 0 {
            return Ok(());
        }
        if self.requests.is_empty() {
            // The list then seldom grows, and isn't copied from step to step.
            self.requests.reserve(REQUESTS)?;
        }
        let stage = PerTable {
            gsub: self.gsub_pauses.len(),
            gpos: self.gpos_pauses.len(),
        };
        self.requests.push(FeatureRequest {
            tag,
            flags,
            value,
            stage,
        })?;
        Ok(())
    }

    /// Requests a feature for every glyph.
    pub fn enable_feature(
        &mut self,
        tag: Tag,
        flags: hb_ot_map_feature_flags_t,
        value: u32,
    ) -> Result<(), AllocError>
        ensures ok { OnOk result (self.new ≡ with_request tag (bit_or flags F_GLOBAL) value self.old) }
        ensures err { OnErr result (self.new ≡ self.old) }
    {
        self.add_feature(tag, flags | F_GLOBAL, value)
    }

    /// Requests that a feature is off for every glyph.
    pub fn disable_feature(&mut self, tag: Tag) -> Result<(), AllocError>
        ensures ok { OnOk result (self.new ≡ with_request tag 1 0 self.old) }
        ensures err { OnErr result (self.new ≡ self.old) }
    {
        self.add_feature(tag, F_GLOBAL, 0)
    }

    /// Ends the current GSUB stage with a pause.
    pub fn add_gsub_pause(&mut self, pause: u8) -> Result<(), AllocError>
        ensures ok { OnOk result (self.new ≡ with_gsub_pause pause self.old) }
        ensures err { OnErr result (self.new ≡ self.old) }
    {
        self.gsub_pauses.push(pause)?;
        Ok(())
    }

    /// Ends the current GPOS stage with a pause.
    pub fn add_gpos_pause(&mut self, pause: u8) -> Result<(), AllocError>
        ensures ok { OnOk result (self.new ≡ with_gpos_pause pause self.old) }
        ensures err { OnErr result (self.new ≡ self.old) }
    {
        self.gpos_pauses.push(pause)?;
        Ok(())
    }

    #[tactic(auto, using(layout_map_features::proofs::Rising::wanted_rise, crate::proofs::Sorted::features_rise))]
    /// The map of the requests so far. The builder can be used on.
    pub fn compile(&self, alloc: Global) -> Result<hb_ot_map_t, AllocError>
        ensures { IfOk result (λ map. map ≡ compiled_map self.now) }
    {
        let requests = merged_requests(alloc, &self.requests)?;
        let wanted = wanted_requests(alloc, &self.tables, &requests)?;
        let kept = kept_fields(alloc, &wanted)?;
        let features = features_with(alloc, &self.tables, &kept)?;
        let gsub = self.table_map(alloc, TableIndex::GSUB, &requests, &wanted, &features)?;
        let gpos = self.table_map(alloc, TableIndex::GPOS, &requests, &wanted, &features)?;
        Ok(hb_ot_map_t {
            global_mask: global_mask(&kept),
            slots: TagSlots::new(&features),
            features,
            gsub,
            gpos,
        })
    }

    fn pauses(&self, table: TableIndex) -> &[u8]
        ensures { result.now ≡ for_table table self.now.pauses }
    {
        match table {
            TableIndex::GSUB => &self.gsub_pauses,
            TableIndex::GPOS => &self.gpos_pauses,
        }
    }

    fn required_feature(
        &self,
        table: TableIndex,
        requests: &[MergedRequest],
        wanted: &[MergedRequest],
    ) -> Option<RequiredFeature>
        ensures { result ≡ required_feature_in table (for_table table self.now.tables) requests.now wanted.now }
    {
        let (index, tag) = self.tables.get(table).required_feature()?;
        Some(RequiredFeature {
            index,
            stage: required_stage(table, requests, wanted, tag),
        })
    }

    #[tactic(auto, using(crate::proofs::StageEnds::stages_end))]
    fn table_map(
        &self,
        alloc: Global,
        table: TableIndex,
        requests: &[MergedRequest],
        wanted: &[MergedRequest],
        features: &[feature_map_t],
    ) -> Result<TableMap, AllocError>
        ensures { IfOk result (λ map. map
            ≡ stages_with table (for_table table self.now.tables) requests.now wanted.now features.now
            (for_table table self.now.pauses)) }
    {
        let chosen = self.tables.get(table);
        let of = TableFeatures {
            table,
            chosen,
            required: self.required_feature(table, requests, wanted),
            features,
        };
        let (lookups, stages) = all_stages(alloc, &of, self.pauses(table))?;
        Ok(TableMap {
            found_script: chosen.found_script(),
            chosen_script: chosen.chosen_script(),
            lookups,
            stages,
        })
    }
}
