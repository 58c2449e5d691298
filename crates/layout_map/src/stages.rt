//! The stages of a table's lookups (rustybuzz: hb/ot_map.rs, `StageMap`).
ghost use Rattle.std.specs.Prelude.{◌≡◌, ◌+◌, ◌++◌, ◌∷◌, [], map, length, IfOk, OnOk, Some};
ghost use Rattle.std.specs.List.{flat_map};
ghost use Rattle.layout_map.specs.Lookups.{Stage, feature_lookups, lookups_if, required_lookups, stage_ends, stage_lookups, stage_uses, stages_from};

use crate::chosen::ChosenTable;
use crate::chosen_feature::feature_map_t;
use layout_map_features::field::GLOBAL_BIT;
use layout_map_features::lookup::lookup_map_t;
use layout_map_features::merge::merged_lookups;
use layout_map_features::per_table::TableIndex;
use layout_map_features::required::{RequiredFeature, required_index};
use std::alloc::{AllocError, Global};

/// The end of a stage.
#[derive(Clone, Copy)]
pub struct StageMap {
    /// How many lookups the table's stages have up to the end of this one.
    pub last_lookup: usize,
    /// The pause that ends the stage; the last stage ends without one.
    pub pause: Option<u8>,
}

/// The inputs from which a table's stages are made.
#[derive(Clone, Copy)]
pub struct TableFeatures<'a, 'b> {
    pub table: TableIndex,
    pub chosen: &'a ChosenTable<'b>,
    pub required: Option<RequiredFeature>,
    pub features: &'a [feature_map_t],
}

fn push_lookups(
    uses: &mut Vec<lookup_map_t>,
    indices: &[u16],
    like: lookup_map_t,
) -> Result<(), AllocError>
    ensures { OnOk result (uses.new.items ≡ uses.old.items ++ map (λ i. record like { index = i }) indices.now) }
{
    for index in indices {
        uses.push(lookup_map_t {
            index: *index,
            ..like
        })?;
    }
    Ok(())
}

fn push_required(
    uses: &mut Vec<lookup_map_t>,
    chosen: &ChosenTable,
    required: Option<RequiredFeature>,
    stage: usize,
) -> Result<(), AllocError>
    ensures { OnOk result (uses.new.items ≡ uses.old.items ++ required_lookups chosen.now stage required) }
{
    let Some(index) = required_index(required, stage) else {
        return Ok(());
    };
    let like = lookup_map_t {
        index: 0,
        mask: GLOBAL_BIT,
        auto_zwnj: true,
        auto_zwj: true,
        random: false,
        per_syllable: false,
    };
    push_lookups(uses, chosen.feature_lookups(index), like)
}

fn push_feature(
    uses: &mut Vec<lookup_map_t>,
    table: TableIndex,
    chosen: &ChosenTable,
    feature: &feature_map_t,
    stage: usize,
) -> Result<(), AllocError>
    ensures { OnOk result (uses.new.items ≡ uses.old.items ++ feature_lookups table chosen.now stage feature.now) }
{
    if *feature.stage.get(table) != stage {
        return Ok(());
    }
    let Some(index) = *feature.index.get(table) else {
        return Ok(());
    };
    let like = lookup_map_t {
        index: 0,
        mask: feature.mask,
        auto_zwnj: feature.auto_zwnj,
        auto_zwj: feature.auto_zwj,
        random: feature.random,
        per_syllable: feature.per_syllable,
    };
    push_lookups(uses, chosen.feature_lookups(index), like)
}

#[tactic(auto, using(crate::proofs::StageSteps::use_step))]
fn stage_uses(
    alloc: Global,
    of: &TableFeatures,
    stage: usize,
) -> Result<Vec<lookup_map_t>, AllocError>
    ensures { IfOk result (λ uses. uses.items
        ≡ stage_uses of.now.table of.now.chosen.now of.now.required of.now.features.now stage) }
{
    let mut uses = Vec::new(alloc);
    push_required(&mut uses, of.chosen, of.required, stage)?;
    for feature in of.features {
        push_feature(&mut uses, of.table, of.chosen, feature, stage)?;
    }
    Ok(uses)
}

fn stage_lookups(
    alloc: Global,
    of: &TableFeatures,
    stage: usize,
) -> Result<Vec<lookup_map_t>, AllocError>
    ensures { IfOk result (λ lookups. lookups.items
        ≡ stage_lookups of.now.table of.now.chosen.now of.now.required of.now.features.now stage) }
{
    let uses = stage_uses(alloc, of, stage)?;
    merged_lookups(alloc, of.chosen.lookup_count(), &uses)
}

fn push_stage(
    lookups: &mut Vec<lookup_map_t>,
    stages: &mut Vec<StageMap>,
    stage: &[lookup_map_t],
    pause: Option<u8>,
) -> Result<(), AllocError>
    ensures lookups { OnOk result (lookups.new.items ≡ lookups.old.items ++ stage.now) }
    ensures stages { OnOk result (stages.new.items ≡ stages.old.items
        ++ record { last_lookup = length lookups.old.items + length stage.now; pause = pause } ∷ []) }
{
    lookups.extend_from_slice(stage)?;
    stages.push(StageMap {
        last_lookup: lookups.len(),
        pause,
    })?;
    Ok(())
}

#[tactic(auto, using(crate::proofs::StageSteps::lookups_step, crate::proofs::StageSteps::ends_step))]
/// The lookups of all stages, and the end of each stage.
pub fn all_stages(
    alloc: Global,
    of: &TableFeatures,
    pauses: &[u8],
) -> Result<(Vec<lookup_map_t>, Vec<StageMap>), AllocError>
    ensures lookups { IfOk result (λ all. all.0.items
        ≡ flat_map (λ s. s.lookups)
        (stages_from (stage_lookups of.now.table of.now.chosen.now of.now.required of.now.features.now) 0 pauses.now)) }
    ensures stages { IfOk result (λ all. all.1.items
        ≡ stage_ends 0
        (stages_from (stage_lookups of.now.table of.now.chosen.now of.now.required of.now.features.now) 0 pauses.now)) }
{
    let mut lookups = Vec::new(alloc);
    let mut stages = Vec::new(alloc);
    for (stage, pause) in pauses.iter().enumerate() {
        push_stage(
            &mut lookups,
            &mut stages,
            &stage_lookups(alloc, of, stage)?,
            Some(*pause),
        )?;
    }
    push_stage(
        &mut lookups,
        &mut stages,
        &stage_lookups(alloc, of, pauses.len())?,
        None,
    )?;
    Ok((lookups, stages))
}
