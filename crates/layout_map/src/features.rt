//! The features of a map, made of requests (rustybuzz: hb/ot_map.rs, `compile`).
ghost use Rattle.std.specs.Prelude.{◌≡◌, ◌==◌, map, fold, find, bit_or, IfOk};
ghost use Rattle.layout_map_features.specs.Fields.{global_bit};
ghost use Rattle.layout_map.specs.Features.{feature_index, feature_with, in_any, is_wanted, listed_features, stage_among, system_features, wanted_requests};

use crate::chosen::FontTables;
pub use crate::chosen_feature::feature_map_t;
use buffer_common::tag::Tag;
use layout_map_features::field::GLOBAL_BIT;
use layout_map_features::kept_fields::{KeptField, field_among};
use layout_map_features::per_table::{PerTable, TableIndex};
use layout_map_features::request::MergedRequest;
use std::alloc::{AllocError, Global};

pub(crate) fn in_any(index: &PerTable<Option<u16>>) -> bool
    ensures { result ≡ in_any index.now }
{
    index.gsub.is_some() || index.gpos.is_some()
}

/// The indices of the features of a tag in the language systems.
pub(crate) fn system_features(tables: &FontTables, tag: Tag) -> PerTable<Option<u16>>
    ensures { result ≡ system_features tag tables.now }
{
    PerTable {
        gsub: tables.gsub.find_feature(tag),
        gpos: tables.gpos.find_feature(tag),
    }
}

fn listed_features(tables: &FontTables, tag: Tag) -> PerTable<Option<u16>>
    ensures { result ≡ listed_features tag tables.now }
{
    PerTable {
        gsub: tables.gsub.find_listed_feature(tag),
        gpos: tables.gpos.find_listed_feature(tag),
    }
}

fn feature_index(tables: &FontTables, request: &MergedRequest) -> PerTable<Option<u16>>
    ensures { result ≡ feature_index tables.now request.now }
{
    let index = system_features(tables, request.tag);
    if in_any(&index) {
        return index;
    }
    if request.global_search {
        return listed_features(tables, request.tag);
    }
    PerTable {
        gsub: None,
        gpos: None,
    }
}

fn is_wanted(tables: &FontTables, request: &MergedRequest) -> bool
    ensures { result ≡ is_wanted tables.now request.now }
{
    in_any(&feature_index(tables, request)) || request.has_fallback
}

/// The requests for features that a table has, or for which the shaper has a fallback.
pub(crate) fn wanted_requests(
    alloc: Global,
    tables: &FontTables,
    requests: &[MergedRequest],
) -> Result<Vec<MergedRequest>, AllocError>
    ensures { IfOk result (λ wanted. wanted.items ≡ wanted_requests tables.now requests.now) }
{
    requests
        .iter()
        .filter(|request| is_wanted(tables, request))
        .copied()
        .collect(alloc)
}

fn feature_with(tables: &FontTables, kept: &KeptField) -> feature_map_t
    ensures { result ≡ feature_with tables.now kept.now.request kept.now.field }
{
    let request = &kept.request;
    let field = &kept.field;
    feature_map_t {
        tag: request.tag,
        index: feature_index(tables, request),
        stage: request.stage,
        shift: field.shift,
        mask: field.mask,
        one_mask: field.one_mask,
        auto_zwnj: request.auto_zwnj,
        auto_zwj: request.auto_zwj,
        random: request.random,
        per_syllable: request.per_syllable,
    }
}

/// The features of the map.
pub(crate) fn features_with(
    alloc: Global,
    tables: &FontTables,
    kept: &[KeptField],
) -> Result<Vec<feature_map_t>, AllocError>
    ensures { IfOk result (λ features. features.items
        ≡ map (λ k. feature_with tables.now k.request k.field) kept.now) }
{
    kept.iter()
        .map(|kept| feature_with(tables, kept))
        .collect(alloc)
}

/// The mask that every glyph starts with.
pub(crate) fn global_mask(kept: &[KeptField]) -> u32
    ensures { result ≡ fold (λ mask k. bit_or mask k.field.default_mask) global_bit kept.now }
{
    kept.iter()
        .fold(GLOBAL_BIT, |mask, kept| mask | kept.field.default_mask)
}

fn request_for(requests: &[MergedRequest], tag: Tag) -> Option<MergedRequest>
    ensures { result ≡ find (λ m. m.tag.0 == tag.0) requests.now }
{
    requests.iter().copied().find(|request| request.tag == tag)
}

/// The stage of a table's required feature.
pub(crate) fn required_stage(
    table: TableIndex,
    requests: &[MergedRequest],
    wanted: &[MergedRequest],
    tag: Tag,
) -> usize
    ensures { result ≡ stage_among table requests.now wanted.now tag }
{
    let Some(request) = request_for(requests, tag) else {
        return 0;
    };
    if field_among(wanted, &request).is_none() {
        return 0;
    }
    *request.stage.get(table)
}
