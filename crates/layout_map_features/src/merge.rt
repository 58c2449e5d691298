//! Requests merged by tag, and lookups merged by index (rustybuzz: hb/ot_map.rs, `compile`).
ghost use Rattle.std.specs.Prelude.{◌≡◌, IfOk, OnOk};
ghost use Rattle.buffer_rows.specs.Pages.{IsStart};
ghost use Rattle.layout_map_features.specs.Entering.{entries_of, entries_with, RisesFrom};
ghost use Rattle.layout_map_features.specs.Lookups.{entries_below_with, merged_lookups};
ghost use Rattle.layout_map_features.specs.Requests.{request_with_later, merged_request, merged_requests};

use crate::lookup::lookup_map_t;
use crate::request::{FeatureRequest, MergedRequest};
use std::alloc::{AllocError, Global};
use std::collections::BTreeMap;

/// Up to how many requests or lookups are merged in a list that is kept in order: a plan has few, and a list of few is
/// faster than a tree. More are merged in a tree, since an insertion moves all that follows it in a list.
const FEW: usize = 256;

/// The merged requests for each requested tag, by rising tags.
pub fn merged_requests(
    alloc: Global,
    requests: &[FeatureRequest],
) -> Result<Vec<MergedRequest>, AllocError>
    ensures { IfOk result (λ merged_request. merged_request.items ≡ merged_requests requests.now) }
{
    if requests.len() > FEW {
        return many_requests(alloc, requests);
    }
    few_requests(alloc, requests)
}

fn few_requests(
    alloc: Global,
    requests: &[FeatureRequest],
) -> Result<Vec<MergedRequest>, AllocError>
    ensures { IfOk result (λ merged. merged.items ≡ merged_requests requests.now) }
{
    let mut merged = Vec::with_capacity(alloc, requests.len())?;
    for request in requests {
        merge_request(&mut merged, request)?;
    }
    Ok(merged)
}

/// The index of the merged requests for a tag, or where they are to be inserted.
fn tag_index(merged: &[MergedRequest], tag: u32) -> usize
    requires { RisesFrom (λ m. m.tag.0) 0 merged.now }
    ensures { IsStart (λ m. m.tag.0) merged.now tag result }
{
    merged.partition_point(|other| other.tag.0 < tag)
}

/// Merges a request into a list in the order of tags.
fn merge_request(
    merged: &mut Vec<MergedRequest>,
    request: &FeatureRequest,
) -> Result<(), AllocError>
    requires { RisesFrom (λ m. m.tag.0) 0 merged.old.items }
    ensures { OnOk result (entries_of (λ m. m.tag.0) merged.new.items
        ≡ entries_with (λ r. r.tag.0) merged_request request_with_later (entries_of (λ m. m.tag.0) merged.old.items)
        request.now) }
{
    let at = tag_index(merged, request.tag.0);
    if at < merged.len() && merged[at].tag.0 == request.tag.0 {
        merged[at] = merged[at].with(request);
        return Ok(());
    }
    merged.insert(at, MergedRequest::new(request))?;
    Ok(())
}

fn enter_request(
    by_tag: &mut BTreeMap<u32, MergedRequest>,
    request: &FeatureRequest,
) -> Result<(), AllocError>
    ensures { OnOk result
        (by_tag.new.entries ≡ entries_with (λ r. r.tag.0) merged_request request_with_later by_tag.old.entries request.now) }
{
    let merged = match by_tag.get(&request.tag.0) {
        Some(before) => before.with(request),
        None => MergedRequest::new(request),
    };
    by_tag.insert(request.tag.0, merged)?;
    Ok(())
}

#[tactic(auto, using(crate::proofs::Grouping::no_entries))]
fn many_requests(
    alloc: Global,
    requests: &[FeatureRequest],
) -> Result<Vec<MergedRequest>, AllocError>
    ensures { IfOk result (λ merged. merged.items ≡ merged_requests requests.now) }
{
    let mut by_tag = BTreeMap::new(alloc);
    for request in requests {
        enter_request(&mut by_tag, request)?;
    }
    by_tag.into_values().collect(alloc)
}

/// The lookups below a count, by index, each merged from its features.
pub fn merged_lookups(
    alloc: Global,
    count: usize,
    uses: &[lookup_map_t],
) -> Result<Vec<lookup_map_t>, AllocError>
    ensures { IfOk result (λ lookups. lookups.items ≡ merged_lookups count uses.now) }
{
    if uses.len() > FEW {
        return many_lookups(alloc, count, uses);
    }
    few_lookups(alloc, count, uses)
}

fn few_lookups(
    alloc: Global,
    count: usize,
    uses: &[lookup_map_t],
) -> Result<Vec<lookup_map_t>, AllocError>
    ensures { IfOk result (λ lookups. lookups.items ≡ merged_lookups count uses.now) }
{
    let mut merged = Vec::with_capacity(alloc, uses.len())?;
    for lookup in uses {
        merge_lookup(&mut merged, count, lookup)?;
    }
    Ok(merged)
}

/// The index of a lookup in the list, or where it is to be inserted: mostly the end, since a font lists the lookups of
/// a feature in order.
fn lookup_index(merged: &[lookup_map_t], index: u16) -> usize
    requires { RisesFrom (λ l. l.index) 0 merged.now }
    ensures { IsStart (λ l. l.index) merged.now index result }
{
    match merged.last() {
        Some(last) if last.index >= index => merged.partition_point(|other| other.index < index),
        _ => merged.len(),
    }
}

/// Merges a lookup, if it is below the count, into a list in the order of indices.
fn merge_lookup(
    merged: &mut Vec<lookup_map_t>,
    count: usize,
    lookup: &lookup_map_t,
) -> Result<(), AllocError>
    requires { RisesFrom (λ l. l.index) 0 merged.old.items }
    ensures { OnOk result (entries_of (λ l. l.index) merged.new.items
        ≡ entries_below_with count (entries_of (λ l. l.index) merged.old.items) lookup.now) }
{
    if usize::from(lookup.index) >= count {
        return Ok(());
    }
    let at = lookup_index(merged, lookup.index);
    if at < merged.len() && merged[at].index == lookup.index {
        merged[at] = merged[at].with(lookup);
        return Ok(());
    }
    merged.insert(at, *lookup)?;
    Ok(())
}

fn enter_lookup(
    by_index: &mut BTreeMap<u16, lookup_map_t>,
    count: usize,
    lookup: &lookup_map_t,
) -> Result<(), AllocError>
    ensures { OnOk result (by_index.new.entries ≡ entries_below_with count by_index.old.entries lookup.now) }
{
    if usize::from(lookup.index) >= count {
        return Ok(());
    }
    let joined = match by_index.get(&lookup.index) {
        Some(before) => before.with(lookup),
        None => *lookup,
    };
    by_index.insert(lookup.index, joined)?;
    Ok(())
}

#[tactic(auto, using(crate::proofs::Grouping::no_entries))]
fn many_lookups(
    alloc: Global,
    count: usize,
    uses: &[lookup_map_t],
) -> Result<Vec<lookup_map_t>, AllocError>
    ensures { IfOk result (λ lookups. lookups.items ≡ merged_lookups count uses.now) }
{
    let mut by_index = BTreeMap::new(alloc);
    for lookup in uses {
        enter_lookup(&mut by_index, count, lookup)?;
    }
    by_index.into_values().collect(alloc)
}
