//! Features (OpenType, chapter 2, feature list and feature tables).
ghost use Rattle.std.specs.Prelude.{◌≡◌, ◌≢◌, ◌≤◌, ◌+◌, ◌*◌, IfOk, IfErr, Ok, Err, length};
ghost use Rattle.font_bytes.specs.declared.fault.TableFault.{TableFault};
ghost use Rattle.font_lists.specs.Features.{feature_at, feature_list_at, feature_of, features_of, default_records, default_record};
ghost use Rattle.font_lists.specs.Tagged.{tag_record, tag_records};
ghost use Rattle.buffer_rows.specs.Keys.{row_of};
ghost use Rattle.std.specs.Option.{option_copied};

use crate::scripts::read_known_indices;
use crate::tagged::{TagRecord, TaggedReader, read_tagged_tables, tag_record};
use crate::variations::AlternateFeature;
use buffer_rows::SortedRows;
use font_bytes::fault::TableFault;
use font_bytes::room::Room;
use font_bytes::words::{need, word};
use layout_tables::table::FeatureRecord;
use std::alloc::Global;

/// Reads a feature table.
fn read_feature(
    alloc: Global,
    lookup_count: usize,
    table: &[u8],
    tagged: TagRecord,
    room: &mut Room,
) -> Result<FeatureRecord, TableFault>
    ensures ok { IfOk result (λ f. feature_at lookup_count room.old.left table.now tagged ≡ Ok (f, room.new.left)) }
    ensures tag { IfOk result (λ f. f.tag.0 ≡ tagged.tag.0) }
    ensures refused { IfErr result (λ e. e ≢ TableFault.OutOfMemory
        → feature_at lookup_count room.old.left table.now tagged ≡ Err e) }
{
    let at = tagged.at;
    need(table, at, 4)?;
    let count = usize::from(word(table, at + 2));
    need(table, at + 4, 2 * count)?;
    room.take(count)?;
    let lookups = read_known_indices(alloc, lookup_count, table, at + 4, count)?;
    Ok(FeatureRecord::new(tagged.tag, lookups))
}

/// Features of a table of n lookups.
#[derive(Clone, Copy)]
pub struct FeatureReader {
    pub lookup_count: usize,
}

impl TaggedReader for FeatureReader {
    type Value = FeatureRecord;

    ghost value_of = { λ r. feature_of r.lookup_count };

    ghost tag_of = { λ f. f.tag.0 };

    fn read_tagged(
        &self,
        alloc: Global,
        table: &[u8],
        tagged: TagRecord,
        room: &mut Room,
    ) -> Result<FeatureRecord, TableFault> {
        if tagged.at == 0 {
            return Ok(FeatureRecord::new(tagged.tag, Vec::new(alloc)));
        }
        read_feature(alloc, self.lookup_count, table, tagged, room)
    }
}

/// A feature record at the default instance: the tag with the offset of the alternate feature, where there is one.
fn default_record(alternate: Option<&AlternateFeature>, tagged: TagRecord) -> TagRecord
    ensures { result ≡ default_record (option_copied alternate.entry) tagged }
{
    match alternate {
        Some(alternate) => TagRecord {
            tag: tagged.tag,
            at: alternate.at,
        },
        None => tagged,
    }
}

/// The feature record at an offset, with that of the alternate feature for its index.
#[tactic(auto, using(buffer_rows::proofs::Searched::row_of_number))]
fn feature_record(
    alternates: &SortedRows<AlternateFeature>,
    index: usize,
    table: &[u8],
    base: usize,
    at: usize,
) -> TagRecord
    requires base_within { base ≤ length table.now }
    requires within { at + 6 ≤ length table.now }
    ensures { result ≡ default_record (row_of (λ p. p.feature_index) index alternates.now) (tag_record table.now base at) }
{
    default_record(alternates.get(index), tag_record(table, base, at))
}

/// Reads an array of n feature records at the default instance, where alternate features stand in the place of others.
#[tactic(auto, using(font_bytes::proofs::Recorded::records_more, font_bytes::proofs::Recorded::records_end))]
fn read_feature_records(
    alloc: Global,
    alternates: &SortedRows<AlternateFeature>,
    table: &[u8],
    base: usize,
    at: usize,
    count: usize,
) -> Result<Vec<TagRecord>, TableFault>
    requires base_within { base ≤ length table.now }
    requires within { at + 6 * count ≤ length table.now }
    ensures ok { IfOk result (λ v. v.items ≡ default_records alternates.now 0 (tag_records table.now base at count)) }
    ensures refused { IfErr result (λ e. e ≡ TableFault.OutOfMemory) }
{
    let mut tagged = Vec::with_capacity(alloc, count)?;
    for index in 0..count {
        let one = feature_record(alternates, index, table, base, at + 6 * index);
        tagged.push(one)?;
    }
    Ok(tagged)
}

/// Reads a feature list.
fn read_feature_list(
    alloc: Global,
    lookup_count: usize,
    alternates: &SortedRows<AlternateFeature>,
    table: &[u8],
    at: usize,
    room: &mut Room,
) -> Result<Vec<FeatureRecord>, TableFault>
    ensures ok { IfOk result (λ v. feature_list_at lookup_count alternates.now room.old.left table.now at
        ≡ Ok (v.items, room.new.left)) }
    ensures refused { IfErr result (λ e. e ≢ TableFault.OutOfMemory
        → feature_list_at lookup_count alternates.now room.old.left table.now at ≡ Err e) }
{
    need(table, at, 2)?;
    let count = usize::from(word(table, at));
    need(table, at + 2, 6 * count)?;
    room.take(count)?;
    let tagged = read_feature_records(alloc, alternates, table, at, at + 2, count)?;
    let reader = FeatureReader { lookup_count };
    read_tagged_tables(&reader, alloc, table, &tagged, room)
}

/// Reads the features of a list, none where its offset is null, in a table of n lookups; alternates stand in the place of
/// the features with their indices.
pub fn read_features(
    alloc: Global,
    lookup_count: usize,
    alternates: &SortedRows<AlternateFeature>,
    table: &[u8],
    at: usize,
    room: &mut Room,
) -> Result<Vec<FeatureRecord>, TableFault>
    ensures ok { IfOk result (λ v. features_of lookup_count alternates.now room.old.left table.now at
        ≡ Ok (v.items, room.new.left)) }
    ensures refused { IfErr result (λ e. e ≢ TableFault.OutOfMemory
        → features_of lookup_count alternates.now room.old.left table.now at ≡ Err e) }
{
    if at == 0 {
        return Ok(Vec::new(alloc));
    }
    read_feature_list(alloc, lookup_count, alternates, table, at, room)
}
