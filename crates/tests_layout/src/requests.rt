//! Requests that are merged, the bits that features get, and lookups that several features run.
use crate::maps::{push_lookups, push_tag};
use crate::scripts::tag;
use buffer_common::tag::Tag;
use layout_map_features::field::GLOBAL_BIT;
use layout_map_features::kept_fields::{KeptField, kept_fields};
use layout_map_features::lookup::lookup_map_t;
use layout_map_features::merge::{merged_lookups, merged_requests};
use layout_map_features::per_table::PerTable;
use layout_map_features::request::{FeatureRequest, MergedRequest};
use std::alloc::{AllocError, Global};

fn number(word: Option<&str>) -> u32 {
    word.unwrap_or("").parse::<u32>().unwrap_or(0)
}

/// A hexadecimal number.
fn mask(word: Option<&str>) -> u32 {
    u32::from_str_radix(word.unwrap_or(""), 16).unwrap_or(0)
}

fn request(text: &str) -> FeatureRequest {
    let mut words = text.split_whitespace();
    FeatureRequest {
        tag: tag(words.next().unwrap_or("")),
        flags: number(words.next()),
        value: number(words.next()),
        stage: PerTable {
            gsub: number(words.next()) as usize,
            gpos: 0,
        },
    }
}

fn requests(alloc: Global, text: &str) -> Result<Vec<FeatureRequest>, AllocError> {
    text.split(',').map(|text| request(text)).collect(alloc)
}

#[tactic(auto, using(layout_map_features::proofs::Rising::requests_rise))]
fn kept_of(alloc: Global, requests: &[FeatureRequest]) -> Result<Vec<KeptField>, AllocError> {
    let merged = merged_requests(alloc, requests)?;
    kept_fields(alloc, &merged)
}

fn global_mask(kept: &[KeptField]) -> u32 {
    let mut mask = GLOBAL_BIT;
    for kept in kept {
        mask |= kept.field.default_mask;
    }
    mask
}

/// Appends the mask of all glyphs, and the fields of features, with commas between.
fn push_fields(text: &mut String, kept: &[KeptField]) -> Result<(), AllocError> {
    write!(text, "{:x};", global_mask(kept))?;
    for (i, kept) in kept.iter().enumerate() {
        text.push_str(if i > 0 { ", " } else { " " })?;
        push_tag(text, kept.request.tag)?;
        let (field, stage) = (kept.field, kept.request.stage.gsub);
        write!(
            text,
            " {} {:x} {:x} {stage}",
            field.shift, field.mask, field.one_mask
        )?;
    }
    Ok(())
}

/// Appends merged requests and for what each of them is.
fn push_merged(text: &mut String, merged: &[MergedRequest]) -> Result<(), AllocError> {
    for request in merged {
        push_tag(text, request.tag)?;
        write!(
            text,
            " {}{}{}{}{}{}",
            u8::from(request.is_global),
            u8::from(request.has_fallback),
            u8::from(request.random),
            u8::from(request.auto_zwnj),
            u8::from(request.auto_zwj),
            u8::from(request.per_syllable)
        )?;
    }
    Ok(())
}

/// A lookup by its index, its mask and its ways to match.
fn lookup(text: &str) -> lookup_map_t {
    let mut words = text.split_whitespace();
    let (index, bits) = (number(words.next()), mask(words.next()));
    let ways = words.next().unwrap_or("").as_bytes();
    lookup_map_t {
        auto_zwnj: ways.first() == Some(&b'1'),
        auto_zwj: ways.get(1) == Some(&b'1'),
        random: ways.get(2) == Some(&b'1'),
        per_syllable: ways.get(3) == Some(&b'1'),
        ..plain_lookup(u16::try_from(index).unwrap_or(0), bits)
    }
}

/// A lookup that skips ZWNJ and ZWJ.
fn plain_lookup(index: u16, mask: u32) -> lookup_map_t {
    lookup_map_t {
        index,
        mask,
        auto_zwnj: true,
        auto_zwj: true,
        random: false,
        per_syllable: false,
    }
}

fn merged_lookups_of(alloc: Global, text: &str) -> Result<Vec<lookup_map_t>, AllocError> {
    let (limit, text) = text.split_once(';').unwrap_or(("", text));
    let lookups: Vec<lookup_map_t> = text.split(',').map(|text| lookup(text)).collect(alloc)?;
    merged_lookups(alloc, number(Some(limit)) as usize, &lookups)
}

/// Appends what requests or lookups become.
fn push_found(alloc: Global, found: &mut String, kind: &str, text: &str) -> Result<(), AllocError> {
    match kind {
        "fields" => push_fields(found, &kept_of(alloc, &requests(alloc, text)?)?),
        "merged" => push_merged(found, &merged_requests(alloc, &requests(alloc, text)?)?),
        _ => push_lookups(found, &merged_lookups_of(alloc, text)?),
    }
}

/// Whether requests or lookups become what a row says.
pub(crate) fn answers(
    alloc: Global,
    kind: &str,
    text: &str,
    answer: &str,
) -> Result<bool, AllocError> {
    let mut found = String::new(alloc);
    push_found(alloc, &mut found, kind, text)?;
    Ok(found.as_str().trim() == answer)
}

/// More requests than are merged in a list: 300 of 150 tags, which fall.
fn many_requests(alloc: Global) -> Result<Vec<FeatureRequest>, AllocError> {
    let mut asked = Vec::new(alloc);
    for number in (0..300u32).rev() {
        asked.push(FeatureRequest {
            tag: Tag(number / 2),
            flags: 0,
            value: 1 + number % 2,
            stage: PerTable { gsub: 0, gpos: 0 },
        })?;
    }
    Ok(asked)
}

/// Whether requests are those of the tags 0, 1 and so on, with the greater of two values.
fn are_merged(merged: &[MergedRequest]) -> bool {
    for (tag, request) in (0u32..).zip(merged.iter()) {
        if (request.tag.0, request.max_value) != (tag, 2) {
            return false;
        }
    }
    true
}

pub(crate) fn many_requests_are_merged(alloc: Global) -> Result<bool, AllocError> {
    let merged = merged_requests(alloc, &many_requests(alloc)?)?;
    Ok(merged.len() == 150 && are_merged(&merged))
}

/// More lookups than are merged in a list: 300 of 150 indices, which fall.
fn many_lookups(alloc: Global) -> Result<Vec<lookup_map_t>, AllocError> {
    let mut uses = Vec::new(alloc);
    for number in (0..300u16).rev() {
        uses.push(plain_lookup(number / 2, 16 << (number % 2)))?;
    }
    Ok(uses)
}

/// Whether a lookup skips ZWNJ and ZWJ, is not random and not per syllable.
fn is_plain(lookup: &lookup_map_t) -> bool {
    lookup.auto_zwnj && lookup.auto_zwj && !lookup.random && !lookup.per_syllable
}

/// Whether lookups are those of the indices 0, 1 and so on, with both masks.
fn are_merged_lookups(merged: &[lookup_map_t]) -> bool {
    for (index, lookup) in (0u16..).zip(merged.iter()) {
        if (lookup.index, lookup.mask) != (index, 0x30) || !is_plain(lookup) {
            return false;
        }
    }
    true
}

/// Whether many lookups are merged for a table that has 140.
pub(crate) fn many_lookups_are_merged(alloc: Global) -> Result<bool, AllocError> {
    let merged = merged_lookups(alloc, 140, &many_lookups(alloc)?)?;
    Ok(merged.len() == 140 && are_merged_lookups(&merged))
}
