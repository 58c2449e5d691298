//! Maps that builders compile: features with their bits, and the lookups of stages.
use crate::scripts::{tag, tags_of};
use buffer_common::tag::Tag;
use layout_face::Face;
use layout_map::builder::hb_ot_map_builder_t;
use layout_map::features::feature_map_t;
use layout_map::map::hb_ot_map_t;
use layout_map_features::lookup::lookup_map_t;
use layout_map_features::per_table::TableIndex;
use std::alloc::{AllocError, Global};

fn number(word: Option<&str>) -> u32 {
    word.unwrap_or("").parse::<u32>().unwrap_or(0)
}

/// The tag of a request, its flags and its value.
fn feature_of(text: &str) -> (Tag, u32, u32) {
    let mut words = text.split_whitespace();
    let first = words.next().unwrap_or("");
    let tag = if first == "no-tag" {
        Tag(0)
    } else {
        tag(first)
    };
    (tag, number(words.next()), number(words.next()))
}

fn pause_of(text: &str) -> u8 {
    text.parse::<u8>().unwrap_or(0)
}

fn add_request(builder: &mut hb_ot_map_builder_t<'_>, text: &str) -> Result<(), AllocError> {
    let (first, rest) = text.split_once(' ').unwrap_or((text, ""));
    match first {
        "pause" => builder.add_gsub_pause(pause_of(rest)),
        "gpos-pause" => builder.add_gpos_pause(pause_of(rest)),
        "disable" => builder.disable_feature(tag(rest)),
        "enable" => {
            let (tag, flags, value) = feature_of(rest);
            builder.enable_feature(tag, flags, value)
        }
        _ => {
            let (tag, flags, value) = feature_of(text);
            builder.add_feature(tag, flags, value)
        }
    }
}

fn builder_of<'a>(
    alloc: Global,
    font: &'a Face,
    languages: &str,
    requests: &str,
) -> Result<hb_ot_map_builder_t<'a>, AllocError> {
    let languages = tags_of(alloc, languages)?;
    let mut builder = hb_ot_map_builder_t::new(alloc, font, &[tag("grek")], &languages);
    for request in requests.split(',') {
        add_request(&mut builder, request.trim())?;
    }
    Ok(builder)
}

/// Whether a map says of a tag what its feature is.
fn is_found(map: &hb_ot_map_t, feature: &feature_map_t) -> bool {
    map.get_mask(feature.tag) == (feature.mask, feature.shift)
        && map.get_1_mask(feature.tag) == feature.one_mask
        && map.get_feature_index(TableIndex::GSUB, feature.tag) == feature.index.gsub
        && map.get_feature_index(TableIndex::GPOS, feature.tag) == feature.index.gpos
        && map.get_feature_stage(TableIndex::GSUB, feature.tag) == Some(feature.stage.gsub)
        && map.get_feature_stage(TableIndex::GPOS, feature.tag) == Some(feature.stage.gpos)
}

/// Whether a builder and its map agree on the scripts and the features. A language system has each feature that a table
/// has, since none of the rows finds one by a search alone.
fn agree(builder: &hb_ot_map_builder_t<'_>, map: &hb_ot_map_t) -> bool {
    for feature in map.features() {
        let is_in_table = feature.index.gsub.is_some() || feature.index.gpos.is_some();
        if !is_found(map, feature) || builder.has_feature(feature.tag) != is_in_table {
            return false;
        }
    }
    builder.chosen_script(TableIndex::GSUB) == map.chosen_script(TableIndex::GSUB)
        && builder.chosen_script(TableIndex::GPOS) == map.chosen_script(TableIndex::GPOS)
}

/// Appends the characters of a tag.
pub(crate) fn push_tag(text: &mut String, tag: Tag) -> Result<(), AllocError> {
    for byte in tag.to_bytes() {
        text.push(char::from(byte))?;
    }
    Ok(())
}

fn push_feature(text: &mut String, feature: &feature_map_t) -> Result<(), AllocError> {
    let (index, stage) = (feature.index, feature.stage);
    text.push(' ')?;
    push_tag(text, feature.tag)?;
    write!(
        text,
        " [{:?}, {:?}] [{}, {}] {} {:x} {:x} {}{}{}{};",
        index.gsub,
        index.gpos,
        stage.gsub,
        stage.gpos,
        feature.shift,
        feature.mask,
        feature.one_mask,
        u8::from(feature.auto_zwnj),
        u8::from(feature.auto_zwj),
        u8::from(feature.random),
        u8::from(feature.per_syllable)
    )
}

/// Appends the index of a lookup, its mask and its ways to match.
fn push_lookup(text: &mut String, lookup: &lookup_map_t) -> Result<(), AllocError> {
    write!(
        text,
        " {} {:x} {}{}{}{}",
        lookup.index,
        lookup.mask,
        u8::from(lookup.auto_zwnj),
        u8::from(lookup.auto_zwj),
        u8::from(lookup.random),
        u8::from(lookup.per_syllable)
    )
}

/// Appends lookups, with commas between.
pub(crate) fn push_lookups(text: &mut String, lookups: &[lookup_map_t]) -> Result<(), AllocError> {
    for (i, lookup) in lookups.iter().enumerate() {
        if i > 0 {
            text.push(',')?;
        }
        push_lookup(text, lookup)?;
    }
    Ok(())
}

/// Appends the script of a table, and whether it was requested.
fn push_script(text: &mut String, map: &hb_ot_map_t, table: TableIndex) -> Result<(), AllocError> {
    match map.chosen_script(table) {
        Some(tag) => push_tag(text, tag)?,
        None => text.push_str("none")?,
    }
    write!(text, " {}", map.found_script(table))
}

/// Appends the stages of a table.
fn push_stages(text: &mut String, map: &hb_ot_map_t, table: TableIndex) -> Result<(), AllocError> {
    for (i, stage) in map.stages(table).iter().enumerate() {
        push_lookups(text, map.stage_lookups(table, i))?;
        if let Some(pause) = stage.pause {
            write!(text, " /{pause}")?;
        }
    }
    Ok(())
}

fn map_text(alloc: Global, map: &hb_ot_map_t) -> Result<String, AllocError> {
    let mut text = format!(in alloc; "{:x};", map.get_global_mask())?;
    push_map(&mut text, map)?;
    Ok(text)
}

/// Appends the features and the stages of a map.
fn push_map(text: &mut String, map: &hb_ot_map_t) -> Result<(), AllocError> {
    for feature in map.features() {
        push_feature(text, feature)?;
    }
    for (name, table) in [(" gsub ", TableIndex::GSUB), ("; gpos ", TableIndex::GPOS)] {
        text.push_str(name)?;
        push_script(text, map, table)?;
        push_stages(text, map, table)?;
    }
    Ok(())
}

/// Whether a builder's map is that of a row.
fn is_compiled(
    alloc: Global,
    builder: &hb_ot_map_builder_t<'_>,
    answer: &str,
) -> Result<bool, AllocError> {
    let map = builder.compile(alloc)?;
    let text = map_text(alloc, &map)?;
    Ok(text.as_str() == answer && agree(builder, &map))
}

/// Whether the map of requests is that of a row.
pub(crate) fn answers(
    alloc: Global,
    font: &Face,
    question: &str,
    answer: &str,
) -> Result<bool, AllocError> {
    let (languages, requests) = question.split_once(';').unwrap_or(("", question));
    let builder = builder_of(alloc, font, languages, requests)?;
    is_compiled(alloc, &builder, answer)
}
