//! Texts that are shaped in turn by plans of a cache.
ghost use Rattle.std.specs.Prelude.{◌<◌};
ghost use Rattle.buffer_tags.specs.LanguageTable.{tags_of_table};
ghost use Rattle.plan_cache.specs.Cache.{IsCacheOf};

use crate::data::{ReadTables, face_of};
use crate::rows::part;
use buffer_common::language::Language;
use buffer_common::script::Script;
use buffer_glyphs::flags::SerializeFlags;
use buffer_tags::feature::Feature;
use buffer_tags::language_table::LanguageTable;
use buffer_wrappers::glyphs::GlyphBuffer;
use buffer_wrappers::unicode_buffer::UnicodeBuffer;
use layout_face::Face;
use plan_cache::{CachedPlan, PlanCache};
use script_categories::SyllableTable;
use shape_pipeline::hb_shape_data_t;
use shape_pipeline::shaping::{ShapeFault, shape};
use std::alloc::{AllocError, Global};
use std::process::Abort;
use std::test::Fail;

static TABLES: &str = r#"{"languages":[["de",["DEU "]],["ro",["MOL ","ROM "]]]}"#;

// Its language system for Romanian has a localized form of `a`, and not the ligature feature of the default system.
static FONT: &str =
    r#"{"cmap":[[97,1],[98,2],[945,5],[1072,6]],"gsub":{"scripts":[["DFLT",{"features":[0]},[["ROM ",{"features":[1]}]]]],"features":[["liga",[0]],["locl",[1]]],"lookups":[{"type":"single","subtables":[[[2,4]]]},{"type":"single","subtables":[[[1,3]]]}]}}"#;

// Texts in turn: the characters, the language, the feature that is requested, the glyphs, and then the plans of the cache,
// the least recently used first: script, language, and a plus sign for a feature.

// A cache for two. A language without tags has those of its primary subtag, and so its plan. A text without characters
// uses no plan.
static LANGUAGES: &str = "ab;;;1|4;Latn
ab;;;1|4;Latn
ab;ro;;3|2;Latn Latn/ro
ab;ro-md;;3|2;Latn Latn/ro
ab;;;1|4;Latn/ro Latn
ab;;liga=0;1|2;Latn Latn+
ab;;;1|4;Latn+ Latn
ab;de;;1|4;Latn Latn/de
\u{5d0};de;;0;Latn/de Hebr/de
;;;;Latn/de Hebr/de
12;;;0|0;Hebr/de -
\u{5d1};de;;0;- Hebr/de";

// A cache for four: two scripts and then three in turn, with numerals between.
static SCRIPTS: &str = "ab;;;1|4;Latn
12;;;0|0;Latn -
\u{3b1};;;5;Latn - Grek
ab;;;1|4;- Grek Latn
12;;;0|0;Grek Latn -
\u{3b1};;;5;Latn - Grek
\u{430};;;6;Latn - Grek Cyrl
12;;;0|0;Latn Grek Cyrl -
ab;;;1|4;Grek Cyrl - Latn
\u{3b1};;;5;Cyrl - Latn Grek
\u{430};;;6;- Latn Grek Cyrl";

// A cache for eight: the ninth script drops the plan that was not used for the longest time.
static NINE: &str = "ab;;;1|4;Latn
\u{3b1};;;5;Latn Grek
\u{430};;;6;Latn Grek Cyrl
\u{561};;;0;Latn Grek Cyrl Armn
\u{5d0};;;0;Latn Grek Cyrl Armn Hebr
\u{10d0};;;0;Latn Grek Cyrl Armn Hebr Geor
\u{e01};;;0;Latn Grek Cyrl Armn Hebr Geor Thai
\u{3042};;;0;Latn Grek Cyrl Armn Hebr Geor Thai Hira
ab;;;1|4;Grek Cyrl Armn Hebr Geor Thai Hira Latn
\u{13a0};;;0;Cyrl Armn Hebr Geor Thai Hira Latn Cher
\u{3b1};;;5;Armn Hebr Geor Thai Hira Latn Cher Grek";

/// A script's ISO 15924 tag; `-` where there is none.
fn push_script(text: &mut String, script: Option<Script>) -> Result<(), AllocError> {
    let Some(script) = script else {
        return text.push('-');
    };
    for byte in script.tag().to_bytes() {
        text.push(char::from(byte))?;
    }
    Ok(())
}

fn push_key(text: &mut String, cached: &CachedPlan) -> Result<(), AllocError> {
    if !text.is_empty() {
        text.push(' ')?;
    }
    push_script(text, cached.plan.script_plan.script)?;
    if let Some(language) = &cached.language {
        text.push('/')?;
        text.push_str(language.as_str())?;
    }
    for _feature in cached.plan.user_features.as_slice() {
        text.push('+')?;
    }
    Ok(())
}

/// What the plans of a cache are for, the least recently used first.
fn keys_of(alloc: Global, cache: &PlanCache) -> Result<String, AllocError> {
    let mut keys = String::new(alloc);
    for cached in cache.plans() {
        push_key(&mut keys, cached)?;
    }
    Ok(keys)
}

fn text_of(alloc: Global, turn: &str) -> Result<UnicodeBuffer, Fail> {
    let mut text = UnicodeBuffer::new(alloc);
    if !text.push_str(part(turn, 0))? {
        return Err("no room".into());
    }
    if !part(turn, 1).is_empty() {
        text.set_language(Language::from_str(alloc, part(turn, 1))?);
    }
    Ok(text)
}

fn features_of(alloc: Global, turn: &str) -> Result<Vec<Feature>, Fail> {
    let mut features = Vec::new(alloc);
    if !part(turn, 2).is_empty() {
        features.push(part(turn, 2).parse()?)?;
    }
    Ok(features)
}

/// What is printed of a text's glyphs.
fn printed(
    alloc: Global,
    face: &Face,
    shaped: Result<GlyphBuffer, ShapeFault>,
) -> Result<String, Fail> {
    match shaped {
        Ok(glyphs) => Ok(glyphs.serialize(alloc, face, SerializeFlags(7))?),
        Err(fault) => Err(fault.cause.into()),
    }
}

/// Shapes a turn's text without a plan, which gives its glyphs.
fn alone_agrees(
    rt: &impl Abort,
    alloc: Global,
    face: &Face,
    shape_data: hb_shape_data_t<'_, SyllableTable, LanguageTable>,
    features: &[Feature],
    turn: &str,
) -> Result<(), Fail> {
    let text = text_of(alloc, turn)?;
    let shaped = shape(alloc, face, shape_data, features, text);
    let alone = printed(alloc, face, shaped)?;
    assert_eq!(rt; alone.as_str(), part(turn, 3), "{turn}");
    Ok(())
}

/// Shapes a turn's text by the cache, which gives its glyphs.
fn cached_agrees(
    rt: &impl Abort,
    alloc: Global,
    face: &Face,
    shape_data: hb_shape_data_t<'_, SyllableTable, LanguageTable>,
    cache: &mut PlanCache,
    features: &[Feature],
    turn: &str,
) -> Result<(), Fail>
    requires { IsCacheOf face.now (tags_of_table shape_data.languages.now) cache.old }
    ensures { IsCacheOf face.now (tags_of_table shape_data.entry.languages.now) cache.new }
{
    let text = text_of(alloc, turn)?;
    let shaped = cache.shape(alloc, face, shape_data, features, text);
    let cached = printed(alloc, face, shaped)?;
    assert_eq!(rt; cached.as_str(), part(turn, 3), "{turn}");
    Ok(())
}

/// The cache has a turn's plans.
fn keys_agree(rt: &impl Abort, alloc: Global, cache: &PlanCache, turn: &str) -> Result<(), Fail> {
    let keys = keys_of(alloc, cache)?;
    assert_eq!(rt; keys.as_str(), part(turn, 4), "{turn}");
    Ok(())
}

/// Shapes a turn's text without a plan and by the cache: both give its glyphs, and the cache has its plans.
fn turn_agrees(
    rt: &impl Abort,
    alloc: Global,
    face: &Face,
    shape_data: hb_shape_data_t<'_, SyllableTable, LanguageTable>,
    cache: &mut PlanCache,
    turn: &str,
) -> Result<(), Fail>
    requires { IsCacheOf face.now (tags_of_table shape_data.languages.now) cache.old }
    ensures { IsCacheOf face.now (tags_of_table shape_data.entry.languages.now) cache.new }
{
    let features = features_of(alloc, turn)?;
    alone_agrees(rt, alloc, face, shape_data, &features, turn)?;
    cached_agrees(rt, alloc, face, shape_data, cache, &features, turn)?;
    keys_agree(rt, alloc, cache, turn)
}

/// Shapes the text of each turn by one cache.
fn each_turn_agrees(
    rt: &impl Abort,
    alloc: Global,
    face: &Face,
    shape_data: hb_shape_data_t<'_, SyllableTable, LanguageTable>,
    cache: &mut PlanCache,
    turns: &str,
) -> Result<(), Fail>
    requires { IsCacheOf face.now (tags_of_table shape_data.languages.now) cache.old }
{
    for turn in turns.lines() {
        turn_agrees(rt, alloc, face, shape_data, cache, turn)?;
    }
    Ok(())
}

/// Shapes texts in turn by a cache for some plans.
fn turns_agree(rt: &impl Abort, alloc: Global, bound: usize, turns: &str) -> Result<(), Fail>
    requires { 0 < bound }
{
    let tables = ReadTables::from_text(alloc, TABLES)?;
    let face = face_of(alloc, FONT)?;
    let data = tables.borrowed().data();
    let mut cache = PlanCache::new(alloc, bound);
    each_turn_agrees(rt, alloc, &face, data, &mut cache, turns)
}

#[test]
fn plans_are_used_again(rt: HostRuntime) -> Result<(), Fail> {
    turns_agree(&rt, rt.alloc(), 2, LANGUAGES)?;
    turns_agree(&rt, rt.alloc(), 4, SCRIPTS)?;
    turns_agree(&rt, rt.alloc(), 8, NINE)
}
