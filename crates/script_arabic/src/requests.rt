//! The feature requests of the Arabic shaper (rustybuzz: hb/ot_shaper_arabic.rs).
//!
//! A list of requests is data, in the order in which rustybuzz requests them. Those of Arabic and of Syriac differ in
//! flags alone, and each is written whole, as its definition is.
ghost use Rattle.std.specs.Prelude.{◌≡◌, codes, fold, OnOk};
ghost use Rattle.buffer_common.specs.Tag.{tag_of};
ghost use Rattle.layout_map.specs.Features.{in_any, system_features};
ghost use Rattle.layout_map.specs.Requests.{with_map_request};
ghost use Rattle.script_arabic.specs.Requests.{arabic_features, arabic_forms, is_arabic, required_contexts, stage_end_if};

use buffer_common::script::{ARABIC, Script};
use buffer_common::tag::Tag;
use layout_map::builder::hb_ot_map_builder_t;
use layout_map::request::{MapRequest, add_request, add_requests};
use layout_map::{add_feature, enable_feature};
use layout_map_features::flags::{F_HAS_FALLBACK, F_MANUAL_ZWJ, F_NONE};
use script_categories::hb_script_pause_t::RecordStch;
use std::alloc::AllocError;

const WITH_FALLBACK: u32 = F_MANUAL_ZWJ | F_HAS_FALLBACK;

const ARABIC_FORMS: [MapRequest; 20] = [
    enable_feature!(b"stch", F_NONE),
    MapRequest::GsubPause(RecordStch as u8),
    enable_feature!(b"ccmp", F_MANUAL_ZWJ),
    enable_feature!(b"locl", F_MANUAL_ZWJ),
    MapRequest::GsubPause(0),
    add_feature!(b"isol", WITH_FALLBACK),
    MapRequest::GsubPause(0),
    add_feature!(b"fina", WITH_FALLBACK),
    MapRequest::GsubPause(0),
    add_feature!(b"fin2", F_MANUAL_ZWJ),
    MapRequest::GsubPause(0),
    add_feature!(b"fin3", F_MANUAL_ZWJ),
    MapRequest::GsubPause(0),
    add_feature!(b"medi", WITH_FALLBACK),
    MapRequest::GsubPause(0),
    add_feature!(b"med2", F_MANUAL_ZWJ),
    MapRequest::GsubPause(0),
    add_feature!(b"init", WITH_FALLBACK),
    MapRequest::GsubPause(0),
    enable_feature!(b"rlig", WITH_FALLBACK),
];

const SYRIAC_FORMS: [MapRequest; 20] = [
    enable_feature!(b"stch", F_NONE),
    MapRequest::GsubPause(RecordStch as u8),
    enable_feature!(b"ccmp", F_MANUAL_ZWJ),
    enable_feature!(b"locl", F_MANUAL_ZWJ),
    MapRequest::GsubPause(0),
    add_feature!(b"isol", F_MANUAL_ZWJ),
    MapRequest::GsubPause(0),
    add_feature!(b"fina", F_MANUAL_ZWJ),
    MapRequest::GsubPause(0),
    add_feature!(b"fin2", F_MANUAL_ZWJ),
    MapRequest::GsubPause(0),
    add_feature!(b"fin3", F_MANUAL_ZWJ),
    MapRequest::GsubPause(0),
    add_feature!(b"medi", F_MANUAL_ZWJ),
    MapRequest::GsubPause(0),
    add_feature!(b"med2", F_MANUAL_ZWJ),
    MapRequest::GsubPause(0),
    add_feature!(b"init", F_MANUAL_ZWJ),
    MapRequest::GsubPause(0),
    enable_feature!(b"rlig", WITH_FALLBACK),
];

const REQUIRED_CONTEXTS: [MapRequest; 2] = [
    MapRequest::GsubPause(0),
    enable_feature!(b"rclt", F_MANUAL_ZWJ),
];

const LIGATURES: [MapRequest; 3] = [
    enable_feature!(b"liga", F_MANUAL_ZWJ),
    enable_feature!(b"clig", F_MANUAL_ZWJ),
    enable_feature!(b"mset", F_MANUAL_ZWJ),
];

/// Requests the features of the letters' forms, each in a GSUB stage of its own.
fn request_forms(builder: &mut hb_ot_map_builder_t, is_arabic: bool) -> Result<(), AllocError>
    ensures { OnOk result (builder.new ≡ fold with_map_request builder.old (arabic_forms is_arabic)) }
{
    if is_arabic {
        add_requests(builder, &ARABIC_FORMS)
    } else {
        add_requests(builder, &SYRIAC_FORMS)
    }
}

fn end_stage_if(builder: &mut hb_ot_map_builder_t, ends: bool) -> Result<(), AllocError>
    ensures { OnOk result (builder.new ≡ fold with_map_request builder.old (stage_end_if ends)) }
{
    if ends {
        add_request(builder, MapRequest::GsubPause(0))?;
    }
    Ok(())
}

fn request_required_contexts(
    builder: &mut hb_ot_map_builder_t,
    has_rclt: bool,
) -> Result<(), AllocError>
    ensures { OnOk result (builder.new ≡ fold with_map_request builder.old (required_contexts has_rclt)) }
{
    if has_rclt {
        return Ok(());
    }
    add_requests(builder, &REQUIRED_CONTEXTS)
}

fn request_features(
    builder: &mut hb_ot_map_builder_t,
    is_arabic: bool,
    has_rclt: bool,
) -> Result<(), AllocError>
    ensures { OnOk result (builder.new ≡ fold with_map_request builder.old (arabic_features is_arabic has_rclt)) }
{
    request_forms(builder, is_arabic)?;
    end_stage_if(builder, is_arabic)?;
    builder.enable_feature(Tag::from_bytes(b"calt"), F_MANUAL_ZWJ, 1)?;
    request_required_contexts(builder, has_rclt)?;
    add_requests(builder, &LIGATURES)
}

/// Requests the shaper's features for a script (`collect_features`).
pub fn collect_features(
    builder: &mut hb_ot_map_builder_t,
    script: Option<Script>,
) -> Result<(), AllocError>
    ensures { OnOk result (builder.new ≡ fold with_map_request builder.old
        (arabic_features (is_arabic script) (in_any (system_features (tag_of (codes "rclt")) builder.old.tables)))) }
{
    let has_rclt = builder.has_feature(Tag::from_bytes(b"rclt"));
    request_features(builder, script == Some(ARABIC), has_rclt)
}
