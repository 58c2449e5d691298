//! The feature requests of the universal shaper (rustybuzz: hb/ot_shaper_use.rs).
ghost use Rattle.std.specs.Prelude.{◌≡◌, fold, OnOk};
ghost use Rattle.layout_map.specs.Requests.{with_map_request};
ghost use Rattle.script_universal.specs.Requests.{universal_features};

use layout_map::builder::hb_ot_map_builder_t;
use layout_map::request::{MapRequest, add_requests};
use layout_map::{add_feature, enable_feature};
use layout_map_features::flags::{F_MANUAL_ZWJ, F_NONE, F_PER_SYLLABLE};
use script_categories::hb_script_pause_t::{
    ClearSubstitutionFlags, ClearSyllables, RecordPref, RecordRphf, ReorderUse, SetupSyllables,
};
use std::alloc::AllocError;

const ZWJ_IN_SYLLABLE: u32 = F_MANUAL_ZWJ | F_PER_SYLLABLE;

const FEATURES: [MapRequest; 30] = [
    MapRequest::GsubPause(SetupSyllables as u8),
    enable_feature!(b"locl", F_PER_SYLLABLE),
    enable_feature!(b"ccmp", F_PER_SYLLABLE),
    enable_feature!(b"nukt", F_PER_SYLLABLE),
    enable_feature!(b"akhn", ZWJ_IN_SYLLABLE),
    MapRequest::GsubPause(ClearSubstitutionFlags as u8),
    add_feature!(b"rphf", ZWJ_IN_SYLLABLE),
    MapRequest::GsubPause(RecordRphf as u8),
    MapRequest::GsubPause(ClearSubstitutionFlags as u8),
    enable_feature!(b"pref", ZWJ_IN_SYLLABLE),
    MapRequest::GsubPause(RecordPref as u8),
    enable_feature!(b"rkrf", ZWJ_IN_SYLLABLE),
    enable_feature!(b"abvf", ZWJ_IN_SYLLABLE),
    enable_feature!(b"blwf", ZWJ_IN_SYLLABLE),
    enable_feature!(b"half", ZWJ_IN_SYLLABLE),
    enable_feature!(b"pstf", ZWJ_IN_SYLLABLE),
    enable_feature!(b"vatu", ZWJ_IN_SYLLABLE),
    enable_feature!(b"cjct", ZWJ_IN_SYLLABLE),
    MapRequest::GsubPause(ReorderUse as u8),
    MapRequest::GsubPause(ClearSyllables as u8),
    add_feature!(b"isol", F_NONE),
    add_feature!(b"init", F_NONE),
    add_feature!(b"medi", F_NONE),
    add_feature!(b"fina", F_NONE),
    MapRequest::GsubPause(0),
    enable_feature!(b"abvs", F_MANUAL_ZWJ),
    enable_feature!(b"blws", F_MANUAL_ZWJ),
    enable_feature!(b"haln", F_MANUAL_ZWJ),
    enable_feature!(b"pres", F_MANUAL_ZWJ),
    enable_feature!(b"psts", F_MANUAL_ZWJ),
];

/// Requests the shaper's features (`collect_features`).
pub fn collect_features(builder: &mut hb_ot_map_builder_t) -> Result<(), AllocError>
    ensures { OnOk result (builder.new ≡ fold with_map_request builder.old universal_features) }
{
    add_requests(builder, &FEATURES)
}
