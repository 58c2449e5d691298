//! The feature requests of the Indic shaper (rustybuzz: hb/ot_shaper_indic.rs).
//!
//! A list of requests is data, in the order in which rustybuzz requests them; those of other shapers have the same
//! form.
ghost use Rattle.std.specs.Prelude.{◌≡◌, fold, OnOk};
ghost use Rattle.layout_map.specs.Requests.{with_map_request};
ghost use Rattle.script_indic.specs.Requests.{indic_features, indic_overrides};

use layout_map::builder::hb_ot_map_builder_t;
use layout_map::request::{MapRequest, add_requests};
use layout_map::{add_feature, disable_feature, enable_feature};
use layout_map_features::flags::{F_MANUAL_JOINERS, F_PER_SYLLABLE};
use script_categories::hb_script_pause_t::{
    ClearSyllables, FinalReordering, InitialReordering, SetupSyllables,
};
use std::alloc::AllocError;

const JOINERS_IN_SYLLABLE: u32 = F_MANUAL_JOINERS | F_PER_SYLLABLE;

const FEATURES: [MapRequest; 33] = [
    MapRequest::GsubPause(SetupSyllables as u8),
    enable_feature!(b"locl", F_PER_SYLLABLE),
    enable_feature!(b"ccmp", F_PER_SYLLABLE),
    MapRequest::GsubPause(InitialReordering as u8),
    enable_feature!(b"nukt", JOINERS_IN_SYLLABLE),
    MapRequest::GsubPause(0),
    enable_feature!(b"akhn", JOINERS_IN_SYLLABLE),
    MapRequest::GsubPause(0),
    add_feature!(b"rphf", JOINERS_IN_SYLLABLE),
    MapRequest::GsubPause(0),
    enable_feature!(b"rkrf", JOINERS_IN_SYLLABLE),
    MapRequest::GsubPause(0),
    add_feature!(b"pref", JOINERS_IN_SYLLABLE),
    MapRequest::GsubPause(0),
    add_feature!(b"blwf", JOINERS_IN_SYLLABLE),
    MapRequest::GsubPause(0),
    add_feature!(b"abvf", JOINERS_IN_SYLLABLE),
    MapRequest::GsubPause(0),
    add_feature!(b"half", JOINERS_IN_SYLLABLE),
    MapRequest::GsubPause(0),
    add_feature!(b"pstf", JOINERS_IN_SYLLABLE),
    MapRequest::GsubPause(0),
    enable_feature!(b"vatu", JOINERS_IN_SYLLABLE),
    MapRequest::GsubPause(0),
    enable_feature!(b"cjct", JOINERS_IN_SYLLABLE),
    MapRequest::GsubPause(0),
    MapRequest::GsubPause(FinalReordering as u8),
    add_feature!(b"init", JOINERS_IN_SYLLABLE),
    enable_feature!(b"pres", JOINERS_IN_SYLLABLE),
    enable_feature!(b"abvs", JOINERS_IN_SYLLABLE),
    enable_feature!(b"blws", JOINERS_IN_SYLLABLE),
    enable_feature!(b"psts", JOINERS_IN_SYLLABLE),
    enable_feature!(b"haln", JOINERS_IN_SYLLABLE),
];

/// The requests after the user's.
const OVERRIDES: [MapRequest; 2] = [
    disable_feature!(b"liga"),
    MapRequest::GsubPause(ClearSyllables as u8),
];

/// Requests the shaper's features (`collect_features`).
pub fn collect_features(builder: &mut hb_ot_map_builder_t) -> Result<(), AllocError>
    ensures { OnOk result (builder.new ≡ fold with_map_request builder.old indic_features) }
{
    add_requests(builder, &FEATURES)
}

/// Requests the features that the shaper sets after the user's (`override_features`).
pub fn override_features(builder: &mut hb_ot_map_builder_t) -> Result<(), AllocError>
    ensures { OnOk result (builder.new ≡ fold with_map_request builder.old indic_overrides) }
{
    add_requests(builder, &OVERRIDES)
}
