//! The feature requests of the Khmer shaper (rustybuzz: hb/ot_shaper_khmer.rs).
ghost use Rattle.std.specs.Prelude.{◌≡◌, fold, OnOk};
ghost use Rattle.layout_map.specs.Requests.{with_map_request};
ghost use Rattle.script_khmer.specs.Requests.{khmer_features, khmer_overrides};

use layout_map::builder::hb_ot_map_builder_t;
use layout_map::request::{MapRequest, add_requests};
use layout_map::{add_feature, disable_feature, enable_feature};
use layout_map_features::flags::{F_MANUAL_JOINERS, F_NONE, F_PER_SYLLABLE};
use script_categories::hb_script_pause_t::{ClearSyllables, ReorderKhmer, SetupSyllables};
use std::alloc::AllocError;

const JOINERS_IN_SYLLABLE: u32 = F_MANUAL_JOINERS | F_PER_SYLLABLE;

const FEATURES: [MapRequest; 14] = [
    MapRequest::GsubPause(SetupSyllables as u8),
    MapRequest::GsubPause(ReorderKhmer as u8),
    enable_feature!(b"locl", F_PER_SYLLABLE),
    enable_feature!(b"ccmp", F_PER_SYLLABLE),
    add_feature!(b"pref", JOINERS_IN_SYLLABLE),
    add_feature!(b"blwf", JOINERS_IN_SYLLABLE),
    add_feature!(b"abvf", JOINERS_IN_SYLLABLE),
    add_feature!(b"pstf", JOINERS_IN_SYLLABLE),
    add_feature!(b"cfar", JOINERS_IN_SYLLABLE),
    MapRequest::GsubPause(ClearSyllables as u8),
    enable_feature!(b"pres", F_MANUAL_JOINERS),
    enable_feature!(b"abvs", F_MANUAL_JOINERS),
    enable_feature!(b"blws", F_MANUAL_JOINERS),
    enable_feature!(b"psts", F_MANUAL_JOINERS),
];

/// The requests after the user's.
const OVERRIDES: [MapRequest; 2] = [enable_feature!(b"clig", F_NONE), disable_feature!(b"liga")];

/// Requests the shaper's features (`collect_features`).
pub fn collect_features(builder: &mut hb_ot_map_builder_t) -> Result<(), AllocError>
    ensures { OnOk result (builder.new ≡ fold with_map_request builder.old khmer_features) }
{
    add_requests(builder, &FEATURES)
}

/// Requests the features that the shaper sets after the user's (`override_features`).
pub fn override_features(builder: &mut hb_ot_map_builder_t) -> Result<(), AllocError>
    ensures { OnOk result (builder.new ≡ fold with_map_request builder.old khmer_overrides) }
{
    add_requests(builder, &OVERRIDES)
}
