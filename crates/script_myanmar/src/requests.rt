//! The feature requests of the Myanmar shaper (rustybuzz: hb/ot_shaper_myanmar.rs).
//!
//! A list of requests is data, in the order in which rustybuzz requests them; those of other shapers have the same
//! form.
ghost use Rattle.std.specs.Prelude.{◌≡◌, fold, OnOk};
ghost use Rattle.layout_map.specs.Requests.{with_map_request};
ghost use Rattle.script_myanmar.specs.Requests.{myanmar_features};

use layout_map::builder::hb_ot_map_builder_t;
use layout_map::enable_feature;
use layout_map::request::{MapRequest, add_requests};
use layout_map_features::flags::{F_MANUAL_ZWJ, F_PER_SYLLABLE};
use script_categories::hb_script_pause_t::{ClearSyllables, ReorderMyanmar, SetupSyllables};
use std::alloc::AllocError;

const ZWJ_IN_SYLLABLE: u32 = F_MANUAL_ZWJ | F_PER_SYLLABLE;

const FEATURES: [MapRequest; 17] = [
    MapRequest::GsubPause(SetupSyllables as u8),
    enable_feature!(b"locl", F_PER_SYLLABLE),
    enable_feature!(b"ccmp", F_PER_SYLLABLE),
    MapRequest::GsubPause(ReorderMyanmar as u8),
    enable_feature!(b"rphf", ZWJ_IN_SYLLABLE),
    MapRequest::GsubPause(0),
    enable_feature!(b"pref", ZWJ_IN_SYLLABLE),
    MapRequest::GsubPause(0),
    enable_feature!(b"blwf", ZWJ_IN_SYLLABLE),
    MapRequest::GsubPause(0),
    enable_feature!(b"pstf", ZWJ_IN_SYLLABLE),
    MapRequest::GsubPause(0),
    MapRequest::GsubPause(ClearSyllables as u8),
    enable_feature!(b"pres", F_MANUAL_ZWJ),
    enable_feature!(b"abvs", F_MANUAL_ZWJ),
    enable_feature!(b"blws", F_MANUAL_ZWJ),
    enable_feature!(b"psts", F_MANUAL_ZWJ),
];

/// Requests the shaper's features (`collect_features`).
pub fn collect_features(builder: &mut hb_ot_map_builder_t) -> Result<(), AllocError>
    ensures { OnOk result (builder.new ≡ fold with_map_request builder.old myanmar_features) }
{
    add_requests(builder, &FEATURES)
}
