//! The feature requests of the Hangul shaper (rustybuzz: hb/ot_shaper_hangul.rs).
ghost use Rattle.std.specs.Prelude.{◌≡◌, fold, OnOk};
ghost use Rattle.layout_map.specs.Requests.{with_map_request};
ghost use Rattle.script_hangul.specs.Requests.{hangul_features, hangul_overrides};

use layout_map::builder::hb_ot_map_builder_t;
use layout_map::request::{MapRequest, add_requests};
use layout_map::{add_feature, disable_feature};
use layout_map_features::flags::F_NONE;
use std::alloc::AllocError;

const FEATURES: [MapRequest; 3] = [
    add_feature!(b"ljmo", F_NONE),
    add_feature!(b"vjmo", F_NONE),
    add_feature!(b"tjmo", F_NONE),
];

/// The requests after the user's.
const OVERRIDES: [MapRequest; 1] = [disable_feature!(b"calt")];

/// Requests the shaper's features (`collect_features`).
pub fn collect_features(builder: &mut hb_ot_map_builder_t) -> Result<(), AllocError>
    ensures { OnOk result (builder.new ≡ fold with_map_request builder.old hangul_features) }
{
    add_requests(builder, &FEATURES)
}

/// Requests the features that the shaper sets after the user's (`override_features`).
pub fn override_features(builder: &mut hb_ot_map_builder_t) -> Result<(), AllocError>
    ensures { OnOk result (builder.new ≡ fold with_map_request builder.old hangul_overrides) }
{
    add_requests(builder, &OVERRIDES)
}
