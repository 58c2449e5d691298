//! The feature requests of the caller.
ghost use Rattle.std.specs.Prelude.{◌≡◌, fold, map, OnOk};
ghost use Rattle.layout_map.specs.Requests.{with_map_request};
ghost use Rattle.script_plan.specs.Common.{request_of};

use buffer_tags::feature::Feature;
use layout_map::builder::hb_ot_map_builder_t;
use layout_map::request::{MapRequest, add_request};
use layout_map_features::flags::{F_GLOBAL, F_NONE};
use std::alloc::AllocError;

fn request_of(feature: &Feature) -> MapRequest
    ensures { result ≡ request_of feature.now }
{
    MapRequest::Feature {
        tag: feature.tag,
        flags: if feature.is_global() {
            F_GLOBAL
        } else {
            F_NONE
        },
        value: feature.value,
    }
}

/// Requests the user's features in order, each for all glyphs or for a range.
pub fn request_features(
    builder: &mut hb_ot_map_builder_t,
    features: &[Feature],
) -> Result<(), AllocError>
    ensures { OnOk result (builder.new ≡ fold with_map_request builder.old (map request_of features.now)) }
{
    for feature in features {
        add_request(builder, request_of(feature))?;
    }
    Ok(())
}
