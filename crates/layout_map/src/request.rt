//! One request to the map builder: a feature, or the end of a GSUB stage (rustybuzz: hb/ot_map.rs, enable_feature,
//! add_feature, disable_feature and add_gsub_pause).
ghost use Rattle.std.specs.Prelude.{ℕ, ◌≡◌, ◌<◌, OnErr, OnOk, fold, length, take};
ghost use Rattle.layout_map.specs.Requests.{with_map_request};

use crate::builder::hb_ot_map_builder_t;
use buffer_common::tag::Tag;
use layout_map_features::flags::hb_ot_map_feature_flags_t;
use std::alloc::AllocError;

/// A feature with its flags and value, or the end of a GSUB stage with the number of its pause.
#[derive(Clone, Copy)]
pub enum MapRequest {
    Feature {
        tag: Tag,
        flags: hb_ot_map_feature_flags_t,
        value: u32,
    },
    /// 0 is the number of a stage's end without a pause.
    GsubPause(u8),
}

/// Adds a feature to the builder, or ends the GSUB stage. Where memory is short the builder stays as it was.
pub fn add_request(builder: &mut hb_ot_map_builder_t, request: MapRequest) -> Result<(), AllocError>
    ensures ok { OnOk result (builder.new ≡ with_map_request builder.old request) }
    ensures err { OnErr result (builder.new ≡ builder.old) }
{
    match request {
        MapRequest::Feature { tag, flags, value } => builder.add_feature(tag, flags, value),
        MapRequest::GsubPause(pause) => builder.add_gsub_pause(pause),
    }
}

/// Adds several requests in order. Where memory is short it has added those before some request.
pub fn add_requests(
    builder: &mut hb_ot_map_builder_t,
    requests: &[MapRequest],
) -> Result<(), AllocError>
    ensures ok { OnOk result (builder.new ≡ fold with_map_request builder.old requests.now) }
    ensures err { OnErr result ((n : ℕ) × (n < length requests.now) × (builder.new
        ≡ fold with_map_request builder.old (take n requests.now))) }
{
    for &request in requests {
        add_request(builder, request)?;
    }
    Ok(())
}

/// The tag of four bytes, in a constant.
#[macro_export]
macro_rules! feature_tag {
    ($text:expr) => {
        buffer_common::tag::Tag(
            (($text[0] as u32) << 24)
                | (($text[1] as u32) << 16)
                | (($text[2] as u32) << 8)
                | ($text[3] as u32),
        )
    };
}

/// A feature with value 1 for every glyph (`enable_feature`).
#[macro_export]
macro_rules! enable_feature {
    ($tag:expr, $flags:expr) => {
        $crate::request::MapRequest::Feature {
            tag: $crate::feature_tag!($tag),
            flags: layout_map_features::flags::F_GLOBAL | $flags,
            value: 1,
        }
    };
}

/// A feature with value 1 only where a mask is set (`add_feature`).
#[macro_export]
macro_rules! add_feature {
    ($tag:expr, $flags:expr) => {
        $crate::request::MapRequest::Feature {
            tag: $crate::feature_tag!($tag),
            flags: $flags,
            value: 1,
        }
    };
}

/// A feature that is off for every glyph (`disable_feature`).
#[macro_export]
macro_rules! disable_feature {
    ($tag:expr) => {
        $crate::request::MapRequest::Feature {
            tag: $crate::feature_tag!($tag),
            flags: layout_map_features::flags::F_GLOBAL,
            value: 0,
        }
    };
}
