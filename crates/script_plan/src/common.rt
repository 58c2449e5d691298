//! The feature requests of every text (rustybuzz: hb/ot_shape.rs).
//!
//! A list of requests is data, in the order in which rustybuzz requests them; those of other shapers have the same
//! form.
ghost use Rattle.std.specs.Prelude.{◌≡◌, fold, OnOk};
ghost use Rattle.layout_map.specs.Requests.{with_map_request};
ghost use Rattle.script_plan.specs.Common.{common_features_after, first_requests, of_line, of_side};

use buffer_common::direction::Direction;
use layout_map::builder::hb_ot_map_builder_t;
use layout_map::request::{MapRequest, add_requests};
use layout_map::{add_feature, enable_feature, feature_tag};
use layout_map_features::field::MAX_VALUE;
use layout_map_features::flags::{
    F_GLOBAL, F_GLOBAL_SEARCH, F_HAS_FALLBACK, F_MANUAL_JOINERS, F_NONE, F_RANDOM,
};
use std::alloc::AllocError;

const VARIATIONS: [MapRequest; 2] = [enable_feature!(b"rvrn", F_NONE), MapRequest::GsubPause(0)];

const LEFT_TO_RIGHT: [MapRequest; 2] = [
    enable_feature!(b"ltra", F_NONE),
    enable_feature!(b"ltrm", F_NONE),
];

const RIGHT_TO_LEFT: [MapRequest; 2] = [
    enable_feature!(b"rtla", F_NONE),
    add_feature!(b"rtlm", F_NONE),
];

const FIRST: [MapRequest; 7] = [
    add_feature!(b"frac", F_NONE),
    add_feature!(b"numr", F_NONE),
    add_feature!(b"dnom", F_NONE),
    MapRequest::Feature {
        tag: feature_tag!(b"rand"),
        flags: F_GLOBAL | F_RANDOM,
        value: MAX_VALUE,
    },
    enable_feature!(b"trak", F_HAS_FALLBACK),
    enable_feature!(b"Harf", F_NONE),
    enable_feature!(b"HARF", F_NONE),
];

const AFTER: [MapRequest; 9] = [
    enable_feature!(b"Buzz", F_NONE),
    enable_feature!(b"BUZZ", F_NONE),
    enable_feature!(b"abvm", F_NONE),
    enable_feature!(b"blwm", F_NONE),
    enable_feature!(b"ccmp", F_NONE),
    enable_feature!(b"locl", F_NONE),
    enable_feature!(b"mark", F_MANUAL_JOINERS),
    enable_feature!(b"mkmk", F_MANUAL_JOINERS),
    enable_feature!(b"rlig", F_NONE),
];

const HORIZONTAL: [MapRequest; 7] = [
    enable_feature!(b"calt", F_NONE),
    enable_feature!(b"clig", F_NONE),
    enable_feature!(b"curs", F_NONE),
    enable_feature!(b"dist", F_NONE),
    enable_feature!(b"kern", F_HAS_FALLBACK),
    enable_feature!(b"liga", F_NONE),
    enable_feature!(b"rclt", F_NONE),
];

const VERTICAL: [MapRequest; 1] = [enable_feature!(b"vert", F_GLOBAL_SEARCH)];

/// Requests the features of horizontal lines in one direction: ltra and ltrm, or rtla and rtlm.
fn request_of_side(
    builder: &mut hb_ot_map_builder_t,
    direction: Direction,
) -> Result<(), AllocError>
    ensures { OnOk result (builder.new ≡ fold with_map_request builder.old (of_side direction)) }
{
    match direction {
        Direction::LeftToRight => add_requests(builder, &LEFT_TO_RIGHT),
        Direction::RightToLeft => add_requests(builder, &RIGHT_TO_LEFT),
        _ => Ok(()),
    }
}

/// Requests the features of horizontal or of vertical lines.
fn request_of_line(
    builder: &mut hb_ot_map_builder_t,
    direction: Direction,
) -> Result<(), AllocError>
    ensures { OnOk result (builder.new ≡ fold with_map_request builder.old (of_line direction)) }
{
    if direction.is_horizontal() {
        add_requests(builder, &HORIZONTAL)
    } else {
        add_requests(builder, &VERTICAL)
    }
}

/// Requests the features of every text that precede its shaper's.
pub fn request_first(
    builder: &mut hb_ot_map_builder_t,
    direction: Direction,
) -> Result<(), AllocError>
    ensures { OnOk result (builder.new ≡ fold with_map_request builder.old (first_requests direction)) }
{
    add_requests(builder, &VARIATIONS)?;
    request_of_side(builder, direction)?;
    add_requests(builder, &FIRST)
}

/// Requests the features of every text that follow its shaper's.
pub fn request_after(
    builder: &mut hb_ot_map_builder_t,
    direction: Direction,
) -> Result<(), AllocError>
    ensures { OnOk result (builder.new ≡ fold with_map_request builder.old (common_features_after direction)) }
{
    add_requests(builder, &AFTER)?;
    request_of_line(builder, direction)
}
