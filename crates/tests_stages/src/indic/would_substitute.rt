//! Whether a feature would form glyphs of a small font.
use crate::indic::fonts::map_of;
use crate::stages::face_of;
use buffer_common::script::DEVANAGARI;
use buffer_common::tag::Tag;
use layout_face::Face;
use layout_map::map::hb_ot_map_t;
use script_indic::would_substitute::IndicWouldSubstituteFeature;
use std::alloc::Global;
use std::process::Abort;
use std::test::Fail;

// The feature half forms 2 4, rphf 1 4 and 1 4 10; blwf forms 4 3, after a glyph 7 alone.
static FONT: &str = r#"{"gsub":{"scripts":[["dev2",{"features":[0,1,2]},[]]],
  "features":[["blwf",[2]],["half",[0]],["rphf",[1]]],"lookups":[{"type":"ligature",
  "subtables":[[[2,[[[4],20]]]]]},{"type":"ligature","subtables":[[[1,[[[4],21],[[4,10],21]]]]]},{"type":"chain",
  "subtables":[{"format":"glyphs","rules":[[[7],[4,3],[],[]]]}]}]}}"#;

/// A feature, whether only rules without context count, glyphs, and whether they would form.
type Case = (&'static [u8; 4], bool, &'static [u16], bool);

static CASES: &[Case] = &[
    (b"rphf", true, &[1, 4], true),
    (b"rphf", false, &[1, 4], true),
    (b"rphf", true, &[1, 4, 10], true),
    (b"rphf", true, &[1], false),
    (b"rphf", true, &[1, 4, 4], false),
    (b"rphf", true, &[], false),
    (b"rphf", true, &[2, 4], false),
    (b"half", true, &[2, 4], true),
    (b"half", true, &[1, 4], false),
    (b"blwf", false, &[4, 3], true),
    (b"blwf", true, &[4, 3], false),
    (b"pref", false, &[1, 4], false),
];

fn would(map: &hb_ot_map_t, face: &Face, case: &Case) -> bool {
    let (name, zero_context, glyphs, _) = case;
    let feature = IndicWouldSubstituteFeature::new(map, Tag::from_bytes(name), *zero_context);
    feature.would_substitute(map, face, glyphs)
}

fn hold(rt: &impl Abort, map: &hb_ot_map_t, face: &Face) {
    for case in CASES {
        assert!(rt; would(map, face, case) == case.3);
    }
}

fn hold_in_font(rt: &impl Abort, alloc: Global, face: &Face) -> Result<(), Fail> {
    let map = map_of(alloc, face, DEVANAGARI)?;
    hold(rt, &map, face);
    Ok(())
}

#[test]
fn features_would_substitute(rt: HostRuntime) -> Result<(), Fail> {
    let face = face_of(rt.alloc(), FONT)?;
    hold_in_font(&rt, rt.alloc(), &face)
}
