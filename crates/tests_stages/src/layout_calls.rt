//! The calls that apply a map's lookups stage by stage, and one lookup at a glyph, in both layout tables.
//!
//! Shaping reaches lookups by shorter ways; whoever calls the layer by rustybuzz's names has these. `substitute` and
//! `position` begin alike: the lookups of the two tables are types of their own, and a substitution opens the output.
ghost use Rattle.buffer_stages.specs.Ready.{IsReady};

use crate::buffers::{buffer_of, has_glyphs};
use crate::glyphs::word;
use crate::rows::{is_row, natural, part, rows_of, value};
use crate::stages::face_of;
use buffer_common::tag::Tag;
use buffer_core::buffer::hb_buffer_t;
use buffer_glyphs::cause::ShapeCause;
use buffer_stages::glyphs::are_glyphs;
use buffer_stages::pause::Pause;
use layout_face::Face;
use layout_gpos::bases::LastSearches;
use layout_map::builder::hb_ot_map_builder_t;
use layout_map::map::hb_ot_map_t;
use layout_map_features::flags::F_NONE;
use layout_map_features::per_table::TableIndex;
use layout_match::hb_ot_apply_context_t;
use script_categories::hb_ot_script_shaper_t::ARABIC_SHAPER;
use std::alloc::{AllocError, Global};
use std::process::Abort;
use std::test::Fail;

/// A font with two lookups in each table. In GSUB the first one gives glyph 4 for 3, and the second one the ligature 3
/// for 1 and 2; in GPOS the first one has a value for 1 before 2, and the second one a value for 1.
static FONT: &str =
    r#"{"gsub":{"scripts":[["DFLT",{"features":[0,1]},[]]],"features":[["ccmp",[1]],["liga",[0]]],
"lookups":[{"type":"single","subtables":[[[3,4]]]},{"type":"ligature","subtables":[[[1,[[[2],3]]]]]}]},
"gpos":{"scripts":[["DFLT",{"features":[0,1]},[]]],"features":[["dist",[1]],["kern",[0]]],
"lookups":[{"type":"pair","subtables":[[[1,2,[0,0,-50,0],null]]]},
{"type":"single","subtables":[[[1,[10,20,-30,0]]]]}]}}"#;

/// A pause that changes nothing.
#[derive(Clone, Copy)]
struct NoChange;

impl Pause for NoChange {
    ghost use Rattle.buffer_core.specs.Readings.{as_it_is};

    ghost stage = { λ p settings n. as_it_is };

    #[tactic(auto, using(crate::proofs::Ready::unchanged_done))]
    fn run(&self, _pause: u8, _buffer: &mut hb_buffer_t) -> Result<bool, ShapeCause> {
        Ok(false)
    }
}

/// Requests the second lookup of each table in a stage before that of the first one.
fn request_features(builder: &mut hb_ot_map_builder_t<'_>) -> Result<(), AllocError> {
    builder.enable_feature(Tag::from_bytes(b"ccmp"), F_NONE, 1)?;
    builder.enable_feature(Tag::from_bytes(b"dist"), F_NONE, 1)?;
    builder.add_gsub_pause(1)?;
    builder.add_gpos_pause(1)?;
    builder.enable_feature(Tag::from_bytes(b"liga"), F_NONE, 1)?;
    builder.enable_feature(Tag::from_bytes(b"kern"), F_NONE, 1)
}

fn map_of(alloc: Global, face: &Face) -> Result<hb_ot_map_t, AllocError> {
    let mut builder = hb_ot_map_builder_t::new(alloc, face, &[], &[]);
    request_features(&mut builder)?;
    builder.compile(alloc)
}

fn apply_stages(
    words: &str,
    map: &hb_ot_map_t,
    face: &Face,
    buffer: &mut hb_buffer_t,
) -> Result<(), ShapeCause>
    requires { IsReady buffer.old }
{
    if !are_glyphs(buffer) {
        return Ok(());
    }
    if value(words, "table") == "gpos" {
        return layout_positioning::position::apply_layout_table(map, face, buffer, &NoChange);
    }
    let mut ctx = hb_ot_apply_context_t::new(TableIndex::GSUB, face);
    layout_substitution::substitute::apply_layout_table(map, &mut ctx, buffer, &NoChange)
}

/// Whether no output is open, and the glyphs and positions are those of a list.
fn is_as_said(wanted: &str, buffer: &hb_buffer_t) -> bool {
    if buffer.have_output() {
        return false;
    }
    has_glyphs(ARABIC_SHAPER, "n@aboq", wanted, buffer)
}

fn stages_agree(alloc: Global, map: &hb_ot_map_t, face: &Face, row: &str) -> Result<bool, Fail> {
    let words = part(row, 1);
    let mut buffer = buffer_of(alloc, ARABIC_SHAPER, words, part(row, 2))?;
    apply_stages(words, map, face, &mut buffer)?;
    Ok(is_as_said(part(row, 3), &buffer))
}

fn tables_are_applied_by_map(
    rt: &impl Abort,
    alloc: Global,
    map: &hb_ot_map_t,
    face: &Face,
) -> Result<(), Fail> {
    let rows = rows_of(alloc, STAGES)?;
    for row in rows.lines() {
        let agrees = !is_row(row) || stages_agree(alloc, map, face, row)?;
        assert!(rt; agrees, "{row}");
    }
    Ok(())
}

fn tables_are_applied_in_font(rt: &impl Abort, alloc: Global, face: &Face) -> Result<(), Fail> {
    let map = map_of(alloc, face)?;
    tables_are_applied_by_map(rt, alloc, &map, face)
}

#[test]
fn tables_are_applied(rt: HostRuntime) -> Result<(), Fail> {
    let face = face_of(rt.alloc(), FONT)?;
    tables_are_applied_in_font(&rt, rt.alloc(), &face)
}

// Features that are on for every glyph share the highest bit of masks. An advance along x is of horizontal text alone.
static STAGES: &str = "
# name; options; glyphs; glyphs afterwards
ligature of one stage, its single substitution of the next one; table=gsub;
  1@0 m=80000000, 2@1 m=80000000, 1@2 m=80000000, 3@3 m=80000000; 4@0, 1@2, 4@3
substitution that is off; table=gsub; 3@0, 3@1 m=80000000; 3@0, 4@1
value of one stage and of the next one; table=gpos; 1@0 m=80000000 a=500, 2@1 m=80000000 a=600;
  1@0 a=420 o=10 q=20, 2@1 a=600
value of one stage; table=gpos; 1@0 m=80000000 a=500, 1@1 m=80000000 a=500; 1@0 a=470 o=10 q=20, 1@1 a=470 o=10 q=20
value that is off; table=gpos; 1@0 a=500, 1@1 m=80000000 a=500; 1@0 a=500, 1@1 a=470 o=10 q=20
vertical text; table=gpos direction=ttb; 1@0 m=80000000 b=-1000, 2@1 m=80000000 b=-1000;
  1@0 b=-1000 o=10 q=20, 2@1 b=-1000";

/// Applies the substitution of the option `lookup` at the first glyph; answers whether it acted.
fn substitute(words: &str, face: &Face, buffer: &mut hb_buffer_t) -> Result<bool, ShapeCause>
    requires { IsReady buffer.old }
{
    let Some(table) = face.gsub() else {
        return Ok(false);
    };
    let Some(lookup) = table.get_lookup(word(words, "lookup")) else {
        return Ok(false);
    };
    if !are_glyphs(buffer) {
        return Ok(false);
    }
    let mut ctx = hb_ot_apply_context_t::new(TableIndex::GSUB, face);
    ctx.set_lookup_mask(8);
    buffer.clear_output()?;
    if buffer.lookahead_len() == 0 {
        return Ok(false);
    }
    layout_substitution::lookup::apply_lookup(table, lookup, &mut ctx, buffer)
}

/// Applies the positioning of the option `lookup` at the first glyph; answers whether it acted.
fn position(words: &str, face: &Face, buffer: &mut hb_buffer_t) -> Result<bool, ShapeCause>
    requires { IsReady buffer.old }
{
    let Some(table) = face.gpos() else {
        return Ok(false);
    };
    let Some(lookup) = table.get_lookup(word(words, "lookup")) else {
        return Ok(false);
    };
    if !are_glyphs(buffer) {
        return Ok(false);
    }
    let mut ctx = hb_ot_apply_context_t::new(TableIndex::GPOS, face);
    ctx.set_lookup_mask(8);
    if buffer.lookahead_len() == 0 {
        return Ok(false);
    }
    let mut last = LastSearches::new();
    layout_positioning::lookup::apply_lookup(table, lookup, &ctx, &mut last, buffer)
}

fn apply(words: &str, face: &Face, buffer: &mut hb_buffer_t) -> Result<bool, ShapeCause>
    requires { IsReady buffer.old }
{
    match value(words, "table") {
        "gpos" => position(words, face, buffer),
        _ => substitute(words, face, buffer),
    }
}

fn close_output(buffer: &mut hb_buffer_t) -> Result<(), AllocError> {
    if buffer.have_output() {
        buffer.sync()?;
    }
    Ok(())
}

fn lookup_agrees(alloc: Global, face: &Face, row: &str) -> Result<bool, Fail> {
    let words = part(row, 1);
    let mut buffer = buffer_of(alloc, ARABIC_SHAPER, words, part(row, 2))?;
    let acted = apply(words, face, &mut buffer)?;
    let passed = buffer.out_len();
    close_output(&mut buffer)?;
    Ok(
        acted == (value(words, "acts") == "1")
            && passed == natural(words, "passed") as usize
            && is_as_said(part(row, 3), &buffer),
    )
}

fn lookups_are_applied_in_font(rt: &impl Abort, alloc: Global, face: &Face) -> Result<(), Fail> {
    let rows = rows_of(alloc, LOOKUPS)?;
    for row in rows.lines() {
        let agrees = !is_row(row) || lookup_agrees(alloc, face, row)?;
        assert!(rt; agrees, "{row}");
    }
    Ok(())
}

#[test]
fn lookups_are_applied(rt: HostRuntime) -> Result<(), Fail> {
    let face = face_of(rt.alloc(), FONT)?;
    lookups_are_applied_in_font(&rt, rt.alloc(), &face)
}

// `passed` is how many glyphs are then before the cursor: the second glyph of a pair without a value of its own can be
// the first of the next pair.
static LOOKUPS: &str = "
# name; options; glyphs; glyphs afterwards
ligature; table=gsub lookup=1 acts=1 passed=1; 1@0 m=8, 2@1 m=8, 5@2 m=8; 3@0, 5@2
ligature without its second component; table=gsub lookup=1; 1@0 m=8, 1@1 m=8, 2@2 m=8; 1@0, 1@1, 2@2
single substitution; table=gsub acts=1 passed=1; 3@0 m=8, 3@1 m=8; 4@0, 3@1
single substitution of another glyph; table=gsub; 4@0 m=8, 3@1 m=8; 4@0, 3@1
single substitution that is off; table=gsub; 3@0 m=10, 3@1 m=8; 3@0, 3@1
pair; table=gpos acts=1 passed=1; 1@0 m=8 a=500, 2@1 m=8 a=600; 1@0 a=450, 2@1 a=600
another pair; table=gpos; 1@0 m=8 a=500, 1@1 m=8 a=500; 1@0 a=500, 1@1 a=500
single adjustment; table=gpos lookup=1 acts=1 passed=1; 1@0 m=8 a=500, 1@1 m=8 a=500;
  1@0 a=470 o=10 q=20, 1@1 a=500
single adjustment of another glyph; table=gpos lookup=1; 2@0 m=8 a=600, 1@1 m=8 a=500; 2@0 a=600, 1@1 a=500
single adjustment that is off; table=gpos lookup=1; 1@0 a=500; 1@0 a=500";
