//! Texts that are shaped with a plan and without one.
ghost use Rattle.buffer_wrappers.specs.Wrappers.{AreGlyphs};

use crate::data::{ReadTables, TABLES, Tables, face_of};
use crate::planner;
use crate::plans::{decomposing_plan_of_row, plan_of_row};
use crate::rows::{flags_of, part, text_of};
use buffer_glyphs::cause::ShapeCause;
use buffer_wrappers::glyphs::GlyphBuffer;
use buffer_wrappers::unicode_buffer::UnicodeBuffer;
use layout_face::Face;
use script_plan::hb_ot_shaper_t;
use script_plan::plan::hb_ot_shape_plan_t;
use shape_pipeline::context::{hb_ot_shape_context_t, shape_internal};
use shape_pipeline::hb_ot_any_shaper_t;
use shape_pipeline::shaping::{ShapeFault, nested_lookups_left, shape, shape_with_plan};
use std::alloc::{AllocError, Global};
use std::process::Abort;
use std::test::Fail;

// Each row has the level, what is printed, the characters with their clusters, the font, and the line; and the shaper,
// where it is not the stack's own. A ligature has the cluster of its first component, also where the numbers have gaps
// and at level Characters. A mark composes with its letter, also across a mark of a lesser class; with a shaper
// that prefers decomposed characters marks are only sorted by class. One character may become at most 16,384 glyphs,
// and the text's buffer is returned empty.
static ROWS: &str =
    r#"graphemes;;97,0 102,1 105,2;{"upem":1000,"cmap":[[97,1],[102,3],[105,4]],"h":[[1,500],[3,300],[4,250],[7,520]],"gsub":{"scripts":[["DFLT",{"features":[0]},[]]],"features":[["liga",[0]]],"lookups":[{"type":"ligature","subtables":[[[3,[[[4],7]]]]]}]}};1=0+500|7=1+520
characters;;102,10 105,40;{"upem":1000,"cmap":[[97,1],[102,3],[105,4]],"h":[[1,500],[3,300],[4,250],[7,520]],"gsub":{"scripts":[["DFLT",{"features":[0]},[]]],"features":[["liga",[0]]],"lookups":[{"type":"ligature","subtables":[[[3,[[[4],7]]]]]}]}};7=10+520
monotone;;;{};
graphemes;;97,0 769,1;{"upem":1000,"cmap":[[97,1],[225,8],[769,9],[803,10]],"h":[[1,500],[8,510]]};8=0+510
graphemes;glyphs;97,0 769,1 803,2;{"upem":1000,"cmap":[[97,1],[225,8],[769,9],[803,10]],"h":[[1,500],[8,510]]};8|10
graphemes;glyphs;97,0 769,1 803,2;{"upem":1000,"cmap":[[97,1],[225,8],[769,9],[803,10]],"h":[[1,500],[8,510]]};1|10|9;decomposing
graphemes;;97,0;{"cmap":[[97,1]],"gsub":{"scripts":[["DFLT",{"features":[0]},[]]],"features":[["ccmp",[0,1,2,3]]],"lookups":[{"type":"multiple","subtables":[[[1,[1,1,1,1,1,1,1,1,1,1,1,1]]]]},{"type":"multiple","subtables":[[[1,[1,1,1,1,1,1,1,1,1,1,1,1]]]]},{"type":"multiple","subtables":[[[1,[1,1,1,1,1,1,1,1,1,1,1,1]]]]},{"type":"multiple","subtables":[[[1,[1,1,1,1,1,1,1,1,1,1,1,1]]]]}]}};S2 TooLong 0"#;

/// The cause of a refusal, unless it is want of memory.
fn own_cause(cause: ShapeCause) -> Result<ShapeCause, AllocError> {
    match cause {
        ShapeCause::OutOfMemory => Err(AllocError),
        cause => Ok(cause),
    }
}

/// The printed glyphs, or why there are none, with the number of characters that are left.
fn answer(
    alloc: Global,
    row: &str,
    face: &Face,
    shaped: Result<GlyphBuffer, ShapeFault>,
) -> Result<String, AllocError> {
    match shaped {
        Ok(glyphs) => glyphs.serialize(alloc, face, flags_of(row)),
        Err(fault) => {
            let cause = own_cause(fault.cause)?;
            format!(in alloc; "{cause} {}", fault.buffer.len())
        }
    }
}

/// The greatest number of a result's glyphs: each is a glyph's, so none is tested before `as_glyph`.
fn greatest_glyph(glyphs: &GlyphBuffer) -> u16
    requires { AreGlyphs glyphs.now }
{
    let mut greatest = 0;
    for glyph in glyphs.glyph_infos() {
        greatest = greatest.max(glyph.as_glyph().0);
    }
    greatest
}

/// The greatest glyph of a text, where it is shaped.
fn greatest_of_text(
    alloc: Global,
    face: &Face,
    tables: Tables<'_>,
    text: UnicodeBuffer,
) -> Result<Option<u16>, AllocError> {
    match shape(alloc, face, tables.data(), &[], text) {
        Ok(glyphs) => Ok(Some(greatest_glyph(&glyphs))),
        Err(fault) => {
            own_cause(fault.cause)?;
            Ok(None)
        }
    }
}

/// A text without a plan becomes the line.
fn gives_by_itself(
    alloc: Global,
    row: &str,
    face: &Face,
    tables: Tables<'_>,
) -> Result<bool, Fail> {
    let text = text_of(alloc, row)?;
    let shaped = shape(alloc, face, tables.data(), &[], text);
    let line = answer(alloc, row, face, shaped)?;
    Ok(line.as_str() == part(row, 4))
}

/// Whether a plan fits the text, and the text shaped with it prints as the line.
fn gives_by_plan<S: hb_ot_shaper_t>(
    alloc: Global,
    row: &str,
    face: &Face,
    tables: Tables<'_>,
    plan: &hb_ot_shape_plan_t<S>,
) -> Result<bool, Fail> {
    let text = text_of(alloc, row)?;
    let fits = plan.fits(&text);
    let shaped = shape_with_plan(alloc, face, tables.data(), plan, text);
    let line = answer(alloc, row, face, shaped)?;
    Ok(fits && line.as_str() == part(row, 4))
}

/// The glyphs of a text that is in a context's buffer.
#[tactic(auto, using(shape_pipeline::proofs::Shaped::same_characters))]
fn shaped_in_context(
    alloc: Global,
    face: &Face,
    tables: Tables<'_>,
    plan: &hb_ot_shape_plan_t<hb_ot_any_shaper_t>,
    text: UnicodeBuffer,
) -> Result<GlyphBuffer, ShapeCause> {
    let mut buffer = text.into_buffer();
    shape_internal(
        alloc,
        &mut hb_ot_shape_context_t {
            plan,
            face,
            shape_data: tables.data(),
            buffer: &mut buffer,
            target_direction: plan.script_plan.direction,
        },
    )?;
    Ok(GlyphBuffer::from_buffer(buffer))
}

/// Whether a text in a context's buffer prints as the line; a cause is printed without what is left of the text.
fn gives_in_context(
    alloc: Global,
    row: &str,
    face: &Face,
    tables: Tables<'_>,
    plan: &hb_ot_shape_plan_t<hb_ot_any_shaper_t>,
) -> Result<bool, Fail> {
    let mut text = text_of(alloc, row)?;
    text.guess_segment_properties();
    let line = match shaped_in_context(alloc, face, tables, plan, text) {
        Ok(glyphs) => glyphs.serialize(alloc, face, flags_of(row))?,
        Err(cause) => format!(in alloc; "{} 0", own_cause(cause)?)?,
    };
    Ok(line.as_str() == part(row, 4))
}

/// Whether each use of a plan prints the line.
fn gives_as_often(
    alloc: Global,
    row: &str,
    face: &Face,
    tables: Tables<'_>,
    plan: &hb_ot_shape_plan_t<hb_ot_any_shaper_t>,
) -> Result<bool, Fail> {
    let first = gives_by_plan(alloc, row, face, tables, plan)?;
    let second = gives_by_plan(alloc, row, face, tables, plan)?;
    Ok(first && second)
}

/// Whether the stack's own shaper prints the line with a plan, each time it is used, and in a context.
fn gives_planned(alloc: Global, row: &str, face: &Face, tables: Tables<'_>) -> Result<bool, Fail> {
    let plan = plan_of_row(alloc, face, tables, row)?;
    let by_text = gives_as_often(alloc, row, face, tables, &plan)?;
    let in_context = gives_in_context(alloc, row, face, tables, &plan)?;
    Ok(by_text && in_context)
}

/// Whether the test's own shaper prints the line.
fn gives_decomposed(
    alloc: Global,
    row: &str,
    face: &Face,
    tables: Tables<'_>,
) -> Result<bool, Fail> {
    let plan = decomposing_plan_of_row(alloc, face, tables, row)?;
    gives_by_plan(alloc, row, face, tables, &plan)
}

/// Whether the row's shaper prints its line, the stack's own also without a plan.
fn gives(alloc: Global, row: &str, face: &Face, tables: Tables<'_>) -> Result<bool, Fail> {
    if part(row, 5) == "decomposing" {
        return gives_decomposed(alloc, row, face, tables);
    }
    let greatest = greatest_of_text(alloc, face, tables, text_of(alloc, row)?)?;
    let known = greatest.unwrap_or(0) <= 10;
    let by_itself = gives_by_itself(alloc, row, face, tables)?;
    let planned = gives_planned(alloc, row, face, tables)?;
    Ok(known && by_itself && planned)
}

fn row_agrees(alloc: Global, row: &str, tables: Tables<'_>) -> Result<bool, Fail> {
    let face = face_of(alloc, part(row, 3))?;
    gives(alloc, row, &face, tables)
}

fn rows_agree(rt: &impl Abort, alloc: Global, tables: Tables<'_>) -> Result<(), Fail> {
    assert!(rt; planner::agrees(alloc, tables)?);
    for row in ROWS.lines() {
        let agrees = row_agrees(alloc, row, tables)?;
        assert!(rt; agrees, "{row}");
    }
    Ok(())
}

// A context whose rule applies one lookup to the last of its two glyphs.
static NESTING: &str =
    r#"{"cmap":[[97,1],[98,2]],"gsub":{"scripts":[["DFLT",{"features":[0]},[]]],"features":[["calt",[0]]],"lookups":[{"type":"chain","subtables":[{"format":"glyphs","rules":[[[2],[1],[],[[0,1]]]]}]},{"type":"single","subtables":[[[1,3]]]}]}}"#;

/// What is left of the budget of a row's nested lookups, in a font.
fn left_in_font(alloc: Global, face: &Face, tables: Tables<'_>, row: &str) -> Result<i32, Fail> {
    let text = text_of(alloc, row)?;
    Ok(nested_lookups_left(alloc, face, tables.data(), &[], text)?)
}

fn left_of_row(alloc: Global, tables: Tables<'_>, row: &str) -> Result<i32, Fail> {
    let face = face_of(alloc, NESTING)?;
    left_in_font(alloc, &face, tables, row)
}

// The budget of a short text is 16,384.
fn budgets_are_counted(rt: &impl Abort, alloc: Global, tables: Tables<'_>) -> Result<(), Fail> {
    let none_nested = left_of_row(alloc, tables, "graphemes;;97,0 98,1")?;
    assert_eq!(rt; none_nested, 16_384);
    let one_nested = left_of_row(alloc, tables, "graphemes;;98,0 97,1")?;
    assert_eq!(rt; one_nested, 16_383);
    Ok(())
}

#[test]
fn texts(rt: HostRuntime) -> Result<(), Fail> {
    let tables = ReadTables::from_text(rt.alloc(), TABLES)?;
    rows_agree(&rt, rt.alloc(), tables.borrowed())?;
    budgets_are_counted(&rt, rt.alloc(), tables.borrowed())
}
