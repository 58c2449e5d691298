//! With ample memory the calls give glyphs and slices: no clause says that a call does anything but refuse for want of memory.
//!
//! A test owns handles and asserts once; what it asserts is found by a function that owns nothing and answers true or false,
//! or fails for want of memory. Tests have this form here and in the modules.
mod files;
mod lines;
mod settings;
mod texts;

use crate::calls::{
    kus_font_create, kus_font_create_with_tables, kus_font_destroy, kus_font_reference,
    kus_font_shrink, kus_get_glyphs, kus_shape, kus_tables_create, kus_tables_destroy,
    kus_tables_reference,
};
use crate::queries::{
    kus_font_get_ascender, kus_font_get_feature_tags, kus_font_get_glyph_extents,
    kus_font_get_glyph_h_advance, kus_font_get_glyph_name, kus_font_get_glyph_v_advance,
    kus_font_get_ligature_carets, kus_font_get_nominal_glyph, kus_font_get_script_tags,
    kus_font_get_upem, kus_get_direction, kus_get_script, kus_get_slices, kus_version,
};
use c_text::handle::{Handle, TablesHandle};
use c_text::types::{
    kus_feature_t, kus_glyph_extents_t, kus_glyph_info_t, kus_glyph_position_t, kus_slice_t,
    kus_text_t,
};
use std::alloc::{AllocError, Global};
use std::test::Fail;

const FONT: &str = r#"{"upem":1000,"ascender":800,"cmap":[[97,1],[98,2],[102,3],[105,4]],
    "h":[[1,500],[2,600],[3,300],[4,250],[7,520]],
    "extents":[[1,10,20,30,-40]],"names":[[2,"bee"]],
    "gsub":{"scripts":[["DFLT",{"features":[0]},[]]],"features":[["liga",[0]]],
    "lookups":[{"type":"ligature","subtables":[[[3,[[[4],7]]]]]}]}}"#;

/// What a cell holds before a call.
const INFO: kus_glyph_info_t = kus_glyph_info_t {
    codepoint: 99,
    mask: 99,
    cluster: 99,
    var1: 99,
    var2: 99,
};

const POSITION: kus_glyph_position_t = kus_glyph_position_t {
    x_advance: 99,
    y_advance: 99,
    x_offset: 99,
    y_offset: 99,
    var: 99,
};

const NO_LIGATURES: kus_feature_t = kus_feature_t {
    tag: 0x6C696761,
    value: 0,
    start: 0,
    end: 0xFFFFFFFF,
};

/// A glyph: its number, cluster and advance.
type Glyph = (u32, u32, i32);

const UNWRITTEN: Glyph = (99, 99, 99);

fn text_of<'a>(text: &'a [u8], direction: u32, features: &'a [kus_feature_t]) -> kus_text_t<'a> {
    kus_text_t {
        text,
        before: b"",
        after: b"",
        language: b"",
        features,
        direction,
        script: 0x4C61746E,
        flags: 0,
        cluster_level: 0,
    }
}

/// A status that is no want of memory.
fn answered(status: u32) -> Result<u32, AllocError> {
    if status == 1 {
        return Err(AllocError);
    }
    Ok(status)
}

/// Whether three cells have the first glyphs of a text, and are unwritten past its last one.
fn have_glyphs(
    infos: &[kus_glyph_info_t; 3],
    positions: &[kus_glyph_position_t; 3],
    want: &[Glyph],
) -> bool {
    for k in 0..3 {
        let glyph = (infos[k].codepoint, infos[k].cluster, positions[k].x_advance);
        if glyph != want.get(k).copied().unwrap_or(UNWRITTEN) {
            return false;
        }
    }
    true
}

/// Whether a call of `kus_shape` gives a status, and as many glyphs as are wanted, of which it writes those that three cells
/// have room for. One that is refused for want of memory writes none.
fn is_shaped(
    alloc: Global,
    font: &mut Handle,
    text: &kus_text_t<'_>,
    status: u32,
    want: &[Glyph],
) -> Result<bool, AllocError> {
    let (mut infos, mut positions, mut count) = ([INFO; 3], [POSITION; 3], 77);
    let given = kus_shape(alloc, font, text, &mut infos, &mut positions, &mut count);
    if given == 1 && count == 0 && have_glyphs(&infos, &positions, &[]) {
        return Err(AllocError);
    }
    Ok(given == status && count == want.len() && have_glyphs(&infos, &positions, want))
}

/// Drops the font of a handle; a handle itself is no value that may be dropped.
fn close(font: Handle) {
    if let Some(pointer) = font.open() {
        drop(pointer.into_box());
    }
}

/// Drops the tables of a handle.
fn close_tables(tables: TablesHandle) {
    if let Some(pointer) = tables.open() {
        drop(pointer.into_box());
    }
}

fn rows_are_shaped(alloc: Global, font: &mut Handle) -> Result<bool, AllocError> {
    let status = kus_font_create(alloc, font, b"{}", FONT.as_bytes());
    let joined = [(1, 0, 500), (7, 1, 520)];
    let rows: [(&[u8], u32, &[kus_feature_t], u32, &[Glyph]); 6] = [
        (b"ab", 0, &[], 0, &[(1, 0, 500), (2, 1, 600)]),
        (b"ab", 5, &[], 0, &[(2, 1, 600), (1, 0, 500)]),
        (b"fi", 0, &[NO_LIGATURES], 0, &[(3, 0, 300), (4, 1, 250)]),
        (b"afi", 0, &[], 0, &joined),
        (b"afi", 0, &[], 0, &joined),
        (b"\xC3(", 0, &[], 10, &[]),
    ];
    if answered(status)? != 0 {
        return Ok(false);
    }
    // A text that is refused for want of memory spoils no later one.
    let mut last = Ok(true);
    for (text, direction, features, status, want) in rows {
        let text = text_of(text, direction, features);
        match is_shaped(alloc, font, &text, status, want) {
            Ok(true) => {}
            Ok(false) => return Ok(false),
            refused => last = refused,
        }
    }
    last
}

#[test]
fn texts_have_the_glyphs_of_rows(rt: HostRuntime) -> Result<(), Fail> {
    let mut font = Handle::empty(rt.alloc());
    let holds = rows_are_shaped(rt.alloc(), &mut font);
    close(font);
    assert!(rt; holds?);
    Ok(())
}

fn handles_are_apart(
    alloc: Global,
    font: &mut Handle,
    other: &mut Handle,
) -> Result<bool, AllocError> {
    let status = kus_font_create(alloc, font, b"{}", FONT.as_bytes());
    let referenced = kus_font_reference(alloc, font, other);
    let four = [(1, 0, 500), (2, 1, 600), (1, 2, 500), (2, 3, 600)];
    let first = is_shaped(alloc, font, &text_of(b"abab", 0, &[]), 0, &four);
    kus_font_destroy(alloc, font);
    let gone = is_shaped(alloc, font, &text_of(b"ab", 0, &[]), 16, &[]);
    let joined = [(1, 0, 500), (7, 1, 520)];
    let second = is_shaped(alloc, other, &text_of(b"afi", 0, &[]), 0, &joined);
    kus_font_shrink(alloc, other);
    let (mut infos, mut positions) = ([INFO; 3], [POSITION; 3]);
    let count = kus_get_glyphs(alloc, other, &mut infos, &mut positions);
    let unwritten = kus_get_glyphs(alloc, font, &mut [], &mut []);
    let no_font = kus_font_reference(alloc, font, other);
    Ok(
        gone?
            && unwritten == 0
            && no_font == 16
            && answered(status)? == 0
            && first?
            && answered(referenced)? == 0
            && second?
            && count == 2
            && have_glyphs(&infos, &positions, &joined),
    )
}

#[test]
fn a_handle_has_its_own_glyphs(rt: HostRuntime) -> Result<(), Fail> {
    let (mut font, mut other) = (Handle::empty(rt.alloc()), Handle::empty(rt.alloc()));
    let holds = handles_are_apart(rt.alloc(), &mut font, &mut other);
    close(font);
    close(other);
    assert!(rt; holds?);
    Ok(())
}

/// The status of a new font's reader.
fn created(alloc: Global, tables: &[u8], json: &[u8]) -> u32 {
    let mut font = Handle::empty(alloc);
    let status = kus_font_create(alloc, &mut font, tables, json);
    close(font);
    status
}

#[test]
fn faults_have_their_numbers(rt: HostRuntime) -> Result<(), Fail> {
    let cases: [(&str, &str, u32); 5] = [
        ("{", "{}", 2),
        ("{\"splits\":[[98,97,0],[97,99,0]]}", "{}", 6),
        ("{\"splits\":[[97,97,98]]}", "{}", 8),
        ("{}", "{\"upem\":1000.5}", 4),
        ("{}", "{}", 0),
    ];
    for (tables, json, number) in cases {
        let status = created(rt.alloc(), tables.as_bytes(), json.as_bytes());
        assert_eq!(rt; answered(status)?, number);
    }
    Ok(())
}

fn tables_are_shared(
    alloc: Global,
    tables: &mut TablesHandle,
    other: &mut TablesHandle,
    font: &mut Handle,
) -> Result<bool, AllocError> {
    let none = kus_font_create_with_tables(alloc, font, tables, FONT.as_bytes());
    let unlawful = kus_tables_create(alloc, tables, b"{\"splits\":[[97,97,98]]}");
    let read = kus_tables_create(alloc, tables, b"{}");
    let referenced = kus_tables_reference(alloc, tables, other);
    kus_tables_destroy(alloc, tables);
    let gone = kus_tables_reference(alloc, tables, other);
    let refused = kus_font_create_with_tables(alloc, font, other, b"{");
    let created = kus_font_create_with_tables(alloc, font, other, FONT.as_bytes());
    kus_tables_destroy(alloc, other);
    let joined = [(1, 0, 500), (7, 1, 520)];
    let glyphs = is_shaped(alloc, font, &text_of(b"afi", 0, &[]), 0, &joined);
    Ok(
        none == 17
            && gone == 17
            && answered(unlawful)? == 8
            && answered(read)? == 0
            && answered(referenced)? == 0
            && answered(refused)? == 2
            && answered(created)? == 0
            && glyphs?,
    )
}

#[test]
fn fonts_share_tables(rt: HostRuntime) -> Result<(), Fail> {
    let alloc = rt.alloc();
    let (mut tables, mut other) = (TablesHandle::empty(alloc), TablesHandle::empty(alloc));
    let mut font = Handle::empty(alloc);
    let holds = tables_are_shared(alloc, &mut tables, &mut other, &mut font);
    close_tables(tables);
    close_tables(other);
    close(font);
    assert!(rt; holds?);
    Ok(())
}

/// What a slice has before a call.
const SLICE: kus_slice_t = kus_slice_t {
    first_glyph: 99,
    end_glyph: 99,
    start: 99,
    end: 99,
};

/// A slice: its glyphs, then its bytes.
type Row = (usize, usize, usize, usize);

const UNWRITTEN_ROW: Row = (99, 99, 99, 99);

/// Whether a call of `kus_get_slices` gives a status, and as many slices as are wanted, of which it writes those that three
/// cells have room for.
fn is_sliced(
    alloc: Global,
    font: &mut Handle,
    text: &[u8],
    status: u32,
    want: &[Row],
) -> Result<bool, AllocError> {
    let (mut slices, mut count) = ([SLICE; 3], 77);
    let given = kus_get_slices(alloc, font, text, &mut slices, &mut count);
    if answered(given)? != status || count != want.len() {
        return Ok(false);
    }
    for k in 0..3 {
        let slice = slices[k];
        let row = (slice.first_glyph, slice.end_glyph, slice.start, slice.end);
        if row != want.get(k).copied().unwrap_or(UNWRITTEN_ROW) {
            return Ok(false);
        }
    }
    Ok(true)
}

fn text_has_slices(alloc: Global, font: &mut Handle) -> Result<bool, AllocError> {
    let none = is_sliced(alloc, font, b"afib", 16, &[]);
    let status = kus_font_create(alloc, font, b"{}", FONT.as_bytes());
    // From right to left b, the letters f and i one after another, and a.
    let glyphs = [(2, 3, 600), (4, 2, 250), (3, 1, 300), (1, 0, 500)];
    let first = is_shaped(alloc, font, &text_of(b"afib", 5, &[]), 0, &glyphs);
    let rows = [(0, 1, 3, 4), (1, 2, 2, 3), (2, 3, 1, 2), (3, 4, 0, 1)];
    let slices = is_sliced(alloc, font, b"afib", 0, &rows);
    let unfit = is_sliced(alloc, font, b"a", 18, &[]);
    let no_text = is_sliced(alloc, font, b"\xC3(", 10, &[]);
    Ok(
        none?
            && answered(status)? == 0
            && first?
            && slices?
            && unfit?
            && no_text?
            && kus_get_direction(alloc, font) == 5
            && kus_get_script(alloc, font) == 0x4C61746E,
    )
}

#[test]
fn texts_have_slices(rt: HostRuntime) -> Result<(), Fail> {
    let mut font = Handle::empty(rt.alloc());
    let holds = text_has_slices(rt.alloc(), &mut font);
    close(font);
    assert!(rt; holds?);
    Ok(())
}

fn glyphs_are_named_and_boxed(alloc: Global, font: &mut Handle) -> bool {
    let mut glyphs = [77; 3];
    let has = kus_font_get_nominal_glyph(alloc, font, 98, &mut glyphs[0])
        && !kus_font_get_nominal_glyph(alloc, font, 99, &mut glyphs[1])
        && !kus_font_get_nominal_glyph(alloc, font, 0xD800, &mut glyphs[2]);
    let mut name = [0; 2];
    let named = kus_font_get_glyph_name(alloc, font, 2, &mut name) == 3
        && kus_font_get_glyph_name(alloc, font, 0x10002, &mut []) == 0;
    let mut box_of = kus_glyph_extents_t {
        x_bearing: 99,
        y_bearing: 99,
        width: 99,
        height: 99,
    };
    let boxed = kus_font_get_glyph_extents(alloc, font, 1, &mut box_of)
        && !kus_font_get_glyph_extents(alloc, font, 2, &mut box_of);
    let (bearings, sizes) = (
        (box_of.x_bearing, box_of.y_bearing),
        (box_of.width, box_of.height),
    );
    has && glyphs == [2, 0, 0]
        && named
        && name == *b"be"
        && boxed
        && bearings == (10, 20)
        && sizes == (30, -40)
}

fn glyphs_have_advances(alloc: Global, font: &mut Handle) -> bool {
    kus_font_get_glyph_h_advance(alloc, font, 7) == 520
        && kus_font_get_glyph_h_advance(alloc, font, 0x10007) == 0
        && kus_font_get_glyph_v_advance(alloc, font, 7) == -1000
        && kus_font_get_glyph_v_advance(alloc, font, 0x10007) == 0
}

fn tags_are_listed(alloc: Global, font: &mut Handle) -> bool {
    let mut tags = [0; 2];
    kus_font_get_feature_tags(alloc, font, 0x47535542, &mut tags) == 1
        && kus_font_get_script_tags(alloc, font, 0x47535542, &mut tags[1..]) == 1
        && tags == [0x6C696761, 0x44464C54]
        && kus_font_get_feature_tags(alloc, font, 0x47504F53, &mut []) == 0
        && kus_font_get_script_tags(alloc, font, 0x47444546, &mut []) == 0
}

fn questions_are_answered(alloc: Global, font: &mut Handle) -> Result<bool, AllocError> {
    let nothing = kus_font_get_upem(alloc, font) == 0
        && kus_font_get_ascender(alloc, font) == 0
        && kus_get_direction(alloc, font) == 0;
    let status = kus_font_create(alloc, font, b"{}", FONT.as_bytes());
    Ok(
        nothing
            && answered(status)? == 0
            && kus_font_get_upem(alloc, font) == 1000
            && kus_font_get_ascender(alloc, font) == 800
            && glyphs_are_named_and_boxed(alloc, font)
            && glyphs_have_advances(alloc, font)
            && kus_font_get_ligature_carets(alloc, font, 7, &mut [99]) == 0
            && tags_are_listed(alloc, font),
    )
}

#[test]
fn fonts_answer_questions(rt: HostRuntime) -> Result<(), Fail> {
    let mut font = Handle::empty(rt.alloc());
    let holds = questions_are_answered(rt.alloc(), &mut font);
    close(font);
    assert!(rt; holds?);
    assert_eq!(rt; kus_version(), 0x000200);
    Ok(())
}
