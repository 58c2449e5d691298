//! Texts past 65,536 characters, or near it: the same characters many times.
use crate::memory::{field, plain_options, ran};
use buffer_glyphs::cause::ShapeCause;
use shell_readers::fault::RunFault;
use shell_readers::options::Options;
use std::alloc::{AllocError, Global};
use std::test::Fail;

/// Ligatures of f f i and of f i; then, by a second lookup, of b and that of f i, and of b b, which is glyph 1.
static LIGATURES: &str = r#"{"cmap":[[97,1],[98,2],[102,3],[105,4]],
  "h":[[1,500],[2,600],[3,300],[4,250],[7,520],[8,530],[9,540]],
  "gsub":{"scripts":[["DFLT",{"features":[0]},[]],["grek",null,[]]],"features":[["liga",[1,0]]],
  "lookups":[{"type":"ligature","flags":9,"subtables":[[[3,[[[3,4],9],[[4],7]]]]]},{"type":"ligature",
  "subtables":[[[2,[[[7],8]]]],[[2,[[[2],1]]]]]}]}}"#;

/// a becomes two glyphs.
static TWO_GLYPHS: &str = r#"{"cmap":[[97,1],[98,2]],"h":[[1,500],[2,600],[3,300],[4,250]],
  "gsub":{"scripts":[["DFLT",{"features":[0]},[]]],"features":[["ccmp",[0]]],"lookups":[{"type":"multiple",
  "subtables":[[[1,[3,4]]]]}]}}"#;

/// a becomes no glyph.
static NO_GLYPH: &str =
    r#"{"cmap":[[97,1],[98,2]],"h":[[2,600]],"gsub":{"scripts":[["DFLT",{"features":[0]},[]]],
  "features":[["ccmp",[0]]],"lookups":[{"type":"multiple","subtables":[[[1,[]]]]}]}}"#;

/// a has two alternates.
static ALTERNATES: &str = r#"{"cmap":[[97,1]],"h":[[1,500],[3,300],[4,250]],
  "gsub":{"scripts":[["DFLT",{"features":[0]},[]]],"features":[["aalt",[0]]],
  "lookups":[{"type":"alternate","subtables":[[[1,[3,4]]]]}]}}"#;

/// a after b becomes glyph 3, by a lookup of no feature.
static AFTER_B: &str = r#"{"cmap":[[97,1],[98,2]],"h":[[1,500],[2,600],[3,300]],
  "gsub":{"scripts":[["DFLT",{"features":[0]},[]]],"features":[["calt",[0]]],
  "lookups":[{"type":"chain","subtables":[{"format":"glyphs","rules":[[[2],[1],[],[[0,1]]]]}]},{"type":"single",
  "subtables":[[[1,3]]]}]}}"#;

/// a before b becomes glyph 3, by a lookup from the end.
static BEFORE_B: &str = r#"{"cmap":[[97,1],[98,2]],"h":[[1,500],[2,600],[3,300]],
  "gsub":{"scripts":[["DFLT",{"features":[0]},[]]],"features":[["calt",[0]]],
  "lookups":[{"type":"reverse","subtables":[[[],[[2]],[[1,3]]]]}]}}"#;

// A glyph of the characters is its number, the index of its character's byte, and its width.
static ROWS: &str = "# name; font; count; feature; characters; their glyphs
a letter and a ligature; ligatures; 25000; ; afi; 1,0,500 7,1,520
a glyph becomes two; two glyphs; 70000; ; ab; 3,0,300 4,0,250 2,1,600
a glyph is deleted; no glyph; 70000; ; b; 2,0,600
the second alternate; alternates; 70000; aalt=2; a; 4,0,250
a chained context; after b; 70000; ; ba; 2,0,600 3,1,300
a lookup from the end; before b; 70000; ; ab; 3,0,300 2,1,600
a ligature; ligatures; 70000; ; fi; 7,0,520";

fn font_of(name: &str) -> &'static str {
    match name {
        "two glyphs" => TWO_GLYPHS,
        "no glyph" => NO_GLYPH,
        "alternates" => ALTERNATES,
        "after b" => AFTER_B,
        "before b" => BEFORE_B,
        _ => LIGATURES,
    }
}

/// Characters, and then others that many times.
fn text_of(alloc: Global, first: &str, others: &str, count: u32) -> Result<String, AllocError> {
    let mut text = String::from_str(alloc, first)?;
    for _ in 0..count {
        text.push_str(others)?;
    }
    Ok(text)
}

/// Appends a glyph of the characters from a byte on to a line: its number, the index of its character, its width.
fn push_glyph(line: &mut String, glyph: &str, start: u32) -> Result<(), Fail> {
    let cluster = start.saturating_add(field(glyph, ',', 1).parse::<u32>()?);
    let bar = if line.is_empty() { "" } else { "|" };
    let (number, width) = (field(glyph, ',', 0), field(glyph, ',', 2));
    write!(line, "{bar}{number}={cluster}+{width}")?;
    Ok(())
}

/// The line of that many repetitions of the characters' glyphs, and a line feed.
fn line_of(alloc: Global, characters: &str, glyphs: &str, count: u32) -> Result<String, Fail> {
    let length = u32::try_from(characters.len())?;
    let mut line = String::new(alloc);
    for i in 0..count {
        for glyph in glyphs.split(' ') {
            push_glyph(&mut line, glyph, i.saturating_mul(length))?;
        }
    }
    line.push('\n')?;
    Ok(line)
}

fn options_of(alloc: Global, feature: &str) -> Result<Options, Fail> {
    let mut options = plain_options(alloc);
    if !feature.is_empty() {
        options.features.push(feature.parse()?)?;
    }
    Ok(options)
}

fn is_followed(alloc: Global, row: &str) -> Result<bool, Fail> {
    let count = field(row, ';', 2).parse::<u32>()?;
    let characters = field(row, ';', 4);
    let text = text_of(alloc, "", characters, count)?;
    let options = options_of(alloc, field(row, ';', 3))?;
    let font = font_of(field(row, ';', 1));
    let (answer, out) = ran(alloc, options, "{}", font, text.as_bytes())?;
    let line = line_of(alloc, characters, field(row, ';', 5), count)?;
    Ok(answer == Ok(()) && out.as_slice() == line.as_bytes())
}

#[test]
fn long_texts_are_shaped(rt: HostRuntime) -> Result<(), Fail> {
    for row in ROWS.lines() {
        let is_followed = row.starts_with('#') || is_followed(rt.alloc(), row)?;
        assert!(rt; is_followed, "{row}");
    }
    Ok(())
}

/// y is a mark on a.
static MARK: &str = r#"{"cmap":[[97,1],[121,9]],"h":[[1,500]],"gdef":{"classes":[[9,3]]},
  "gpos":{"scripts":[["DFLT",{"features":[0]},[]]],"features":[["dist",[0]]],
  "lookups":[{"type":"markbase","subtables":[{"marks":[[9,0,[100,0]]],"bases":[[1,[[250,480]]]]}]}]}}"#;

/// Whether the line of a base with that many marks ends with these glyphs.
fn is_stacked(alloc: Global, count: u32, last: &str) -> Result<bool, AllocError> {
    let text = text_of(alloc, "a", "y", count)?;
    let (answer, out) = ran(alloc, plain_options(alloc), "{}", MARK, text.as_bytes())?;
    Ok(answer == Ok(()) && out.as_slice().ends_with(last.as_bytes()))
}

// A link reaches at most 32,767 glyphs: a mark that is farther away is not attached.
#[test]
fn many_marks_are_attached_to_one_base(rt: HostRuntime) -> Result<(), Fail> {
    let last = "|9=32767@-350,480+0|9=32768+0\n";
    let is_stacked = is_stacked(rt.alloc(), 32_768, last)?;
    assert!(rt; is_stacked);
    Ok(())
}

static JOINING: &str = r#"{"joining":[[1576,"D"]]}"#;

/// A sign that becomes two tiles, the second of which repeats, and the widest letter that a font may have.
static WIDE: &str = r#"{"upem":1000,"cmap":[[1569,40],[1576,20]],"h":[[20,65535],[41,100],[42,300]],
  "gsub":{"scripts":[["arab",{"features":[0]},[]]],"features":[["stch",[0]]],"lookups":[{"type":"multiple",
  "subtables":[[[40,[41,42]]]]}]}}"#;

fn is_refused(alloc: Global, letters: u32, cause: ShapeCause) -> Result<bool, AllocError> {
    let text = text_of(alloc, "\u{621}", "\u{628}", letters)?;
    let options = plain_options(alloc);
    let (answer, out) = ran(alloc, options, JOINING, WIDE, text.as_bytes())?;
    Ok(answer == Err(RunFault::Shape(cause)) && out.is_empty())
}

// 32,768 letters are nearly 2^31 wide: no text may have that many copies of a tile. With one letter more, the width
// doesn't fit in 32 bits.
#[test]
fn words_are_stretched_within_limits(rt: HostRuntime) -> Result<(), Fail> {
    for (letters, cause) in [
        (32_768, ShapeCause::TooLong),
        (32_769, ShapeCause::StretchRange),
    ] {
        let is_refused = is_refused(rt.alloc(), letters, cause)?;
        assert!(rt; is_refused, "{letters}");
    }
    Ok(())
}
