//! The buffer that a refused text hands back, filled again. `tools/short_memory tests_pipeline refilled` refuses each
//! allocation of the first text in turn; the second text is then shaped as if it were the first.
use crate::data::{ReadTables, TABLES, Tables, face_of};
use buffer_common::constants::BufferFlags;
use buffer_common::direction::Direction;
use buffer_glyphs::cause::ShapeCause;
use buffer_glyphs::flags::SerializeFlags;
use buffer_glyphs::level::BufferClusterLevel;
use buffer_wrappers::unicode_buffer::UnicodeBuffer;
use layout_face::Face;
use shape_pipeline::shaping::shape;
use std::alloc::{AllocError, Global};
use std::process::Abort;
use std::test::Fail;

const NUMBERS: SerializeFlags = SerializeFlags(4);

// f and i become a ligature. b becomes 12 times 12 times 12 times 12 glyphs, more than one character may become.
static FONT: &str =
    r#"{"upem":1000,"cmap":[[97,1],[98,2],[102,3],[105,4]],"h":[[1,500],[2,600],[3,300],[4,250],[7,520]],"gsub":{"scripts":[["DFLT",{"features":[0,1]},[]]],"features":[["liga",[0]],["ccmp",[1,2,3,4]]],"lookups":[{"type":"ligature","subtables":[[[3,[[[4],7]]]]]},{"type":"multiple","subtables":[[[2,[2,2,2,2,2,2,2,2,2,2,2,2]]]]},{"type":"multiple","subtables":[[[2,[2,2,2,2,2,2,2,2,2,2,2,2]]]]},{"type":"multiple","subtables":[[[2,[2,2,2,2,2,2,2,2,2,2,2,2]]]]},{"type":"multiple","subtables":[[[2,[2,2,2,2,2,2,2,2,2,2,2,2]]]]}]}}"#;

/// A text with settings that a new buffer has not.
fn filled(alloc: Global, text: &str) -> Result<UnicodeBuffer, AllocError> {
    let mut buffer = UnicodeBuffer::new(alloc);
    buffer.set_direction(Direction::RightToLeft);
    buffer.set_cluster_level(BufferClusterLevel::Characters);
    buffer.set_flags(BufferFlags(3));
    buffer.push_str(text)?;
    Ok(buffer)
}

fn is_cleared(buffer: &UnicodeBuffer) -> bool {
    buffer.is_empty()
        && buffer.direction() == Direction::Invalid
        && buffer.cluster_level() == BufferClusterLevel::MonotoneGraphemes
        && buffer.flags() == BufferFlags(0)
}

/// The buffer of a text after its shaping, `None` where a refused one is not as `clear` leaves it.
fn handed_back(
    alloc: Global,
    face: &Face,
    tables: Tables<'_>,
    text: UnicodeBuffer,
) -> Option<UnicodeBuffer> {
    match shape(alloc, face, tables.data(), &[], text) {
        Ok(glyphs) => Some(glyphs.clear()),
        Err(fault) => {
            let buffer = fault.buffer;
            if is_cleared(&buffer) {
                Some(buffer)
            } else {
                None
            }
        }
    }
}

/// The line of a second text in the buffer of a first one.
fn line_after(
    alloc: Global,
    face: &Face,
    tables: Tables<'_>,
    first: &str,
) -> Result<String, ShapeCause> {
    let text = filled(alloc, first)?;
    let Some(mut buffer) = handed_back(alloc, face, tables, text) else {
        return Ok(String::new(alloc));
    };
    buffer.push_str("afi")?;
    match shape(alloc, face, tables.data(), &[], buffer) {
        Ok(glyphs) => Ok(glyphs.serialize(alloc, face, NUMBERS)?),
        Err(fault) => Err(fault.cause),
    }
}

fn lines_follow(
    rt: &impl Abort,
    alloc: Global,
    face: &Face,
    tables: Tables<'_>,
) -> Result<(), Fail> {
    for first in ["b", "afi"] {
        let line = line_after(alloc, face, tables, first)?;
        assert!(rt; line.as_str() == "1=0+500|7=1+520", "{first}");
    }
    Ok(())
}

fn lines_follow_in_font(rt: &impl Abort, alloc: Global, tables: Tables<'_>) -> Result<(), Fail> {
    let face = face_of(alloc, FONT)?;
    lines_follow(rt, alloc, &face, tables)
}

#[test]
fn refused_buffers_are_filled_again(rt: HostRuntime) -> Result<(), Fail> {
    let tables = ReadTables::from_text(rt.alloc(), TABLES)?;
    lines_follow_in_font(&rt, rt.alloc(), tables.borrowed())
}
