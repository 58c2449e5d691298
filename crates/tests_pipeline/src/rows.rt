//! Rows of tests: fields are separated by semicolons, lists by spaces, and numbers by commas.
use buffer_glyphs::flags::SerializeFlags;
use buffer_glyphs::level::BufferClusterLevel;
use buffer_wrappers::unicode_buffer::UnicodeBuffer;
use std::alloc::Global;
use std::test::Fail;

/// A field of a row.
pub(crate) fn part(row: &str, at: usize) -> &str {
    row.split(';').nth(at).unwrap_or("")
}

fn number(list: &str, at: usize) -> Option<u32> {
    list.split(',').nth(at)?.parse().ok()
}

/// What is printed of a row's glyphs: their clusters and positions, or their numbers only.
pub(crate) fn flags_of(row: &str) -> SerializeFlags {
    if part(row, 1) == "glyphs" {
        SerializeFlags(7)
    } else {
        SerializeFlags(4)
    }
}

fn level_of(row: &str) -> BufferClusterLevel {
    match part(row, 0) {
        "graphemes" => BufferClusterLevel::MonotoneGraphemes,
        "monotone" => BufferClusterLevel::MonotoneCharacters,
        _ => BufferClusterLevel::Characters,
    }
}

fn add(character: &str, buffer: &mut UnicodeBuffer) -> Result<(), Fail> {
    let Some(code) = number(character, 0) else {
        return Ok(());
    };
    let cluster = number(character, 1).unwrap_or(0);
    if buffer.add(char::from_u32(code).ok_or("no character")?, cluster)? {
        Ok(())
    } else {
        Err("no room".into())
    }
}

/// A row's text: characters with the numbers of their clusters.
pub(crate) fn text_of(alloc: Global, row: &str) -> Result<UnicodeBuffer, Fail> {
    let mut buffer = UnicodeBuffer::new(alloc);
    buffer.set_cluster_level(level_of(row));
    for character in part(row, 2).split(' ') {
        add(character, &mut buffer)?;
    }
    Ok(buffer)
}
