//! Rows of lists: fields are separated by semicolons, lists by spaces, and numbers by commas.
ghost use Rattle.std.specs.Prelude.{◌≡◌, true};
ghost use Rattle.buffer_glyphs.specs.Items.{clusters};
ghost use Rattle.buffer_glyphs.specs.Order.{IsOrdered};

use crate::parts::part;
use buffer_glyphs::info::hb_glyph_info_t;
use buffer_glyphs::level::BufferClusterLevel;
use buffer_glyphs::position::GlyphPosition;
use buffer_lists::order::KnownOrder;
use std::alloc::{AllocError, Global};

/// Whether a field is `yes`.
pub fn is_so(row: &str, at: usize) -> bool {
    part(row, at) == "true"
}

pub fn size(row: &str, at: usize) -> usize {
    part(row, at).parse().unwrap_or(0)
}

pub fn level_of(row: &str) -> BufferClusterLevel {
    match part(row, 0) {
        "graphemes" => BufferClusterLevel::MonotoneGraphemes,
        "characters" => BufferClusterLevel::MonotoneCharacters,
        _ => BufferClusterLevel::Characters,
    }
}

fn number(list: &str, at: usize) -> u32 {
    let number = list.split(',').nth(at).unwrap_or("");
    number.parse().unwrap_or(0)
}

/// A glyph by number, cluster and mask, which are 0 where they are missing.
pub fn glyph(text: &str) -> hb_glyph_info_t {
    hb_glyph_info_t {
        glyph_id: number(text, 0),
        cluster: number(text, 1),
        mask: number(text, 2),
        ..hb_glyph_info_t::default()
    }
}

pub fn glyphs_of(alloc: Global, list: &str) -> Result<Vec<hb_glyph_info_t>, AllocError> {
    let mut glyphs = Vec::new(alloc);
    for text in list.split_terminator(' ') {
        glyphs.push(glyph(text))?;
    }
    Ok(glyphs)
}

pub fn are(glyphs: &[hb_glyph_info_t], list: &str) -> bool {
    let wanted = list.split_terminator(' ').map(glyph);
    glyphs.iter().copied().eq(wanted)
}

fn position(advance: &str) -> GlyphPosition {
    GlyphPosition {
        x_advance: advance.parse().unwrap_or(0),
        ..GlyphPosition::default()
    }
}

/// Positions with the advances 10, 20, 30 and so on, at most seven.
pub fn positions_of(alloc: Global, count: usize) -> Result<Vec<GlyphPosition>, AllocError> {
    let mut positions = Vec::new(alloc);
    for advance in "10 20 30 40 50 60 70".split(' ').take(count) {
        positions.push(position(advance))?;
    }
    Ok(positions)
}

pub fn have_advances(positions: &[GlyphPosition], list: &str) -> bool {
    let wanted = list.split_terminator(' ').map(position);
    positions.iter().copied().eq(wanted)
}

/// Whether the clusters are in order: they never fall, or they never rise.
pub fn stand_in_order(glyphs: &[hb_glyph_info_t]) -> bool
    ensures { result ≡ true → IsOrdered (clusters glyphs.now) }
{
    match KnownOrder::Unknown.walked(&[], glyphs) {
        KnownOrder::Unknown => false,
        KnownOrder::Rising | KnownOrder::Falling => true,
    }
}
