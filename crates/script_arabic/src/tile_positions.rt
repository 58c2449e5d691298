//! The offsets of tiles (rustybuzz: hb/ot_shaper_arabic.rs, apply_stch).
ghost use Rattle.std.specs.Prelude.{ℕ, ℤ, ◌≡◌, ◌++◌, ◌+◌, IfOk, length, reverse};
ghost use Rattle.std.specs.Int.{int_wrap, w32};
ghost use Rattle.script_arabic.specs.TilePositions.{begins_at, copy_positions, copy_begin, all_positions, tile_positions, tile_at};

use crate::tile::Tile;
use buffer_glyphs::position::GlyphPosition;
use std::alloc::{AllocFailed, Global};

/// The positions of the glyphs and of their copies, in order. It takes linear time, and memory for them.
///
/// # Errors
///
/// Lack of memory.
pub fn positions_of(
    alloc: Global,
    tiles: &[Option<Tile>],
    positions: &[GlyphPosition],
) -> Result<Vec<GlyphPosition>, AllocFailed<GlyphPosition>>
    requires { length positions.now ≡ length tiles.now }
    ensures { IfOk result (λ ps. ps.items ≡ all_positions positions.now tiles.now) }
{
    let mut laid_positions = positions_leftward(alloc, tiles, positions)?;
    laid_positions.reverse();
    Ok(laid_positions)
}

/// The positions from the last to the first.
fn positions_leftward(
    alloc: Global,
    tiles: &[Option<Tile>],
    positions: &[GlyphPosition],
) -> Result<Vec<GlyphPosition>, AllocFailed<GlyphPosition>>
    requires { length positions.now ≡ length tiles.now }
    ensures { IfOk result (λ ps. ps.items ≡ reverse (all_positions positions.now tiles.now)) }
{
    let mut laid_positions = Vec::new(alloc);
    let mut x = 0;
    let count = tiles.len();
    for i in 0..count {
        let at = count - (i + 1);
        x = add_positions(tiles[at], positions[at], x, &mut laid_positions)?;
    }
    Ok(laid_positions)
}

/// Adds the positions of a glyph and of its copies from right to left, where the glyph to their right begins at x
/// modulo 2^32; returns where they begin.
fn add_positions(
    tile: Option<Tile>,
    position: GlyphPosition,
    x: i32,
    laid_positions: &mut Vec<GlyphPosition>,
) -> Result<i32, AllocFailed<GlyphPosition>>
    ensures { IfOk result (λ y. (at : ℤ) → x ≡ int_wrap w32 at
        → (y ≡ int_wrap w32 (begins_at tile at)) × (laid_positions.new.items ≡ laid_positions.old.items
        ++ reverse (tile_positions position tile at))) }
{
    match tile {
        None => {
            laid_positions.push(position)?;
            Ok(0)
        }
        Some(tile) => add_tile_positions(tile, position, x, laid_positions),
    }
}

fn add_tile_positions(
    tile: Tile,
    position: GlyphPosition,
    x: i32,
    laid_positions: &mut Vec<GlyphPosition>,
) -> Result<i32, AllocFailed<GlyphPosition>>
    ensures { IfOk result (λ y. (at : ℤ) → x ≡ int_wrap w32 at
        → (y ≡ int_wrap w32 (copy_begin tile at tile.copies)) ×
        (laid_positions.new.items ≡ laid_positions.old.items ++ reverse (copy_positions position tile at tile.copies))) }
{
    let mut begin = first_begin(tile, x);
    laid_positions.push(tile_at(position, begin))?;
    for _ in 0..tile.copies {
        begin = next_begin(tile, begin);
        laid_positions.push(tile_at(position, begin))?;
    }
    Ok(begin)
}

/// Where a tile begins that ends at x.
fn first_begin(tile: Tile, x: i32) -> i32
    ensures { (at : ℤ) → x ≡ int_wrap w32 at → result ≡ int_wrap w32 (copy_begin tile at 0) }
{
    x.wrapping_sub(tile.width)
}

/// Where a further copy begins, to the left of a tile or copy that begins at x.
fn next_begin(tile: Tile, x: i32) -> i32
    ensures { (at : ℤ) (n : ℕ) → x ≡ int_wrap w32 (copy_begin tile at n) → result
        ≡ int_wrap w32 (copy_begin tile at (n + 1)) }
{
    x.wrapping_sub(tile.width).wrapping_add(tile.overlap)
}

/// The position of a tile that begins at x.
fn tile_at(position: GlyphPosition, x: i32) -> GlyphPosition
    ensures { (at : ℤ) → x ≡ int_wrap w32 at → result ≡ tile_at position at }
{
    GlyphPosition {
        x_offset: x,
        x_advance: 0,
        ..position
    }
}
