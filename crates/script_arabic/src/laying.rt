//! How often each tile of a text repeats, and how wide it is (rustybuzz: hb/ot_shaper_arabic.rs, apply_stch).
ghost use Rattle.std.specs.Prelude.{◌≡◌, ◌≤◌, ◌<◌, ◌*◌, ◌/◌, ◌+◌, ◌-◌, pos, true, length, IfOk};
ghost use Rattle.std.specs.List.{list_all};
ghost use Rattle.buffer_glyphs.specs.Items.{item_of, strip};
ghost use Rattle.script_arabic.specs.Copies;
ghost use Rattle.script_arabic.specs.Copies.{copies, left_of_word};
ghost use Rattle.script_arabic.specs.Runs.{width};
ghost use Rattle.script_arabic.specs.Laying.{copies_of, fits, is_in_range, overlap, run_in_range, tile_in_run, tile_of, tiles};

use crate::copies::{copies, left_of_word};
use crate::runs::Run;
use crate::tile::Tile;
use crate::words::is_repeating;
use buffer_glyphs::info::hb_glyph_info_t;
use layout_face::Face;
use std::alloc::{AllocFailed, Global};

/// Whether the widths of each run fit in 32 bits.
pub fn are_in_range(runs: &[Option<Run>]) -> bool
    ensures { result ≡ list_all is_in_range runs.now }
{
    runs.iter().all(|run| is_in_range(*run))
}

fn is_in_range(run: Option<Run>) -> bool
    ensures { result ≡ is_in_range run }
{
    match run {
        None => true,
        Some(run) => run_in_range(&run),
    }
}

fn run_in_range(run: &Run) -> bool
    ensures { result ≡ run_in_range run.now }
{
    fits(run.word) && run.fixed <= 0x7FFF_FFFF && run.repeating <= 0x7FFF_FFFF
}

fn fits(width: i128) -> bool
    ensures { result ≡ fits width }
{
    -0x8000_0000 <= width && width <= 0x7FFF_FFFF
}

/// The tile of each glyph that is one. It takes linear time, and memory for them.
///
/// # Errors
///
/// Lack of memory.
#[tactic(auto, using(crate::proofs::Listed::none_listed, crate::proofs::Listed::one_listed, crate::proofs::Listed::all_listed, crate::proofs::Listed::run_there))]
pub fn tiles_of(
    alloc: Global,
    face: &Face,
    glyphs: &[hb_glyph_info_t],
    runs: &[Option<Run>],
) -> Result<Vec<Option<Tile>>, AllocFailed<Option<Tile>>>
    requires same { length runs.now ≡ length glyphs.now }
    requires ranged { list_all is_in_range runs.now ≡ true }
    ensures { IfOk result (λ ts. ts.items ≡ tiles face.now (strip glyphs.now) runs.now) }
{
    let mut tiles = Vec::new(alloc);
    for at in 0..glyphs.len() {
        tiles.push(tile_of(face, &glyphs[at], runs[at]))?;
    }
    Ok(tiles)
}

fn tile_of(face: &Face, glyph: &hb_glyph_info_t, run: Option<Run>) -> Option<Tile>
    requires { is_in_range run ≡ true }
    ensures { result ≡ tile_of face.now (item_of glyph.now) run }
{
    match run {
        None => None,
        Some(run) => Some(tile_in_run(face, glyph, &run)),
    }
}

fn tile_in_run(face: &Face, glyph: &hb_glyph_info_t, run: &Run) -> Tile
    requires { run_in_range run.now ≡ true }
    ensures { result ≡ tile_in_run face.now (item_of glyph.now) run.now }
{
    Tile {
        copies: copies_of(glyph, run),
        width: width(face, glyph),
        overlap: overlap(run),
    }
}

fn copies_of(glyph: &hb_glyph_info_t, run: &Run) -> u32
    requires { run_in_range run.now ≡ true }
    ensures { result ≡ copies_of (item_of glyph.now) run.now }
{
    if !is_repeating(glyph) {
        return 0;
    }
    copies_in_run(run)
}

/// The number of copies of each repeating tile.
#[tactic(auto, using(crate::proofs::Shared::few_copies))]
fn copies_in_run(run: &Run) -> u32
    requires { run_in_range run.now ≡ true }
    ensures { result ≡ copies run.now }
{
    copies(run) as u32
}

fn width(face: &Face, glyph: &hb_glyph_info_t) -> i32
    ensures { result ≡ pos (width face.now (item_of glyph.now)) }
{
    match u16::try_from(glyph.glyph_id) {
        Ok(id) => face.glyph_h_advance(id),
        Err(_) => 0,
    }
}

/// The overlap of each copy and its neighbour, in font units.
#[tactic(auto, using(crate::proofs::Shared::none_over, crate::proofs::Shared::over_none))]
fn overlap(run: &Run) -> i32
    requires { run_in_range run.now ≡ true }
    ensures { result ≡ pos (overlap run.now) }
{
    let copies = copies(run);
    if copies == 0 || run.tiles == 0 {
        return 0;
    }
    shared(excess(run, copies), copies, run.tiles) as i32
}

/// The width by which the repeating tiles, with that many copies, exceed what the word leaves for them.
#[tactic(auto, using(crate::proofs::Shared::tiles_reach, crate::proofs::Shared::excess_small, crate::proofs::Shared::both_small))]
fn excess(run: &Run, copies: u128) -> u128
    requires ranged { run_in_range run.now ≡ true }
    requires count { copies ≡ Copies.copies run.now }
    requires some { 0 < copies }
    ensures value { result ≡ (Copies.copies run.now + 1) * run.now.repeating - left_of_word run.now }
    ensures small { result ≤ 0x7FFF_FFFF }
{
    (copies + 1) * run.repeating - left_of_word(run)
}

/// The share of an excess for each copy of each tile.
#[tactic(auto, using(crate::proofs::Shared::shared_twice, crate::proofs::Shared::shared_small))]
fn shared(excess: u128, copies: u128, tiles: u128) -> u128
    requires small { excess ≤ 0x7FFF_FFFF }
    requires some { 0 < copies }
    requires more { 0 < tiles }
    ensures value { result ≡ excess / (copies * tiles) }
    ensures small { result ≤ 0x7FFF_FFFF }
{
    excess / copies / tiles
}
