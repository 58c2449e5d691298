//! Runs of tiles, and the word before each (rustybuzz: hb/ot_shaper_arabic.rs, apply_stch).
ghost use Rattle.std.specs.Prelude.{ℕ, ◌≡◌, ◌≤◌, ◌<◌, ◌+◌, ◌+ℤ◌, ◌^◌, pos, length, IfOk};
ghost use Rattle.buffer_glyphs.specs.Coordinates.{IsNear};
ghost use Rattle.buffer_glyphs.specs.Items.{item_of, strip};
ghost use Rattle.script_arabic.specs.Runs.{next_before, unmeasured_run, run_here, runs, tile_run, width, with_tile, with_tiles, word_before, word_after};

use crate::words::{is_fixed, is_of_word, is_tile};
use buffer_glyphs::info::hb_glyph_info_t;
use buffer_glyphs::position::GlyphPosition;
use layout_face::Face;
use std::alloc::{AllocFailed, Global};

/// The widths of a run of tiles and of the word they are laid over, in font units.
#[derive(Clone, Copy)]
pub struct Run {
    /// The sum of the advances of the word before the run.
    pub word: i128,
    /// The sum of the fixed tiles' widths in the font.
    pub fixed: u128,
    /// The sum of the repeating tiles' widths in the font.
    pub repeating: u128,
    /// The number of repeating tiles.
    pub tiles: u128,
}

/// What is directly before a glyph.
#[derive(Clone, Copy)]
pub enum Before {
    /// A word of a width.
    Word(i128),
    /// Tiles of a run.
    Tiles(Run),
}

/// The run of each glyph that is a tile, by the word before it. It takes linear time, and memory for them.
///
/// # Errors
///
/// Lack of memory.
#[tactic(auto, using(crate::proofs::Walked::none_run, crate::proofs::Walked::one_run, crate::proofs::Walked::all_run))]
pub fn runs_of(
    alloc: Global,
    face: &Face,
    glyphs: &[hb_glyph_info_t],
    positions: &[GlyphPosition],
) -> Result<Vec<Option<Run>>, AllocFailed<Option<Run>>>
    requires { length positions.now ≡ length glyphs.now }
    ensures { IfOk result (λ rs. rs.items ≡ runs face.now (Before.Word (pos 0)) (strip glyphs.now) positions.now) }
{
    let mut runs = Vec::new(alloc);
    let mut before = Before::Word(0);
    for at in 0..glyphs.len() {
        before = next_before(face, before, &glyphs[at..], positions[at]);
        runs.push(tile_run(before))?;
    }
    Ok(runs)
}

fn tile_run(before: Before) -> Option<Run>
    ensures { result ≡ tile_run before }
{
    match before {
        Before::Word(_) => None,
        Before::Tiles(run) => Some(run),
    }
}

/// What is before the glyph after the first of some glyphs.
fn next_before(
    face: &Face,
    before: Before,
    glyphs: &[hb_glyph_info_t],
    position: GlyphPosition,
) -> Before
    requires some { 0 < length glyphs.now }
    requires near { IsNear (2 ^ 96) (word_before before) }
    ensures value { result ≡ next_before face.now before (strip glyphs.now) position }
    ensures near { (bound : ℕ) → IsNear bound (word_before before) → IsNear (bound + 2 ^ 31) (word_before result) }
{
    let glyph = glyphs[0];
    if is_tile(&glyph) {
        return Before::Tiles(run_here(face, before, glyphs));
    }
    after_word(word_after(before, &glyph, position))
}

fn after_word(word: i128) -> Before
    ensures { result ≡ Before.Word word }
{
    Before::Word(word)
}

fn run_here(face: &Face, before: Before, glyphs: &[hb_glyph_info_t]) -> Run
    ensures { result ≡ run_here face.now before (strip glyphs.now) }
{
    match before {
        Before::Word(word) => run_of(face, word, glyphs),
        Before::Tiles(run) => run,
    }
}

fn word_after(before: Before, glyph: &hb_glyph_info_t, position: GlyphPosition) -> i128
    requires near { IsNear (2 ^ 96) (word_before before) }
    ensures value { result ≡ word_after before (item_of glyph.now) position }
    ensures near { (bound : ℕ) → IsNear bound (word_before before) → IsNear (bound + 2 ^ 31) result }
{
    if !is_of_word(glyph) {
        return 0;
    }
    longer(word_before(before), position.x_advance)
}

fn longer(word: i128, advance: i32) -> i128
    requires { IsNear (2 ^ 96) word }
    ensures value { result ≡ word +ℤ advance }
    ensures near { (bound : ℕ) → IsNear bound word → IsNear (bound + 2 ^ 31) result }
{
    word + i128::from(advance)
}

/// The width of the word that ends before a glyph.
fn word_before(before: Before) -> i128
    ensures { result ≡ word_before before }
{
    match before {
        Before::Word(word) => word,
        Before::Tiles(_) => 0,
    }
}

/// The run of the tiles at the start, after a word of a width. It takes time linear in these tiles.
#[tactic(auto, using(crate::proofs::Measured::none_measured, crate::proofs::Measured::one_measured, crate::proofs::Measured::others_stay, crate::proofs::Measured::all_measured))]
pub fn run_of(face: &Face, word: i128, glyphs: &[hb_glyph_info_t]) -> Run
    ensures { result ≡ with_tiles face.now (unmeasured_run word) (strip glyphs.now) }
{
    let mut run = Run {
        word,
        fixed: 0,
        repeating: 0,
        tiles: 0,
    };
    for glyph in glyphs {
        if !is_tile(glyph) {
            return run;
        }
        run = with_tile(face, run, glyph);
    }
    run
}

/// A run with one more tile.
fn with_tile(face: &Face, run: Run, glyph: &hb_glyph_info_t) -> Run
    requires fixed { run.fixed < 2 ^ 127 }
    requires repeating { run.repeating < 2 ^ 127 }
    requires tiles { run.tiles < 2 ^ 127 }
    ensures value { result ≡ with_tile face.now run (item_of glyph.now) }
    ensures fixed { result.fixed ≤ run.fixed + 2 ^ 32 }
    ensures repeating { result.repeating ≤ run.repeating + 2 ^ 32 }
    ensures tiles { result.tiles ≤ run.tiles + 1 }
{
    let width = u128::from(width(face, glyph));
    if is_fixed(glyph) {
        return Run {
            fixed: run.fixed + width,
            ..run
        };
    }
    Run {
        repeating: run.repeating + width,
        tiles: run.tiles + 1,
        ..run
    }
}

/// The advance of a glyph in the font; 0 where there is no such glyph.
fn width(face: &Face, glyph: &hb_glyph_info_t) -> u32
    ensures { result ≡ width face.now (item_of glyph.now) }
{
    match u16::try_from(glyph.glyph_id) {
        Ok(id) => face.glyph_h_advance(id).unsigned_abs(),
        Err(_) => 0,
    }
}
