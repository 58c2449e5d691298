//! Lays tiles over the word before them, apply_stch (rustybuzz: hb/ot_shaper_arabic.rs).
ghost use Rattle.std.specs.Prelude.{◌≡◌, ◌≤◌, ◌<◌, ◌+◌, ◌^◌, Some, false, length, slice_get, IsOk};
ghost use Rattle.std.specs.List.{list_any};
ghost use Rattle.buffer_glyphs.specs.Items.{item_of};
ghost use Rattle.buffer_core.specs.Sides.{all_glyphs, items_of};
ghost use Rattle.buffer_stages.specs.Ready.{DoesGlyphStage, IsReady};
ghost use Rattle.script_arabic.specs.Tiles.{is_tile};
ghost use Rattle.buffer_stages.specs.Stages.{Happens};
ghost use Rattle.script_arabic.specs.Stretch.{stretch_event, stretch_event_at, text_stretch_events, word_past, word_start, with_tiles_laid, tiles_laid};

use crate::copying::copy_tiles;
use crate::laying::{are_in_range, tiles_of};
use crate::runs::runs_of;
use crate::tile::Tile;
use crate::tile_positions::positions_of;
use crate::words::{is_of_word, is_tile};
use buffer_core::buffer::hb_buffer_t;
use buffer_glyphs::cause::ShapeCause;
use buffer_glyphs::info::hb_glyph_info_t;
use buffer_glyphs::position::GlyphPosition;
use layout_face::Face;
use std::alloc::Global;

/// Lays the tiles of each run over the word before it (`apply_stch`): repeating tiles get copies until all tiles reach
/// the word's width. The glyphs are in visual order. It takes time and memory linear in the number of glyphs
/// afterwards; a text without tiles stays unchanged and takes no memory.
///
/// # Errors
///
/// `StretchRange` where the word, the fixed or the repeating tiles of a run have a width outside 32 bits; else
/// `TooLong` where the text would have more glyphs than the buffer may hold; or lack of memory.
#[tactic(auto, using(crate::proofs::Listed::runs_cover, crate::proofs::Listed::tiles_cover, crate::proofs::Untouched::untouched_done))]
pub fn apply_stch(alloc: Global, face: &Face, buffer: &mut hb_buffer_t) -> Result<(), ShapeCause>
    requires ready { IsReady buffer.old }
    ensures stage { DoesGlyphStage (tiles_laid face.now) result buffer.old buffer.new }
    ensures succeeds { list_any is_tile (items_of buffer.old) ≡ false → IsOk result }
    ensures untouched { list_any is_tile (items_of buffer.old) ≡ false → buffer.new ≡ buffer.old }
{
    if !has_tiles(buffer) {
        return Ok(());
    }
    let runs = runs_of(alloc, face, buffer.info_slice(), buffer.pos_slice())?;
    if !are_in_range(&runs) {
        return Err(ShapeCause::StretchRange);
    }
    let tiles = tiles_of(alloc, face, buffer.info_slice(), &runs)?;
    lay_tiles(alloc, &tiles, buffer)
}

/// Whether there are tiles. It takes no memory.
#[tactic(auto, using(crate::proofs::Untouched::any_seen))]
fn has_tiles(buffer: &hb_buffer_t) -> bool
    requires { buffer.now.is_open ≡ false }
    ensures any { result ≡ list_any is_tile (items_of buffer.now) }
    ensures within { length (all_glyphs buffer.now) ≤ buffer.now.max_len }
{
    buffer.len() > 0 && any_tile(buffer.info_slice())
}

fn any_tile(glyphs: &[hb_glyph_info_t]) -> bool
    ensures { result ≡ list_any (λ glyph. is_tile (item_of glyph)) glyphs.now }
{
    glyphs.iter().any(|glyph| is_tile(glyph))
}

#[tactic(auto, using(crate::proofs::Laid::laid_done, crate::proofs::Laid::room_for_positions, crate::proofs::Laid::laid_refused))]
fn lay_tiles(
    alloc: Global,
    tiles: &[Option<Tile>],
    buffer: &mut hb_buffer_t,
) -> Result<(), ShapeCause>
    requires ready { IsReady buffer.old }
    requires each { length tiles.now ≡ length (all_glyphs buffer.old) }
    ensures { DoesGlyphStage (with_tiles_laid tiles.now) result buffer.old buffer.new }
{
    flag_words(buffer);
    let positions = buffer.pos_slice().to_vec(alloc)?;
    copy_tiles(tiles, buffer)?;
    let laid_positions = positions_of(alloc, tiles, &positions)?;
    set_positions(&laid_positions, buffer);
    Ok(())
}

/// Flags each run of tiles and the word before it as unsafe to break where PRODUCE_SAFE_BREAKS is set: the tiles fill the
/// word's width.
#[tactic(auto, using(crate::proofs::WordsFlagged::text_skipped, crate::proofs::WordsFlagged::no_word_flagged))]
fn flag_words(buffer: &mut hb_buffer_t)
    requires ready { IsReady buffer.old }
    ensures { Happens (text_stretch_events (items_of buffer.old)) buffer.old buffer.new }
{
    if !buffer.asks_breaks() {
        return;
    }
    let count = buffer.len();
    let mut word = WordWalk {
        start: 0,
        has_tiles: false,
    };
    for at in 0..count {
        let glyph = glyph_at(buffer, at);
        flag_before(word, &glyph, at, buffer);
        word = word_past(word, &glyph, at);
    }
    flag_word(word, count, buffer);
}

/// A word on a walk: where it begins, and whether tiles of it were passed.
#[derive(Clone, Copy)]
pub struct WordWalk {
    pub start: usize,
    pub has_tiles: bool,
}

#[tactic(auto, using(crate::proofs::WordsFlagged::item_at))]
fn glyph_at(buffer: &hb_buffer_t, at: usize) -> hb_glyph_info_t
    requires ready { IsReady buffer.now }
    requires within { at < length (all_glyphs buffer.now) }
    ensures { Some (item_of result) ≡ slice_get (items_of buffer.now) at }
{
    buffer.info_slice()[at]
}

/// Flags the word before a glyph: the first glyph after tiles ends their word.
#[tactic(auto, using(crate::proofs::WordsFlagged::tile_passed, crate::proofs::WordsFlagged::word_ended))]
fn flag_before(word: WordWalk, glyph: &hb_glyph_info_t, at: usize, buffer: &mut hb_buffer_t)
    requires ready { IsReady buffer.old }
    requires begun { word.start ≤ at }
    requires within { at ≤ length (all_glyphs buffer.old) }
    ensures { Happens (stretch_event_at word at (item_of glyph.now)) buffer.old buffer.new }
{
    if is_tile(glyph) {
        return;
    }
    flag_word(word, at, buffer);
}

/// Flags a word that ends before an index, and its tiles, if it has any.
#[tactic(auto, using(crate::proofs::WordsFlagged::word_kept, buffer_stages::proofs::Lemmas::Happened::end_of_input))]
fn flag_word(word: WordWalk, at: usize, buffer: &mut hb_buffer_t)
    requires ready { IsReady buffer.old }
    requires begun { word.start ≤ at }
    requires within { at ≤ length (all_glyphs buffer.old) }
    ensures { Happens (stretch_event word at) buffer.old buffer.new }
{
    if !word.has_tiles {
        return;
    }
    buffer.unsafe_to_break_strictly(Some(word.start), Some(at));
}

/// The word after a glyph.
#[tactic(auto, using(crate::proofs::WordsFlagged::tile_past, crate::proofs::WordsFlagged::other_past))]
fn word_past(word: WordWalk, glyph: &hb_glyph_info_t, at: usize) -> WordWalk
    requires small { at + 1 < 2 ^ 64 }
    ensures { result ≡ word_past word at (item_of glyph.now) }
{
    if is_tile(glyph) {
        return WordWalk {
            has_tiles: true,
            ..word
        };
    }
    WordWalk {
        start: word_start(word, glyph, at),
        has_tiles: false,
    }
}

/// The start of the word of a glyph that is no tile: of the word before it, the glyph itself, or the index after it.
fn word_start(word: WordWalk, glyph: &hb_glyph_info_t, at: usize) -> usize
    requires small { at + 1 < 2 ^ 64 }
    ensures { result ≡ word_start word at (item_of glyph.now) }
{
    match (is_of_word(glyph), word.has_tiles) {
        (true, true) => at,
        (true, false) => word.start,
        (false, _) => at + 1,
    }
}

/// Replaces the buffer's positions by as many others.
#[tactic(auto, using(crate::proofs::Laid::positions_back))]
fn set_positions(laid_positions: &[GlyphPosition], buffer: &mut hb_buffer_t)
    requires closed { buffer.old.is_open ≡ false }
    requires same { length laid_positions.now ≡ length buffer.old.positions }
    ensures { buffer.new ≡ record buffer.old { positions = laid_positions.now } }
{
    buffer.pos_slice_mut().copy_from_slice(laid_positions);
}
