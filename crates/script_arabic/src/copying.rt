//! The copies of tiles (rustybuzz: hb/ot_shaper_arabic.rs, apply_stch).
ghost use Rattle.std.specs.Prelude.{◌≡◌, ◌<◌, ◌+◌, ◌++◌, ◌∷◌, [], List, Err, IfErr, OnOk, length, replicate};
ghost use Rattle.buffer_glyphs.specs.Items.{Item, strip};
ghost use Rattle.buffer_glyphs.specs.Events.{Replace};
ghost use Rattle.buffer_core.specs.Sides.{all_glyphs, HasCurrent};
ghost use Rattle.buffer_stages.specs.Ready.{IsReady};
ghost use Rattle.buffer_stages.specs.Walks.{RefusesLength, HasWalked};
ghost use Rattle.buffer_stages.specs.Stages.{DoesStage};
ghost use Rattle.script_arabic.specs.Copying.{copies_in, copy_events, tiles_copied};

use crate::tile::Tile;
use buffer_core::buffer::hb_buffer_t;
use buffer_glyphs::cause::ShapeCause;
use buffer_stages::walks::{advance, finish};

/// Inserts the copies of each tile before it.
///
/// # Errors
///
/// `TooLong` where the text would have more glyphs than the buffer may hold, or lack of memory.
pub fn copy_tiles(tiles: &[Option<Tile>], buffer: &mut hb_buffer_t) -> Result<(), ShapeCause>
    requires ready { IsReady buffer.old }
    requires each { length tiles.now ≡ length (all_glyphs buffer.old) }
    ensures { DoesStage (tiles_copied tiles.now) result buffer.old buffer.new }
{
    buffer.clear_output()?;
    for tile in tiles {
        pass(*tile, buffer)?;
    }
    finish(buffer)
}

/// Outputs the copies of the current glyph, and then the glyph.
fn pass(tile: Option<Tile>, buffer: &mut hb_buffer_t) -> Result<(), ShapeCause>
    requires current { HasCurrent buffer.old }
    ensures ok { OnOk result ((x : Item) (xs : List Item) → strip buffer.old.ahead ≡ x ∷ xs
        → HasWalked (strip buffer.old.behind ++ replicate (copies_in tile + 1) x) xs
        (copy_events (length buffer.old.behind) (copies_in tile)) buffer.old buffer.new) }
    ensures err { IfErr result (λ e. RefusesLength (length buffer.old.behind + (copies_in tile + 1)) e buffer.old) }
{
    for _ in 0..copies_in(tile) {
        copy_current(buffer)?;
    }
    advance(buffer)
}

fn copies_in(tile: Option<Tile>) -> u32
    ensures { result ≡ copies_in tile }
{
    match tile {
        None => 0,
        Some(tile) => tile.copies,
    }
}

/// Outputs a copy of the current glyph.
fn copy_current(buffer: &mut hb_buffer_t) -> Result<(), ShapeCause>
    requires current { HasCurrent buffer.old }
    ensures ok { OnOk result ((x : Item) (xs : List Item) → strip buffer.old.ahead ≡ x ∷ xs
        → HasWalked (strip buffer.old.behind ++ x ∷ []) (x ∷ xs) (Replace (length buffer.old.behind) 0 1 ∷ []) buffer.old
        buffer.new) }
    ensures err { IfErr result (λ e. RefusesLength (length buffer.old.behind + 1) e buffer.old) }
{
    let number = buffer.cur(0).glyph_id;
    if !buffer.output_glyph(number)? {
        return Err(ShapeCause::TooLong);
    }
    Ok(())
}
