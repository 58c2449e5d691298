//! The masks of the features that select the letters' forms, setup_masks (rustybuzz: hb/ot_shaper_arabic.rs).
ghost use Rattle.std.specs.Prelude.{◌≡◌, true};
ghost use Rattle.buffer_core.specs.Readings.{always};
ghost use Rattle.buffer_stages.specs.Ready.{IsReady};
ghost use Rattle.script_joining.specs.Glyphs.{AreFlagless, item_typed};
ghost use Rattle.script_joining.specs.Joining.{is_mongolian, letters_joined, letters_with_forms};
ghost use Rattle.buffer_stages.specs.Stages.{AreMapped, IsFollowed, with_items_mapped};

use crate::flags::flag_neighbours;
use crate::letters::join;
use crate::types::{keep_type, nearest_in_context};
use crate::walking::join_letters;
use buffer_common::script::{MONGOLIAN, Script};
use buffer_core::buffer::hb_buffer_t;
use buffer_glyphs::info::{hb_glyph_info_t, hb_mask_t};
use buffer_unicode_tables::UnicodeTables;

/// Sets each letter's form in a text of a script by its neighbours, as its `auxiliary`, and adds the mask of the form's
/// feature (`setup_masks_inner`): `masks` has those of ISOL, FINA, FIN2, FIN3, MEDI, MED2 and INIT, in this order. The
/// letters of the contexts count as neighbours. In Mongolian a variation selector gets the form of the character before
/// it. Two neighbouring letters are flagged as safe to insert a tatweel where the second changes the form of the first,
/// else as unsafe to concat. It takes linear time and no memory.
pub fn setup_masks_inner(
    tables: &UnicodeTables,
    script: Option<Script>,
    masks: &[hb_mask_t],
    buffer: &mut hb_buffer_t,
)
    requires ready { IsReady buffer.old }
    requires flagless { AreFlagless masks.now }
    ensures { IsFollowed
        (letters_joined masks.now script tables.now buffer.old.pre_context buffer.old.post_context)
        buffer.old buffer.new }
{
    if is_mongolian(script) {
        join_mongolian(tables, masks, buffer);
    } else {
        join_letters(tables, masks, buffer);
    }
}

/// Sets the forms and masks of a Mongolian text, whose selectors get the form of the character before.
fn join_mongolian(tables: &UnicodeTables, masks: &[hb_mask_t], buffer: &mut hb_buffer_t)
    requires ready { IsReady buffer.old }
    requires flagless { AreFlagless masks.now }
    ensures { IsFollowed (always (letters_with_forms tables.now true masks.now buffer.old.pre_context
        buffer.old.post_context)) buffer.old buffer.new }
{
    let before = nearest_in_context(tables, buffer.pre_context());
    let after = nearest_in_context(tables, buffer.post_context());
    keep_types(tables, buffer);
    flag_neighbours(before, buffer);
    join(masks, before, after, buffer.info_slice_mut());
}

fn is_mongolian(script: Option<Script>) -> bool
    ensures { result ≡ is_mongolian script }
{
    match script {
        Some(script) => script == MONGOLIAN,
        None => false,
    }
}

/// Stores in each glyph its joining type, which its form replaces later.
#[tactic(auto, using(buffer_stages::specs::Lemmas::Written::mapped_followed))]
fn keep_types(tables: &UnicodeTables, buffer: &mut hb_buffer_t)
    requires ready { IsReady buffer.old }
    ensures { IsFollowed (always (with_items_mapped (item_typed tables.now))) buffer.old buffer.new }
{
    // No cluster changes, so what is known of their order still holds.
    let known = buffer.known_order();
    type_each(tables, buffer.info_slice_mut());
    buffer.keep_order(known);
}

fn type_each(tables: &UnicodeTables, glyphs: &mut [hb_glyph_info_t])
    ensures { AreMapped (item_typed tables.now) glyphs.old glyphs.new }
{
    for glyph in glyphs.iter_mut() {
        keep_type(tables, glyph);
    }
}
