//! The forms of a text's letters, their masks and the flags between them, in one walk (rustybuzz:
//! hb/ot_shaper_arabic.rs, arabic_joining and setup_masks).
ghost use Rattle.std.specs.Prelude.{◌≡◌, ◌<◌, ◌+◌, ◌^◌, [], Some, false, length, slice_get};
ghost use Rattle.buffer_core.specs.Readings.{always};
ghost use Rattle.buffer_core.specs.Sides.{all_glyphs, items_of};
ghost use Rattle.buffer_glyphs.specs.Items.{item_of};
ghost use Rattle.buffer_stages.specs.Ready.{IsReady};
ghost use Rattle.buffer_stages.specs.Stages.{IsFollowed};
ghost use Rattle.script_joining.specs.Flagged.{IsEarlier};
ghost use Rattle.script_joining.specs.Glyphs.{AreFlagless, glyph_formed, glyph_joined};
ghost use Rattle.script_joining.specs.Joining.{events_at, letters_with_forms, types_of_items};
ghost use Rattle.script_joining.specs.Types.{type_of_item};
ghost use Rattle.script_joining.specs.Walked.{TurnsTo, with_form_at, glyphs_with_form_at, with_last_formed, text_past};

use crate::flags::{Letter, flag_after, letter_after};
use crate::forms::letter_form;
use crate::letters::mask_of;
use crate::types::{is_letter, joining_type, nearest_in_context, nearest_past};
use buffer_core::buffer::hb_buffer_t;
use buffer_glyphs::info::{hb_glyph_info_t, hb_mask_t};
use buffer_unicode_tables::UnicodeTables;
use script_categories::arabic_action_t::NONE;
use script_categories::hb_arabic_joining_type_t;

/// Sets the letters' forms and masks, and flags neighbouring letters, of a text that isn't Mongolian.
#[tactic(auto, using(crate::proofs::Walked::none_joined, crate::proofs::Walked::next_joined, crate::proofs::Walked::joining_many, crate::proofs::Walked::last_there))]
pub(crate) fn join_letters(tables: &UnicodeTables, masks: &[hb_mask_t], buffer: &mut hb_buffer_t)
    requires ready { IsReady buffer.old }
    requires flagless { AreFlagless masks.now }
    ensures { IsFollowed (always (letters_with_forms tables.now false masks.now buffer.old.pre_context
        buffer.old.post_context)) buffer.old buffer.new }
{
    let start = nearest_in_context(tables, buffer.pre_context());
    let after = nearest_in_context(tables, buffer.post_context());
    let count = buffer.len();
    let mut before = start;
    let mut last = None;
    for at in 0..count {
        let joining = type_at(tables, buffer, at);
        pass(masks, before, last, joining, at, buffer);
        last = letter_after(before, last, joining, at);
        before = nearest_past(before, joining);
    }
    form_last(masks, last, after, buffer);
}

#[tactic(auto, using(crate::proofs::Walked::type_there))]
fn type_at(tables: &UnicodeTables, buffer: &hb_buffer_t, at: usize) -> hb_arabic_joining_type_t
    requires ready { IsReady buffer.now }
    requires within { at < length (all_glyphs buffer.now) }
    ensures { Some result ≡ slice_get (types_of_items tables.now (items_of buffer.now)) at }
{
    type_of(tables, &buffer.info_slice()[at])
}

fn type_of(tables: &UnicodeTables, glyph: &hb_glyph_info_t) -> hb_arabic_joining_type_t
    ensures { result ≡ type_of_item tables.now (item_of glyph.now) }
{
    let category = u32::from(glyph.unicode_props.0 & 0x1F);
    joining_type(tables, glyph.glyph_id, category)
}

/// Passes a character: a letter gives the letter before it its form, and is flagged with it; a transparent one has no
/// form.
#[tactic(auto, using(crate::proofs::Walked::letter_passed, crate::proofs::Walked::mark_passed, crate::proofs::Walked::as_many))]
fn pass(
    masks: &[hb_mask_t],
    before: hb_arabic_joining_type_t,
    last: Option<Letter>,
    joining: hb_arabic_joining_type_t,
    at: usize,
    buffer: &mut hb_buffer_t,
)
    requires ready { IsReady buffer.old }
    requires flagless { AreFlagless masks.now }
    requires earlier { IsEarlier last at }
    requires within { at < length (all_glyphs buffer.old) }
    requires small { at + 1 < 2 ^ 64 }
    ensures { TurnsTo (text_past masks.now last joining at (items_of buffer.old)) (events_at before last joining at)
        buffer.old buffer.new }
{
    if !is_letter(joining) {
        set_form(masks, NONE, at, buffer);
        return;
    }
    form_last(masks, last, joining, buffer);
    flag_after(before, last, joining, at, buffer);
}

/// Sets the form of the last letter so far, before a letter of the type.
#[tactic(auto, using(crate::proofs::Walked::nothing_turns))]
fn form_last(
    masks: &[hb_mask_t],
    last: Option<Letter>,
    next: hb_arabic_joining_type_t,
    buffer: &mut hb_buffer_t,
)
    requires ready { IsReady buffer.old }
    requires flagless { AreFlagless masks.now }
    requires there { IsEarlier last (length (all_glyphs buffer.old)) }
    ensures { TurnsTo (with_last_formed masks.now last next (items_of buffer.old)) [] buffer.old buffer.new }
{
    match last {
        Some(letter) => {
            let form = letter_form(letter.before, letter.joining, next);
            set_form(masks, form, letter.at, buffer);
        }
        None => {}
    }
}

/// Sets the form of a character, and adds the form's mask.
fn set_form(masks: &[hb_mask_t], form: u8, at: usize, buffer: &mut hb_buffer_t)
    requires ready { IsReady buffer.old }
    requires flagless { AreFlagless masks.now }
    requires within { at < length (all_glyphs buffer.old) }
    ensures { TurnsTo (with_form_at masks.now form at (items_of buffer.old)) [] buffer.old buffer.new }
{
    // No cluster changes, so what is known of their order still holds.
    let known = buffer.known_order();
    form_at(masks, form, at, buffer.info_slice_mut());
    buffer.keep_order(known);
}

#[tactic(auto, using(crate::proofs::Walked::set_there))]
fn form_at(masks: &[hb_mask_t], form: u8, at: usize, glyphs: &mut [hb_glyph_info_t])
    requires { at < length glyphs.old }
    ensures { glyphs.new ≡ glyphs_with_form_at masks.now form at glyphs.old }
{
    give_form(masks, form, &mut glyphs[at]);
}

/// Gives a glyph a form and its mask. No other part of the record is written, which takes less than to copy it.
fn give_form(masks: &[hb_mask_t], form: u8, glyph: &mut hb_glyph_info_t)
    ensures { glyph.new ≡ glyph_joined masks.now (glyph_formed form glyph.old) }
{
    glyph.auxiliary = form;
    glyph.mask |= mask_of(masks, form);
}
