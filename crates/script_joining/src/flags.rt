//! The flags between two joining letters: unsafe to concat, and safe to insert a tatweel
//! (rustybuzz: hb/ot_shaper_arabic.rs).
ghost use Rattle.std.specs.Prelude.{◌≡◌, ◌≤◌, ◌<◌, ◌+◌, ◌^◌, ◌==◌, not, None, Some, [], ◌∷◌, length, map, slice_get};
ghost use Rattle.buffer_core.specs.Sides.{all_glyphs, items_of};
ghost use Rattle.buffer_stages.specs.Ready.{IsReady};
ghost use Rattle.script_categories.specs.declared.joining_types.hb_arabic_joining_type_t.TheVariants.{U};
ghost use Rattle.script_joining.specs.Flagged.{IsEarlier, type_of_typed};
ghost use Rattle.script_joining.specs.Forms.{letter_form};
ghost use Rattle.script_joining.specs.Joining.{depends_on, events_at, form_events, letter_after, neighbour_events, neighbours_events};
ghost use Rattle.buffer_stages.specs.Stages.{Happens};

use crate::forms::{joins_before, letter_form};
use crate::types::{is_letter, nearest_past, type_kept};
use buffer_core::buffer::hb_buffer_t;
use script_categories::hb_arabic_joining_type_t;

/// A letter of the text: its index, its joining type, and the type of the nearest letter before it.
#[derive(Clone, Copy)]
pub struct Letter {
    pub at: usize,
    pub joining: hb_arabic_joining_type_t,
    pub before: hb_arabic_joining_type_t,
}

/// Flags each two neighbouring letters: as safe to insert a tatweel where the second changes the form of the first,
/// else as unsafe to concat. `start` is the type of the nearest letter before the text.
#[tactic(auto, using(crate::proofs::Marked::none_flagged, crate::proofs::Marked::next_flagged, crate::proofs::Marked::all_flagged, crate::proofs::Marked::same_count))]
pub(crate) fn flag_neighbours(start: hb_arabic_joining_type_t, buffer: &mut hb_buffer_t)
    requires ready { IsReady buffer.old }
    ensures { Happens (neighbour_events start None 0 (map type_of_typed (items_of buffer.old))) buffer.old buffer.new }
{
    let count = buffer.len();
    let mut before = start;
    let mut last = None;
    for at in 0..count {
        let joining = type_at(buffer, at);
        flag_after(before, last, joining, at, buffer);
        last = letter_after(before, last, joining, at);
        before = nearest_past(before, joining);
    }
}

#[tactic(auto, using(crate::proofs::Marked::kept_at))]
fn type_at(buffer: &hb_buffer_t, at: usize) -> hb_arabic_joining_type_t
    requires ready { IsReady buffer.now }
    requires within { at < length (all_glyphs buffer.now) }
    ensures { Some result ≡ slice_get (map type_of_typed (items_of buffer.now)) at }
{
    type_kept(&buffer.info_slice()[at])
}

pub(crate) fn letter_after(
    before: hb_arabic_joining_type_t,
    last: Option<Letter>,
    joining: hb_arabic_joining_type_t,
    at: usize,
) -> Option<Letter>
    ensures { result ≡ letter_after before last joining at }
{
    if is_letter(joining) {
        Some(Letter {
            at,
            joining,
            before,
        })
    } else {
        last
    }
}

/// Flags a letter and the previous letter of the text; the first one by `before`, the type of the nearest letter of the
/// context.
#[tactic(auto, using(buffer_stages::proofs::Lemmas::Happened::nothing_happens))]
pub(crate) fn flag_after(
    before: hb_arabic_joining_type_t,
    last: Option<Letter>,
    joining: hb_arabic_joining_type_t,
    at: usize,
    buffer: &mut hb_buffer_t,
)
    requires ready { IsReady buffer.old }
    requires earlier { IsEarlier last at }
    requires within { at < length (all_glyphs buffer.old) }
    requires small { at + 1 < 2 ^ 64 }
    ensures { Happens (events_at before last joining at) buffer.old buffer.new }
{
    if !is_letter(joining) {
        return;
    }
    match last {
        Some(letter) => flag_between(letter, joining, at, buffer),
        None => flag_form(before, 0, joining, at, buffer),
    }
}

#[tactic(auto, using(buffer_stages::proofs::Lemmas::Happened::end_of_input))]
fn flag_between(
    letter: Letter,
    joining: hb_arabic_joining_type_t,
    at: usize,
    buffer: &mut hb_buffer_t,
)
    requires ready { IsReady buffer.old }
    requires earlier { letter.at < at }
    requires within { at < length (all_glyphs buffer.old) }
    requires small { at + 1 < 2 ^ 64 }
    ensures { Happens (neighbours_events letter joining at) buffer.old buffer.new }
{
    if !keeps_form(letter, joining) {
        buffer.safe_to_insert_tatweel(Some(letter.at), Some(at + 1));
        return;
    }
    buffer.unsafe_to_concat(Some(letter.at), Some(at + 1));
    flag_form(letter.joining, letter.at, joining, at, buffer);
}

/// Flags a letter, and the characters from an index on before it, where its form depends on the type before and
/// PRODUCE_SAFE_BREAKS is set: the context of a text that begins between them may be too short to show that letter.
#[tactic(auto, using(crate::proofs::Marked::form_kept, crate::proofs::Marked::form_skipped, buffer_stages::proofs::Lemmas::Happened::end_of_input))]
fn flag_form(
    before: hb_arabic_joining_type_t,
    from: usize,
    joining: hb_arabic_joining_type_t,
    at: usize,
    buffer: &mut hb_buffer_t,
)
    requires ready { IsReady buffer.old }
    requires earlier { from ≤ at }
    requires within { at < length (all_glyphs buffer.old) }
    requires small { at + 1 < 2 ^ 64 }
    ensures { Happens (form_events before from joining at) buffer.old buffer.new }
{
    if !buffer.asks_breaks() {
        return;
    }
    if !depends_on(before, joining) {
        return;
    }
    buffer.unsafe_to_break_strictly(Some(from), Some(at + 1));
}

/// Whether the form of a letter depends on the letter before it.
fn depends_on(before: hb_arabic_joining_type_t, joining: hb_arabic_joining_type_t) -> bool
    ensures { result ≡ depends_on before joining }
{
    let alone = letter_form(
        hb_arabic_joining_type_t::U,
        joining,
        hb_arabic_joining_type_t::U,
    );
    letter_form(before, joining, hb_arabic_joining_type_t::U) != alone
}

/// Whether a letter keeps its isolated form before a letter of the type `joining`.
#[tactic(auto, using(crate::proofs::Marked::unjoined_keeps))]
fn keeps_form(letter: Letter, joining: hb_arabic_joining_type_t) -> bool
    ensures { result
        ≡ (letter_form letter.before letter.joining joining == letter_form letter.before letter.joining U) }
{
    // A letter that doesn't connect to the one before it is to that one as none at all.
    if !joins_before(joining) {
        return true;
    }
    letter_form(letter.before, letter.joining, joining)
        == letter_form(letter.before, letter.joining, hb_arabic_joining_type_t::U)
}
