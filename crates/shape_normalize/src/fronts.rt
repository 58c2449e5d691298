//! The first round at the front of a text: characters that stay whole need no output (rustybuzz:
//! hb/ot_shape_normalize.rs).
ghost use Rattle.std.specs.Prelude.{◌≡◌, ◌≤◌, [], length, map, true, false, if◌then◌else◌, None, Some, IfErr, OnOk};
ghost use Rattle.std.specs.List.{list_all, list_any, prefix_len};
ghost use Rattle.buffer_core.specs.Sides.{all_glyphs};
ghost use Rattle.buffer_glyphs.specs.Items.{item_of, strip};
ghost use Rattle.buffer_properties.specs.Characters.{is_mark, is_selector};
ghost use Rattle.buffer_properties.specs.Normalizer.{reach_alone};
ghost use Rattle.buffer_stages.specs.Appending.{AppendsArrangement, RefusesRoomFor};
ghost use Rattle.buffer_stages.specs.Ready.{IsReady};
ghost use Rattle.shape_normalize.specs.Composed.{HasRoom};
ghost use Rattle.shape_normalize.specs.Fronts.{StaysWhole, TakesFront, TakesGlyphs, expansion_after, glyph_with_index, glyph_with_own, is_whole, is_whole_character};
ghost use Rattle.shape_normalize.specs.KnownGlyphs.{HaveGlyphs};
ghost use Rattle.shape_normalize.specs.Undecomposed.{AreUndecomposed};

use crate::characters::is_selector;
use crate::composing::pass_glyphs;
use crate::expanding::{expand_list, reach_alone, reach_with_marks};
use crate::known_glyphs::{GLYPH_ROWS, KnownGlyph, remembered_glyph};
use crate::normalizing::Normalizing;
use crate::undecomposed::{ROWS, is_undecomposed};
use buffer_core::buffer::hb_buffer_t;
use buffer_glyphs::cause::ShapeCause;
use buffer_glyphs::info::hb_glyph_info_t;
use buffer_properties::Reach;
use buffer_properties::categories::is_mark;

/// How many marks a list begins with.
#[tactic(auto, using(buffer_lists::proofs::Lemmas::Neighbours::front_within))]
fn count_marks(glyphs: &[hb_glyph_info_t]) -> usize
    ensures front { result ≡ prefix_len (λ g. is_mark (item_of g)) glyphs.now }
    ensures within { result ≤ length glyphs.now }
{
    glyphs.iter().take_while(|glyph| is_mark(glyph)).count()
}

/// Whether a character stays whole: the font has it, and it isn't decomposed.
fn is_whole<N: Normalizing>(
    by: &N,
    reach: Reach,
    rows: &mut [Option<KnownGlyph>],
    known: &mut [Option<u32>],
    glyph: &hb_glyph_info_t,
) -> bool
    requires rows { HaveGlyphs (N.normalizer by.now) rows.old }
    requires known { AreUndecomposed (N.normalizer by.now) known.old }
    ensures value { result ≡ is_whole (N.normalizer by.now) reach (item_of glyph.now) }
    ensures rows { HaveGlyphs (N.normalizer by.now) rows.new }
    ensures known { AreUndecomposed (N.normalizer by.now) known.new }
{
    remembered_glyph(by, rows, glyph.glyph_id).is_some()
        && is_undecomposed(by, reach, known, glyph.glyph_id)
}

/// The font's glyph of a character without marks that stays whole.
#[tactic(auto, using(crate::proofs::Taken::no_glyph, crate::proofs::Taken::split_glyph, crate::proofs::Taken::own_glyph))]
fn whole_alone<N: Normalizing>(
    by: &N,
    rows: &mut [Option<KnownGlyph>],
    known: &mut [Option<u32>],
    u: u32,
) -> Option<u32>
    requires rows { HaveGlyphs (N.normalizer by.now) rows.old }
    requires known { AreUndecomposed (N.normalizer by.now) known.old }
    ensures glyph { result ≡ (if is_whole_character (N.normalizer by.now) (reach_alone (N.normalizer by.now).mode) u
        then (N.normalizer by.now).glyph_of u else None) }
    ensures rows { HaveGlyphs (N.normalizer by.now) rows.new }
    ensures known { AreUndecomposed (N.normalizer by.now) known.new }
{
    let glyph_index = remembered_glyph(by, rows, u)?;
    if !is_undecomposed(by, reach_alone(by.mode()), known, u) {
        return None;
    }
    Some(glyph_index)
}

/// Gives a character a glyph. No other part of the record is written, which takes less than to copy it.
fn set_glyph(glyph_index: u32, glyph: &mut hb_glyph_info_t)
    ensures { glyph.new ≡ glyph_with_index glyph_index glyph.old }
{
    glyph.glyph_index = glyph_index;
}

fn are_whole<N: Normalizing>(
    by: &N,
    reach: Reach,
    rows: &mut [Option<KnownGlyph>],
    known: &mut [Option<u32>],
    glyphs: &[hb_glyph_info_t],
) -> bool
    requires rows { HaveGlyphs (N.normalizer by.now) rows.old }
    requires known { AreUndecomposed (N.normalizer by.now) known.old }
    ensures value { result ≡ list_all (λ g. is_whole (N.normalizer by.now) reach (item_of g)) glyphs.now }
    ensures rows { HaveGlyphs (N.normalizer by.now) rows.new }
    ensures known { AreUndecomposed (N.normalizer by.now) known.new }
{
    for glyph in glyphs {
        if !is_whole(by, reach, rows, known, glyph) {
            return false;
        }
    }
    true
}

fn has_selector(glyphs: &[hb_glyph_info_t]) -> bool
    ensures { result ≡ list_any (λ g. is_selector (item_of g)) glyphs.now }
{
    glyphs.iter().any(|glyph| is_selector(glyph))
}

/// Whether a character, with the marks after it, stays whole.
#[tactic(auto, using(crate::proofs::Taken::lone_stays, crate::proofs::Taken::marked_stays))]
fn stays_whole<N: Normalizing>(
    by: &N,
    rows: &mut [Option<KnownGlyph>],
    known: &mut [Option<u32>],
    group: &[hb_glyph_info_t],
) -> bool
    requires rows { HaveGlyphs (N.normalizer by.now) rows.old }
    requires known { AreUndecomposed (N.normalizer by.now) known.old }
    ensures whole { result ≡ true → StaysWhole (N.normalizer by.now) group.now }
    ensures rows { HaveGlyphs (N.normalizer by.now) rows.new }
    ensures known { AreUndecomposed (N.normalizer by.now) known.new }
{
    if group.len() < 2 {
        return are_whole(by, reach_alone(by.mode()), rows, known, group);
    }
    !has_selector(group) && are_whole(by, reach_with_marks(by.mode()), rows, known, group)
}

/// Gives a character the font's glyph, or glyph 0.
pub(crate) fn give_glyph<N: Normalizing>(
    by: &N,
    rows: &mut [Option<KnownGlyph>],
    glyph: &mut hb_glyph_info_t,
)
    requires { HaveGlyphs (N.normalizer by.now) rows.old }
    ensures glyph { glyph.new ≡ glyph_with_own (N.normalizer by.now) glyph.old }
    ensures rows { HaveGlyphs (N.normalizer by.now) rows.new }
{
    glyph.glyph_index = remembered_glyph(by, rows, glyph.glyph_id).unwrap_or(0);
}

#[tactic(auto, using(buffer_glyphs::proofs::Lists::map_step))]
fn give_glyphs<N: Normalizing>(
    by: &N,
    rows: &mut [Option<KnownGlyph>],
    glyphs: &mut [hb_glyph_info_t],
)
    requires { HaveGlyphs (N.normalizer by.now) rows.old }
    ensures glyphs { glyphs.new ≡ map (glyph_with_own (N.normalizer by.now)) glyphs.old }
    ensures rows { HaveGlyphs (N.normalizer by.now) rows.new }
{
    for glyph in glyphs.iter_mut() {
        give_glyph(by, rows, glyph);
    }
}

/// Gives the character that a list begins with, and the marks after it, the font's glyphs, where all of them stay whole;
/// returns how many they are, or 0.
fn take_group<N: Normalizing>(
    by: &N,
    rows: &mut [Option<KnownGlyph>],
    known: &mut [Option<u32>],
    glyphs: &mut [hb_glyph_info_t],
) -> usize
    requires rows { HaveGlyphs (N.normalizer by.now) rows.old }
    requires known { AreUndecomposed (N.normalizer by.now) known.old }
    ensures taken { TakesGlyphs (N.normalizer by.now) result glyphs.old glyphs.new }
    ensures rows { HaveGlyphs (N.normalizer by.now) rows.new }
    ensures known { AreUndecomposed (N.normalizer by.now) known.new }
{
    let Some((first, rest)) = glyphs.split_first() else {
        return 0;
    };
    let count = count_marks(rest) + 1;
    // Most characters have no mark, and then one look-up is enough.
    if count == 1 {
        let Some(glyph_index) = whole_alone(by, rows, known, first.glyph_id) else {
            return 0;
        };
        set_glyph(glyph_index, &mut glyphs[0]);
        return 1;
    }
    if !take_marked(by, rows, known, &mut glyphs[..count]) {
        return 0;
    }
    count
}

/// Gives a character and the marks after it the font's glyphs, where all of them stay whole.
fn take_marked<N: Normalizing>(
    by: &N,
    rows: &mut [Option<KnownGlyph>],
    known: &mut [Option<u32>],
    group: &mut [hb_glyph_info_t],
) -> bool
    requires rows { HaveGlyphs (N.normalizer by.now) rows.old }
    requires known { AreUndecomposed (N.normalizer by.now) known.old }
    ensures whole { result ≡ true → StaysWhole (N.normalizer by.now) group.old }
    ensures given { result ≡ true → group.new ≡ map (glyph_with_own (N.normalizer by.now)) group.old }
    ensures kept { result ≡ false → group.new ≡ group.old }
    ensures rows { HaveGlyphs (N.normalizer by.now) rows.new }
    ensures known { AreUndecomposed (N.normalizer by.now) known.new }
{
    if !stays_whole(by, rows, known, group) {
        return false;
    }
    give_glyphs(by, rows, group);
    true
}

/// Gives the characters before the first that may not stay whole, with the marks after it, the font's glyphs; returns
/// how many they are.
fn take_each<N: Normalizing>(
    by: &N,
    rows: &mut [Option<KnownGlyph>],
    known: &mut [Option<u32>],
    glyphs: &mut [hb_glyph_info_t],
) -> usize
    requires rows { HaveGlyphs (N.normalizer by.now) rows.old }
    requires known { AreUndecomposed (N.normalizer by.now) known.old }
    ensures { TakesGlyphs (N.normalizer by.now) result glyphs.old glyphs.new }
{
    let mut at = 0;
    while at < glyphs.len() {
        let count = take_group(by, rows, known, &mut glyphs[at..]);
        if count == 0 {
            return at;
        }
        at += count;
    }
    at
}

/// `take_each` of a text whose characters are remembered. (Not inlined, so that a short text has no room for rows.)
#[inline(never)]
fn take_remembered<N: Normalizing>(by: &N, glyphs: &mut [hb_glyph_info_t]) -> usize
    ensures { TakesGlyphs (N.normalizer by.now) result glyphs.old glyphs.new }
{
    let mut rows = [None; GLYPH_ROWS];
    let mut known = [None; ROWS];
    take_each(by, &mut rows, &mut known, glyphs)
}

/// `take_each`, where characters of a long text are remembered.
#[tactic(auto, using(crate::proofs::Remembered::none_known, crate::proofs::KnownGlyphs::no_glyphs))]
fn take_by_rows<N: Normalizing>(by: &N, glyphs: &mut [hb_glyph_info_t]) -> usize
    ensures { TakesGlyphs (N.normalizer by.now) result glyphs.old glyphs.new }
{
    if glyphs.len() < ROWS {
        return take_each(by, &mut [], &mut [], glyphs);
    }
    take_remembered(by, glyphs)
}

/// Gives the characters before the first that may not stay whole, with the marks after it, the font's glyphs; returns
/// how many they are. It takes linear time and no memory.
pub(crate) fn take_front<N: Normalizing>(by: &N, buffer: &mut hb_buffer_t) -> usize
    requires { IsReady buffer.old }
    ensures { TakesFront (N.normalizer by.now) result buffer.old buffer.new }
{
    // No cluster changes, so what is known of their order still holds.
    let known = buffer.known_order();
    let count = take_by_rows(by, buffer.info_slice_mut());
    buffer.keep_order(known);
    count
}

/// Outputs that many characters as they are, and those after them by their decompositions; the output has room for the
/// list.
///
/// # Errors
///
/// `TooLong` where the output would have more glyphs than the buffer may hold, or lack of memory.
#[tactic(auto, using(crate::proofs::Taken::too_many_after))]
pub(crate) fn expand_after<N: Normalizing>(
    by: &N,
    count: usize,
    buffer: &mut hb_buffer_t,
) -> Result<(), ShapeCause>
    requires room { HasRoom buffer.old }
    requires there { count ≤ length buffer.old.ahead }
    ensures ok { OnOk result (AppendsArrangement (expansion_after (N.normalizer by.now) count (strip buffer.old.ahead)) []
        buffer.old buffer.new) }
    ensures err { IfErr result (λ e. RefusesRoomFor (length (expansion_after (N.normalizer by.now) count
        (strip buffer.old.ahead)).items) e buffer.old) }
{
    pass_glyphs(count, buffer)?;
    expand_list(by, buffer)?;
    Ok(())
}
