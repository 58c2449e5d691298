//! The Hangul shaper's preprocess_text (rustybuzz: hb/ot_shaper_hangul.rs).
ghost use Rattle.std.specs.Prelude.{◌≡◌, ◌≢◌, ◌<◌, ◌≤◌, true, length, IfOk, OnOk, IfErr, Err};
ghost use Rattle.buffer_glyphs.specs.Items.{strip};
ghost use Rattle.buffer_stages.specs.Ready.{IsReady};
ghost use Rattle.script_hangul.specs.Actions.{action_on};
ghost use Rattle.script_hangul.specs.Steps.{step_of};
ghost use Rattle.script_hangul.specs.Hangul.{character_at, count_apart, hangul_text, jamo_rule, step, wants_circles};
ghost use Rattle.script_syllabic.specs.Graphemes.{with_graphemes_merged};
ghost use Rattle.buffer_core.specs.Readings.{always};
ghost use Rattle.buffer_core.specs.Sides.{HasCurrent};
ghost use Rattle.script_hangul.specs.Stepped.{Passes, Refuses, IsWritten};
ghost use Rattle.script_hangul.specs.Written.{MayMerge, MergesAnywhere, action_merge, merge_if, syllables_walked};
ghost use Rattle.buffer_stages.specs.Walks.{RefusesLength};
ghost use Rattle.buffer_stages.specs.Stages.{DoesStage, IsFollowed};

use crate::actions::{Action, action_on, begins_syllable};
use crate::jamo::is_tone;
use crate::kept::is_kept;
use crate::performing::{keep, perform_merged};
use crate::tones::put_tone;
use bitflags::Flags;
use buffer_common::constants::BufferFlags;
use buffer_core::buffer::hb_buffer_t;
use buffer_glyphs::cause::ShapeCause;
use buffer_glyphs::info::hb_glyph_info_t;
use buffer_glyphs::level::BufferClusterLevel;
use buffer_stages::walks::finish;
use layout_face::Face;
use script_syllabic::graphemes::merge_grapheme;

/// Composes jamo to syllables that the font has, and decomposes syllables that it lacks; sets the feature of each jamo
/// that stays by itself; moves a tone mark with an advance before the syllable that it follows, and gives a tone mark
/// without a syllable a dotted circle (`preprocess_text`). It takes linear time.
///
/// # Errors
///
/// `TooLong` where the text would have more characters than the buffer may hold, or lack of memory.
pub fn preprocess_text(face: &Face, buffer: &mut hb_buffer_t) -> Result<(), ShapeCause>
    requires ready { IsReady buffer.old }
    ensures { DoesStage (hangul_text face.now buffer.old.flags) result buffer.old buffer.new }
{
    // The length says that the text is within the limit.
    let _len = buffer.len();
    if is_kept(face, buffer.info_slice()) {
        buffer.clear_positions();
        return Ok(());
    }
    change_text(face, buffer)
}

/// Changes a text that doesn't stay as it is.
#[tactic(auto, using(crate::proofs::Merged::hangul_done))]
fn change_text(face: &Face, buffer: &mut hb_buffer_t) -> Result<(), ShapeCause>
    requires ready { IsReady buffer.old }
    ensures { DoesStage (hangul_text face.now buffer.old.flags) result buffer.old buffer.new }
{
    // Each merge may come with its syllable, which needs no walk of its own.
    if merges_anywhere(buffer) {
        return form_syllables(face, true, buffer);
    }
    merge_jamo(face, buffer);
    form_syllables(face, false, buffer)?;
    Ok(())
}

/// Whether a merge with its syllable leaves what one before all syllables leaves.
#[tactic(auto, using(crate::proofs::Steps::anywhere))]
fn merges_anywhere(buffer: &hb_buffer_t) -> bool
    ensures { result ≡ true → MergesAnywhere buffer.now }
{
    if buffer.asks_breaks() {
        return false;
    }
    is_even(buffer.cluster_level())
}

/// Whether a level either merges in both ways or in none.
fn is_even(level: BufferClusterLevel) -> bool
    ensures { result ≡ true → level ≢ BufferClusterLevel.Graphemes }
{
    match level {
        BufferClusterLevel::Graphemes => false,
        BufferClusterLevel::MonotoneGraphemes
        | BufferClusterLevel::MonotoneCharacters
        | BufferClusterLevel::Characters => true,
    }
}

/// Merges the characters of each syllable that stays several jamo into one grapheme.
#[tactic(auto, using(script_syllabic::proofs::GraphemesMerged::nothing_merged, script_syllabic::proofs::GraphemesMerged::next_merged, script_syllabic::proofs::GraphemesMerged::all_merged, script_syllabic::proofs::GraphemesMerged::same_count))]
fn merge_jamo(face: &Face, buffer: &mut hb_buffer_t)
    requires ready { IsReady buffer.old }
    ensures { IsFollowed (always (with_graphemes_merged (jamo_rule face.now))) buffer.old buffer.new }
{
    let count = buffer.len();
    let mut at = 0;
    while at < count {
        let apart = count_jamo(face, &buffer.info_slice()[at..]);
        merge_grapheme(at, apart, buffer);
        at += 1;
    }
}

/// The number of characters that begin with one grapheme, a syllable that stays several jamo; else 0.
#[tactic(auto, using(crate::proofs::Merged::first_is, crate::proofs::Merged::other_counts_none))]
fn count_jamo(face: &Face, glyphs: &[hb_glyph_info_t]) -> usize
    ensures count { result ≡ jamo_rule face.now (strip glyphs.now) }
    ensures within { result ≤ length glyphs.now }
{
    match character_in(glyphs, 0) {
        Some(u) => {
            // All others are kept, as the jamo after the first of a syllable: nothing after them is read.
            if !begins_syllable(u) {
                return 0;
            }
            let action = action_on(face, u, character_in(glyphs, 1), character_in(glyphs, 2));
            count_apart(action)
        }
        None => 0,
    }
}

/// The number of characters of the syllable that an action leaves as several jamo, or 0.
fn count_apart(action: Action) -> usize
    ensures { result ≡ count_apart action }
{
    match action {
        Action::Apart(count) => count,
        Action::Split(_, true) => 2,
        Action::Keep(_) | Action::Compose(_, _) | Action::Split(_, false) => 0,
    }
}

/// The i-th character, if there is one.
pub(crate) fn character_in(glyphs: &[hb_glyph_info_t], i: usize) -> Option<char>
    ensures { result ≡ character_at i (strip glyphs.now) }
{
    if i < glyphs.len() {
        char::from_u32(glyphs[i].glyph_id)
    } else {
        None
    }
}

/// Forms the syllables of a text, and merges the graphemes of each if `merges` is set.
fn form_syllables(face: &Face, merges: bool, buffer: &mut hb_buffer_t) -> Result<(), ShapeCause>
    requires ready { IsReady buffer.old }
    requires merges { MayMerge merges buffer.old }
    ensures { DoesStage (syllables_walked merges face.now buffer.old.flags) result buffer.old buffer.new }
{
    let circles = wants_circles(buffer.flags());
    let count = buffer.len();
    buffer.clear_output()?;
    let mut start = 0;
    for _ in 0..count {
        start = pass(face, circles, merges, start, buffer)?;
    }
    finish(buffer)?;
    Ok(())
}

fn wants_circles(flags: BufferFlags) -> bool
    ensures { result ≡ wants_circles flags }
{
    !flags.contains(BufferFlags::DO_NOT_INSERT_DOTTED_CIRCLE)
}

/// Outputs the current character and those that belong to it, if there is one. Returns the start of the syllable that
/// ends the output, or the output's length.
fn pass(
    face: &Face,
    circles: bool,
    merges: bool,
    start: usize,
    buffer: &mut hb_buffer_t,
) -> Result<usize, ShapeCause>
    requires open { buffer.old.is_open ≡ true }
    ensures ok { IfOk result (λ n. Passes merges face.now circles start n buffer.old buffer.new) }
    ensures err { IfErr result (λ e. RefusesLength (length (step face.now circles start (strip buffer.old.behind)
        (strip buffer.old.ahead)).out) e buffer.old) }
{
    if buffer.lookahead_len() == 0 {
        return Ok(start);
    }
    let next = pass_next(face, circles, merges, start, buffer)?;
    Ok(next)
}

/// Outputs the current character and those that belong to it; returns the start of the last syllable.
#[tactic(auto, using(crate::proofs::Steps::tone_written, crate::proofs::Steps::other_written, crate::proofs::Steps::number_written))]
fn pass_next(
    face: &Face,
    circles: bool,
    merges: bool,
    start: usize,
    buffer: &mut hb_buffer_t,
) -> Result<usize, ShapeCause>
    requires current { HasCurrent buffer.old }
    ensures ok { IfOk result (λ n. IsWritten (step face.now circles start (strip buffer.old.behind)
        (strip buffer.old.ahead)) (merge_if merges face.now (length (strip buffer.old.behind)) (strip buffer.old.ahead)) n
        buffer.old buffer.new) }
    ensures err { IfErr result (λ e. Refuses (step face.now circles start (strip buffer.old.behind)
        (strip buffer.old.ahead)) e buffer.old) }
{
    match character_at(0, buffer) {
        Some(u) => {
            if is_tone(u) {
                return put_tone(face, circles, start, u, buffer);
            }
            pass_other(face, u, merges, buffer)
        }
        None => keep(false, buffer),
    }
}

/// Outputs a current character that is no tone mark, with those of its syllable.
fn pass_other(
    face: &Face,
    u: char,
    merges: bool,
    buffer: &mut hb_buffer_t,
) -> Result<usize, ShapeCause>
    requires current { HasCurrent buffer.old }
    ensures ok { IfOk result (λ n. IsWritten (step_of (action_on face.now u (character_at 1 (strip buffer.old.ahead))
        (character_at 2 (strip buffer.old.ahead))) (strip buffer.old.behind) (strip buffer.old.ahead))
        (action_merge merges (action_on face.now u (character_at 1 (strip buffer.old.ahead))
        (character_at 2 (strip buffer.old.ahead))) (length buffer.old.behind)) n buffer.old buffer.new) }
    ensures err { IfErr result (λ e. Refuses (step_of (action_on face.now u (character_at 1 (strip buffer.old.ahead))
        (character_at 2 (strip buffer.old.ahead))) (strip buffer.old.behind) (strip buffer.old.ahead)) e buffer.old) }
{
    let second = character_at(1, buffer);
    let third = character_at(2, buffer);
    let action = action_on(face, u, second, third);
    perform_merged(merges, action, buffer)
}

/// The i-th character from the cursor on, if there is one.
fn character_at(i: usize, buffer: &hb_buffer_t) -> Option<char>
    ensures { result ≡ character_at i (strip buffer.now.ahead) }
{
    if i < buffer.lookahead_len() {
        char::from_u32(buffer.cur(i).glyph_id)
    } else {
        None
    }
}
