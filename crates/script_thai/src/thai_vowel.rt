//! Decomposes Thai SARA AM and Lao AM (rustybuzz: hb/ot_shaper_thai.rs).
ghost use Rattle.std.specs.Prelude.{◌≡◌, ◌<◌, ◌≤◌, ◌+◌, ◌-◌, ◌++◌, ◌∷◌, [], List, Some, true, not, length, take, drop, slice_get, OnOk, IfOk, IfErr};
ghost use Rattle.std.specs.List.{list_all};
ghost use Rattle.buffer_glyphs.specs.Items.{Item, item_of, strip};
ghost use Rattle.buffer_glyphs.specs.Origins.{origin_of};
ghost use Rattle.buffer_core.specs.Readings.{always};
ghost use Rattle.buffer_core.specs.Sides.{HasCurrent};
ghost use Rattle.buffer_stages.specs.Ready.{IsReady};
ghost use Rattle.script_thai.specs.ThaiVowel.{count_above, events_of_vowel, is_mark_above, is_sara_am, nikhahit, nonspacing, move_of_vowel, sara_aa, split_events, text_with_splits, thai_or_lao, vowel_rule, vowels_decomposed, vowels_split, with_vowel};
ghost use Rattle.script_syllabic.specs.Graphemes.{with_graphemes_merged};
ghost use Rattle.buffer_stages.specs.Moves.{with_range_moved};
ghost use Rattle.buffer_stages.specs.Walks.{RefusesLength, HasWalked};
ghost use Rattle.buffer_stages.specs.Stages.{DoesStage, IsFollowed};

use buffer_core::buffer::hb_buffer_t;
use buffer_glyphs::cause::ShapeCause;
use buffer_glyphs::flags::UnicodeProps;
use buffer_glyphs::info::hb_glyph_info_t;
use buffer_stages::walks::{finish, move_behind, replace_current};
use buffer_unicode::category::GeneralCategoryExt;
use script_syllabic::graphemes::merge_grapheme;
use unicode::properties::GeneralCategory;

const SARA_AM: u32 = 0x0E33;

/// The difference between a character of Lao and the one of Thai at the same offset of its block.
const LAO: u32 = 0x80;

/// Decomposes each SARA AM, and each AM of Lao, into a mark above, which is moved before the marks above that precede
/// it, and a vowel after these (`preprocess_text`). It takes linear time.
///
/// # Errors
///
/// `TooLong` where the text would have more characters than the buffer may hold, or lack of memory.
#[tactic(auto, using(script_syllabic::proofs::Quiet::followed_then, buffer_core::specs::Steps::refused_then))]
pub fn preprocess_text(buffer: &mut hb_buffer_t) -> Result<(), ShapeCause>
    requires ready { IsReady buffer.old }
    ensures { DoesStage vowels_decomposed result buffer.old buffer.new }
{
    // A half that is moved takes clusters out of order, and then a merge would walk the whole text.
    join_vowels(buffer);
    split_vowels(buffer)?;
    Ok(())
}

/// Merges each such vowel with the character before it into one grapheme, where that is no mark above.
#[tactic(auto, using(script_syllabic::proofs::GraphemesMerged::nothing_merged, script_syllabic::proofs::GraphemesMerged::next_merged, script_syllabic::proofs::GraphemesMerged::all_merged, script_syllabic::proofs::GraphemesMerged::same_count))]
fn join_vowels(buffer: &mut hb_buffer_t)
    requires ready { IsReady buffer.old }
    ensures { IsFollowed (always (with_graphemes_merged vowel_rule)) buffer.old buffer.new }
{
    let count = buffer.len();
    let mut at = 0;
    while at < count {
        let joined = count_joined(&buffer.info_slice()[at..]);
        merge_grapheme(at, joined, buffer);
        at += 1;
    }
}

/// The number of characters that begin with one grapheme, if the second is such a vowel after no mark above; else 0.
fn count_joined(glyphs: &[hb_glyph_info_t]) -> usize
    ensures count { result ≡ vowel_rule (strip glyphs.now) }
    ensures within { result ≤ length glyphs.now }
{
    match glyphs {
        [before, vowel, ..] => {
            if is_sara_am(vowel) && !is_mark_above(before) {
                2
            } else {
                0
            }
        }
        _ => 0,
    }
}

/// Decomposes the vowels of a text.
fn split_vowels(buffer: &mut hb_buffer_t) -> Result<(), ShapeCause>
    requires ready { IsReady buffer.old }
    ensures { DoesStage vowels_split result buffer.old buffer.new }
{
    let mut left = buffer.len();
    buffer.clear_output()?;
    while left > 0 {
        left -= pass(buffer)?;
    }
    finish(buffer)?;
    Ok(())
}

/// Outputs the current character as two halves where it is such a vowel, else all characters before the next one.
/// Answers how many were read.
fn pass(buffer: &mut hb_buffer_t) -> Result<usize, ShapeCause>
    requires current { HasCurrent buffer.old }
    ensures some { IfOk result (λ n. 0 < n) }
    ensures within { IfOk result (λ n. n ≤ length buffer.old.ahead) }
    ensures ok { IfOk result (λ n. HasWalked
        (text_with_splits (strip buffer.old.behind) (take n (strip buffer.old.ahead))) (drop n (strip buffer.old.ahead))
        (split_events (strip buffer.old.behind) (take n (strip buffer.old.ahead))) buffer.old buffer.new) }
    ensures err { IfErr result (λ e. RefusesLength
        (length (text_with_splits (strip buffer.old.behind) (strip buffer.old.ahead))) e buffer.old) }
{
    let glyph = *buffer.cur(0);
    if is_sara_am(&glyph) {
        split(&glyph, buffer)?;
        return Ok(1);
    }
    let others = count_others(buffer);
    advance_over(others, buffer)?;
    Ok(others)
}

/// The number of characters before the next such vowel, where the current character is none.
fn count_others(buffer: &hb_buffer_t) -> usize
    requires there { 0 < length buffer.now.ahead }
    requires first { list_all (λ x. not (is_sara_am x)) (take 1 (strip buffer.now.ahead)) ≡ true }
    ensures others { list_all (λ x. not (is_sara_am x)) (take result (strip buffer.now.ahead)) ≡ true }
    ensures some { 0 < result }
    ensures within { result ≤ length buffer.now.ahead }
{
    let count = buffer.lookahead_len();
    for i in 1..count {
        if is_sara_am(buffer.cur(i)) {
            return i;
        }
    }
    count
}

/// Outputs `count` characters as they are.
fn advance_over(count: usize, buffer: &mut hb_buffer_t) -> Result<(), ShapeCause>
    requires open { buffer.old.is_open ≡ true }
    requires there { count ≤ length buffer.old.ahead }
    ensures ok { OnOk result (HasWalked (strip buffer.old.behind ++ take count (strip buffer.old.ahead))
        (drop count (strip buffer.old.ahead)) [] buffer.old buffer.new) }
    ensures err { IfErr result (λ e. RefusesLength (length buffer.old.behind + count) e buffer.old) }
{
    if !buffer.next_glyphs(count)? {
        return Err(ShapeCause::TooLong);
    }
    Ok(())
}

/// Outputs the current vowel as its two halves.
fn split(glyph: &hb_glyph_info_t, buffer: &mut hb_buffer_t) -> Result<(), ShapeCause>
    requires open { buffer.old.is_open ≡ true }
    requires there { slice_get buffer.old.ahead 0 ≡ Some glyph.now }
    requires vowel { is_sara_am (item_of glyph.now) ≡ true }
    ensures ok { OnOk result ((x : Item) (xs : List Item) → strip buffer.old.ahead ≡ x ∷ xs
        → HasWalked (with_vowel (strip buffer.old.behind) x) xs
        (events_of_vowel (length buffer.old.behind) (count_above (strip buffer.old.behind))) buffer.old
        buffer.new) }
    ensures err { IfErr result (λ e. RefusesLength (length buffer.old.behind + 2) e buffer.old) }
{
    let at = buffer.out_len();
    let marks = count_above(buffer.out_info());
    replace_current(&[nikhahit(glyph), sara_aa(glyph)], buffer)?;
    move_half(at, marks, buffer);
    Ok(())
}

/// Moves the first half of a vowel, whose halves begin at `at` of the output, before the marks above, and merges it
/// with them where the level does.
fn move_half(at: usize, marks: usize, buffer: &mut hb_buffer_t)
    requires open { buffer.old.is_open ≡ true }
    requires parts { at + 2 ≡ length buffer.old.behind }
    requires before { marks ≤ at }
    ensures { HasWalked (with_range_moved (at - marks) marks 1 (strip buffer.old.behind)) (strip buffer.old.ahead)
        (move_of_vowel at marks) buffer.old buffer.new }
{
    if marks == 0 {
        return;
    }
    let end = buffer.out_len();
    move_behind(at - marks, at, end - 1, buffer);
}

/// The first half, NIKHAHIT: a nonspacing mark that continues the grapheme.
fn nikhahit(glyph: &hb_glyph_info_t) -> hb_glyph_info_t
    requires vowel { is_sara_am (item_of glyph.now) ≡ true }
    ensures item { item_of result ≡ nikhahit (item_of glyph.now) }
    ensures origin { origin_of result ≡ origin_of glyph.now }
{
    hb_glyph_info_t {
        glyph_id: glyph.glyph_id + 0x1A,
        unicode_props: nonspacing(glyph.unicode_props),
        ..*glyph
    }
}

/// The second half, SARA AA.
fn sara_aa(glyph: &hb_glyph_info_t) -> hb_glyph_info_t
    requires vowel { is_sara_am (item_of glyph.now) ≡ true }
    ensures item { item_of result ≡ sara_aa (item_of glyph.now) }
    ensures origin { origin_of result ≡ origin_of glyph.now }
{
    hb_glyph_info_t {
        glyph_id: glyph.glyph_id - 1,
        ..*glyph
    }
}

/// The property word of a nonspacing mark that continues the grapheme.
fn nonspacing(props: UnicodeProps) -> UnicodeProps
    ensures { result.0 ≡ nonspacing props.0 }
{
    let category = GeneralCategory::NonspacingMark.to_rb() as u16;
    UnicodeProps((props.0 - (props.0 & 0x1F) + category) | UnicodeProps::CONTINUATION.0)
}

/// The number of marks above that end a text.
fn count_above(glyphs: &[hb_glyph_info_t]) -> usize
    ensures count { result ≡ count_above (strip glyphs.now) }
    ensures within { result ≤ length glyphs.now }
{
    let count = glyphs.len();
    for i in 0..count {
        if !is_mark_above(&glyphs[count - 1 - i]) {
            return i;
        }
    }
    count
}

fn is_sara_am(glyph: &hb_glyph_info_t) -> bool
    ensures { result ≡ is_sara_am (item_of glyph.now) }
{
    thai_or_lao(glyph.glyph_id) == SARA_AM
}

fn is_mark_above(glyph: &hb_glyph_info_t) -> bool
    ensures { result ≡ is_mark_above (item_of glyph.now) }
{
    matches!(
        thai_or_lao(glyph.glyph_id),
        0x0E31 | 0x0E34..=0x0E37 | 0x0E3B | 0x0E47..=0x0E4E
    )
}

/// The Thai character of one of Thai or Lao, at the same offset of its block.
fn thai_or_lao(u: u32) -> u32
    ensures { result ≡ thai_or_lao u }
{
    u - (u & LAO)
}
