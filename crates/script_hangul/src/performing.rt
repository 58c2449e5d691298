//! Performs the chosen action on a buffer with an open output (rustybuzz: hb/ot_shaper_hangul.rs).
ghost use Rattle.std.specs.Prelude.{◌≡◌, if◌then◌else◌, ◌<◌, ◌≤◌, ◌+◌, ◌++◌, ◌∷◌, [], true, drop, length, take, slice_get, Some, IfOk, IfErr, OnOk, unwrap_or};
ghost use Rattle.buffer_glyphs.specs.Items.{item_of, strip};
ghost use Rattle.buffer_glyphs.specs.Origins.{origin_of};
ghost use Rattle.buffer_glyphs.specs.Replacements.{item_numbered};
ghost use Rattle.buffer_glyphs.specs.Events.{Replace};
ghost use Rattle.script_hangul.specs.Steps.{apart_step, compose_step, keep_step, letters_from, numbers_of, letters_of_first, step_of, numbered_letter, split_step};
ghost use Rattle.script_hangul.specs.Stepped.{Refuses, IsStepped, IsWritten, fits_rest};
ghost use Rattle.script_hangul.specs.Written.{action_merge, written_count};
ghost use Rattle.buffer_stages.specs.Walks.{RefusesLength, HasWalked};
ghost use Rattle.buffer_core.specs.Sides.{HasCurrent};

use crate::actions::Action;
use crate::composing::compose_front;
use crate::jamo::Letters;
use buffer_core::buffer::hb_buffer_t;
use buffer_glyphs::cause::ShapeCause;
use buffer_glyphs::info::hb_glyph_info_t;
use buffer_stages::walks::{advance, advance_as, replace_current};

/// The jamo features, as `auxiliary` of a glyph: 1 ljmo, 2 vjmo, 3 tjmo.
pub const LJMO: u8 = 1;

/// The number of the feature vjmo.
pub const VJMO: u8 = 2;

/// The number of the feature tjmo.
pub const TJMO: u8 = 3;

/// Performs an action on the characters at the cursor. Returns the start of the syllable that ends the output and that
/// a tone mark may follow, or the output's length.
pub(crate) fn perform(action: Action, buffer: &mut hb_buffer_t) -> Result<usize, ShapeCause>
    requires open { buffer.old.is_open ≡ true }
    requires there { fits_rest action (length buffer.old.ahead) ≡ true }
    ensures ok { IfOk result (λ n. IsStepped (step_of action (strip buffer.old.behind) (strip buffer.old.ahead)) n
        buffer.old buffer.new) }
    ensures err { IfErr result (λ e. Refuses (step_of action (strip buffer.old.behind) (strip buffer.old.ahead)) e
        buffer.old) }
{
    match action {
        Action::Keep(is_whole) => keep(is_whole, buffer),
        Action::Apart(count) => put_apart(count, buffer),
        Action::Compose(count, u) => compose(count, u, buffer),
        Action::Split(letters, joins) => split(letters, joins, buffer),
    }
}

/// Performs an action, and merges the jamo of its syllable as one grapheme if `merges` is set.
#[tactic(auto, using(crate::proofs::Steps::merged_action, crate::proofs::Steps::many_written))]
pub(crate) fn perform_merged(
    merges: bool,
    action: Action,
    buffer: &mut hb_buffer_t,
) -> Result<usize, ShapeCause>
    requires open { buffer.old.is_open ≡ true }
    requires there { fits_rest action (length buffer.old.ahead) ≡ true }
    ensures ok { IfOk result (λ n. IsWritten (step_of action (strip buffer.old.behind) (strip buffer.old.ahead))
        (action_merge merges action (length buffer.old.behind)) n buffer.old buffer.new) }
    ensures err { IfErr result (λ e. Refuses (step_of action (strip buffer.old.behind) (strip buffer.old.ahead)) e
        buffer.old) }
{
    let at = buffer.out_len();
    let start = perform(action, buffer)?;
    merge_written(merges, action, at, buffer);
    Ok(start)
}

/// Merges the jamo of a syllable that was output from an index on, if `merges` is set and it is several.
#[tactic(auto, using(crate::proofs::Steps::none_written, crate::proofs::Steps::unmerged, crate::proofs::Steps::single, crate::proofs::Steps::several_written, crate::proofs::Steps::count_within))]
fn merge_written(merges: bool, action: Action, at: usize, buffer: &mut hb_buffer_t)
    requires open { buffer.old.is_open ≡ true }
    requires within { at + unwrap_or (written_count action) 0 ≤ length buffer.old.behind }
    ensures { HasWalked (strip buffer.old.behind) (strip buffer.old.ahead) (action_merge merges action at) buffer.old
        buffer.new }
{
    if !merges {
        return;
    }
    let Some(count) = written_count(action) else {
        return;
    };
    // The length bounds the index.
    let _end = buffer.out_len();
    buffer.merge_out_grapheme_clusters(at, at + count);
}

/// The number of jamo of the syllable that an action outputs, none where it is one character.
fn written_count(action: Action) -> Option<usize>
    ensures { result ≡ written_count action }
{
    match action {
        Action::Apart(count) => Some(count),
        Action::Split(Letters::Two(_, _), joins) => Some(if joins { 3 } else { 2 }),
        Action::Split(Letters::Three(_, _, _), joins) => Some(if joins { 4 } else { 3 }),
        Action::Keep(_) | Action::Compose(_, _) => None,
    }
}

/// Outputs the current character unchanged.
pub(crate) fn keep(is_whole: bool, buffer: &mut hb_buffer_t) -> Result<usize, ShapeCause>
    requires current { HasCurrent buffer.old }
    ensures ok { IfOk result (λ n. IsStepped (keep_step is_whole (strip buffer.old.behind) (strip buffer.old.ahead)) n
        buffer.old buffer.new) }
    ensures err { IfErr result (λ e. Refuses (keep_step is_whole (strip buffer.old.behind) (strip buffer.old.ahead)) e
        buffer.old) }
{
    let at = buffer.out_len();
    advance(buffer)?;
    if is_whole {
        return Ok(at);
    }
    let end = buffer.out_len();
    Ok(end)
}

/// Composes that many characters at the cursor to a syllable.
fn compose(count: usize, u: char, buffer: &mut hb_buffer_t) -> Result<usize, ShapeCause>
    requires open { buffer.old.is_open ≡ true }
    requires some { 0 < count }
    requires there { count ≤ length buffer.old.ahead }
    ensures ok { IfOk result (λ n. IsStepped (compose_step count u (strip buffer.old.behind) (strip buffer.old.ahead)) n
        buffer.old buffer.new) }
    ensures err { IfErr result (λ e. Refuses (compose_step count u (strip buffer.old.behind) (strip buffer.old.ahead)) e
        buffer.old) }
{
    let at = buffer.out_len();
    compose_front(count, u32::from(u), buffer)?;
    Ok(at)
}

/// Outputs two or three jamo as one syllable.
fn put_apart(count: usize, buffer: &mut hb_buffer_t) -> Result<usize, ShapeCause>
    requires open { buffer.old.is_open ≡ true }
    requires there { fits_rest (Action.Apart count) (length buffer.old.ahead) ≡ true }
    ensures ok { IfOk result (λ n. IsStepped (apart_step count (strip buffer.old.behind) (strip buffer.old.ahead)) n buffer.old
        buffer.new) }
    ensures err { IfErr result (λ e. Refuses (apart_step count (strip buffer.old.behind) (strip buffer.old.ahead)) e
        buffer.old) }
{
    let at = buffer.out_len();
    put_letter(LJMO, buffer)?;
    put_letter(VJMO, buffer)?;
    if count == 3 {
        put_letter(TJMO, buffer)?;
        return Ok(at);
    }
    Ok(at)
}

/// Outputs the current jamo, with its feature.
fn put_letter(kind: u8, buffer: &mut hb_buffer_t) -> Result<(), ShapeCause>
    requires current { HasCurrent buffer.old }
    ensures ok { OnOk result (HasWalked (strip buffer.old.behind ++ letters_from kind (take 1 (strip buffer.old.ahead)))
        (drop 1 (strip buffer.old.ahead)) [] buffer.old buffer.new) }
    ensures err { IfErr result (λ e. RefusesLength (length buffer.old.behind + 1) e buffer.old) }
{
    let letter = placed(buffer.cur(0), kind);
    advance_as(letter, buffer)?;
    Ok(())
}

/// A jamo with its feature.
fn placed(glyph: &hb_glyph_info_t, kind: u8) -> hb_glyph_info_t
    ensures item { item_of result ≡ numbered_letter kind (item_of glyph.now) }
    ensures origin { origin_of result ≡ origin_of glyph.now }
{
    hb_glyph_info_t {
        auxiliary: kind,
        ..*glyph
    }
}

/// A jamo of the syllable that a glyph shows, with its feature.
fn letter_of(glyph: &hb_glyph_info_t, u: char, kind: u8) -> hb_glyph_info_t
    ensures item { item_of result ≡ numbered_letter kind (item_numbered (item_of glyph.now) u) }
    ensures origin { origin_of result ≡ origin_of glyph.now }
{
    hb_glyph_info_t {
        glyph_id: u32::from(u),
        auxiliary: kind,
        ..*glyph
    }
}

/// Decomposes the current syllable into its jamo; a trailing consonant after it joins two of them.
fn split(letters: Letters, joins: bool, buffer: &mut hb_buffer_t) -> Result<usize, ShapeCause>
    requires open { buffer.old.is_open ≡ true }
    requires there { fits_rest (Action.Split letters joins) (length buffer.old.ahead) ≡ true }
    ensures ok { IfOk result (λ n. IsStepped (split_step letters (if joins then 1 else 0) (strip buffer.old.behind)
        (strip buffer.old.ahead)) n buffer.old buffer.new) }
    ensures err { IfErr result (λ e. Refuses (split_step letters (if joins then 1 else 0) (strip buffer.old.behind)
        (strip buffer.old.ahead)) e buffer.old) }
{
    let at = buffer.out_len();
    put_pieces(letters, buffer)?;
    if joins {
        put_letter(TJMO, buffer)?;
        return Ok(at);
    }
    Ok(at)
}

/// Replaces the current syllable by its jamo in the output.
fn put_pieces(letters: Letters, buffer: &mut hb_buffer_t) -> Result<(), ShapeCause>
    requires current { HasCurrent buffer.old }
    ensures ok { OnOk result (HasWalked (strip buffer.old.behind
        ++ letters_from 1 (letters_of_first letters (strip buffer.old.ahead))) (drop 1 (strip buffer.old.ahead))
        (Replace (length buffer.old.behind) 1 (length (numbers_of letters)) ∷ []) buffer.old buffer.new) }
    ensures err { IfErr result (λ e. RefusesLength (length buffer.old.behind + length (numbers_of letters)) e buffer.old) }
{
    match letters {
        Letters::Two(l, v) => put_two(l, v, buffer),
        Letters::Three(l, v, t) => put_three(l, v, t, buffer),
    }
}

fn put_two(l: char, v: char, buffer: &mut hb_buffer_t) -> Result<(), ShapeCause>
    requires current { HasCurrent buffer.old }
    ensures ok { OnOk result (HasWalked (strip buffer.old.behind
        ++ letters_from 1 (letters_of_first (Letters.Two l v) (strip buffer.old.ahead))) (drop 1 (strip buffer.old.ahead))
        (Replace (length buffer.old.behind) 1 2 ∷ []) buffer.old buffer.new) }
    ensures err { IfErr result (λ e. RefusesLength (length buffer.old.behind + 2) e buffer.old) }
{
    let glyph = *buffer.cur(0);
    let leading = letter_of(&glyph, l, LJMO);
    let vowel = letter_of(&glyph, v, VJMO);
    replace_current(&[leading, vowel], buffer)?;
    Ok(())
}

fn put_three(l: char, v: char, t: char, buffer: &mut hb_buffer_t) -> Result<(), ShapeCause>
    requires current { HasCurrent buffer.old }
    ensures ok { OnOk result (HasWalked (strip buffer.old.behind
        ++ letters_from 1 (letters_of_first (Letters.Three l v t) (strip buffer.old.ahead))) (drop 1 (strip buffer.old.ahead))
        (Replace (length buffer.old.behind) 1 3 ∷ []) buffer.old buffer.new) }
    ensures err { IfErr result (λ e. RefusesLength (length buffer.old.behind + 3) e buffer.old) }
{
    let glyph = *buffer.cur(0);
    let leading = letter_of(&glyph, l, LJMO);
    let vowel = letter_of(&glyph, v, VJMO);
    let trailing = letter_of(&glyph, t, TJMO);
    replace_current(&[leading, vowel, trailing], buffer)?;
    Ok(())
}
