//! The first round: decomposes characters, and combines variation selectors with the character before them
//! (rustybuzz: hb/ot_shape_normalize.rs).
//!
//! Functions repeat clauses: each requires what the one that it calls requires.
ghost use Rattle.std.specs.Prelude.{◌≡◌, ◌<◌, ◌≤◌, ◌+◌, ◌++◌, ◌∷◌, [], List, length, map, take, true, Some, IfOk, IfErr, OnOk};
ghost use Rattle.std.specs.List.{list_any};
ghost use Rattle.buffer_glyphs.specs.Items.{Item, strip};
ghost use Rattle.buffer_glyphs.specs.Rewriting.{in_turn};
ghost use Rattle.buffer_properties.specs.Characters.{is_selector};
ghost use Rattle.buffer_properties.specs.Expanding.{item_expansion, expanded_item, expanded_list};
ghost use Rattle.buffer_properties.specs.Normalizer.{has_character, reach_alone, reach_with_marks};
ghost use Rattle.buffer_properties.specs.SupportedExpansion.{alone, by_supported, supported_expansion, expansion};
ghost use Rattle.buffer_stages.specs.Appending.{AppendsArrangement, RefusesRoomFor};
ghost use Rattle.shape_normalize.specs.KeptRuns.{Advances, HasOwn};
ghost use Rattle.shape_normalize.specs.Undecomposed.{AreUndecomposed};
ghost use Rattle.shape_normalize.specs.Walking.{Groups, GroupsTooMany};
ghost use Rattle.shape_normalize.specs.Glyphs.{HasHalvesOutput, Puts, count_of};
ghost use Rattle.buffer_core.specs.Sides.{HasCurrent};

use crate::characters::{is_selector, piece_of, whole_of};
use crate::kept_runs::{count_marks, give_ahead, kept_run};
use crate::normalizing::Normalizing;
use crate::outputting::output_replacement;
use crate::selecting::expand_selected;
use crate::undecomposed::ROWS;
use buffer_core::buffer::hb_buffer_t;
use buffer_glyphs::cause::ShapeCause;
use buffer_properties::{NormalizationMode, Reach};

/// Appends a character to the output, with the font's glyph for it; the last one that replaces the current character is
/// put in its place.
fn put_piece<N: Normalizing>(
    by: &N,
    u: char,
    glyph: u32,
    is_last: bool,
    buffer: &mut hb_buffer_t,
) -> Result<(), ShapeCause>
    requires current { HasCurrent buffer.old }
    requires glyph { (N.normalizer by.now).glyph_of u ≡ Some glyph }
    ensures ok { OnOk result (HasHalvesOutput (N.normalizer by.now) (u ∷ []) is_last buffer.old buffer.new) }
    ensures err { IfErr result (λ e. RefusesRoomFor 1 e buffer.old) }
{
    let piece = piece_of(by, buffer.cur(0), u, glyph);
    if is_last {
        return output_replacement(piece, buffer);
    }
    if !buffer.output_info(piece)? {
        return Err(ShapeCause::TooLong);
    }
    Ok(())
}

/// Appends a character to the output, if the font has it.
fn put_alone<N: Normalizing>(
    by: &N,
    u: char,
    is_last: bool,
    buffer: &mut hb_buffer_t,
) -> Result<bool, ShapeCause>
    requires current { HasCurrent buffer.old }
    ensures ok { IfOk result (λ b. Puts (N.normalizer by.now) (alone (has_character (N.normalizer by.now)) u)
        is_last b buffer.old buffer.new) }
    ensures err { IfErr result (λ e. RefusesRoomFor (count_of (alone (has_character (N.normalizer by.now)) u))
        e buffer.old) }
{
    let Some(glyph) = by.glyph(u as u32) else {
        return Ok(false);
    };
    put_piece(by, u, glyph, is_last, buffer)?;
    Ok(true)
}

/// Appends the characters of the font that a character decomposes to, with at most `depth` decompositions; where they
/// are the last ones, the last of them is put in the place of the current character.
#[cycle(expand)]
#[tactic(auto, using(crate::proofs::Supported::supported_zero, crate::proofs::Supported::supported_step))]
fn put_supported<N: Normalizing>(
    by: &N,
    reach: Reach,
    depth: u32,
    u: char,
    is_last: bool,
    buffer: &mut hb_buffer_t,
) -> Result<bool, ShapeCause>
    requires current { HasCurrent buffer.old }
    ensures ok { IfOk result (λ b. Puts (N.normalizer by.now)
        (supported_expansion reach (has_character (N.normalizer by.now)) (N.normalizer by.now).splits depth u)
        is_last b buffer.old buffer.new) }
    ensures err { IfErr result (λ e. RefusesRoomFor (count_of (supported_expansion reach (has_character (N.normalizer by.now))
        (N.normalizer by.now).splits depth u)) e buffer.old) }
{
    if depth == 0 {
        return put_alone(by, u, is_last, buffer);
    }
    match reach {
        Reach::Least => {
            if put_alone(by, u, is_last, buffer)? {
                return Ok(true);
            }
            put_in_pieces(by, reach, depth - 1, u as u32, is_last, buffer)
        }
        Reach::Greatest => {
            if put_in_pieces(by, reach, depth - 1, u as u32, is_last, buffer)? {
                return Ok(true);
            }
            put_alone(by, u, is_last, buffer)
        }
    }
}

/// Appends the two halves of a decomposition, if the font has them; the first is decomposed at most `depth` times.
#[cycle(expand)]
#[tactic(auto, using(crate::proofs::Parts::two_pieces, crate::proofs::Parts::no_second))]
fn put_in_pieces<N: Normalizing>(
    by: &N,
    reach: Reach,
    depth: u32,
    u: u32,
    is_last: bool,
    buffer: &mut hb_buffer_t,
) -> Result<bool, ShapeCause>
    requires current { HasCurrent buffer.old }
    ensures ok { IfOk result (λ b. Puts (N.normalizer by.now)
        (by_supported (has_character (N.normalizer by.now))
        (supported_expansion reach (has_character (N.normalizer by.now)) (N.normalizer by.now).splits depth)
        ((N.normalizer by.now).splits u)) is_last b buffer.old buffer.new) }
    ensures err { IfErr result (λ e. RefusesRoomFor (count_of (by_supported (has_character (N.normalizer by.now))
        (supported_expansion reach (has_character (N.normalizer by.now)) (N.normalizer by.now).splits depth)
        ((N.normalizer by.now).splits u))) e buffer.old) }
{
    let Some((first, second)) = by.decompose(u) else {
        return Ok(false);
    };
    if second == '\0' {
        return put_supported(by, reach, depth, first, is_last, buffer);
    }
    let Some(glyph) = by.glyph(second as u32) else {
        return Ok(false);
    };
    if !put_supported(by, reach, depth, first, false, buffer)? {
        return Ok(false);
    }
    put_piece(by, second, glyph, is_last, buffer)?;
    Ok(true)
}

/// Replaces the current character by its decomposition, where it has one that the font supports; `has` is whether the
/// font has the character.
#[tactic(auto, unfolding(buffer_properties::specs::SupportedExpansion::in_pieces))]
fn put_expansion<N: Normalizing>(
    by: &N,
    reach: Reach,
    u: u32,
    has: bool,
    buffer: &mut hb_buffer_t,
) -> Result<bool, ShapeCause>
    requires current { HasCurrent buffer.old }
    requires known { has ≡ has_character (N.normalizer by.now) u }
    ensures ok { IfOk result (λ b. Puts (N.normalizer by.now)
        (expansion reach (has_character (N.normalizer by.now)) (N.normalizer by.now).splits u)
        true b buffer.old buffer.new) }
    ensures err { IfErr result (λ e. RefusesRoomFor (count_of (expansion reach (has_character (N.normalizer by.now))
        (N.normalizer by.now).splits u)) e buffer.old) }
{
    match reach {
        Reach::Least => {
            if has {
                return Ok(false);
            }
            put_in_pieces(by, Reach::Least, 8, u, true, buffer)
        }
        Reach::Greatest => put_in_pieces(by, Reach::Greatest, 8, u, true, buffer),
    }
}

/// Replaces the current character in the output by its decomposition.
fn expand_current<N: Normalizing>(
    by: &N,
    reach: Reach,
    buffer: &mut hb_buffer_t,
) -> Result<(), ShapeCause>
    requires current { HasCurrent buffer.old }
    ensures ok { OnOk result ((x : Item) (xs : List Item) → strip buffer.old.ahead ≡ x ∷ xs
        → AppendsArrangement (item_expansion (N.normalizer by.now) reach x) xs buffer.old buffer.new) }
    ensures err { IfErr result (λ e. (x : Item) (xs : List Item) → strip buffer.old.ahead ≡ x ∷ xs
        → RefusesRoomFor (length (expanded_item (N.normalizer by.now) reach x)) e buffer.old) }
{
    let info = *buffer.cur(0);
    let glyph = by.glyph(info.glyph_id);
    if put_expansion(by, reach, info.glyph_id, glyph.is_some(), buffer)? {
        return Ok(());
    }
    output_replacement(whole_of(by, &info, glyph), buffer)?;
    Ok(())
}

/// Replaces that many characters by their decompositions.
fn expand_each<N: Normalizing>(
    by: &N,
    reach: Reach,
    count: usize,
    buffer: &mut hb_buffer_t,
) -> Result<(), ShapeCause>
    requires open { buffer.old.is_open ≡ true }
    requires there { count ≤ length buffer.old.ahead }
    ensures ok { OnOk result ((xs ys : List Item) → strip buffer.old.ahead ≡ xs ++ ys → length xs ≡ count
        → AppendsArrangement (in_turn (map (item_expansion (N.normalizer by.now) reach) xs)) ys buffer.old buffer.new) }
    ensures err { IfErr result (λ e. (xs ys : List Item) → strip buffer.old.ahead ≡ xs ++ ys → length xs ≡ count
        → RefusesRoomFor (length (in_turn (map (item_expansion (N.normalizer by.now) reach) xs)).items) e buffer.old) }
{
    for _ in 0..count {
        expand_current(by, reach, buffer)?;
    }
    Ok(())
}

/// How far a character without marks is decomposed.
pub(crate) fn reach_alone(mode: NormalizationMode) -> Reach
    ensures { result ≡ reach_alone mode }
{
    match mode {
        NormalizationMode::None | NormalizationMode::ComposedDiacritics | NormalizationMode::Auto =>
            Reach::Least,
        NormalizationMode::Decomposed | NormalizationMode::ComposedDiacriticsNoShortCircuit => {
            Reach::Greatest
        }
    }
}

/// How far a character with marks, and each of its marks, is decomposed.
pub(crate) fn reach_with_marks(mode: NormalizationMode) -> Reach
    ensures { result ≡ reach_with_marks mode }
{
    match mode {
        NormalizationMode::None => Reach::Least,
        _ => Reach::Greatest,
    }
}

/// Replaces a character and the marks after it by their decompositions.
fn expand_group<N: Normalizing>(
    by: &N,
    marks: usize,
    buffer: &mut hb_buffer_t,
) -> Result<(), ShapeCause>
    requires open { buffer.old.is_open ≡ true }
    requires there { marks < length buffer.old.ahead }
    ensures ok { OnOk result (Groups (N.normalizer by.now) marks buffer.old buffer.new) }
    ensures err { IfErr result (λ e. GroupsTooMany (N.normalizer by.now) marks e buffer.old) }
{
    if marks == 0 {
        expand_current(by, reach_alone(by.mode()), buffer)?;
        return Ok(());
    }
    // The number of glyphs bounds `marks + 1`.
    let _end = buffer.len();
    let count = marks + 1;
    if has_selector(count, buffer) {
        expand_selected(by, marks, buffer)?;
        return Ok(());
    }
    expand_each(by, reach_with_marks(by.mode()), count, buffer)?;
    Ok(())
}

/// Whether a variation selector is among the next `count` characters.
#[tactic(auto, using(crate::proofs::Found::found_here, crate::proofs::Found::found_later, crate::proofs::Found::found_none))]
fn has_selector(count: usize, buffer: &hb_buffer_t) -> bool
    requires { count ≤ length buffer.now.ahead }
    ensures { result ≡ list_any is_selector (take count (strip buffer.now.ahead)) }
{
    for i in 0..count {
        if is_selector(buffer.cur(i)) {
            return true;
        }
    }
    false
}

/// Outputs the characters at the cursor that stay whole, or else replaces the first, and the marks after it, by their
/// decompositions.
#[tactic(auto, using(crate::proofs::Advance::run_too_many))]
fn expand_next<N: Normalizing>(
    by: &N,
    known: &mut [Option<u32>],
    buffer: &mut hb_buffer_t,
) -> Result<(), ShapeCause>
    requires current { HasCurrent buffer.old }
    requires given { HasOwn (N.normalizer by.now) (strip buffer.old.ahead) }
    requires known { AreUndecomposed (N.normalizer by.now) known.old }
    ensures known { AreUndecomposed (N.normalizer by.now) known.new }
    ensures ok { OnOk result (Advances (N.normalizer by.now) buffer.old buffer.new) }
    ensures err { IfErr result (λ e. RefusesRoomFor (length (expanded_list (N.normalizer by.now)
        (strip buffer.old.ahead)).items) e buffer.old) }
{
    let count = kept_run(by, known, buffer);
    if count == 0 {
        let marks = count_marks(1, buffer);
        expand_group(by, marks, buffer)?;
        return Ok(());
    }
    if !buffer.next_glyphs(count)? {
        return Err(ShapeCause::TooLong);
    }
    Ok(())
}

/// The first round over characters that have the font's glyphs already.
fn expand_by_rows<N: Normalizing>(
    by: &N,
    known: &mut [Option<u32>],
    buffer: &mut hb_buffer_t,
) -> Result<(), ShapeCause>
    requires open { buffer.old.is_open ≡ true }
    requires known { AreUndecomposed (N.normalizer by.now) known.old }
    requires given { HasOwn (N.normalizer by.now) (strip buffer.old.ahead) }
    ensures ok { OnOk result (AppendsArrangement (expanded_list (N.normalizer by.now) (strip buffer.old.ahead)) []
        buffer.old buffer.new) }
    ensures err { IfErr result (λ e. RefusesRoomFor (length (expanded_list (N.normalizer by.now)
        (strip buffer.old.ahead)).items) e buffer.old) }
{
    while 0 < buffer.lookahead_len() {
        expand_next(by, known, buffer)?;
    }
    Ok(())
}

/// `expand_by_rows`, where characters of a long text are remembered.
#[tactic(auto, using(crate::proofs::Remembered::none_known))]
pub(crate) fn expand_given<N: Normalizing>(
    by: &N,
    buffer: &mut hb_buffer_t,
) -> Result<(), ShapeCause>
    requires open { buffer.old.is_open ≡ true }
    requires given { HasOwn (N.normalizer by.now) (strip buffer.old.ahead) }
    ensures ok { OnOk result (AppendsArrangement (expanded_list (N.normalizer by.now) (strip buffer.old.ahead)) []
        buffer.old buffer.new) }
    ensures err { IfErr result (λ e. RefusesRoomFor (length (expanded_list (N.normalizer by.now)
        (strip buffer.old.ahead)).items) e buffer.old) }
{
    if buffer.lookahead_len() < ROWS {
        return expand_by_rows(by, &mut [], buffer);
    }
    let mut known = [None; ROWS];
    expand_by_rows(by, &mut known, buffer)
}

/// The first round, from the cursor of an open output on: each character is decomposed as far as the shaper and the font
/// require, a variation selector is combined with the character before it where the font has the pair, and each gets
/// the font's glyph. Afterwards the whole list is output. It takes linear time, and no memory but the output's.
///
/// # Errors
///
/// `TooLong` where the output would have more glyphs than the buffer may hold, or lack of memory.
#[tactic(auto, using(crate::proofs::Given::given_own, crate::proofs::Given::given_brought))]
pub fn expand_list<N: Normalizing>(by: &N, buffer: &mut hb_buffer_t) -> Result<(), ShapeCause>
    requires open { buffer.old.is_open ≡ true }
    ensures ok { OnOk result (AppendsArrangement (expanded_list (N.normalizer by.now) (strip buffer.old.ahead)) []
        buffer.old buffer.new) }
    ensures err { IfErr result (λ e. RefusesRoomFor (length (expanded_list (N.normalizer by.now)
        (strip buffer.old.ahead)).items) e buffer.old) }
{
    give_ahead(by, buffer);
    expand_given(by, buffer)?;
    Ok(())
}
