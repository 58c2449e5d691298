//! Characters followed by variation selectors, handle_variation_selector_cluster (rustybuzz: hb/ot_shape_normalize.rs).
ghost use Rattle.std.specs.Prelude.{◌≡◌, ◌<◌, ◌++◌, ◌∷◌, [], List, true, false, if◌then◌else◌, length, is_some, Some, None, IfOk, IfErr, OnOk};
ghost use Rattle.buffer_core.specs.Lending.{with_glyph_ahead};
ghost use Rattle.buffer_core.specs.Sides.{HasCurrent};
ghost use Rattle.buffer_glyphs.specs.Items.{Item, strip};
ghost use Rattle.buffer_glyphs.specs.Rewriting.{in_turn, replacement};
ghost use Rattle.buffer_properties.specs.Characters.{unjoined_selector, with_glyph};
ghost use Rattle.buffer_properties.specs.Expanding.{unexpanded_item, selection};
ghost use Rattle.buffer_stages.specs.Appending.{AppendsArrangement, RefusesRoomFor};
ghost use Rattle.shape_normalize.specs.Walking.{PutsWaiting, Selects, SelectsTooMany, SelectsAll, SelectsAllTooMany};

use crate::characters::{is_selector, unjoined, with_own_glyph};
use crate::normalizing::Normalizing;
use crate::outputting::output_replacement;
use buffer_core::buffer::hb_buffer_t;
use buffer_glyphs::cause::ShapeCause;
use buffer_glyphs::info::hb_glyph_info_t;

/// Outputs the current character, with the font's glyph or glyph 0.
#[tactic(auto, using(crate::proofs::Put::placed_brought))]
fn put_unexpanded<N: Normalizing>(by: &N, buffer: &mut hb_buffer_t) -> Result<(), ShapeCause>
    requires current { HasCurrent buffer.old }
    ensures ok { OnOk result ((x : Item) (xs : List Item) → strip buffer.old.ahead ≡ x ∷ xs
        → AppendsArrangement (unexpanded_item (N.normalizer by.now) x) xs buffer.old buffer.new) }
    ensures err { IfErr result (λ e. RefusesRoomFor 1 e buffer.old) }
{
    let info = with_own_glyph(by, buffer.cur(0));
    output_replacement(info, buffer)?;
    Ok(())
}

/// Outputs the current selector, which the font doesn't combine with the character before it.
fn put_unjoined<N: Normalizing>(by: &N, buffer: &mut hb_buffer_t) -> Result<(), ShapeCause>
    requires current { HasCurrent buffer.old }
    ensures ok { OnOk result ((x : Item) (xs : List Item) → strip buffer.old.ahead ≡ x ∷ xs
        → AppendsArrangement (unexpanded_item (N.normalizer by.now)
        (unjoined_selector (is_some (N.normalizer by.now).unjoined_glyph) x)) xs buffer.old buffer.new) }
    ensures err { IfErr result (λ e. RefusesRoomFor 1 e buffer.old) }
{
    let selector = unjoined(buffer.cur(0), by.unjoined_glyph().is_some());
    let info = with_own_glyph(by, &selector);
    output_replacement(info, buffer)?;
    Ok(())
}

fn write_current(info: hb_glyph_info_t, buffer: &mut hb_buffer_t)
    requires { 0 < length buffer.old.ahead }
    ensures { buffer.new ≡ with_glyph_ahead 0 info buffer.old }
{
    *buffer.cur_mut(0) = info;
}

/// Replaces the current character and the selector after it by one glyph, and outputs that.
fn join_selector(glyph: u32, buffer: &mut hb_buffer_t) -> Result<(), ShapeCause>
    requires open { buffer.old.is_open ≡ true }
    requires there { 1 < length buffer.old.ahead }
    ensures ok { OnOk result ((x s : Item) (xs : List Item) → strip buffer.old.ahead ≡ x ∷ s ∷ xs
        → AppendsArrangement (replacement 2 (with_glyph glyph x ∷ [])) xs buffer.old buffer.new) }
    ensures err { IfErr result (λ e. RefusesRoomFor 1 e buffer.old) }
{
    let info = hb_glyph_info_t {
        glyph_index: glyph,
        ..*buffer.cur(0)
    };
    write_current(info, buffer);
    if !buffer.replace_glyphs(2, 1, &[info.glyph_id])? {
        return Err(ShapeCause::TooLong);
    }
    Ok(())
}

/// Outputs a character and the variation selector after it as two glyphs.
fn put_both<N: Normalizing>(by: &N, buffer: &mut hb_buffer_t) -> Result<(), ShapeCause>
    requires open { buffer.old.is_open ≡ true }
    requires there { 1 < length buffer.old.ahead }
    ensures ok { OnOk result ((x s : Item) (xs : List Item) → strip buffer.old.ahead ≡ x ∷ s ∷ xs
        → AppendsArrangement (in_turn (selection (N.normalizer by.now) x s None)) xs buffer.old buffer.new) }
    ensures err { IfErr result (λ e. (x s : Item) (xs : List Item) → strip buffer.old.ahead ≡ x ∷ s ∷ xs
        → RefusesRoomFor (length (in_turn (selection (N.normalizer by.now) x s None)).items) e buffer.old) }
{
    put_unexpanded(by, buffer)?;
    put_unjoined(by, buffer)?;
    Ok(())
}

/// Outputs a character and the selector after it, as one glyph where the font has the pair.
fn put_selected<N: Normalizing>(by: &N, buffer: &mut hb_buffer_t) -> Result<(), ShapeCause>
    requires open { buffer.old.is_open ≡ true }
    requires there { 1 < length buffer.old.ahead }
    ensures ok { OnOk result ((x s : Item) (xs : List Item) → strip buffer.old.ahead ≡ x ∷ s ∷ xs
        → AppendsArrangement (in_turn (selection (N.normalizer by.now) x s ((N.normalizer by.now).variant_of x.number s.number)))
        xs buffer.old buffer.new) }
    ensures err { IfErr result (λ e. (x s : Item) (xs : List Item) → strip buffer.old.ahead ≡ x ∷ s ∷ xs
        → RefusesRoomFor (length (in_turn (selection (N.normalizer by.now) x s
        ((N.normalizer by.now).variant_of x.number s.number))).items) e buffer.old) }
{
    let number = buffer.cur(0).glyph_id;
    let selector = buffer.cur(1).glyph_id;
    match by.variant(number, selector) {
        Some(glyph) => {
            join_selector(glyph, buffer)?;
            Ok(())
        }
        None => {
            put_both(by, buffer)?;
            Ok(())
        }
    }
}

/// Handles the current character while no character is pending.
fn select_first<N: Normalizing>(by: &N, buffer: &mut hb_buffer_t) -> Result<bool, ShapeCause>
    requires current { HasCurrent buffer.old }
    ensures ok { IfOk result (λ b. Selects (N.normalizer by.now) false b buffer.old buffer.new) }
    ensures err { IfErr result (λ e. SelectsTooMany (N.normalizer by.now) false e buffer.old) }
{
    if !is_selector(buffer.cur(0)) {
        return Ok(true);
    }
    put_unexpanded(by, buffer)?;
    Ok(false)
}

/// Handles the character after the current one, which is pending.
fn select_behind<N: Normalizing>(by: &N, buffer: &mut hb_buffer_t) -> Result<bool, ShapeCause>
    requires open { buffer.old.is_open ≡ true }
    requires there { 1 < length buffer.old.ahead }
    ensures ok { IfOk result (λ b. Selects (N.normalizer by.now) true b buffer.old buffer.new) }
    ensures err { IfErr result (λ e. SelectsTooMany (N.normalizer by.now) true e buffer.old) }
{
    if !is_selector(buffer.cur(1)) {
        put_unexpanded(by, buffer)?;
        return Ok(true);
    }
    put_selected(by, buffer)?;
    Ok(false)
}

/// Handles the next character, and returns whether it is pending: whether a selector may follow it.
fn select_next<N: Normalizing>(
    by: &N,
    waits: bool,
    buffer: &mut hb_buffer_t,
) -> Result<bool, ShapeCause>
    requires open { buffer.old.is_open ≡ true }
    requires there { (if waits then 1 else 0) < length buffer.old.ahead }
    ensures ok { IfOk result (λ b. Selects (N.normalizer by.now) waits b buffer.old buffer.new) }
    ensures err { IfErr result (λ e. SelectsTooMany (N.normalizer by.now) waits e buffer.old) }
{
    if waits {
        select_behind(by, buffer)
    } else {
        select_first(by, buffer)
    }
}

/// Outputs the current character, if it is pending.
fn put_waiting<N: Normalizing>(
    by: &N,
    waits: bool,
    buffer: &mut hb_buffer_t,
) -> Result<(), ShapeCause>
    requires open { buffer.old.is_open ≡ true }
    requires there { waits ≡ true → 0 < length buffer.old.ahead }
    ensures ok { OnOk result (PutsWaiting (N.normalizer by.now) waits buffer.old buffer.new) }
    ensures err { IfErr result (λ e. RefusesRoomFor (if waits then 1 else 0) e buffer.old) }
{
    if !waits {
        return Ok(());
    }
    put_unexpanded(by, buffer)?;
    Ok(())
}

/// Outputs a character and that many marks and selectors after it, without decomposing them.
pub(crate) fn expand_selected<N: Normalizing>(
    by: &N,
    marks: usize,
    buffer: &mut hb_buffer_t,
) -> Result<(), ShapeCause>
    requires open { buffer.old.is_open ≡ true }
    requires there { marks < length buffer.old.ahead }
    ensures ok { OnOk result (SelectsAll (N.normalizer by.now) marks buffer.old buffer.new) }
    ensures err { IfErr result (λ e. SelectsAllTooMany (N.normalizer by.now) marks e buffer.old) }
{
    let mut waits = true;
    for _ in 0..marks {
        waits = select_next(by, waits, buffer)?;
    }
    put_waiting(by, waits, buffer)?;
    Ok(())
}
