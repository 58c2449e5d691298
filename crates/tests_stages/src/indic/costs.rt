//! Long syllables whose rules would take quadratic time where each glyph walked to another.
ghost use Rattle.std.specs.Prelude.{IfOk, OnOk};
ghost use Rattle.buffer_stages.specs.Ready.{IsReady};

use crate::buffers::settle;
use crate::indic::forms::NoForms;
use crate::indic::text::add_characters;
use buffer_core::buffer::hb_buffer_t;
use buffer_glyphs::cause::ShapeCause;
use buffer_glyphs::info::hb_glyph_info_t;
use buffer_glyphs::level::BufferClusterLevel;
use script_categories::ot_category_t::{OT_A, OT_C, OT_H, OT_M, OT_N, OT_SM, OT_ZWNJ};
use script_categories::ot_position_t::{
    POS_ABOVE_C, POS_AFTER_POST, POS_BASE_C, POS_BELOW_C, POS_END, POS_PRE_C, POS_PRE_M, POS_SMVD,
    Position,
};
use script_indic_reordering::final_order::reorder_final;
use script_indic_reordering::initial::reorder_initial;
use script_indic_reordering::script::{IndicMasks, RephMode};
use std::alloc::Global;
use std::test::Fail;

/// How many glyphs a syllable has beside the few others.
const COUNT: u32 = 200;

const MASKS: IndicMasks = IndicMasks {
    rphf: 16,
    before_base: 32,
    after_base: 64,
    half: 32,
    pref: 128,
    init: 256,
};

const LEVELS: [BufferClusterLevel; 3] = [
    BufferClusterLevel::MonotoneGraphemes,
    BufferClusterLevel::MonotoneCharacters,
    BufferClusterLevel::Characters,
];

/// Glyphs of a category and a position, a number of times in turn.
type Part<'a> = (&'a [(u8, Position)], u32);

fn glyphs_of(alloc: Global, parts: &[Part<'_>]) -> Result<Vec<(u8, Position)>, Fail> {
    let mut glyphs = Vec::new(alloc);
    for (glyphs_in_turn, count) in parts {
        for _ in 0..*count {
            glyphs.extend_from_slice(glyphs_in_turn)?;
        }
    }
    Ok(glyphs)
}

/// The byte of the syllable that a glyph is of, where each has `size` glyphs.
fn syllable_byte(index: usize, size: usize) -> u8 {
    let serial = index / size.max(1) % 15;
    u8::try_from(serial * 16 + 16).unwrap_or(16)
}

fn write(infos: &mut [hb_glyph_info_t], glyphs: &[(u8, Position)], size: usize) {
    for (i, (info, glyph)) in infos.iter_mut().zip(glyphs).enumerate() {
        *info = hb_glyph_info_t {
            syllable: syllable_byte(i, size),
            category: glyph.0,
            auxiliary: glyph.1,
            mask: 32,
            ..*info
        };
    }
}

/// A text in syllables of `size` glyphs, in which each glyph has its index as its number and cluster.
fn text(
    alloc: Global,
    level: BufferClusterLevel,
    parts: &[Part<'_>],
    size: usize,
) -> Result<hb_buffer_t, Fail>
    ensures { IfOk result (λ b. IsReady b) }
{
    let glyphs = glyphs_of(alloc, parts)?;
    let mut buffer = hb_buffer_t::new(alloc);
    buffer.set_cluster_level(level);
    add_characters(&mut buffer, glyphs.len())?;
    write(buffer.info_slice_mut(), &glyphs, size);
    settle(&mut buffer)?;
    Ok(buffer)
}

fn order_initial(alloc: Global, buffer: &mut hb_buffer_t) -> Result<(), ShapeCause>
    requires { IsReady buffer.old }
    ensures { OnOk result (IsReady buffer.new) }
{
    reorder_initial(alloc, &NoForms, RephMode::Implicit, &MASKS, buffer)?;
    Ok(())
}

fn order_final(buffer: &mut hb_buffer_t) -> Result<(), ShapeCause>
    requires { IsReady buffer.old }
    ensures { OnOk result (IsReady buffer.new) }
{
    reorder_final(POS_AFTER_POST, &MASKS, buffer)?;
    Ok(())
}

/// The numbers of the first and the last glyph.
fn ends(buffer: &hb_buffer_t) -> Option<(u32, u32)>
    requires { IsReady buffer.now }
{
    let glyphs = buffer.info_slice();
    Some((glyphs.first()?.glyph_id, glyphs.last()?.glyph_id))
}

/// The first and the last number after the initial reordering, at each level the same.
fn initial_ends(
    alloc: Global,
    parts: &[Part<'_>],
    size: usize,
    wanted: (u32, u32),
) -> Result<bool, Fail> {
    for level in LEVELS {
        let mut buffer = text(alloc, level, parts, size)?;
        order_initial(alloc, &mut buffer)?;
        if ends(&buffer) != Some(wanted) {
            return Ok(false);
        }
    }
    Ok(true)
}

fn final_ends(
    alloc: Global,
    parts: &[Part<'_>],
    size: usize,
    wanted: (u32, u32),
) -> Result<bool, Fail> {
    for level in LEVELS {
        let mut buffer = text(alloc, level, parts, size)?;
        order_final(&mut buffer)?;
        if ends(&buffer) != Some(wanted) {
            return Ok(false);
        }
    }
    Ok(true)
}

const C: (u8, Position) = (OT_C, POS_END);

const H: (u8, Position) = (OT_H, POS_END);

const LEFT: (u8, Position) = (OT_M, POS_PRE_M);

const BELOW: (u8, Position) = (OT_C, POS_BELOW_C);

const PRE: (u8, Position) = (OT_C, POS_PRE_C);

const PRE_H: (u8, Position) = (OT_H, POS_PRE_C);

const PRE_N: (u8, Position) = (OT_N, POS_PRE_C);

const BASE: (u8, Position) = (OT_C, POS_BASE_C);

const ABOVE: (u8, Position) = (OT_A, POS_ABOVE_C);

const SIGN: (u8, Position) = (OT_SM, POS_SMVD);

const ZWNJ: (u8, Position) = (OT_ZWNJ, POS_END);

/// One syllable of any length.
const WHOLE: usize = usize::MAX;

#[test]
fn orders_long_syllables_before_their_forms(rt: HostRuntime) -> Result<(), Fail> {
    let alloc = rt.alloc();
    let n = COUNT;
    let zwnjs = initial_ends(alloc, &[(&[C], 1), (&[ZWNJ], n)], WHOLE, (0, n))?;
    let matras = initial_ends(alloc, &[(&[C], 1), (&[LEFT], n)], WHOLE, (n, 0))?;
    let pairs = initial_ends(alloc, &[(&[C], 1), (&[H, BELOW], n)], WHOLE, (0, 2 * n))?;
    let signs = initial_ends(
        alloc,
        &[(&[C], 1), (&[SIGN, ABOVE], n)],
        WHOLE,
        (0, 2 * n - 1),
    )?;
    let led = initial_ends(
        alloc,
        &[(&[C], 1), (&[ABOVE], n), (&[BELOW], 1)],
        WHOLE,
        (0, n + 1),
    )?;
    assert!(rt; zwnjs);
    assert!(rt; matras);
    assert!(rt; pairs);
    assert!(rt; signs);
    assert!(rt; led);
    Ok(())
}

#[test]
fn orders_long_syllables_after_their_forms(rt: HostRuntime) -> Result<(), Fail> {
    let alloc = rt.alloc();
    let n = COUNT;
    let lefts = final_ends(
        alloc,
        &[(&[LEFT], n), (&[PRE, PRE_H, BASE], 1)],
        WHOLE,
        (n, n + 2),
    )?;
    let mixed = final_ends(
        alloc,
        &[(&[LEFT, PRE], n), (&[PRE_H, BASE], 1)],
        WHOLE,
        (1, 2 * n + 1),
    )?;
    let nuktas = final_ends(
        alloc,
        &[(&[PRE], 1), (&[PRE_N, PRE_H], n), (&[ABOVE], 1)],
        WHOLE,
        (0, 2 * n + 1),
    )?;
    assert!(rt; lefts);
    assert!(rt; mixed);
    assert!(rt; nuktas);
    Ok(())
}

#[test]
fn orders_many_syllables(rt: HostRuntime) -> Result<(), Fail> {
    let alloc = rt.alloc();
    let n = COUNT;
    let before = initial_ends(alloc, &[(&[C, LEFT], n)], 2, (1, 2 * n - 2))?;
    let after = final_ends(alloc, &[(&[LEFT, PRE, PRE_H, BASE], n)], 4, (1, 4 * n - 1))?;
    assert!(rt; before);
    assert!(rt; after);
    Ok(())
}
