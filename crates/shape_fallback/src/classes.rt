//! The combining classes by which fallback positions marks, recategorize_combining_class
//! (rustybuzz: hb/ot_shape_fallback.rs).
ghost use Rattle.std.specs.Prelude.{◌≡◌};
ghost use Rattle.std.specs.List.{list_any};
ghost use Rattle.buffer_properties.specs.Categories.{is_nonspacing_mark};
ghost use Rattle.buffer_glyphs.specs.Items.{item_of};
ghost use Rattle.buffer_glyphs.specs.Origins.{origin_of};
ghost use Rattle.buffer_core.specs.Readings.{always};
ghost use Rattle.buffer_stages.specs.Ready.{IsReady};
ghost use Rattle.buffer_stages.specs.Stages.{IsFollowed};
ghost use Rattle.shape_fallback.specs.Classes.{fallback_class, is_lao_above, is_thai_above, class_of_class, class_of_mark, class_of_unclassed, item_with_fallback_class, with_fallback_classes};

use crate::SEVERAL;
use buffer_common::constants::{
    CCC10, CCC11, CCC12, CCC13, CCC14, CCC15, CCC16, CCC17, CCC18, CCC19, CCC20, CCC22, CCC23,
    CCC24, CCC25, CCC26, CCC27, CCC28, CCC29, CCC30, CCC31, CCC32, CCC33, CCC34, CCC35, CCC36,
    CCC103, CCC107, CCC118, CCC122, CCC129, CCC130, CCC132,
};
use buffer_core::buffer::hb_buffer_t;
use buffer_glyphs::info::hb_glyph_info_t;
use buffer_properties::categories::is_nonspacing_mark;
use buffer_stages::glyphs::map_glyphs;

const BELOW: u8 = 220;

const BELOW_RIGHT: u8 = 222;

const ATTACHED_ABOVE: u8 = 214;

const ABOVE_LEFT: u8 = 228;

const ABOVE: u8 = 230;

const ABOVE_RIGHT: u8 = 232;

/// Sets the combining class of each nonspacing mark to the one by which it is positioned, for a font without mark
/// positioning. The glyph records hold characters. It takes linear time and no memory.
#[tactic(auto, using(crate::proofs::Untouched::classes_stay))]
pub fn _hb_ot_shape_fallback_mark_position_recategorize_marks(buffer: &mut hb_buffer_t)
    requires { IsReady buffer.old }
    ensures { IsFollowed (always with_fallback_classes) buffer.old buffer.new }
{
    if has_nonspacing_mark(buffer.info_slice()) {
        recategorize_each(buffer);
    }
}

/// Whether one of the characters is a nonspacing mark.
fn has_nonspacing_mark(glyphs: &[hb_glyph_info_t]) -> bool
    ensures { result ≡ list_any (λ g. is_nonspacing_mark (item_of g)) glyphs.now }
{
    if glyphs.len() < SEVERAL {
        return glyphs.iter().any(|glyph| is_nonspacing_mark(glyph));
    }
    let mut any = false;
    for glyph in glyphs {
        any |= is_nonspacing_mark(glyph);
    }
    any
}

fn recategorize_each(buffer: &mut hb_buffer_t)
    requires { IsReady buffer.old }
    ensures { IsFollowed (always with_fallback_classes) buffer.old buffer.new }
{
    map_glyphs(buffer, |glyph| recategorized(glyph));
}

fn recategorized(glyph: &hb_glyph_info_t) -> hb_glyph_info_t
    ensures item { item_of result ≡ item_with_fallback_class (item_of glyph.now) }
    ensures origin { origin_of result ≡ origin_of glyph.now }
{
    if is_nonspacing_mark(glyph) {
        hb_glyph_info_t {
            modified_combining_class: recategorize_combining_class(
                glyph.glyph_id,
                glyph.modified_combining_class,
            ),
            ..*glyph
        }
    } else {
        *glyph
    }
}

/// The combining class by which a mark is positioned.
fn recategorize_combining_class(u: u32, class: u8) -> u8
    ensures { result ≡ fallback_class u class }
{
    if class < 200 {
        class_of_mark(u, class)
    } else {
        class
    }
}

fn class_of_mark(u: u32, class: u8) -> u8
    ensures { result ≡ class_of_mark u class }
{
    if class == 0 {
        class_of_unclassed(u)
    } else if u == 0x0E3A {
        BELOW_RIGHT
    } else {
        class_of_class(class)
    }
}

fn class_of_unclassed(u: u32) -> u8
    ensures { result ≡ class_of_unclassed u }
{
    if is_thai_above(u) {
        ABOVE_RIGHT
    } else if is_lao_above(u) {
        ABOVE
    } else if u == 0x0EBC {
        BELOW
    } else {
        0
    }
}

fn is_thai_above(u: u32) -> bool
    ensures { result ≡ is_thai_above u }
{
    u == 0x0E31 || (0x0E34 <= u && u <= 0x0E37) || u == 0x0E47 || (0x0E4C <= u && u <= 0x0E4E)
}

fn is_lao_above(u: u32) -> bool
    ensures { result ≡ is_lao_above u }
{
    u == 0x0EB1 || (0x0EB4 <= u && u <= 0x0EB7) || u == 0x0EBB || (0x0ECC <= u && u <= 0x0ECD)
}

fn class_of_class(class: u8) -> u8
    ensures { result ≡ class_of_class class }
{
    match class {
        CCC10
        | CCC11
        | CCC12
        | CCC13
        | CCC14
        | CCC15
        | CCC16
        | CCC17
        | CCC18
        | CCC20
        | CCC22
        | CCC29
        | CCC32
        | CCC118
        | CCC129
        | CCC132 => BELOW,
        CCC26 | CCC27 | CCC28 | CCC30 | CCC31 | CCC33 | CCC34 | CCC35 | CCC36 | CCC122 | CCC130 =>
            ABOVE,
        CCC23 => ATTACHED_ABOVE,
        CCC24 | CCC107 => ABOVE_RIGHT,
        CCC19 | CCC25 => ABOVE_LEFT,
        CCC103 => BELOW_RIGHT,
        _ => class,
    }
}
