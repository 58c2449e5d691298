//! The fields of a printed glyph.
ghost use Rattle.std.specs.Prelude.{◌≡◌, ℕ, ◌≤◌, ◌++◌, ◌+ℤ◌, ◌^◌, false, true, OnOk, string_bytes};
ghost use Rattle.std.specs.Option.{option_copied};
ghost use Rattle.buffer_wrappers.specs.Pen.{IsWithin};
ghost use Rattle.buffer_wrappers.specs.Printed.{drops_names, shows_extents, name_text, of_glyph, cluster_text, offset_text, advance_text, position_text, flag_text, box_text, extents_text};

use crate::pen::Pen;
use bitflags::Flags;
use buffer_glyphs::flags::SerializeFlags;
use buffer_glyphs::info::{DEFINED, hb_glyph_info_t};
use buffer_glyphs::names::{GlyphId, GlyphNames, hb_glyph_extents_t};
use buffer_glyphs::position::GlyphPosition;
use std::alloc::AllocError;

/// The name of a glyph; a number that no glyph can have has none.
fn glyph_name<N: GlyphNames>(names: &N, number: u32) -> Option<&str>
    ensures { option_copied result ≡ of_glyph (N.name_of names.now) number }
{
    match u16::try_from(number) {
        Ok(glyph) => names.glyph_name(GlyphId(glyph)),
        Err(_) => None,
    }
}

/// The box of a glyph; a number that no glyph can have has none.
fn glyph_extents<N: GlyphNames>(names: &N, number: u32) -> Option<hb_glyph_extents_t>
    ensures { result ≡ of_glyph (N.extents_of names.now) number }
{
    match u16::try_from(number) {
        Ok(glyph) => names.glyph_extents(GlyphId(glyph)),
        Err(_) => None,
    }
}

/// Appends the glyph's name, or its number.
#[tactic(auto, unfolding(crate::specs::Printed::name_text))]
pub fn push_name<N: GlyphNames>(
    text: &mut String,
    names: &N,
    flags: SerializeFlags,
    glyph: &hb_glyph_info_t,
) -> Result<(), AllocError>
    ensures { OnOk result (string_bytes text.new ≡ string_bytes text.old
        ++ name_text (N.name_of names.now) flags glyph.now.glyph_id) }
{
    if flags.contains(SerializeFlags::NO_GLYPH_NAMES) {
        return write!(text, "{}", glyph.glyph_id);
    }
    match glyph_name(names, glyph.glyph_id) {
        Some(name) => text.push_str(name),
        None => write!(text, "gid{}", glyph.glyph_id),
    }
}

/// Appends `=` and the cluster.
#[tactic(auto, unfolding(crate::specs::Printed::cluster_text))]
pub fn push_cluster(
    text: &mut String,
    flags: SerializeFlags,
    cluster: u32,
) -> Result<(), AllocError>
    ensures { OnOk result (string_bytes text.new ≡ string_bytes text.old
        ++ cluster_text flags cluster) }
{
    if flags.contains(SerializeFlags::NO_CLUSTERS) {
        return Ok(());
    }
    write!(text, "={cluster}")
}

/// Appends the glyph's offset, the pen's included, unless it is zero.
#[tactic(auto, unfolding(crate::specs::Printed::offset_text))]
fn push_offset(text: &mut String, at: Pen) -> Result<(), AllocError>
    ensures { OnOk result (string_bytes text.new ≡ string_bytes text.old ++ offset_text at) }
{
    if at.x == 0 && at.y == 0 {
        return Ok(());
    }
    write!(text, "@{},{}", at.x, at.y)
}

/// Appends the glyph's advances.
#[tactic(auto, unfolding(crate::specs::Printed::advance_text))]
fn push_advance(
    text: &mut String,
    flags: SerializeFlags,
    position: &GlyphPosition,
) -> Result<(), AllocError>
    ensures { OnOk result (string_bytes text.new ≡ string_bytes text.old
        ++ advance_text flags position.now) }
{
    if flags.contains(SerializeFlags::NO_ADVANCES) {
        return Ok(());
    }
    if position.y_advance == 0 {
        return write!(text, "+{}", position.x_advance);
    }
    write!(text, "+{},{}", position.x_advance, position.y_advance)
}

/// Appends the glyph's offset and advances.
#[tactic(auto, unfolding(crate::specs::Printed::position_text), using(crate::proofs::Appending::appended_two))]
pub fn push_position(
    text: &mut String,
    flags: SerializeFlags,
    pen: Pen,
    position: &GlyphPosition,
) -> Result<(), AllocError>
    requires { IsWithin (2 ^ 96) pen }
    ensures { OnOk result (string_bytes text.new ≡ string_bytes text.old
        ++ position_text flags pen position.now) }
{
    if flags.contains(SerializeFlags::NO_POSITIONS) {
        return Ok(());
    }
    push_offset(text, pen.shifted(position.x_offset, position.y_offset))?;
    push_advance(text, flags, position)
}

/// Appends the glyph flags of the mask.
#[tactic(auto, unfolding(crate::specs::Printed::flag_text))]
pub fn push_glyph_flags(
    text: &mut String,
    flags: SerializeFlags,
    mask: u32,
) -> Result<(), AllocError>
    ensures { OnOk result (string_bytes text.new ≡ string_bytes text.old ++ flag_text flags mask) }
{
    let defined = mask & DEFINED;
    if !flags.contains(SerializeFlags::GLYPH_FLAGS) || defined == 0 {
        return Ok(());
    }
    write!(text, "#{defined:x}")
}

/// Appends the glyph's box.
#[tactic(auto, unfolding(crate::specs::Printed::extents_text))]
pub fn push_extents<N: GlyphNames>(
    text: &mut String,
    names: &N,
    flags: SerializeFlags,
    glyph: &hb_glyph_info_t,
) -> Result<(), AllocError>
    ensures { OnOk result (string_bytes text.new ≡ string_bytes text.old
        ++ extents_text (N.extents_of names.now) flags glyph.now.glyph_id) }
{
    if !flags.contains(SerializeFlags::GLYPH_EXTENTS) {
        return Ok(());
    }
    push_box(
        text,
        glyph_extents(names, glyph.glyph_id).unwrap_or_default(),
    )
}

/// Appends a box.
#[tactic(auto, unfolding(crate::specs::Printed::box_text))]
fn push_box(text: &mut String, extents: hb_glyph_extents_t) -> Result<(), AllocError>
    ensures { OnOk result (string_bytes text.new ≡ string_bytes text.old ++ box_text extents) }
{
    write!(
        text,
        "<{},{},{},{}>",
        extents.x_bearing, extents.y_bearing, extents.width, extents.height
    )
}
