//! Prints a run of glyphs (rustybuzz: hb/buffer.rs, `serialize`).
ghost use Rattle.std.specs.Prelude.{◌≡◌, ◌^◌, ◌++◌, true, length, IfOk, OnOk, string_bytes};
ghost use Rattle.buffer_wrappers.specs.Pen.{IsWithin};
ghost use Rattle.buffer_wrappers.specs.Printed.{glyph_text, printed_text, separator};

use crate::pen::Pen;
use crate::pieces::{push_cluster, push_extents, push_glyph_flags, push_name, push_position};
use buffer_glyphs::flags::SerializeFlags;
use buffer_glyphs::info::hb_glyph_info_t;
use buffer_glyphs::names::GlyphNames;
use buffer_glyphs::position::GlyphPosition;
use std::alloc::{AllocError, Global};

/// Appends `|`, unless the glyph is the first.
fn push_separator(text: &mut String, index: usize) -> Result<(), AllocError>
    ensures { OnOk result (string_bytes text.new ≡ string_bytes text.old ++ separator index) }
{
    if index == 0 {
        return Ok(());
    }
    text.push_str("|")
}

/// Appends a glyph.
#[tactic(auto, unfolding(crate::specs::Printed::glyph_text), using(crate::proofs::Appending::appended_five))]
fn push_glyph<N: GlyphNames>(
    text: &mut String,
    names: &N,
    flags: SerializeFlags,
    pen: Pen,
    glyph: &hb_glyph_info_t,
    position: &GlyphPosition,
) -> Result<(), AllocError>
    requires near { IsWithin (2 ^ 96) pen }
    ensures { OnOk result (string_bytes text.new ≡ string_bytes text.old
        ++ glyph_text (N.name_of names.now) (N.extents_of names.now) flags pen glyph.now position.now) }
{
    push_name(text, names, flags, glyph)?;
    push_cluster(text, flags, glyph.cluster)?;
    push_position(text, flags, pen, position)?;
    push_glyph_flags(text, flags, glyph.mask)?;
    push_extents(text, names, flags, glyph)
}

/// Prints a run of glyphs, as `name=cluster@x,y+x_advance,y_advance#flags<x_bearing,y_bearing,width,height>`, with `|`
/// between two glyphs. Numbers are decimal, in font units, and the glyph flags are hexadecimal. These fields are left
/// out where they are 0: the offset where both sums are 0, the advance in y, and the glyph flags. A glyph without a
/// name is `gid` and its number, and one without a box has a box of zeros; so is a number above 65535, which no glyph
/// of a font can have.
///
/// Where the advances are dropped, the offset counts from the beginning of the run. The only error is want of memory
/// for the text.
#[tactic(auto, unfolding(crate::specs::Printed::printed_text))]
pub fn serialize<N: GlyphNames>(
    alloc: Global,
    glyphs: &[hb_glyph_info_t],
    positions: &[GlyphPosition],
    names: &N,
    flags: SerializeFlags,
) -> Result<String, AllocError>
    requires same_length { length glyphs.now ≡ length positions.now }
    ensures { IfOk result (λ text. string_bytes text
        ≡ printed_text (N.name_of names.now) (N.extents_of names.now) flags glyphs.now positions.now) }
{
    let mut text = String::new(alloc);
    let mut pen = Pen::default();
    for (index, glyph) in glyphs.iter().enumerate() {
        let position = &positions[index];
        push_separator(&mut text, index)?;
        push_glyph(&mut text, names, flags, pen, glyph, position)?;
        pen = pen.moved(flags, position);
    }
    Ok(text)
}
