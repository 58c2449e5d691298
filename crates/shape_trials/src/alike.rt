//! Tests of two answers to one text.
ghost use Rattle.std.specs.Prelude.{◌≡◌, ◌↔◌, IfOk, IsTrue, map};
ghost use Rattle.buffer_core.specs.Sides.{all_glyphs};
ghost use Rattle.shape_trials.specs.Answers.{AgreeBut, LookAlikeBut, part_but};

use buffer_glyphs::cause::ShapeCause;
use buffer_glyphs::info::{DEFINED, hb_glyph_info_t};
use buffer_glyphs::position::GlyphPosition;
use buffer_wrappers::glyphs::GlyphBuffer;
use std::alloc::{AllocError, Global};

/// The glyphs of a text, or why it was not shaped; want of memory is none of these causes.
pub(crate) type Answer = Result<GlyphBuffer, ShapeCause>;

/// What two answers may differ in.
#[derive(Clone, Copy)]
pub(crate) enum But {
    Nothing,
    Flags,
    ClustersAndFlags,
}

/// Whether two answers have the same glyphs at the same positions, but for what they may differ in, or the same cause.
pub(crate) fn agree(
    alloc: Global,
    but: But,
    left: &Answer,
    right: &Answer,
) -> Result<bool, AllocError>
    ensures { IfOk result (λ b. IsTrue b ↔ AgreeBut but left.now right.now) }
{
    match (left, right) {
        (Ok(left), Ok(right)) => look_alike(alloc, but, left, right),
        (Err(left), Err(right)) => Ok(left == right),
        _ => Ok(false),
    }
}

fn look_alike(
    alloc: Global,
    but: But,
    left: &GlyphBuffer,
    right: &GlyphBuffer,
) -> Result<bool, AllocError>
    ensures { IfOk result (λ b. IsTrue b ↔ LookAlikeBut but left.now right.now) }
{
    if !are_at_same(left, right) {
        return Ok(false);
    }
    let first = parts(alloc, but, left)?;
    let second = parts(alloc, but, right)?;
    Ok(are_same(&first, &second))
}

fn parts(alloc: Global, but: But, glyphs: &GlyphBuffer) -> Result<Vec<hb_glyph_info_t>, AllocError>
    ensures { IfOk result (λ v. v.items ≡ map (part_but but) (all_glyphs glyphs.now)) }
{
    let infos = glyphs.glyph_infos();
    infos.iter().map(|glyph| part(but, glyph)).collect(alloc)
}

/// The glyph without what may differ.
fn part(but: But, glyph: &hb_glyph_info_t) -> hb_glyph_info_t
    ensures { result ≡ part_but but glyph.now }
{
    let mask = glyph.mask - (glyph.mask & DEFINED);
    match but {
        But::Nothing => *glyph,
        But::Flags => hb_glyph_info_t { mask, ..*glyph },
        But::ClustersAndFlags => hb_glyph_info_t {
            mask,
            cluster: 0,
            ..*glyph
        },
    }
}

fn are_same(left: &[hb_glyph_info_t], right: &[hb_glyph_info_t]) -> bool
    ensures { IsTrue result ↔ left.now ≡ right.now }
{
    left == right
}

fn are_at_same(left: &GlyphBuffer, right: &GlyphBuffer) -> bool
    ensures { IsTrue result ↔ left.now.positions ≡ right.now.positions }
{
    are_same_positions(left.glyph_positions(), right.glyph_positions())
}

pub(crate) fn are_same_positions(left: &[GlyphPosition], right: &[GlyphPosition]) -> bool
    ensures { IsTrue result ↔ left.now ≡ right.now }
{
    left == right
}
