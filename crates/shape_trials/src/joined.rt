//! Tests of the glyphs of two pieces of a text against those of the whole.
//!
//! Glyphs and positions are joined by functions of one form, each after what a caller reads of its kind is taken: of a
//! glyph its number, cluster and flags, of a position all but the link to another glyph.
ghost use Rattle.std.specs.Prelude.{◌≡◌, ◌++◌, ◌↔◌, IfOk, IsTrue, if◌then◌else◌, map};
ghost use Rattle.buffer_core.specs.Sides.{all_glyphs};
ghost use Rattle.shape_trials.specs.Breaks.{ArePieces, AreInOrder, seen_glyph, without_link};

use crate::alike::are_same_positions;
use buffer_glyphs::info::{DEFINED, hb_glyph_info_t};
use buffer_glyphs::position::GlyphPosition;
use buffer_wrappers::glyphs::GlyphBuffer;
use std::alloc::{AllocError, Global};

/// What a caller reads of a glyph.
#[derive(Clone, Copy, PartialEq, Eq)]
pub(crate) struct SeenGlyph {
    pub(crate) glyph_id: u32,
    pub(crate) cluster: u32,
    /// The glyph flags.
    pub(crate) flags: u32,
}

/// Whether the glyphs of a text are those of an earlier piece and a later one, in the line's order.
pub(crate) fn are_of_pieces(
    alloc: Global,
    is_backward: bool,
    glyphs: &GlyphBuffer,
    early: &GlyphBuffer,
    late: &GlyphBuffer,
) -> Result<bool, AllocError>
    ensures { IfOk result (λ b. IsTrue b ↔ AreInOrder is_backward glyphs.now early.now late.now) }
{
    if is_backward {
        are_joined(alloc, glyphs, late, early)
    } else {
        are_joined(alloc, glyphs, early, late)
    }
}

/// Whether glyphs are those of two pieces, one after the other.
fn are_joined(
    alloc: Global,
    glyphs: &GlyphBuffer,
    first: &GlyphBuffer,
    second: &GlyphBuffer,
) -> Result<bool, AllocError>
    ensures { IfOk result (λ b. IsTrue b ↔ ArePieces glyphs.now first.now second.now) }
{
    if !have_glyphs(alloc, glyphs, first, second)? {
        return Ok(false);
    }
    have_positions(alloc, glyphs, first, second)
}

fn have_glyphs(
    alloc: Global,
    glyphs: &GlyphBuffer,
    first: &GlyphBuffer,
    second: &GlyphBuffer,
) -> Result<bool, AllocError>
    ensures { IfOk result (λ b. IsTrue b ↔ map seen_glyph (all_glyphs glyphs.now)
        ≡ map seen_glyph (all_glyphs first.now) ++ map seen_glyph (all_glyphs second.now)) }
{
    let whole = seen_glyphs(alloc, glyphs.glyph_infos())?;
    let joined = joined_glyphs(alloc, first.glyph_infos(), second.glyph_infos())?;
    Ok(are_same(&whole, &joined))
}

fn seen_glyphs(alloc: Global, glyphs: &[hb_glyph_info_t]) -> Result<Vec<SeenGlyph>, AllocError>
    ensures { IfOk result (λ v. v.items ≡ map seen_glyph glyphs.now) }
{
    glyphs.iter().map(seen_glyph).collect(alloc)
}

fn joined_glyphs(
    alloc: Global,
    first: &[hb_glyph_info_t],
    second: &[hb_glyph_info_t],
) -> Result<Vec<SeenGlyph>, AllocError>
    ensures { IfOk result (λ v. v.items ≡ map seen_glyph first.now ++ map seen_glyph second.now) }
{
    let mut joined = seen_glyphs(alloc, first)?;
    let mut rest = seen_glyphs(alloc, second)?;
    joined.append(&mut rest)?;
    Ok(joined)
}

fn seen_glyph(glyph: &hb_glyph_info_t) -> SeenGlyph
    ensures { result ≡ seen_glyph glyph.now }
{
    SeenGlyph {
        glyph_id: glyph.glyph_id,
        cluster: glyph.cluster,
        flags: glyph.mask & DEFINED,
    }
}

fn are_same(left: &[SeenGlyph], right: &[SeenGlyph]) -> bool
    ensures { IsTrue result ↔ left.now ≡ right.now }
{
    left == right
}

fn have_positions(
    alloc: Global,
    glyphs: &GlyphBuffer,
    first: &GlyphBuffer,
    second: &GlyphBuffer,
) -> Result<bool, AllocError>
    ensures { IfOk result (λ b. IsTrue b ↔ map without_link glyphs.now.positions
        ≡ map without_link first.now.positions ++ map without_link second.now.positions) }
{
    let whole = positions_without_links(alloc, glyphs.glyph_positions())?;
    let joined = joined_positions(alloc, first.glyph_positions(), second.glyph_positions())?;
    Ok(are_same_positions(&whole, &joined))
}

fn positions_without_links(
    alloc: Global,
    positions: &[GlyphPosition],
) -> Result<Vec<GlyphPosition>, AllocError>
    ensures { IfOk result (λ v. v.items ≡ map without_link positions.now) }
{
    positions.iter().map(without_link).collect(alloc)
}

fn joined_positions(
    alloc: Global,
    first: &[GlyphPosition],
    second: &[GlyphPosition],
) -> Result<Vec<GlyphPosition>, AllocError>
    ensures { IfOk result (λ v. v.items ≡ map without_link first.now ++ map without_link second.now) }
{
    let mut joined = positions_without_links(alloc, first)?;
    let mut rest = positions_without_links(alloc, second)?;
    joined.append(&mut rest)?;
    Ok(joined)
}

/// The advances and offsets of a position.
fn without_link(position: &GlyphPosition) -> GlyphPosition
    ensures { result ≡ without_link position.now }
{
    GlyphPosition {
        attach_chain: 0,
        attach_type: 0,
        ..*position
    }
}
