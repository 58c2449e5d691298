//! The runs of a result's glyphs with their bytes of the text (of this project).
ghost use Rattle.std.specs.Prelude.{◌≡◌, ◌<◌, ◌+◌, ◌^◌, ◌++◌, ◌∷◌, [], IfOk, OnOk, length};
ghost use Rattle.buffer_glyphs.specs.Items.{clusters};
ghost use Rattle.buffer_core.specs.Sides.{all_glyphs};
ghost use Rattle.shape_slices.specs.Fitting.{SlicesFit};
ghost use Rattle.shape_slices.specs.Runs.{AreSourceSlices};
ghost use Rattle.shape_slices.specs.Walk.{one_glyph, with_glyph};

use buffer_glyphs::info::hb_glyph_info_t;
use buffer_wrappers::glyphs::GlyphBuffer;
use std::alloc::{AllocError, Global};

/// A run of glyphs of one cluster, with the bytes of the text that it comes from.
#[derive(Clone, Copy, PartialEq, Eq, Debug)]
pub struct SourceSlice {
    /// The index of its first glyph.
    pub first_glyph: usize,
    /// The index after its last glyph.
    pub end_glyph: usize,
    /// The index of its first byte: the cluster of its glyphs.
    pub start: usize,
    /// The index after its last byte.
    pub end: usize,
}

/// Each run of glyphs of one cluster, in the order of the glyphs, with the bytes of the text from its cluster to the next greater one.
pub fn source_slices(
    alloc: Global,
    glyphs: &GlyphBuffer,
    text: &str,
) -> Result<Vec<SourceSlice>, AllocError>
    requires { SlicesFit glyphs.now text.now }
    ensures { IfOk result (λ slices. AreSourceSlices (clusters (all_glyphs glyphs.now)) (length text.now) slices.items) }
{
    slices_of(alloc, glyphs.glyph_infos(), text.len())
}

/// The same with the units of a text of `end` units that clusters are of, as of UTF-16. It takes no memory for the text.
pub fn unit_slices(
    alloc: Global,
    glyphs: &GlyphBuffer,
    end: usize,
) -> Result<Vec<SourceSlice>, AllocError>
    ensures { IfOk result (λ slices. AreSourceSlices (clusters (all_glyphs glyphs.now)) end slices.items) }
{
    slices_of(alloc, glyphs.glyph_infos(), end)
}

/// The runs of glyphs, with their bytes of a text of `end` bytes.
fn slices_of(
    alloc: Global,
    glyphs: &[hb_glyph_info_t],
    end: usize,
) -> Result<Vec<SourceSlice>, AllocError>
    ensures { IfOk result (λ slices. AreSourceSlices (clusters glyphs.now) end slices.items) }
{
    let mut slices = Vec::new(alloc);
    for at in 0..glyphs.len() {
        add_glyph(&mut slices, at, glyphs[at].cluster as usize, end)?;
    }
    Ok(slices)
}

/// Adds the glyph at an index to the last run where it is of its cluster, else as a new run. The slice that begins before the other
/// ends where that begins.
fn add_glyph(
    slices: &mut Vec<SourceSlice>,
    at: usize,
    start: usize,
    end: usize,
) -> Result<(), AllocError>
    requires { at + 1 < 2 ^ 64 }
    ensures { OnOk result (slices.new.items ≡ with_glyph end at start slices.old.items) }
{
    let Some(last) = slices.pop() else {
        slices.push(new_run(at, start, end))?;
        return Ok(());
    };
    if last.start == start {
        slices.push(SourceSlice {
            end_glyph: at + 1,
            ..last
        })?;
        return Ok(());
    }
    if last.start < start {
        return push_both(
            slices,
            SourceSlice { end: start, ..last },
            new_run(at, start, end),
        );
    }
    push_both(slices, last, new_run(at, start, last.start))
}

/// Appends two slices.
#[tactic(auto, using(crate::proofs::Walked::two_pushed))]
fn push_both(
    slices: &mut Vec<SourceSlice>,
    first: SourceSlice,
    second: SourceSlice,
) -> Result<(), AllocError>
    ensures { OnOk result (slices.new.items ≡ slices.old.items ++ first ∷ second ∷ []) }
{
    slices.push(first)?;
    slices.push(second)?;
    Ok(())
}

/// A run of one glyph, with its bytes.
fn new_run(at: usize, start: usize, end: usize) -> SourceSlice
    requires { at + 1 < 2 ^ 64 }
    ensures { result ≡ one_glyph end at start }
{
    SourceSlice {
        first_glyph: at,
        end_glyph: at + 1,
        start,
        end,
    }
}
