//! Prints the slices of a text.
ghost use Rattle.std.specs.Prelude.{◌≡◌, ◌++◌, map, OnOk, string_bytes};
ghost use Rattle.std.specs.List.{flat_map};
ghost use Rattle.buffer_glyphs.specs.Items.{clusters};
ghost use Rattle.buffer_core.specs.Sides.{all_glyphs};
ghost use Rattle.shape_slices.specs.Runs.{byte_range};
ghost use Rattle.shell_run.specs.Slices.{requested_lines, slice_line, slice_lines};

use buffer_wrappers::glyphs::GlyphBuffer;
use shape_slices::fitting::slices_fit;
use shape_slices::slices::{SourceSlice, source_slices};
use std::alloc::{AllocError, Global};

/// Appends the lines of the slices of a text, where they are requested.
pub(crate) fn push_requested(
    alloc: Global,
    lines: &mut String,
    slices: bool,
    glyphs: &GlyphBuffer,
    text: &str,
) -> Result<(), AllocError>
    ensures { OnOk result (string_bytes lines.new ≡ string_bytes lines.old
        ++ requested_lines slices (clusters (all_glyphs glyphs.now)) text.now) }
{
    if slices {
        push_slices(alloc, lines, glyphs, text)
    } else {
        Ok(())
    }
}

/// Appends the lines of the slices of a text, or `no slices` where there are none.
#[tactic(auto, using(crate::proofs::Slicing::fitting_lines, crate::proofs::Slicing::unfit_lines))]
fn push_slices(
    alloc: Global,
    lines: &mut String,
    glyphs: &GlyphBuffer,
    text: &str,
) -> Result<(), AllocError>
    ensures { OnOk result (string_bytes lines.new ≡ string_bytes lines.old
        ++ slice_lines (clusters (all_glyphs glyphs.now)) text.now) }
{
    if !slices_fit(glyphs, text) {
        return lines.push_str("no slices\n");
    }
    let slices = source_slices(alloc, glyphs, text)?;
    push_lines(lines, &slices)
}

/// Appends a line for each slice.
fn push_lines(lines: &mut String, slices: &[SourceSlice]) -> Result<(), AllocError>
    ensures { OnOk result (string_bytes lines.new ≡ string_bytes lines.old
        ++ flat_map slice_line (map byte_range slices.now)) }
{
    for slice in slices {
        push_line(lines, slice)?;
    }
    Ok(())
}

/// Appends the line of a slice.
fn push_line(lines: &mut String, slice: &SourceSlice) -> Result<(), AllocError>
    ensures { OnOk result (string_bytes lines.new ≡ string_bytes lines.old ++ slice_line (byte_range slice.now)) }
{
    let (start, end) = (slice.start, slice.end);
    write!(lines, "{start} {end}\n")
}
