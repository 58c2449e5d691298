//! Lines that a font's last text is cut into.
ghost use Rattle.std.specs.Prelude.{◌≡◌, ◌≢◌};
ghost use Rattle.c_lines.specs.Lines.{AreLinesOf, IsLinesRefusal, line_of};

use crate::numbers::line_fault_number;
use crate::rows::{Row, write_rows};
use crate::types::kus_line_t;
use buffer_common::direction::Direction;
use buffer_wrappers::glyphs::GlyphBuffer;
use c_text::font::Font;
use c_text::numbers::OK;
use line_pieces::{Line, Widths, cut_unit_lines};
use std::alloc::Global;

impl Row for Line {
    type Form = kus_line_t;

    ghost form_of = { line_of };

    fn form(&self) -> kus_line_t {
        match self.glyphs {
            Some(glyphs) => kus_line_t {
                start: self.start,
                end: self.end,
                width: self.width,
                first_glyph: glyphs.start,
                end_glyph: glyphs.end,
                is_own: true,
            },
            None => kus_line_t {
                start: self.start,
                end: self.end,
                width: self.width,
                first_glyph: 0,
                end_glyph: 0,
                is_own: false,
            },
        }
    }
}

/// Where a text's lines may end, and the widths that they are to fit.
#[derive(Clone, Copy)]
pub struct Cutting<'a> {
    /// How many units the text has.
    pub end: usize,
    /// The indices of units at which a line may end.
    pub breaks: &'a [usize],
    pub widths: Widths,
}

/// The lines of glyphs along a direction, as many as there is room for, and how many there are; answers a status.
#[tactic(auto, using(crate::proofs::Cutting::lines_found, crate::proofs::Cutting::lines_refused))]
fn write_cut(
    alloc: Global,
    glyphs: &GlyphBuffer,
    direction: Direction,
    cutting: &Cutting<'_>,
    lines: &mut [kus_line_t],
    count: &mut usize,
) -> u32
    requires { count.old ≡ 0 }
    ensures lines { result ≡ 0
        → AreLinesOf direction glyphs.now cutting.now.end cutting.now.breaks.now cutting.now.widths lines.old lines.new count.new }
    ensures refused { result ≢ 0 → result ≢ 1 → IsLinesRefusal direction glyphs.now cutting.now.end cutting.now.breaks.now result }
    ensures none { result ≢ 0 → (count.new ≡ 0) × (lines.new ≡ lines.old) }
{
    let Cutting {
        end,
        breaks,
        widths,
    } = *cutting;
    let found = match cut_unit_lines(alloc, glyphs, end, direction, breaks, widths) {
        Ok(found) => found,
        Err(fault) => return line_fault_number(fault),
    };
    *count = found.len();
    write_rows(found.as_slice(), lines);
    OK
}

/// The lines of a font's last text, as many as there is room for, and how many there are; answers a status.
#[tactic(auto, using(c_text::proofs::Slices::glyphs_put_back, crate::proofs::Cutting::lines_of_taken, crate::proofs::Cutting::taken_refuse_lines))]
pub fn write_lines(
    alloc: Global,
    font: &mut Font,
    cutting: &Cutting<'_>,
    lines: &mut [kus_line_t],
    count: &mut usize,
) -> u32
    requires { count.old ≡ 0 }
    ensures same { font.new ≡ font.old }
    ensures lines { result ≡ 0 → AreLinesOf font.old.segment.direction font.old.glyphs cutting.now.end cutting.now.breaks.now
        cutting.now.widths lines.old lines.new count.new }
    ensures refused { result ≢ 0 → result ≢ 1
        → IsLinesRefusal font.old.segment.direction font.old.glyphs cutting.now.end cutting.now.breaks.now result }
    ensures none { result ≢ 0 → (count.new ≡ 0) × (lines.new ≡ lines.old) }
{
    let direction = font.segment().direction;
    let glyphs = font.take_glyphs(alloc);
    let status = write_cut(alloc, &glyphs, direction, cutting, lines, count);
    font.put_glyphs(glyphs);
    status
}
