//! What shapes the text of lines again.
use kuspveli::GlyphBuffer;

/// Shapes the text of lines of one paragraph.
pub trait ShapesLines {
    /// Why a text isn't shaped.
    type Fault: Drop;

    ghost use Rattle.std.specs.Prelude.{ℕ, IfErr, IfOk};
    ghost use Rattle.kuspveli.specs.shaping_buffer.buffer_core.Sides.{Sides};

    ghost IsShapedLine: { Self → ℕ → ℕ → Sides → Type 0 };

    ghost IsRefusedLine: { Self → ℕ → ℕ → Self.Fault → Type 0 };

    /// The glyphs of the paragraph's text from one byte to another, shaped as a line, along the paragraph's direction. A
    /// caller of `fill_lines` gets them as they are: where the slice is pushed by `push_str`, between the texts before and
    /// after it as its contexts, their clusters are bytes of the slice.
    fn shape_line(&self, start: usize, end: usize) -> Result<GlyphBuffer, Self::Fault>
        ensures shaped { IfOk result (IsShapedLine self.now start end) }
        ensures refused { IfErr result (IsRefusedLine self.now start end) };
}
