//! Lines, and why a paragraph isn't cut into some.
//!
//! As each error type of the workspace `LineFault` has conversions from want of memory of its own: rt takes no impl
//! that a macro of a repository writes.
use kuspveli::GlyphBuffer;
use std::alloc::AllocError;
use thiserror::Error;

/// A range of glyphs: the index of the first, and one past the last.
#[derive(Clone, Copy, PartialEq, Eq, Debug)]
pub struct GlyphRange {
    pub start: usize,
    pub end: usize,
}

/// The widths that lines are to fit, in font units: that of the first one, as where the text continues a line, and that of
/// all others.
#[derive(Clone, Copy, PartialEq, Eq, Debug)]
pub struct Widths {
    pub first: i64,
    pub rest: i64,
}

/// A line of a paragraph.
#[derive(Clone, Copy, PartialEq, Eq, Debug)]
pub struct Line {
    /// The index of its first byte, or of another unit that clusters are of.
    pub start: usize,
    /// The index after its last one.
    pub end: usize,
    /// The sum of the advances of the paragraph's glyphs of these bytes.
    pub width: i64,
    /// The paragraph's glyphs of these bytes; none where the line has to be shaped again.
    pub glyphs: Option<GlyphRange>,
}

/// A line of a paragraph with the glyphs that it has in the end.
#[derive(Drop)]
pub struct FilledLine {
    /// The index of its first byte.
    pub start: usize,
    /// The index after its last one.
    pub end: usize,
    /// The sum of the advances of its glyphs.
    pub width: i64,
    pub glyphs: LineGlyphs,
}

/// The glyphs of a line.
#[derive(Drop)]
pub enum LineGlyphs {
    /// Those that the paragraph has of the line's bytes.
    Own(GlyphRange),
    /// What shaping the line's text again gave, with the clusters that it gave.
    Shaped(GlyphBuffer),
}

/// Why a paragraph isn't cut into lines.
#[derive(Clone, Copy, PartialEq, Eq, Debug, Error)]
pub enum LineFault {
    #[error("out of memory")]
    OutOfMemory,
    /// There are 2^31 glyphs or more, so a sum of their advances might not fit.
    #[error("too many glyphs")]
    TooManyGlyphs,
    /// The clusters of the glyphs aren't in order along a line of this direction.
    #[error("clusters out of order")]
    ClustersOutOfOrder,
    /// A byte at which a line may end isn't after byte 0 and the one before it, or no character of the text ends there; or
    /// an index of units is past the end of the text.
    #[error("invalid breaks")]
    InvalidBreaks,
}

impl From<AllocError> for LineFault {
    ghost use Rattle.std.specs.Prelude.{◌≡◌};
    ghost use Rattle.line_pieces.specs.declared.lines.LineFault.TheVariants.{OutOfMemory};

    ghost from_gives = { λ _ e. e ≡ OutOfMemory };

    fn from(_error: AllocError) -> LineFault {
        LineFault::OutOfMemory
    }
}

/// Why lines aren't filled: the paragraph can't be cut into some, or a line's text isn't shaped again.
#[derive(Clone, Copy, PartialEq, Eq, Debug)]
pub enum FillFault<F> {
    Cut(LineFault),
    /// The fault of whatever shapes lines.
    Shape(F),
    /// The text of a line, shaped again, has 2^31 glyphs or more, so a sum of their advances might not fit.
    TooManyGlyphs,
}

impl<F> From<LineFault> for FillFault<F> {
    ghost use Rattle.std.specs.Prelude.{◌≡◌};
    ghost use Rattle.line_pieces.specs.declared.lines.FillFault.TheVariants.{Cut};

    ghost from_gives = { λ fault e. e ≡ Cut fault };

    fn from(fault: LineFault) -> FillFault<F> {
        FillFault::Cut(fault)
    }
}

impl<F> From<AllocError> for FillFault<F> {
    ghost use Rattle.std.specs.Prelude.{◌≡◌};
    ghost use Rattle.line_pieces.specs.declared.lines.FillFault.TheVariants.{Cut};
    ghost use Rattle.line_pieces.specs.declared.lines.LineFault.TheVariants.{OutOfMemory};

    ghost from_gives = { λ _ e. e ≡ Cut OutOfMemory };

    fn from(_error: AllocError) -> FillFault<F> {
        FillFault::Cut(LineFault::OutOfMemory)
    }
}
