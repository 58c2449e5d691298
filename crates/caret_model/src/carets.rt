//! Carets, selections, and why a text has none.
//!
//! As each error type of the workspace `CaretFault` has conversions from want of memory of its own: rt takes no impl
//! that a macro of a repository writes.
use std::alloc::AllocError;
use thiserror::Error;

/// A caret: the byte of the text before which it stands, and its position along the line in font units.
#[derive(Clone, Copy, PartialEq, Eq, Debug)]
pub struct Caret {
    pub byte: usize,
    pub position: i64,
}

/// What is selected of a line: from one position, in the order of the glyphs, to another one.
#[derive(Clone, Copy, PartialEq, Eq, Debug)]
pub struct Selection {
    pub start: i64,
    pub end: i64,
}

/// Why a result has no carets.
#[derive(Clone, Copy, PartialEq, Eq, Debug, Error)]
pub enum CaretFault {
    #[error("out of memory")]
    OutOfMemory,
    /// The glyphs can't be traced to slices of the text, or their slices don't join along a line of this direction.
    #[error("no slices")]
    NoSlices,
    /// There are 2^32 glyphs or more, so a sum of their advances might not fit.
    #[error("too many glyphs")]
    TooManyGlyphs,
    /// A stop isn't after byte 0 and the one before it, or it is past the end of the text.
    #[error("invalid stops")]
    InvalidStops,
}

impl From<AllocError> for CaretFault {
    ghost use Rattle.std.specs.Prelude.{◌≡◌};
    ghost use Rattle.caret_model.specs.declared.carets.CaretFault.TheVariants.{OutOfMemory};

    ghost from_gives = { λ _ e. e ≡ OutOfMemory };

    fn from(_error: AllocError) -> CaretFault {
        CaretFault::OutOfMemory
    }
}
