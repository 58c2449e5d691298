//! The causes for which a text cannot be shaped.
//!
//! As each error type of the workspace it has conversions from want of memory of its own: rt takes no impl that a macro
//! of a repository writes.
use std::alloc::{AllocError, AllocFailed};
use thiserror::Error;

/// Why a text could not be shaped.
#[derive(Clone, Copy, PartialEq, Eq, Debug, Error)]
pub enum ShapeCause {
    #[error("S1 OutOfMemory")]
    OutOfMemory,
    /// A list of glyphs would have more than `max_len`.
    #[error("S2 TooLong")]
    TooLong,
    /// A width of a stretched Arabic word is outside 32 bits.
    #[error("S3 StretchRange")]
    StretchRange,
    /// The syllable spans give a kind that the shaper does not have.
    #[error("S4 UnknownSyllableKind")]
    UnknownSyllableKind,
}

impl From<AllocError> for ShapeCause {
    ghost use Rattle.std.specs.Prelude.{◌≡◌};
    ghost use Rattle.buffer_glyphs.specs.declared.cause.ShapeCause.TheVariants.{OutOfMemory};

    ghost from_gives = { λ _ e. e ≡ OutOfMemory };

    fn from(_error: AllocError) -> ShapeCause {
        ShapeCause::OutOfMemory
    }
}

impl<T: Drop> From<AllocFailed<T>> for ShapeCause {
    ghost use Rattle.std.specs.Prelude.{◌≡◌};
    ghost use Rattle.buffer_glyphs.specs.declared.cause.ShapeCause.TheVariants.{OutOfMemory};

    ghost from_gives = { λ _ e. e ≡ OutOfMemory };

    fn from(_error: AllocFailed<T>) -> ShapeCause {
        ShapeCause::OutOfMemory
    }
}
