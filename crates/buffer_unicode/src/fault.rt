//! Why rows are refused.
//!
//! As each error type of the workspace it has conversions from want of memory of its own: rt takes no impl that a macro
//! of a repository writes.
use std::alloc::{AllocError, AllocFailed};
use thiserror::Error;

/// Why rows of Unicode data are refused.
#[derive(Clone, Copy, PartialEq, Eq, Debug, Error)]
pub enum TablesFault {
    /// The keys of rows do not rise strictly.
    #[error("U1 OutOfOrder")]
    OutOfOrder,
    /// A number is no character, or outside its field's type or list.
    #[error("U2 OutOfRange")]
    OutOfRange,
    /// A chain of first halves of decompositions is too long.
    #[error("U3 SplitDepth")]
    SplitDepth,
    #[error("OutOfMemory")]
    OutOfMemory,
}

impl From<AllocError> for TablesFault {
    ghost use Rattle.std.specs.Prelude.{◌≡◌};
    ghost use Rattle.buffer_unicode.specs.declared.fault.TablesFault.TheVariants.{OutOfMemory};

    ghost from_gives = { λ _ e. e ≡ OutOfMemory };

    fn from(_error: AllocError) -> TablesFault {
        TablesFault::OutOfMemory
    }
}

impl<T: Drop> From<AllocFailed<T>> for TablesFault {
    ghost use Rattle.std.specs.Prelude.{◌≡◌};
    ghost use Rattle.buffer_unicode.specs.declared.fault.TablesFault.TheVariants.{OutOfMemory};

    ghost from_gives = { λ _ e. e ≡ OutOfMemory };

    fn from(_error: AllocFailed<T>) -> TablesFault {
        TablesFault::OutOfMemory
    }
}
