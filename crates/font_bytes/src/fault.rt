//! The faults of a font file's tables.

use std::alloc::{AllocError, AllocFailed};

/// Why a table of a font file, or the list of its tables, isn't read. Offsets are those of the table's bytes.
#[derive(Clone, Copy, PartialEq, Eq, Debug)]
pub enum TableFault {
    /// What begins at this offset ends past the end of the bytes.
    Short(usize),
    /// A version or a format at this offset is none of the known ones.
    Kind(usize),
    /// Numbers of what begins at this offset don't rise where the format says so.
    Order(usize),
    /// The file has no font with this index.
    Index,
    /// A font needs this table, and the file has none.
    Missing,
    /// More rows than a font may have.
    TooLarge,
    OutOfMemory,
}

impl From<AllocError> for TableFault {
    ghost use Rattle.std.specs.Prelude.{◌≡◌};
    ghost use Rattle.font_bytes.specs.declared.fault.TableFault.TheVariants.{OutOfMemory};

    ghost from_gives = { λ _ e. e ≡ OutOfMemory };

    fn from(_error: AllocError) -> TableFault {
        TableFault::OutOfMemory
    }
}

impl<T: Drop> From<AllocFailed<T>> for TableFault {
    ghost use Rattle.std.specs.Prelude.{◌≡◌};
    ghost use Rattle.font_bytes.specs.declared.fault.TableFault.TheVariants.{OutOfMemory};

    ghost from_gives = { λ _ e. e ≡ OutOfMemory };

    fn from(_error: AllocFailed<T>) -> TableFault {
        TableFault::OutOfMemory
    }
}
