//! Why tables in binary form are refused.
use buffer_unicode::TablesFault;
use std::alloc::{AllocError, AllocFailed};

/// Why tables in binary form are refused.
#[derive(Clone, Copy, PartialEq, Eq, Debug)]
pub enum BinaryFault {
    /// The bytes end before the header or the records of a section do.
    Short,
    /// A row of characters or of a machine has this fault, or a chain of decompositions is too long.
    Rows(TablesFault),
    /// A language has a text that is too long or no UTF-8 or more than three tags, or the texts don't rise by their bytes.
    Languages,
    /// With the tables equivalent texts would be shaped differently.
    Unlawful,
    OutOfMemory,
}

impl From<TablesFault> for BinaryFault {
    ghost use Rattle.std.specs.Prelude.{◌≡◌};
    ghost use Rattle.shell_tables_bytes.specs.Faults.{of_rows};

    ghost from_gives = { λ f e. e ≡ of_rows f };

    fn from(fault: TablesFault) -> BinaryFault {
        match fault {
            TablesFault::OutOfMemory => BinaryFault::OutOfMemory,
            fault => BinaryFault::Rows(fault),
        }
    }
}

impl From<AllocError> for BinaryFault {
    ghost use Rattle.std.specs.Prelude.{◌≡◌};
    ghost use Rattle.shell_tables_bytes.specs.declared.fault.BinaryFault.TheVariants.{OutOfMemory};

    ghost from_gives = { λ _ e. e ≡ OutOfMemory };

    fn from(_error: AllocError) -> BinaryFault {
        BinaryFault::OutOfMemory
    }
}

impl<T: Drop> From<AllocFailed<T>> for BinaryFault {
    ghost use Rattle.std.specs.Prelude.{◌≡◌};
    ghost use Rattle.shell_tables_bytes.specs.declared.fault.BinaryFault.TheVariants.{OutOfMemory};

    ghost from_gives = { λ _ e. e ≡ OutOfMemory };

    fn from(_error: AllocFailed<T>) -> BinaryFault {
        BinaryFault::OutOfMemory
    }
}
