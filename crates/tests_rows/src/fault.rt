//! Why rows are not tried.

use std::alloc::{AllocError, AllocFailed};

/// Why a row, or all of them, is not tried.
#[derive(Clone, Copy, PartialEq, Eq, Debug)]
pub(crate) enum RowFault {
    /// A file of rows isn't there, or is not UTF-8.
    Unreadable,
    /// A line that begins with `@` names no setting.
    UnknownSetting,
    /// Standard output can't be written.
    Unwritten,
    OutOfMemory,
    /// What is wrong in a row.
    Row(&'static str),
}

impl RowFault {
    pub(crate) fn name(self) -> &'static str {
        match self {
            RowFault::Unreadable => "a file that can't be read",
            RowFault::UnknownSetting => "an unknown setting",
            RowFault::Unwritten => "standard output can't be written",
            RowFault::OutOfMemory => "out of memory",
            RowFault::Row(fault) => fault,
        }
    }
}

impl From<AllocError> for RowFault {
    fn from(_error: AllocError) -> RowFault {
        RowFault::OutOfMemory
    }
}

impl<T: Drop> From<AllocFailed<T>> for RowFault {
    fn from(_error: AllocFailed<T>) -> RowFault {
        RowFault::OutOfMemory
    }
}
