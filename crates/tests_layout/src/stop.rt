//! Why rows are not tried.

use std::alloc::{AllocError, AllocFailed};

/// Why the program ends before its last row.
#[derive(Clone, Copy, PartialEq, Eq, Debug)]
pub(crate) enum Stop {
    /// A file of rows isn't there, is not UTF-8, or has a table without answers.
    Unreadable,
    /// Standard output can't be written.
    Unwritten,
    OutOfMemory,
}

impl Stop {
    pub(crate) fn name(self) -> &'static str {
        match self {
            Stop::Unreadable => "a file that can't be read",
            Stop::Unwritten => "standard output can't be written",
            Stop::OutOfMemory => "out of memory",
        }
    }
}

impl From<AllocError> for Stop {
    fn from(_error: AllocError) -> Stop {
        Stop::OutOfMemory
    }
}

impl<T: Drop> From<AllocFailed<T>> for Stop {
    fn from(_error: AllocFailed<T>) -> Stop {
        Stop::OutOfMemory
    }
}
