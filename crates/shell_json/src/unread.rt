//! Why a JSON text was not read.

use json::Invalid;
use std::alloc::{AllocError, AllocFailed};

/// The text could not be read value by value: it is no JSON, or not of the required shape, or it has a number that is
/// no integer of 64 bits, or memory was lacking. Read whole, it may still have a value.
#[derive(Clone, Copy)]
pub struct Unread;

impl From<AllocError> for Unread {
    fn from(_error: AllocError) -> Unread {
        Unread
    }
}

impl<T: Drop> From<AllocFailed<T>> for Unread {
    fn from(_error: AllocFailed<T>) -> Unread {
        Unread
    }
}

impl From<Invalid> for Unread {
    fn from(_error: Invalid) -> Unread {
        Unread
    }
}
