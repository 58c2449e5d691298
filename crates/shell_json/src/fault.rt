//! The faults of JSON values.
//!
//! As each error type of the workspace it has conversions from want of memory of its own: rt takes no impl that a macro
//! of a repository writes.

ghost use Rattle.std.specs.Prelude.{◌≡◌};
ghost use Rattle.shell_json.specs.Fault.{name_of};

use std::alloc::{AllocError, AllocFailed};
use std::error::Error;
use std::fmt;

/// Why a JSON value is not of the format.
#[derive(Clone, Copy, PartialEq, Eq, Debug)]
pub enum JsonFault {
    /// The bytes are no JSON text.
    NotJson,
    /// A value has another shape, or a key that is not supported yet.
    WrongShape,
    /// A number has a fraction or an exponent, or is outside 64 bits.
    FloatNumber,
    /// A name is not in its list.
    UnknownName,
    /// The keys of rows do not rise strictly.
    OutOfOrder,
    /// A number is outside its range.
    OutOfRange,
    /// A chain of first halves has too many decompositions.
    SplitDepth,
    OutOfMemory,
}

impl JsonFault {
    /// The name under which it is printed, with its number where it has one.
    pub fn name(self) -> &'static str
        ensures { result.now ≡ name_of self }
    {
        match self {
            JsonFault::NotJson => "J1 NotJson",
            JsonFault::WrongShape => "J2 WrongShape",
            JsonFault::FloatNumber => "J3 FloatNumber",
            JsonFault::UnknownName => "J4 UnknownName",
            JsonFault::OutOfOrder => "U1 OutOfOrder",
            JsonFault::OutOfRange => "U2 OutOfRange",
            JsonFault::SplitDepth => "U3 SplitDepth",
            JsonFault::OutOfMemory => "OutOfMemory",
        }
    }
}

impl fmt::Display for JsonFault {
    ghost use Rattle.std.specs.Prelude.{Some};
    ghost use Rattle.shell_json.specs.Fault.{name_of};

    ghost output = { λ fault. Some (name_of fault) };

    fn fmt<W: fmt::Write>(&self, f: &mut fmt::Formatter<W>) -> fmt::Result {
        f.write_str(self.name())
    }
}

impl Error for JsonFault {}

impl From<AllocError> for JsonFault {
    ghost use Rattle.std.specs.Prelude.{◌≡◌};
    ghost use Rattle.shell_json.specs.declared.fault.JsonFault.TheVariants.{OutOfMemory};

    ghost from_gives = { λ _ e. e ≡ OutOfMemory };

    fn from(_error: AllocError) -> JsonFault {
        JsonFault::OutOfMemory
    }
}

impl<T: Drop> From<AllocFailed<T>> for JsonFault {
    ghost use Rattle.std.specs.Prelude.{◌≡◌};
    ghost use Rattle.shell_json.specs.declared.fault.JsonFault.TheVariants.{OutOfMemory};

    ghost from_gives = { λ _ e. e ≡ OutOfMemory };

    fn from(_error: AllocFailed<T>) -> JsonFault {
        JsonFault::OutOfMemory
    }
}
