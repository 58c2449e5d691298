//! Why a font file isn't read.
ghost use Rattle.std.specs.Prelude.{◌≡◌, Result, IfOk, IfErr, Ok, Err, OnOk};
ghost use Rattle.font_bytes.specs.declared.fault.TableFault.{TableFault};
ghost use Rattle.font_bytes.specs.Fault.{in_table, name_of, number_of, offset_of};

use crate::fault::TableFault;
use crate::table_names::FontTable;
use std::alloc::{AllocError, AllocFailed};
use std::error::Error;
use std::fmt;

/// Why a font file isn't read.
#[derive(Clone, Copy, PartialEq, Eq, Debug)]
pub struct FontFault {
    /// The table that is at fault; none where it is the file's list of fonts and tables.
    pub table: Option<FontTable>,
    pub cause: TableFault,
}

impl FontFault {
    /// The fault's number: 1 `Short`, 2 `Kind`, 3 `Order`, 4 `Index`, 5 `Missing`, 6 `TooLarge`, 7 `OutOfMemory`.
    pub fn number(self) -> u8
        ensures { result ≡ number_of self.cause }
    {
        match self.cause {
            TableFault::Short(_) => 1,
            TableFault::Kind(_) => 2,
            TableFault::Order(_) => 3,
            TableFault::Index => 4,
            TableFault::Missing => 5,
            TableFault::TooLarge => 6,
            TableFault::OutOfMemory => 7,
        }
    }

    /// The name under which it is printed, with its number.
    pub fn name(self) -> &'static str
        ensures { result.now ≡ name_of self.cause }
    {
        match self.cause {
            TableFault::Short(_) => "F1 Short",
            TableFault::Kind(_) => "F2 Kind",
            TableFault::Order(_) => "F3 Order",
            TableFault::Index => "F4 Index",
            TableFault::Missing => "F5 Missing",
            TableFault::TooLarge => "F6 TooLarge",
            TableFault::OutOfMemory => "OutOfMemory",
        }
    }

    /// The offset in the table's bytes, or in the file's where no table is at fault, of what is wrong; none where the cause
    /// has no offset.
    pub fn offset(self) -> Option<usize>
        ensures { result ≡ offset_of self.cause }
    {
        match self.cause {
            TableFault::Short(at) | TableFault::Kind(at) | TableFault::Order(at) => Some(at),
            TableFault::Index
            | TableFault::Missing
            | TableFault::TooLarge
            | TableFault::OutOfMemory => None,
        }
    }
}

/// A table's fault as that of the file.
pub fn in_table<A: Drop>(
    table: Option<FontTable>,
    read: Result<A, TableFault>,
) -> Result<A, FontFault>
    ensures { result ≡ in_table table read }
{
    match read {
        Ok(value) => Ok(value),
        Err(cause) => Err(FontFault { table, cause }),
    }
}

impl fmt::Display for FontFault {
    ghost use Rattle.std.specs.Prelude.{Some};
    ghost use Rattle.font_bytes.specs.Fault.{message_of};

    ghost output = { λ fault. Some (message_of fault) };

    fn fmt<W: fmt::Write>(&self, f: &mut fmt::Formatter<W>) -> fmt::Result {
        let name = self.name();
        match (self.table, self.offset()) {
            (Some(table), Some(at)) => {
                let table = table.name();
                write!(f, "{name} in {table} at {at}")
            }
            (Some(table), None) => {
                let table = table.name();
                write!(f, "{name} in {table}")
            }
            (None, Some(at)) => write!(f, "{name} at {at}"),
            (None, None) => f.write_str(name),
        }
    }
}

impl Error for FontFault {}

impl From<AllocError> for FontFault {
    ghost use Rattle.std.specs.Prelude.{◌≡◌};
    ghost use Rattle.font_bytes.specs.Fault.{out_of_memory};

    ghost from_gives = { λ _ e. e ≡ out_of_memory };

    fn from(_error: AllocError) -> FontFault {
        FontFault {
            table: None,
            cause: TableFault::OutOfMemory,
        }
    }
}

impl<T: Drop> From<AllocFailed<T>> for FontFault {
    ghost use Rattle.std.specs.Prelude.{◌≡◌};
    ghost use Rattle.font_bytes.specs.Fault.{out_of_memory};

    ghost from_gives = { λ _ e. e ≡ out_of_memory };

    fn from(_error: AllocFailed<T>) -> FontFault {
        FontFault {
            table: None,
            cause: TableFault::OutOfMemory,
        }
    }
}
