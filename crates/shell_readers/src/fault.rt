//! The reasons why a run of the program is refused.
//!
//! As each error type of the workspace it has conversions from want of memory of its own: rt takes no impl that a macro
//! of a repository writes.

ghost use Rattle.std.specs.Prelude.{◌≡◌};
ghost use Rattle.shell_readers.specs.Fault.{name_of, name_of_cause, name_of_line, status_of, status_of_line};

use buffer_glyphs::cause::ShapeCause;
use font_bytes::fault::TableFault;
use font_bytes::font_fault::FontFault;
use shell_json::fault::JsonFault;
use std::alloc::{AllocError, AllocFailed};
use std::error::Error;
use std::fmt;

/// Why a run printed no glyphs. Lack of memory is `OutOfMemory`, in whichever step.
#[derive(Clone, Copy, PartialEq, Eq, Debug)]
pub enum RunFault {
    /// The command-line words are not options and three file names.
    Words,
    /// A file can't be opened, or a read failed.
    Read,
    /// A reader did not reach its end in 2^26 reads.
    ReadLimit,
    /// Tables or a font are not of their format.
    Json(JsonFault),
    /// A font file is not of its format.
    Font(FontFault),
    /// The tables are of their format, but equivalent texts would be shaped differently with them.
    Unlawful,
    /// The text is not UTF-8.
    NotUtf8,
    /// The text could not be shaped.
    Shape(ShapeCause),
    /// A line that is a text of its own was refused: its number in the text, from 1, and why.
    Line(usize, LineFault),
    Write,
    OutOfMemory,
}

/// Why a line that is a text of its own was refused.
#[derive(Clone, Copy, PartialEq, Eq, Debug)]
pub enum LineFault {
    /// The line is not UTF-8.
    NotUtf8,
    /// The line could not be shaped.
    Shape(ShapeCause),
}

impl LineFault {
    fn status(self) -> u8
        ensures { result ≡ status_of_line self }
    {
        match self {
            LineFault::NotUtf8 => 4,
            LineFault::Shape(_) => 5,
        }
    }

    /// The name under which it is printed, that of the same fault of a whole text.
    fn name(self) -> &'static str
        ensures { result.now ≡ name_of_line self }
    {
        match self {
            LineFault::NotUtf8 => "NotUtf8",
            LineFault::Shape(cause) => name_of_cause(cause),
        }
    }
}

fn name_of_cause(cause: ShapeCause) -> &'static str
    ensures { result.now ≡ name_of_cause cause }
{
    match cause {
        ShapeCause::OutOfMemory => "S1 OutOfMemory",
        ShapeCause::TooLong => "S2 TooLong",
        ShapeCause::StretchRange => "S3 StretchRange",
        ShapeCause::UnknownSyllableKind => "S4 UnknownSyllableKind",
    }
}

impl RunFault {
    /// The exit status of the program: 2 for command-line words, 3 for tables and fonts, 4 for a text that is not
    /// UTF-8, 5 for a text that could not be shaped and for lack of memory, 6 for input and output. A line has the status
    /// of a text.
    pub fn status(self) -> u8
        ensures { result ≡ status_of self }
    {
        match self {
            RunFault::Words => 2,
            RunFault::Json(JsonFault::OutOfMemory) => 5,
            RunFault::Font(
                FontFault {
                    cause: TableFault::OutOfMemory,
                    ..
                },
            ) => 5,
            RunFault::Json(_) | RunFault::Font(_) | RunFault::Unlawful => 3,
            RunFault::NotUtf8 => 4,
            RunFault::Shape(_) | RunFault::OutOfMemory => 5,
            RunFault::Line(_, fault) => fault.status(),
            RunFault::Read | RunFault::ReadLimit | RunFault::Write => 6,
        }
    }
}

impl RunFault {
    /// The name under which it is printed, with its own number where it has one. A line's number isn't part of it, nor a
    /// font's table and offset.
    pub fn name(self) -> &'static str
        ensures { result.now ≡ name_of self }
    {
        match self {
            RunFault::Words => "words",
            RunFault::Read => "Read",
            RunFault::ReadLimit => "ReadLimit",
            RunFault::Json(fault) => fault.name(),
            RunFault::Font(fault) => fault.name(),
            RunFault::Unlawful => "Unlawful",
            RunFault::NotUtf8 => "NotUtf8",
            RunFault::Shape(cause) => name_of_cause(cause),
            RunFault::Line(_, fault) => fault.name(),
            RunFault::Write => "Write",
            RunFault::OutOfMemory => "OutOfMemory",
        }
    }
}

impl fmt::Display for RunFault {
    ghost use Rattle.std.specs.Prelude.{Some};
    ghost use Rattle.shell_readers.specs.Fault.{message_of};

    ghost output = { λ fault. Some (message_of fault) };

    fn fmt<W: fmt::Write>(&self, f: &mut fmt::Formatter<W>) -> fmt::Result {
        match *self {
            RunFault::Line(number, fault) => {
                let name = fault.name();
                write!(f, "{name} line {number}")
            }
            RunFault::Font(fault) => write!(f, "{fault}"),
            fault => f.write_str(fault.name()),
        }
    }
}

impl Error for RunFault {}

impl From<JsonFault> for RunFault {
    ghost use Rattle.std.specs.Prelude.{◌≡◌};
    ghost use Rattle.shell_readers.specs.Fault.{run_fault_of};

    ghost from_gives = { λ j e. e ≡ run_fault_of j };

    fn from(fault: JsonFault) -> RunFault {
        match fault {
            JsonFault::OutOfMemory => RunFault::OutOfMemory,
            fault => RunFault::Json(fault),
        }
    }
}

impl From<FontFault> for RunFault {
    ghost use Rattle.std.specs.Prelude.{◌≡◌};
    ghost use Rattle.shell_readers.specs.Fault.{fault_of_font};

    ghost from_gives = { λ f e. e ≡ fault_of_font f };

    fn from(fault: FontFault) -> RunFault {
        match fault.cause {
            TableFault::OutOfMemory => RunFault::OutOfMemory,
            _ => RunFault::Font(fault),
        }
    }
}

impl From<ShapeCause> for RunFault {
    ghost use Rattle.std.specs.Prelude.{◌≡◌};
    ghost use Rattle.shell_readers.specs.Fault.{fault_of_cause};

    ghost from_gives = { λ c e. e ≡ fault_of_cause c };

    fn from(cause: ShapeCause) -> RunFault {
        match cause {
            ShapeCause::OutOfMemory => RunFault::OutOfMemory,
            cause => RunFault::Shape(cause),
        }
    }
}

impl From<AllocError> for RunFault {
    ghost use Rattle.std.specs.Prelude.{◌≡◌};
    ghost use Rattle.shell_readers.specs.declared.fault.RunFault.TheVariants.{OutOfMemory};

    ghost from_gives = { λ _ e. e ≡ OutOfMemory };

    fn from(_error: AllocError) -> RunFault {
        RunFault::OutOfMemory
    }
}

impl<T: Drop> From<AllocFailed<T>> for RunFault {
    ghost use Rattle.std.specs.Prelude.{◌≡◌};
    ghost use Rattle.shell_readers.specs.declared.fault.RunFault.TheVariants.{OutOfMemory};

    ghost from_gives = { λ _ e. e ≡ OutOfMemory };

    fn from(_error: AllocFailed<T>) -> RunFault {
        RunFault::OutOfMemory
    }
}
