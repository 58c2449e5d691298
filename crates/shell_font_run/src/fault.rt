//! The faults of the program kuspveli, and how it ends by one.
ghost use Rattle.std.specs.Prelude.{◌≡◌, OnOk, Some};
ghost use Rattle.std.specs.Io.KnownBytes.{Appends};
ghost use Rattle.shell_run.specs.Program.{Reports};
ghost use Rattle.shell_font_run.specs.Program.{fault_of_run, line_of_fault, subject_of};

use shell_readers::fault::RunFault;
use shell_run::program::Ending;
use std::io;
use std::io::Write;

/// What a fault is about.
#[derive(Clone, Copy, PartialEq, Eq, Debug)]
pub enum FaultSubject {
    /// The font file.
    Font,
    /// The text.
    Text,
    /// Standard output.
    Output,
    /// None of these: the command-line words, or memory.
    Neither,
}

/// Why the program printed nothing, or not all.
#[derive(Clone, Copy, PartialEq, Eq, Debug)]
pub struct FontRunFault {
    pub cause: RunFault,
    pub subject: FaultSubject,
}

/// What a run's fault is about, by its cause.
pub(crate) fn subject_of(cause: RunFault) -> FaultSubject
    ensures { result ≡ subject_of cause }
{
    match cause {
        RunFault::Font(_) => FaultSubject::Font,
        RunFault::NotUtf8 | RunFault::Shape(_) | RunFault::Line(_, _) => FaultSubject::Text,
        RunFault::Write => FaultSubject::Output,
        _ => FaultSubject::Neither,
    }
}

/// A fault of a run, about what its cause says.
pub fn fault_of_run(cause: RunFault) -> FontRunFault
    ensures { result ≡ fault_of_run cause }
{
    FontRunFault {
        cause,
        subject: subject_of(cause),
    }
}

/// Writes the line of a fault to `err`: the program's name, what the fault is about, and its cause.
fn report<E: Write>(font: &str, fault: FontRunFault, err: &mut E) -> io::Result<()>
    ensures { OnOk result (Appends (E.contents err.old) (E.contents err.new) (line_of_fault font.now fault)) }
{
    let cause = fault.cause;
    match fault.subject {
        FaultSubject::Font => writeln!(err, "kuspveli: {font}: {cause}"),
        FaultSubject::Text => writeln!(err, "kuspveli: text: {cause}"),
        FaultSubject::Output => writeln!(err, "kuspveli: output: {cause}"),
        FaultSubject::Neither => writeln!(err, "kuspveli: {cause}"),
    }
}

/// Ends the program by a fault, whose line it writes to `err`; `font` is the name of the font file.
pub fn end<E: Write>(font: &str, fault: FontRunFault, err: &mut E) -> Ending
    ensures fault { result.fault ≡ Some fault.cause }
    ensures reported { Reports result.is_reported (E.contents err.old) (E.contents err.new) (line_of_fault font.now fault) }
{
    let is_reported = report(font, fault, err).is_ok();
    Ending {
        fault: Some(fault.cause),
        is_reported,
    }
}
