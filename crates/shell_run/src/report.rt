//! The line of a fault.
ghost use Rattle.std.specs.Prelude.{OnOk, Some};
ghost use Rattle.std.specs.Io.KnownBytes.{Appends};
ghost use Rattle.shell_run.specs.Program.{line_of_end};

use shell_readers::fault::RunFault;
use std::io;
use std::io::Write;

/// Writes the line of a fault to `err`.
pub(crate) fn report<W: Write>(err: &mut W, fault: RunFault) -> io::Result<()>
    ensures { OnOk result (Appends (W.contents err.old) (W.contents err.new) (line_of_end (Some fault))) }
{
    writeln!(err, "hb_shape: {fault}")
}
