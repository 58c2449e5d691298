//! Writes lines to a stream.

ghost use Rattle.std.specs.Prelude.{◌≡◌, IfErr, OnOk, OnErr};
ghost use Rattle.std.specs.Io.KnownBytes.{Appends};
ghost use Rattle.shell_run.specs.Run.{AppendsFront};

use shell_readers::fault::RunFault;
use std::io::Write;

/// Writes lines from their first byte on, until a write fails or writes nothing.
#[tactic(auto, using(crate::proofs::Writing::front_none, crate::proofs::Writing::front_stays, crate::proofs::Writing::front_whole))]
pub fn write_lines<W: Write>(out: &mut W, lines: &[u8]) -> Result<(), RunFault>
    ensures written { OnOk result (Appends (W.contents out.old) (W.contents out.new) lines.now) }
    ensures front { OnErr result (AppendsFront (W.contents out.old) (W.contents out.new) lines.now) }
    ensures fault { IfErr result (λ e. e ≡ RunFault.Write) }
{
    let mut count = 0;
    while count < lines.len() {
        match out.write(&lines[count..]) {
            Ok(0) | Err(_) => return Err(RunFault::Write),
            Ok(more) => count += more,
        }
    }
    Ok(())
}
