//! The rows of runs of characters.
ghost use Rattle.std.specs.Prelude.{◌≡◌, ◌≢◌, ◌≤◌, ◌<◌, ◌+◌, ◌++◌, ◌^◌, IfOk, IfErr, Ok, Err, length};
ghost use Rattle.std.specs.List.{flat_map};
ghost use Rattle.shell_tables_bytes.specs.Characters.{runs_in};
ghost use Rattle.shell_tables_bytes.specs.Records.{rows_of_run, run_rows};

use crate::fault::BinaryFault;
use crate::records::{Run, Runs};
use crate::sections::{HEADER, read_section};
use std::alloc::{AllocError, Global};

/// The rows of the runs of a section.
pub(crate) fn read_runs(
    alloc: Global,
    bytes: &[u8],
    number: usize,
) -> Result<Vec<[u32; 2]>, BinaryFault>
    requires header { HEADER ≤ length bytes.now }
    requires inside { number < 19 }
    ensures ok { IfOk result (λ v. runs_in number bytes.now ≡ Ok v.items) }
    ensures refused { IfErr result (λ e. e ≢ BinaryFault.OutOfMemory → runs_in number bytes.now ≡ Err e) }
{
    let runs = read_section(alloc, bytes, number, Runs)?;
    let rows = rows_of_runs(alloc, &runs)?;
    Ok(rows)
}

/// The rows of all characters of runs.
fn rows_of_runs(alloc: Global, runs: &[Run]) -> Result<Vec<[u32; 2]>, AllocError>
    ensures { IfOk result (λ v. v.items ≡ flat_map rows_of_run runs.now) }
{
    let mut rows = Vec::new(alloc);
    for run in runs {
        push_run(*run, &mut rows)?;
    }
    Ok(rows)
}

/// Appends the rows of a run's characters.
#[tactic(auto, using(crate::proofs::RunRows::run_goes_on, crate::proofs::RunRows::run_ends))]
fn push_run(run: Run, rows: &mut Vec<[u32; 2]>) -> Result<(), AllocError>
    ensures { IfOk result (λ _. rows.new.items ≡ rows.old.items ++ rows_of_run run) }
{
    let first = u32::from(run.plane) * 65536 + u32::from(run.first);
    for index in 0..run.count {
        rows.push([first + u32::from(index), u32::from(run.number)])?;
    }
    Ok(())
}
