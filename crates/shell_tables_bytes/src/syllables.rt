//! The machines of syllables in binary form.
ghost use Rattle.std.specs.Prelude.{◌≡◌, ◌≢◌, ◌≤◌, ◌<◌, IfOk, IfErr, Ok, Err, length};
ghost use Rattle.script_categories.specs.Machines.{machine_in, machines_in};
ghost use Rattle.shell_tables_bytes.specs.Machines.{machine_at, machine_rows, machines_of};

use crate::fault::BinaryFault;
use crate::records::{Accepts, Steps};
use crate::sections::{HEADER, read_section};
use font_bytes::words::word;
use script_categories::{SyllableMachine, SyllableMachines, SyllableTable};
use std::alloc::Global;

/// The section of the first machine's transitions; that of its accepting states is the next one.
const FIRST_STEPS: usize = 11;

/// Where the header has the number of the first machine's states.
const FIRST_STATES: usize = 152;

/// The machines that find syllables.
pub fn read_syllables(alloc: Global, bytes: &[u8]) -> Result<SyllableTable, BinaryFault>
    requires { HEADER ≤ length bytes.now }
    ensures ok { IfOk result (λ t. machines_of bytes.now ≡ Ok t) }
    ensures refused { IfErr result (λ e. e ≢ BinaryFault.OutOfMemory → machines_of bytes.now ≡ Err e) }
{
    let machines = read_machines(alloc, bytes)?;
    let table = SyllableTable::new(machines)?;
    Ok(table)
}

fn read_machines(alloc: Global, bytes: &[u8]) -> Result<SyllableMachines, BinaryFault>
    requires { HEADER ≤ length bytes.now }
    ensures ok { IfOk result (λ ms. machine_rows bytes.now ≡ Ok (machines_in ms)) }
    ensures refused { IfErr result (λ e. e ≢ BinaryFault.OutOfMemory → machine_rows bytes.now ≡ Err e) }
{
    Ok(SyllableMachines {
        indic: read_machine(alloc, bytes, 0)?,
        khmer: read_machine(alloc, bytes, 1)?,
        myanmar: read_machine(alloc, bytes, 2)?,
        universal: read_machine(alloc, bytes, 3)?,
    })
}

/// The machine with an index.
fn read_machine(alloc: Global, bytes: &[u8], index: usize) -> Result<SyllableMachine, BinaryFault>
    requires header { HEADER ≤ length bytes.now }
    requires inside { index < 4 }
    ensures ok { IfOk result (λ m. machine_at index bytes.now ≡ Ok (machine_in m)) }
    ensures refused { IfErr result (λ e. e ≢ BinaryFault.OutOfMemory → machine_at index bytes.now ≡ Err e) }
{
    let states = u32::from(word(bytes, FIRST_STATES + 2 * index));
    let next = read_section(alloc, bytes, FIRST_STEPS + 2 * index, Steps)?;
    let accept = read_section(alloc, bytes, FIRST_STEPS + 1 + 2 * index, Accepts)?;
    Ok(SyllableMachine {
        states,
        next,
        accept,
    })
}
