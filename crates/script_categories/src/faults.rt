//! The first fault of the rows that a machine is made of.
ghost use Rattle.std.specs.Prelude.{◌≡◌, ◌&&◌, nat_lt};
ghost use Rattle.script_categories.specs.Machines.{accepts_fault, is_accept_in_range, is_step_in_range, machine_fault, machine_in, machines_fault, machines_in, steps_fault};

use crate::hb_ot_script_shaper_t::{
    self, INDIC_SHAPER, KHMER_SHAPER, MYANMAR_SHAPER, UNIVERSAL_SHAPER,
};
use crate::machine::{Accept, Step, SyllableMachine, SyllableMachines};
use buffer_unicode::{TablesFault, follows};

/// The first fault of the machines' rows.
pub(crate) fn machines_fault(machines: &SyllableMachines) -> Option<TablesFault>
    ensures { result ≡ machines_fault (machines_in machines.now) }
{
    machine_fault(INDIC_SHAPER, &machines.indic)
        .or(machine_fault(KHMER_SHAPER, &machines.khmer))
        .or(machine_fault(MYANMAR_SHAPER, &machines.myanmar))
        .or(machine_fault(UNIVERSAL_SHAPER, &machines.universal))
}

fn machine_fault(shaper: hb_ot_script_shaper_t, machine: &SyllableMachine) -> Option<TablesFault>
    ensures { result ≡ machine_fault shaper (machine_in machine.now) }
{
    steps_fault(machine).or(accepts_fault(shaper, machine))
}

fn steps_fault(machine: &SyllableMachine) -> Option<TablesFault>
    ensures { result ≡ steps_fault (machine_in machine.now) }
{
    let mut before = None;
    for step in &machine.next {
        if !is_step_in_range(machine, *step) {
            return Some(TablesFault::OutOfRange);
        }
        if !follows(before, *step) {
            return Some(TablesFault::OutOfOrder);
        }
        before = Some(*step);
    }
    None
}

fn accepts_fault(shaper: hb_ot_script_shaper_t, machine: &SyllableMachine) -> Option<TablesFault>
    ensures { result ≡ accepts_fault shaper (machine_in machine.now) }
{
    let mut before = None;
    for accept in &machine.accept {
        if !is_accept_in_range(shaper, machine, *accept) {
            return Some(TablesFault::OutOfRange);
        }
        if !follows(before, *accept) {
            return Some(TablesFault::OutOfOrder);
        }
        before = Some(*accept);
    }
    None
}

fn is_step_in_range(machine: &SyllableMachine, step: Step) -> bool
    ensures { result ≡ is_step_in_range (machine_in machine.now) step }
{
    step.state < machine.states && step.next < machine.states
}

fn is_accept_in_range(
    shaper: hb_ot_script_shaper_t,
    machine: &SyllableMachine,
    accept: Accept,
) -> bool
    ensures { result ≡ is_accept_in_range shaper (machine_in machine.now) accept }
{
    accept.state < machine.states && shaper.has_kind(accept.kind)
}
