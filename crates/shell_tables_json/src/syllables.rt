//! Reads the machines that find syllables.
ghost use Rattle.std.specs.Prelude.{◌≡◌, ◌≢◌, IfOk, IfErr, Ok, Err};
ghost use Rattle.serde_json.specs.Find.{get};
ghost use Rattle.serde_json.specs.View.{view};
ghost use Rattle.shell_json.specs.Objects.{of_object};
ghost use Rattle.script_categories.specs.Machines.{machine_in, machines_in};
ghost use Rattle.script_categories.specs.Sound.{AreRising, IsRising};
ghost use Rattle.shell_tables_json.specs.Syllables.{step, accept, machine_keys, machine_at, machines_keys, syllables_key, syllables_of};

use crate::names::{category_of_name, kind_of_name};
use crate::rows::{RowReader, read_rows_at};
use script_categories::hb_ot_script_shaper_t::{
    self, INDIC_SHAPER, KHMER_SHAPER, MYANMAR_SHAPER, UNIVERSAL_SHAPER,
};
use script_categories::{Accept, Step, SyllableMachine, SyllableMachines, SyllableTable};
use serde_json::Value;
use shell_json::cell::pair;
use shell_json::fault::JsonFault;
use shell_json::items::{natural_number_below, three_items, two_items};
use shell_json::keys::read_key;
use std::alloc::Global;

/// The steps of a machine with that many states.
#[derive(Clone, Copy)]
struct Steps {
    shaper: hb_ot_script_shaper_t,
    states: u32,
}

impl RowReader for Steps {
    type Row = Step;

    ghost means = { λ s. step s.shaper s.states };

    fn read_row(self, value: &Value) -> Result<Step, JsonFault> {
        let (state, name, next) = three_items(value)?;
        let state = natural_number_below(state, self.states);
        let next = natural_number_below(next, self.states);
        let (state, (category, next)) = pair(
            state,
            pair(category_of_name(self.shaper, name), next),
        )?;
        Ok(Step {
            state,
            category,
            next,
        })
    }
}

/// The accepting states of a machine with that many states.
#[derive(Clone, Copy)]
struct Accepts {
    shaper: hb_ot_script_shaper_t,
    states: u32,
}

impl RowReader for Accepts {
    type Row = Accept;

    ghost means = { λ a. accept a.shaper a.states };

    fn read_row(self, value: &Value) -> Result<Accept, JsonFault> {
        let (state, name) = two_items(value)?;
        let state = natural_number_below(state, self.states);
        let (state, kind) = pair(state, kind_of_name(self.shaper, name))?;
        Ok(Accept { state, kind })
    }
}

/// Reads the machines of the key `syllables`, in the order of their shapers' names. A state that its machine lacks is
/// out of range; a category or a kind that the shaper lacks is an unknown name.
pub fn read_syllables(alloc: Global, value: &Value) -> Result<SyllableTable, JsonFault>
    ensures ok { IfOk result (λ t. syllables_of (view value.now) ≡ Ok t) }
    ensures refused { IfErr result (λ e. e ≢ JsonFault.OutOfMemory → syllables_of (view value.now) ≡ Err e) }
{
    if !value.is_object() {
        return Err(JsonFault::WrongShape);
    }
    Ok(SyllableTable::of_machines(read_machines(alloc, value)?))
}

fn read_machines(alloc: Global, value: &Value) -> Result<SyllableMachines, JsonFault>
    ensures ok { IfOk result (λ ms. syllables_key (view value.now) ≡ Ok (machines_in ms)) }
    ensures rising { IfOk result (λ ms. AreRising (machines_in ms)) }
    ensures refused { IfErr result (λ e. e ≢ JsonFault.OutOfMemory → syllables_key (view value.now) ≡ Err e) }
{
    match value.get("syllables") {
        Some(value) => read_each_machine(alloc, value),
        None => Ok(SyllableMachines {
            indic: SyllableMachine::new(alloc),
            khmer: SyllableMachine::new(alloc),
            myanmar: SyllableMachine::new(alloc),
            universal: SyllableMachine::new(alloc),
        }),
    }
}

fn read_each_machine(alloc: Global, value: &Value) -> Result<SyllableMachines, JsonFault>
    ensures ok { IfOk result (λ ms. of_object machines_keys (view value.now) ≡ Ok (machines_in ms)) }
    ensures rising { IfOk result (λ ms. AreRising (machines_in ms)) }
    ensures refused { IfErr result (λ e. e ≢ JsonFault.OutOfMemory
        → of_object machines_keys (view value.now) ≡ Err e) }
{
    if !value.is_object() {
        return Err(JsonFault::WrongShape);
    }
    Ok(SyllableMachines {
        indic: read_machine_at(alloc, value, "indic", INDIC_SHAPER)?,
        khmer: read_machine_at(alloc, value, "khmer", KHMER_SHAPER)?,
        myanmar: read_machine_at(alloc, value, "myanmar", MYANMAR_SHAPER)?,
        universal: read_machine_at(alloc, value, "universal", UNIVERSAL_SHAPER)?,
    })
}

fn read_machine_at(
    alloc: Global,
    value: &Value,
    key: &str,
    shaper: hb_ot_script_shaper_t,
) -> Result<SyllableMachine, JsonFault>
    ensures ok { IfOk result (λ m. machine_at key.now shaper (view value.now) ≡ Ok (machine_in m)) }
    ensures rising { IfOk result (λ m. IsRising (machine_in m)) }
    ensures refused { IfErr result (λ e. e ≢ JsonFault.OutOfMemory
        → machine_at key.now shaper (view value.now) ≡ Err e) }
{
    match value.get(key) {
        Some(value) => read_machine(alloc, value, shaper),
        None => Ok(SyllableMachine::new(alloc)),
    }
}

fn read_machine(
    alloc: Global,
    value: &Value,
    shaper: hb_ot_script_shaper_t,
) -> Result<SyllableMachine, JsonFault>
    ensures ok { IfOk result (λ m. of_object (machine_keys shaper) (view value.now) ≡ Ok (machine_in m)) }
    ensures rising { IfOk result (λ m. IsRising (machine_in m)) }
    ensures refused { IfErr result (λ e. e ≢ JsonFault.OutOfMemory
        → of_object (machine_keys shaper) (view value.now) ≡ Err e) }
{
    if !value.is_object() {
        return Err(JsonFault::WrongShape);
    }
    let states = read_key(value, "states", 0u32)?;
    Ok(SyllableMachine {
        states,
        next: read_rows_at(alloc, value, "next", Steps { shaper, states })?,
        accept: read_rows_at(alloc, value, "accept", Accepts { shaper, states })?,
    })
}
