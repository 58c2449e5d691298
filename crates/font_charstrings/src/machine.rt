//! Charstrings, step by step (TN 5177, 4; OpenType, chapter CFF2).
ghost use Rattle.std.specs.Prelude.{◌≡◌, ◌≢◌, ◌≤◌, ◌<◌, ◌+◌, ◌*◌, ◌-◌, length, IfOk, IfErr, Ok, Err};
ghost use Rattle.font_bytes.specs.declared.fault.TableFault.{TableFault};
ghost use Rattle.font_charstrings.specs.Machine.{state, with_calls, run_at_end, run_at_span, after_return, subroutine_start, after_call, after_operator, step, runs, is_stem};

use crate::index::{Index, Span, object};
use crate::numbers::{is_number, subr_index};
use crate::operators::{
    Run, after_bytes, blend, choose_regions, draw_path, escape, hint_stems, pass_mask, pop_operand,
    push_number,
};
use font_bytes::fault::TableFault;
use font_bytes::room::Room;
use font_bytes::words::{byte, need};

/// The greatest depth of calls.
const MOST_CALLS: usize = 10;

/// What charstrings share: the subroutines, and the offset of the variation store, 0 where there is none.
#[derive(Clone, Copy, PartialEq, Eq, Debug)]
pub struct Context {
    pub global: Index,
    pub local: Index,
    pub store: u32,
}

/// At its end.
#[tactic(auto, unfolding(crate::specs::Machine::run_at_end))]
fn run_at_end(run: Run) -> Run
    ensures { result ≡ run_at_end run }
{
    Run {
        pen: run.pen,
        at: run.at,
        end: run.end,
        stems: run.stems,
        regions: run.regions,
        is_done: true,
    }
}

/// At other bytes.
#[tactic(auto, unfolding(crate::specs::Machine::run_at_span))]
fn run_at_span(run: Run, span: Span) -> Run
    ensures { result ≡ run_at_span run span }
{
    Run {
        pen: run.pen,
        at: span.at,
        end: span.end,
        stems: run.stems,
        regions: run.regions,
        is_done: run.is_done,
    }
}

/// Goes back to the caller, or ends where there is none.
#[tactic(auto, unfolding(crate::specs::Machine::after_return))]
fn leave(run: Run, stack: &mut Vec<u32>, calls: &mut Vec<Span>) -> Run
    ensures { after_return (state run stack.old.items calls.old.items) ≡ state result stack.new.items calls.new.items }
{
    match calls.pop() {
        Some(span) => run_at_span(run, span),
        None => {
            stack.clear();
            run_at_end(run)
        }
    }
}

/// Begins a subroutine.
#[tactic(auto, unfolding(crate::specs::Machine::subroutine_start))]
fn enter(run: Run, span: Span, calls: &mut Vec<Span>) -> Result<Run, TableFault>
    requires { run.at + 1 < 18446744073709551616 }
    ensures ok { IfOk result (λ r. subroutine_start run span calls.old.items ≡ Ok (r, calls.new.items)) }
    ensures refused { IfErr result (λ e. e ≢ TableFault.OutOfMemory → subroutine_start run span calls.old.items ≡ Err e) }
{
    if calls.len() >= MOST_CALLS {
        return Err(TableFault::TooLarge);
    }
    calls.push(Span {
        at: run.at + 1,
        end: run.end,
    })?;
    Ok(run_at_span(run, span))
}

/// Calls the subroutine that the topmost operand names.
#[tactic(auto, unfolding(crate::specs::Machine::after_call))]
fn call(
    table: &[u8],
    index: Index,
    run: Run,
    stack: &mut Vec<u32>,
    calls: &mut Vec<Span>,
) -> Result<Run, TableFault>
    requires { run.at + 1 < 18446744073709551616 }
    ensures ok { IfOk result (λ r. after_call table.now index (state run stack.old.items calls.old.items)
        ≡ Ok (state r stack.new.items calls.new.items)) }
    ensures refused { IfErr result (λ e. e ≢ TableFault.OutOfMemory
        → after_call table.now index (state run stack.old.items calls.old.items) ≡ Err e) }
{
    let operand = pop_operand(stack, run.at)?;
    let span = object(table, index, subr_index(operand, index.count))?;
    enter(run, span, calls)
}

/// Whether an operator counts stem hints.
fn is_stem(code: u8) -> bool
    ensures { result ≡ is_stem code }
{
    code == 1 || code == 3 || code == 18 || code == 23
}

/// Runs an operator.
#[tactic(auto, unfolding(crate::specs::Machine::after_operator))]
fn operate(
    table: &[u8],
    context: Context,
    run: Run,
    code: u8,
    stack: &mut Vec<u32>,
    calls: &mut Vec<Span>,
) -> Result<Run, TableFault>
    requires { run.at + 1 ≤ length table.now }
    ensures ok { IfOk result (λ r. after_operator table.now context code (state run stack.old.items calls.old.items)
        ≡ Ok (state r stack.new.items calls.new.items)) }
    ensures refused { IfErr result (λ e. e ≢ TableFault.OutOfMemory
        → after_operator table.now context code (state run stack.old.items calls.old.items) ≡ Err e) }
{
    if code == 10 {
        return call(table, context.local, run, stack, calls);
    }
    if code == 29 {
        return call(table, context.global, run, stack, calls);
    }
    if code == 11 {
        return Ok(leave(run, stack, calls));
    }
    if code == 14 {
        return Ok(run_at_end(run));
    }
    if code == 12 {
        return escape(table, run, stack);
    }
    if is_stem(code) {
        return hint_stems(run, stack);
    }
    if code == 19 || code == 20 {
        return pass_mask(table, run, stack);
    }
    if code == 15 {
        return choose_regions(table, context.store, run, stack);
    }
    if code == 16 {
        return blend(run, stack);
    }
    draw_path(run, code, stack)
}

/// Runs a number or an operator, or goes back where the bytes end.
#[tactic(auto, unfolding(crate::specs::Machine::step))]
fn step(
    table: &[u8],
    context: Context,
    run: Run,
    stack: &mut Vec<u32>,
    calls: &mut Vec<Span>,
) -> Result<Run, TableFault>
    ensures ok { IfOk result (λ r. step table.now context (state run stack.old.items calls.old.items)
        ≡ Ok (state r stack.new.items calls.new.items)) }
    ensures refused { IfErr result (λ e. e ≢ TableFault.OutOfMemory
        → step table.now context (state run stack.old.items calls.old.items) ≡ Err e) }
{
    if run.at >= run.end {
        return Ok(leave(run, stack, calls));
    }
    need(table, run.at, 1)?;
    let code = byte(table, run.at);
    if is_number(code) {
        return push_number(table, run, code, stack);
    }
    operate(table, context, run, code, stack, calls)
}

/// Runs a charstring to its end. A step takes a row of room.
#[tactic(auto, using(crate::proofs::Runs::runs_next, crate::proofs::Runs::runs_done, crate::proofs::Runs::runs_short))]
pub fn run_steps(
    table: &[u8],
    context: Context,
    start: Run,
    stack: &mut Vec<u32>,
    calls: &mut Vec<Span>,
    room: &mut Room,
) -> Result<Run, TableFault>
    ensures ok { IfOk result (λ r. runs table.now context room.old.left (state start stack.old.items calls.old.items)
        ≡ Ok (state r stack.new.items calls.new.items, room.new.left)) }
    ensures refused { IfErr result (λ e. e ≢ TableFault.OutOfMemory
        → runs table.now context room.old.left (state start stack.old.items calls.old.items) ≡ Err e) }
{
    let mut run = start;
    for index in 0..room.left {
        if run.is_done {
            return Ok(run);
        }
        room.take(1)?;
        run = step(table, context, run, stack, calls)?;
    }
    if run.is_done {
        Ok(run)
    } else {
        Err(TableFault::TooLarge)
    }
}
