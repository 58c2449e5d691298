//! The longest prefix of a list of categories that a machine accepts.
ghost use Rattle.std.specs.Prelude.{◌≡◌, ◌<◌, ◌≤◌, ◌+◌, ◌-◌, IfSome, drop, false, get_or, length, take};
ghost use Rattle.std.specs.List.{All};
ghost use Rattle.script_categories.specs.LongestMatch.{found_or, longest_syllable};
ghost use Rattle.script_categories.specs.Machines.{accepted_kind, machine_in, next_state};
ghost use Rattle.script_categories.specs.Sound.{IsRising};

use crate::machine::SyllableMachine;
use crate::near::find_by_key_near;
use crate::row_guesses::RowGuesses;

/// A prefix of a list that is a syllable.
#[derive(Clone, Copy)]
pub struct FoundSyllable {
    pub length: usize,
    pub kind: u8,
}

/// The longest nonempty prefix whose categories lead from state 0 to an accepting state, by guesses where the rows of the
/// machine stand.
pub(crate) fn longest_syllable(
    machine: &SyllableMachine,
    guesses: &RowGuesses,
    categories: &[u8],
) -> Option<FoundSyllable>
    requires { IsRising (machine_in machine.now) }
    ensures found { result ≡ longest_syllable (machine_in machine.now) categories.now }
    ensures within { IfSome result (λ f. (0 < f.length) × (f.length ≤ length categories.now)) }
{
    walk(machine, guesses, categories)
}

/// Where a step of the walk ends: after the category at an index; and where the step leads back to its state, after all that
/// follow and are alike, since each of them does.
fn step_end(categories: &[u8], i: usize, stays: bool) -> usize
    requires { i < length categories.now }
    ensures on { i < result }
    ensures within { result ≤ length categories.now }
    ensures one { stays ≡ false → result ≡ i + 1 }
    ensures alike { All (λ c. c ≡ get_or categories.now i 0) (take (result - i) (drop i categories.now)) }
{
    if !stays {
        return i + 1;
    }
    let category = categories[i];
    let alike = categories[i..]
        .iter()
        .take_while(|c| **c == category)
        .count();
    i + alike
}

fn walk(machine: &SyllableMachine, guesses: &RowGuesses, categories: &[u8]) -> Option<FoundSyllable>
    requires { IsRising (machine_in machine.now) }
    ensures { result ≡ longest_syllable (machine_in machine.now) categories.now }
{
    let mut found = None;
    let mut state = 0;
    let mut i = 0;
    while i < categories.len() {
        let Some(next) = next_state(machine, guesses, state, categories[i]) else {
            return found;
        };
        i = step_end(categories, i, next == state);
        state = next;
        found = longer(kind_of(machine, guesses, state), i, found);
    }
    found
}

fn next_state(
    machine: &SyllableMachine,
    guesses: &RowGuesses,
    state: u32,
    category: u8,
) -> Option<u32>
    requires { IsRising (machine_in machine.now) }
    ensures { result ≡ next_state (machine_in machine.now) state category }
{
    let guess = guesses.step_index(state, category);
    let step = find_by_key_near(&machine.next, state, category as u32, guess)?;
    Some(step.next)
}

fn kind_of(machine: &SyllableMachine, guesses: &RowGuesses, state: u32) -> Option<u8>
    requires { IsRising (machine_in machine.now) }
    ensures { result ≡ accepted_kind (machine_in machine.now) state }
{
    let guess = guesses.accept_index(state);
    let accept = find_by_key_near(&machine.accept, 0, state, guess)?;
    Some(accept.kind)
}

fn longer(kind: Option<u8>, length: usize, found: Option<FoundSyllable>) -> Option<FoundSyllable>
    ensures { result ≡ found_or kind length found }
{
    match kind {
        Some(kind) => Some(FoundSyllable { length, kind }),
        None => found,
    }
}
